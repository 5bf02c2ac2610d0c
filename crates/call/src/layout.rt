// The 32 bytes of a record, read and written.
ghost use Rattle.std.specs.Prelude.{◌≡◌, ◌+◌, ◌≤◌, length};
ghost use Rattle.le.specs.Le.{Stores};
ghost use Rattle.call.specs.Layout.{record_size, call_at, reserved_at, call_bytes, key_bytes, time_bytes, term_bytes};

use crate::Call;
use le::{i32_at, put_i32, put_u8, put_u16, put_u32, u8_at, u16_at, u32_at};

// The record in the 32 bytes from `at` on.
pub fn call_at(s: &[u8], at: usize) -> Call
    requires { at + record_size ≤ length s.now }
    ensures { result ≡ call_at s.now at }
{
    let participant = u16_at(s, at);
    let service = u8_at(s, at + 2);
    let state = u8_at(s, at + 3);
    let number = u32_at(s, at + 4);
    let revision = u32_at(s, at + 8);
    let start = u16_at(s, at + 12);
    let minutes = u16_at(s, at + 14);
    let a = i32_at(s, at + 16);
    let b = u32_at(s, at + 20);
    let c = u32_at(s, at + 24);
    Call {
        participant,
        service,
        state,
        number,
        revision,
        start,
        length: minutes,
        a,
        b,
        c,
    }
}

// A field alone, of the record in the 32 bytes from `at` on: for what compares records and needs no more of them.
pub fn participant_at(s: &[u8], at: usize) -> u16
    requires { at + record_size ≤ length s.now }
    ensures { result ≡ (call_at s.now at).participant }
{
    u16_at(s, at)
}

pub fn state_at(s: &[u8], at: usize) -> u8
    requires { at + record_size ≤ length s.now }
    ensures { result ≡ (call_at s.now at).state }
{
    u8_at(s, at + 3)
}

pub fn call_number_at(s: &[u8], at: usize) -> u32
    requires { at + record_size ≤ length s.now }
    ensures { result ≡ (call_at s.now at).number }
{
    u32_at(s, at + 4)
}

pub fn revision_at(s: &[u8], at: usize) -> u32
    requires { at + record_size ≤ length s.now }
    ensures { result ≡ (call_at s.now at).revision }
{
    u32_at(s, at + 8)
}

fn put_key(s: &mut [u8], at: usize, x: Call)
    requires { at + 8 ≤ length s.old }
    ensures { Stores s.old at (key_bytes x) s.new }
{
    put_u16(s, at, x.participant);
    put_u8(s, at + 2, x.service);
    put_u8(s, at + 3, x.state);
    put_u32(s, at + 4, x.number);
}

fn put_time(s: &mut [u8], at: usize, x: Call)
    requires { at + 8 ≤ length s.old }
    ensures { Stores s.old at (time_bytes x) s.new }
{
    put_u32(s, at, x.revision);
    put_u16(s, at + 4, x.start);
    put_u16(s, at + 6, x.length);
}

fn put_terms(s: &mut [u8], at: usize, x: Call)
    requires { at + 16 ≤ length s.old }
    ensures { Stores s.old at (term_bytes x) s.new }
{
    put_i32(s, at, x.a);
    put_u32(s, at + 4, x.b);
    put_u32(s, at + 8, x.c);
    put_u32(s, at + 12, 0);
}

// The record's 32 bytes, from `at` on.
pub fn put_call(s: &mut [u8], at: usize, x: Call)
    requires { at + record_size ≤ length s.old }
    ensures { Stores s.old at (call_bytes x) s.new }
{
    put_key(s, at, x);
    put_time(s, at + 8, x);
    put_terms(s, at + 16, x);
}

// The last four bytes of the record from `at` on.
pub fn reserved_at(s: &[u8], at: usize) -> u32
    requires { at + record_size ≤ length s.now }
    ensures { result ≡ reserved_at s.now at }
{
    u32_at(s, at + 28)
}
