// What the marks of a form show, from a place of a buffer on. Each answers the place behind what it put.
ghost use Rattle.std.specs.Prelude.{◌+◌, ◌≤◌, length};
ghost use Rattle.render.specs.Inner.{Puts};
ghost use Rattle.form.specs.Form.{time_text, most_time, shown, word_shown, most_shown, most_word_shown};

use clock::{put_date, put_length};
use names::{put_kind, put_month, put_service};
use render::yuan::{last_digit, put_points, put_signed_yuan, put_yuan};
use render::{put_decimal, put_signed, put_word};

// A minute of the day, up to 24:00.
fn put_time(out: &mut [u8], at: usize, minute: u64) -> usize
    requires { at + most_time ≤ length out.old }
    ensures { Puts most_time out.old at (time_text minute) out.new result }
{
    let hours = minute / 60;
    let rest = minute % 60;
    let a = last_digit(hours / 10);
    let b = last_digit(hours);
    let c = last_digit(rest / 10);
    let d = last_digit(rest);
    put_word(out, at, &[a, b, b':', c, d])
}

#[tactic(auto, unfolding(crate::specs::Form::word_shown, crate::specs::Form::most_word_shown))]
fn put_word_shown(out: &mut [u8], at: usize, c: u8, v: u64) -> usize
    requires { at + most_word_shown c ≤ length out.old }
    ensures { Puts (most_word_shown c) out.old at (word_shown c v) out.new result }
{
    match c {
        b'v' => put_service(out, at, (v % 256) as u8),
        b'k' => put_kind(out, at, (v % 256) as u8),
        b'm' => put_month(out, at, (v % 256) as u8),
        b'd' => put_date(out, at, (v % 65_536) as u16),
        b't' => put_time(out, at, v % 65_536),
        b'l' => put_length(out, at, (v % 65_536) as u16),
        _ => put_word(out, at, &[c]),
    }
}

#[tactic(auto, unfolding(crate::specs::Form::shown, crate::specs::Form::most_shown))]
pub fn put_shown(out: &mut [u8], at: usize, c: u8, v: u64, one: &[u8], other: &[u8]) -> usize
    requires { at + most_shown (length one.now) (length other.now) c ≤ length out.old }
    ensures { Puts (most_shown (length one.now) (length other.now) c) out.old at (shown one.now other.now c v) out.new result }
{
    match c {
        b'1' => put_word(out, at, one),
        b'2' => put_word(out, at, other),
        b'n' => put_decimal(out, at, v),
        b'i' => put_signed(out, at, v.cast_signed()),
        b'y' => put_yuan(out, at, v),
        b's' => put_signed_yuan(out, at, v.cast_signed()),
        b'p' => put_points(out, at, v),
        _ => put_word_shown(out, at, c, v),
    }
}
