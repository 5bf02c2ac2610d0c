// The stop that came back: the plant entered and revised it, head office withdrew it, and a spare terminal, loaded early, still has
// the first entry. The three books are joined in every order and grouping, and each time the same book is printed, the stop withdrawn.
#![tactic(auto)]

ghost use Rattle.std.specs.Prelude.{◌<◌};

use book::write::write_one;
use book::{Header, call_of, header_of};
use call::service::START_STOP;
use call::{CONTESTED, Call, LIVE, WITHDRAWN};
use join::Joined;
use say::Terminal;
use std::rt::HostRuntime;

fn march() -> Header {
    Header {
        area: 12,
        year: 2026,
        month: 3,
    }
}

// A start-stop call of member 3, live, at a revision.
fn stop(revision: u32, minutes: u16) -> Call {
    Call {
        participant: 3,
        service: START_STOP,
        state: LIVE,
        number: 9,
        revision,
        start: 600,
        length: minutes,
        a: 0,
        b: 0,
        c: 0,
    }
}

fn digit(n: u8) -> u8
    requires { n < 16 }
{
    if n < 10 { b'0' + n } else { b'a' + (n - 10) }
}

fn print_byte(terminal: &Terminal, b: u8) {
    let pair = [digit(b / 16), digit(b % 16)];
    say::text(terminal, &pair);
}

fn print_bytes(terminal: &Terminal, s: &[u8]) {
    for &b in s {
        print_byte(terminal, b);
    }
}

fn print_state(terminal: &Terminal, state: u8) {
    match state {
        LIVE => say::text(terminal, b" live\n"),
        CONTESTED => say::text(terminal, b" contested\n"),
        WITHDRAWN => say::text(terminal, b" withdrawn\n"),
        _ => say::text(terminal, b" unknown\n"),
    }
}

// A sound book's bytes, and the state of its first record.
fn show_book(terminal: &Terminal, book: &[u8]) {
    let o = header_of(book);
    if o.number != 0 {
        return;
    }
    print_bytes(terminal, book);
    if 0 < o.calls {
        print_state(terminal, call_of(book, 0).state);
    }
}

// The turns that a join took and the book that it gave; or the refusal's number.
fn show(terminal: &Terminal, w: Joined, out: &[u8]) {
    let n = w.length;
    if w.number != 0 {
        say::text(terminal, b"refused ");
        say::number(terminal, w.number as u64);
        say::text(terminal, b"\n");
        return;
    }
    say::number(terminal, w.turns as u64);
    say::text(terminal, b" turns ");
    if n <= out.len() {
        show_book(terminal, &out[0..n]);
    }
}

// The first two joined, then the third.
fn left(terminal: &Terminal, a: &[u8], b: &[u8], c: &[u8]) {
    let mut two = [0u8; 48];
    let mut all = [0u8; 48];
    join::join(a, b, &mut two);
    let w = join::join(&two, c, &mut all);
    show(terminal, w, &all);
}

// The last two joined, and the first with what they give.
fn right(terminal: &Terminal, a: &[u8], b: &[u8], c: &[u8]) {
    let mut two = [0u8; 48];
    let mut all = [0u8; 48];
    join::join(b, c, &mut two);
    let w = join::join(a, &two, &mut all);
    show(terminal, w, &all);
}

fn both(terminal: &Terminal, a: &[u8], b: &[u8], c: &[u8]) {
    left(terminal, a, b, c);
    right(terminal, a, b, c);
}

fn every(terminal: &Terminal, a: &[u8], b: &[u8], c: &[u8]) {
    both(terminal, a, b, c);
    both(terminal, a, c, b);
    both(terminal, b, a, c);
    both(terminal, b, c, a);
    both(terminal, c, a, b);
    both(terminal, c, b, a);
}

fn main(rt: HostRuntime) {
    let terminal = Terminal::new(rt);
    let mut office = [0u8; 48];
    let mut plant = [0u8; 48];
    let mut spare = [0u8; 48];
    write_one(march(), stop(2, 300).withdrawn(), &mut office);
    write_one(march(), stop(2, 300), &mut plant);
    write_one(march(), stop(1, 240), &mut spare);
    every(&terminal, &office, &plant, &spare);
}
