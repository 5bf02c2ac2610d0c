// The program's arguments: words, files, numbers, dates. What gives None has said in one line why, but for `argument` and `number_at`, whose callers say it.
ghost use Rattle.std.specs.Prelude.{◌≤◌, length, IfSome};

use crate::print;
use clock::{length_of, start_of};
use grid::alone::{integer, number};
use names::{is_same, kind_of, service_of};
pub use node::first;
use say::Terminal;

// No month has more days.
pub const MOST_DAYS: u32 = 31;

// Argument i, in the buffer's first bytes: how long it is. One that is missing or too long is no argument, and nothing is said.
pub fn argument(terminal: &Terminal, i: usize, buf: &mut [u8]) -> Option<usize>
    ensures { IfSome result (λ n. n ≤ length buf.new) }
{
    say::argument(terminal, i, buf)
}

// What is made of argument i; where it is missing or too long, of a text of no bytes.
pub fn with_word<R, F: FnOnce(&[u8]) -> R>(terminal: &Terminal, i: usize, make: F) -> R
    requires { F.IsAlwaysCallable make }
{
    let mut buf = io::buffer();
    let n = say::word(terminal, i, &mut buf);
    make(&buf[..n])
}

// A file's name, as argument i has it.
pub fn path(terminal: &Terminal, i: usize, buf: &mut [u8]) -> Option<usize> {
    match argument(terminal, i, buf) {
        None => print::bad_argument(terminal, i, b"too long for a file's name"),
        Some(0) => print::bad_argument(terminal, i, b"no name"),
        Some(n) => return Some(n),
    }
    None
}

// Whether two texts are the same.
pub fn is_word(word: &[u8], name: &[u8]) -> bool {
    is_same(word, name)
}

// Whether argument i is a word.
pub fn is_word_at(terminal: &Terminal, i: usize, word: &[u8]) -> bool {
    with_word(terminal, i, |given| is_word(given, word))
}

// Whether argument i is `-`: no file.
pub fn is_none(terminal: &Terminal, i: usize) -> bool {
    is_word_at(terminal, i, b"-")
}

// What argument i says as a number.
pub fn number_at(terminal: &Terminal, i: usize) -> Option<u64> {
    with_word(terminal, i, number)
}

// What argument i says; where it says nothing that is taken, one line has told why.
fn or_told<T>(terminal: &Terminal, i: usize, said: Option<T>, why: &[u8]) -> Option<T> {
    if said.is_none() {
        print::bad_argument(terminal, i, why);
    }
    said
}

// Argument i, a service by its word or by a number; a kind by its word or by a number.
pub fn service_at(terminal: &Terminal, i: usize) -> Option<u8> {
    or_told(
        terminal,
        i,
        with_word(terminal, i, service_of).or_else(|| fitting_at(terminal, i)),
        b"no service: a number, or a word as reserve (desk help has them)",
    )
}

pub fn kind_at(terminal: &Terminal, i: usize) -> Option<u8> {
    or_told(
        terminal,
        i,
        with_word(terminal, i, kind_of).or_else(|| fitting_at(terminal, i)),
        b"no kind: a number, or a word as hydro (desk help has them)",
    )
}

// Whether argument i is a start in a month of so many days.
pub fn is_start(terminal: &Terminal, i: usize, days: u32) -> bool {
    with_word(terminal, i, |word| start_of(days, word)).is_some()
}

// Whether a text is a date by its day, but no month has that day.
fn is_no_day(text: &[u8]) -> bool {
    let Some(mark) = text.iter().position(|b| *b == b'/') else {
        return false;
    };
    number(&text[..mark]).is_some_and(|day| (day == 0) | (u64::from(MOST_DAYS) < day))
}

// Argument i, a start, in a month as long as any.
pub fn start_at(terminal: &Terminal, i: usize) -> Option<u16> {
    let why: &[u8] = if with_word(terminal, i, is_no_day) {
        b"no such day: days are counted from 1, and no month has more than 31"
    } else {
        b"no start: minutes up to 65535, or day/hour:minute as 16/00:00"
    };
    let start = with_word(terminal, i, |word| start_of(MOST_DAYS, word));
    or_told(terminal, i, start, why)
}

// Argument i, a length.
pub fn length_at(terminal: &Terminal, i: usize) -> Option<u16> {
    or_told(
        terminal,
        i,
        with_word(terminal, i, length_of),
        b"no length: minutes up to 65535, or hours and minutes as 45h, 90m, 1h30m",
    )
}

// Argument i, a number that the type holds. Where there is none nothing is said.
fn fitting_at<T: TryFrom<u64>>(terminal: &Terminal, i: usize) -> Option<T>
where
    T::Error: Drop,
{
    T::try_from(number_at(terminal, i)?).ok()
}

// The same of a type that holds numbers up to so much, which is told where there is none.
fn unsigned_at<T: TryFrom<u64>>(terminal: &Terminal, i: usize, most: u64) -> Option<T>
where
    T::Error: Drop,
{
    let number = fitting_at(terminal, i);
    if number.is_none() {
        print::no_number(terminal, i, most);
    }
    number
}

// Argument i, a number that a byte holds, or two, or four.
pub fn byte_at(terminal: &Terminal, i: usize) -> Option<u8> {
    unsigned_at(terminal, i, u64::from(u8::MAX))
}

pub fn short_at(terminal: &Terminal, i: usize) -> Option<u16> {
    unsigned_at(terminal, i, u64::from(u16::MAX))
}

pub fn long_at(terminal: &Terminal, i: usize) -> Option<u32> {
    unsigned_at(terminal, i, u64::from(u32::MAX))
}

// Argument i, a number with or without a sign.
pub fn integer_at(terminal: &Terminal, i: usize) -> Option<i32> {
    or_told(
        terminal,
        i,
        with_word(terminal, i, integer),
        b"no number between -2147483647 and 2147483647",
    )
}
