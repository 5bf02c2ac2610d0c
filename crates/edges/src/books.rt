// The table of the book's rules: each kind of case, what the book's crates do held against what the case's line says.
ghost use Rattle.std.specs.Prelude.{◌≤◌};

use crate::numbers::Numbers;
use crate::tally::Tally;
use book::write::{Written, put_header, write_none, write_one};
use book::{FIRST_VERSION, Header, Opened, Verdict, call_of, header_of, place_of, size_of};
use call::layout::put_call;
use call::service::START_STOP;
use call::{Call, LIVE, RECORD_SIZE};
use say::Terminal;

fn is(v: Verdict, number: u64, place: u64) -> bool {
    (v.number as u64 == number) & (v.place as u64 == place)
}

// Whether the check says of the first n bytes what the line does, its number and place from one of the line's numbers on.
// Stays by hand: n may be more than there are bytes, which counts as wrong.
fn first_is(b: &[u8], n: usize, numbers: Numbers, from: usize) -> bool
    requires { from ≤ 16 }
{
    match b.get(..n) {
        Some(front) => is(
            book::check(front),
            numbers.value(from),
            numbers.value(from + 1),
        ),
        None => false,
    }
}

// What a writer says: a refusal's number and no bytes, or 0 and so many.
fn wrote(w: Written, number: u64, length: usize) -> bool {
    (w.number as u64 == number) & (w.place == 0) & (w.length == length)
}

fn no_header() -> Header {
    Header {
        area: 0,
        year: 0,
        month: 0,
    }
}

// What is told of a book: a refusal's number, otherwise zeros; or its header and how many calls it has.
fn is_told(o: Opened, number: u64, h: Header, calls: usize) -> bool {
    if number == 0 {
        return (o.number == 0) & (o.place == 0) & (o.header == h) & (o.calls == calls);
    }
    (o.number as u64 == number) & (o.place == 0) & (o.header == no_header()) & (o.calls == 0)
}

fn none_written(h: Header, number: u64) -> bool {
    let mut out = [7u8; 16];
    let w = write_none(h, &mut out);
    if number == 0 {
        return wrote(w, 0, 16) & is_told(header_of(&out), 0, h, 0);
    }
    wrote(w, number, 0) & (out[0] == 7) & (out[15] == 7)
}

fn none_checked(h: Header, number: u64) -> bool {
    let mut raw = [0u8; 16];
    put_header(&mut raw, FIRST_VERSION, h, 0);
    is(book::check(&raw), number, 0) & is_told(header_of(&raw), number, h, 0)
}

// 1 area year month | number: a book of none by its writer, and the same header in bytes by the check.
fn header(numbers: Numbers) -> bool {
    let h = Header {
        area: numbers.byte(1),
        year: numbers.half(2),
        month: numbers.byte(3),
    };
    let number = numbers.value(4);
    none_written(h, number) & none_checked(h, number)
}

// The call whose ten numbers stand from one of the line's numbers on: participant service state number revision start length a b c.
pub fn call_from(numbers: Numbers, from: usize) -> Call
    requires { from ≤ 16 }
{
    Call {
        participant: numbers.half(from),
        service: numbers.byte(from + 1),
        state: numbers.byte(from + 2),
        number: numbers.word(from + 3),
        revision: numbers.word(from + 4),
        start: numbers.half(from + 5),
        length: numbers.half(from + 6),
        a: le::signed32(numbers.word(from + 7)),
        b: numbers.word(from + 8),
        c: numbers.word(from + 9),
    }
}

// The first byte of a book of one and its last, and the byte behind it, which no writer touches.
fn ends(out: [u8; 49], first: u8, last: u8) -> bool {
    (out[0] == first) & (out[47] == last) & (out[48] == 7)
}

fn one_written(h: Header, x: Call, number: u64) -> bool {
    let mut out = [7u8; 49];
    let w = write_one(h, x, &mut out);
    if number == 0 {
        return wrote(w, 0, 48) & ends(out, b'N', 0);
    }
    wrote(w, number, 0) & ends(out, 7, 7)
}

// Whether the first call of a book is this one; a refused book has none that could be asked for.
fn first_call_is(b: &[u8], x: Call) -> bool {
    let o = header_of(b);
    if o.number != 0 {
        return true;
    }
    if o.calls == 0 {
        return false;
    }
    call_of(b, 0) == x
}

fn one_checked(h: Header, x: Call, number: u64) -> bool {
    let mut raw = [0u8; 48];
    put_header(&mut raw, FIRST_VERSION, h, 1);
    put_call(&mut raw, 16, x);
    let told = is_told(header_of(&raw), number, h, 1);
    is(book::check(&raw), number, 0) & told & first_call_is(&raw, x)
}

// 2 year month, a record | number: a book of one by its writer, and the same record in bytes by the check.
fn record(numbers: Numbers) -> bool {
    let h = Header {
        area: 1,
        year: numbers.half(1),
        month: numbers.byte(2),
    };
    let x = call_from(numbers, 3);
    let number = numbers.value(13);
    one_written(h, x, number) & one_checked(h, x, number)
}

// Area 1, January 2026.
pub fn january() -> Header {
    Header {
        area: 1,
        year: 2026,
        month: 1,
    }
}

// A start-stop of an hour from minute 60 on, revision 1, by its key.
fn stop(participant: u16, number: u32) -> Call {
    Call {
        participant,
        service: START_STOP,
        state: LIVE,
        number,
        revision: 1,
        start: 60,
        length: 60,
        a: 0,
        b: 0,
        c: 0,
    }
}

fn put_stop(b: &mut [u8], i: u16) {
    let at = place_of(i as usize);
    if at + RECORD_SIZE <= b.len() {
        put_call(b, at, stop(9, i as u32 + 1));
    }
}

// Calls 1, 2, 3 and on of member 9.
fn fill(b: &mut [u8], n: u16) {
    for i in 0..n {
        put_stop(b, i);
    }
}

// A book of n records, three at the most, with zeros behind it.
fn stops(n: u16) -> [u8; 128] {
    let mut b = [0u8; 128];
    put_header(&mut b, FIRST_VERSION, january(), n);
    fill(&mut b, n);
    b
}

// The sample, a book of three records in 112 bytes, with a byte replaced where the line says, from one of its numbers on.
fn replaced(mut b: [u8; 128], numbers: Numbers, from: usize) -> [u8; 128]
    requires { from ≤ 16 }
{
    let at = numbers.half(from) as usize;
    if at < 112 {
        b[at] = numbers.byte(from + 1);
    }
    b
}

fn spoilt(numbers: Numbers) -> [u8; 128] {
    let one = replaced(stops(3), numbers, 1);
    let two = replaced(one, numbers, 3);
    replaced(two, numbers, 5)
}

// 3 at byte, at byte, at byte | number place: the sample with up to three bytes replaced; at 112 and above nothing is.
fn byte(numbers: Numbers) -> bool {
    first_is(&spoilt(numbers), 112, numbers, 7)
}

// 4 length | number: the sample cut short, or with zeros behind it.
fn length(numbers: Numbers) -> bool {
    first_is(&stops(3), usize::from(numbers.half(1)), numbers, 2)
}

// 5 participant number participant number | number place: a book of two records with these keys.
fn keys(numbers: Numbers) -> bool {
    let mut b = stops(2);
    put_call(&mut b, 16, stop(numbers.half(1), numbers.word(2)));
    put_call(&mut b, 48, stop(numbers.half(3), numbers.word(4)));
    first_is(&b, 80, numbers, 5)
}

// 6 year month | days
fn month(numbers: Numbers) -> bool {
    let year = numbers.half(1);
    let m = numbers.byte(2);
    let days = units::calendar::days_of(year, m);
    let minutes = units::calendar::minutes_of(year, m);
    let quarters = units::calendar::quarters_of(year, m);
    let told = numbers.word(3);
    (days == told) & (minutes == told % 32 * 1440) & (quarters == told % 32 * 96)
}

fn write(records: u64, out: &mut [u8]) -> Written {
    if records == 0 {
        return write_none(january(), out);
    }
    write_one(january(), stop(9, 1), out)
}

// 7 room records | number: a book of none or one into so many bytes, 63 at the most.
fn room(numbers: Numbers) -> bool {
    let mut out = [7u8; 64];
    let n = numbers.size(1, 63);
    let w = write(numbers.value(2), &mut out[0..n]);
    (w.number as u64 == numbers.value(3)) & (out[63] == 7)
}

// 8 version count | number: a book of a version and so many records, 2,001 at the most.
fn many(numbers: Numbers) -> bool {
    let n = numbers.half(2);
    let mut b = [0u8; 64048];
    put_header(&mut b, numbers.half(1), january(), n);
    fill(&mut b, n);
    first_is(&b, size_of(n as usize), numbers, 3)
}

// A line with a number too few or too many counts as wrong, and so does a kind that no case has.
fn is_right(numbers: Numbers) -> bool {
    let (count, case): (usize, fn(Numbers) -> bool) = match numbers.value(0) {
        1 => (5, header),
        2 => (14, record),
        3 => (9, byte),
        4 => (3, length),
        5 => (7, keys),
        6 => (4, month),
        7 => (4, room),
        8 => (4, many),
        _ => return false,
    };
    (numbers.count == count) && case(numbers)
}

pub fn with(terminal: &Terminal, tally: Tally, line: &[u8]) -> Tally {
    let numbers = Numbers::read(line);
    if numbers.count == 0 {
        return tally.past();
    }
    tally.with(terminal, is_right(numbers))
}
