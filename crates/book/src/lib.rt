// The call book: sixteen header bytes, then 32 for each record. Any bytes whatever are a sound book or are refused by number and place.
#![tactic(auto)]

ghost use Rattle.std.specs.Prelude.{◌≡◌, ◌<◌, ◌≤◌, length};
ghost use Rattle.book.specs.Book.{most_records, size_of, place_of, HasHeader, HasRecord};
ghost use Rattle.book.specs.Book.{version_at, header_at, count_at, record_at};
ghost use Rattle.book.specs.Check.{refused, accepted, is_marked, is_known, is_versioned, header_is_sound, is_headed, is_record, next_at, turn_at, check_records, check, turned_away, header_of};
ghost use Rattle.book.specs.Inner.{word_limit};

use call::layout::{call_at, reserved_at};
use call::{Call, RECORD_SIZE};
use le::{u8_at, u16_at, u32_at};
use units::calendar::{MONTHS_PER_YEAR, minutes_of};

pub mod write;

// The bytes of a header; the versions, of which the writers write the first; the most records that a book of the first may have, and the most that any may.
pub const HEADER_SIZE: usize = 16;

pub const FIRST_VERSION: u16 = 1;

pub const SECOND_VERSION: u16 = 2;

const MOST_OF_FIRST: usize = 512;

pub const MOST_RECORDS: usize = 2000;

// The ranges of area and year.
pub const MOST_AREA: u8 = 99;

pub const FIRST_YEAR: u16 = 2024;

pub const LAST_YEAR: u16 = 2099;

// Whose month a book is of.
#[derive(Clone, Copy, PartialEq, Eq)]
pub struct Header {
    pub area: u8,
    pub year: u16,
    pub month: u8,
}

// A refusal's number and place, or zeros where a book is accepted.
#[derive(Clone, Copy)]
pub struct Verdict {
    pub number: u32,
    pub place: usize,
}

pub fn refused(number: u32, place: usize) -> Verdict
    ensures { result ≡ refused number place }
{
    Verdict { number, place }
}

// The most records that a book of a version may have.
pub fn most_records(version: u16) -> usize
    ensures { result ≡ most_records version }
{
    if version == FIRST_VERSION {
        return MOST_OF_FIRST;
    }
    MOST_RECORDS
}

// How long a book of so many records is.
pub fn size_of(n: usize) -> usize
    requires { size_of n < word_limit }
    ensures { result ≡ size_of n }
{
    HEADER_SIZE + RECORD_SIZE * n
}

// Where record i lies.
// Stays two functions: a book's length and a record's place are two words of docs/FORMAT.md that happen to have one formula.
pub fn place_of(i: usize) -> usize
    requires { place_of i < word_limit }
    ensures { result ≡ place_of i }
{
    HEADER_SIZE + RECORD_SIZE * i
}

pub fn version_at(b: &[u8]) -> u16
    requires { HasHeader b.now }
    ensures { result ≡ version_at b.now }
{
    u16_at(b, 4)
}

// What the header says, of at least sixteen bytes.
pub fn header_at(b: &[u8]) -> Header
    requires { HasHeader b.now }
    ensures { result ≡ header_at b.now }
{
    let area = u8_at(b, 3);
    let year = u16_at(b, 6);
    let month = u8_at(b, 8);
    Header { area, year, month }
}

pub fn count_at(b: &[u8]) -> usize
    requires { HasHeader b.now }
    ensures { (result ≡ count_at b.now) × (result < 65536) }
{
    u16_at(b, 10) as usize
}

// Record i, where the bytes have it.
pub fn record_at(b: &[u8], i: usize) -> Call
    requires { HasRecord b.now i }
    ensures { result ≡ record_at b.now i }
{
    call_at(b, place_of(i))
}

fn is_marked(b: &[u8]) -> bool
    requires { HasHeader b.now }
    ensures { result ≡ is_marked b.now }
{
    (b[0] == b'N') & (b[1] == b'W') & (b[2] == b'B')
}

// Whether a version is one that is read.
fn is_known(version: u16) -> bool
    ensures { result ≡ is_known version }
{
    (version == FIRST_VERSION) | (version == SECOND_VERSION)
}

fn is_versioned(b: &[u8]) -> bool
    requires { HasHeader b.now }
    ensures { result ≡ is_versioned b.now }
{
    is_known(version_at(b))
}

impl Header {
    pub fn is_sound(self) -> bool
        ensures { result ≡ header_is_sound self }
    {
        (1 <= self.area)
            & (self.area <= MOST_AREA)
            & (FIRST_YEAR <= self.year)
            & (self.year <= LAST_YEAR)
            & (1 <= self.month)
            & (self.month <= MONTHS_PER_YEAR)
    }
}

fn is_headed(b: &[u8]) -> bool
    requires { HasHeader b.now }
    ensures { result ≡ is_headed b.now }
{
    let fields = header_at(b).is_sound();
    let zero = u8_at(b, 9);
    let n = count_at(b);
    let most = most_records(version_at(b));
    let zeros = u32_at(b, 12);
    fields & (zero == 0) & (n <= most) & (zeros == 0)
}

fn is_record(b: &[u8], i: usize, minutes: u32) -> bool
    requires { HasRecord b.now i }
    ensures { result ≡ is_record minutes b.now i }
{
    if reserved_at(b, place_of(i)) != 0 {
        return false;
    }
    let x = record_at(b, i);
    x.is_sound(minutes)
}

// The lowest key that the record after record i may have.
fn next_at(b: &[u8], i: usize) -> u64
    requires { HasRecord b.now i }
    ensures { result ≡ next_at b.now i }
{
    let x = record_at(b, i);
    x.key() + 1
}

// What a record's turn gives: 5, 6 or 0, and the lowest key that the next record may have.
#[derive(Clone, Copy)]
pub struct RecordTurn {
    pub number: u32,
    pub low: u64,
}

// The key is read once the record is known to be sound, so that the tests before it do not have to keep it.
fn turn_at(b: &[u8], i: usize, minutes: u32, low: u64) -> RecordTurn
    requires { HasRecord b.now i }
    ensures { result ≡ turn_at minutes b.now low i }
{
    if !is_record(b, i, minutes) {
        let after = next_at(b, i);
        return RecordTurn {
            number: 5,
            low: after,
        };
    }
    let next = next_at(b, i);
    if next <= low {
        return RecordTurn {
            number: 6,
            low: next,
        };
    }
    RecordTurn {
        number: 0,
        low: next,
    }
}

fn check_records(b: &[u8], n: usize, minutes: u32) -> Verdict
    requires { size_of n ≤ length b.now }
    ensures { result ≡ check_records minutes b.now 0 0 n }
{
    let mut low: u64 = 0;
    for i in 0..n {
        let t = turn_at(b, i, minutes, low);
        if t.number != 0 {
            return refused(t.number, i);
        }
        low = t.low;
    }
    refused(0, 0)
}

// The whole check, in the paper's order.
pub fn check(b: &[u8]) -> Verdict
    ensures { result ≡ check b.now }
{
    if b.len() < HEADER_SIZE {
        return refused(1, 0);
    }
    if !is_marked(b) {
        return refused(2, 0);
    }
    if !is_versioned(b) {
        return refused(3, 0);
    }
    if !is_headed(b) {
        return refused(4, 0);
    }
    let n = count_at(b);
    if b.len() != size_of(n) {
        return refused(1, 0);
    }
    let h = header_at(b);
    check_records(b, n, minutes_of(h.year, h.month))
}

// What any bytes are found to be: a refusal's number and place, otherwise zeros; or a sound book, its version, whose month it is of and how many calls it has.
#[derive(Clone, Copy)]
pub struct Opened {
    pub number: u32,
    pub place: usize,
    pub version: u16,
    pub header: Header,
    pub calls: usize,
}

fn turned_away(v: Verdict) -> Opened
    ensures { result ≡ turned_away v }
{
    let header = Header {
        area: 0,
        year: 0,
        month: 0,
    };
    Opened {
        number: v.number,
        place: v.place,
        version: 0,
        header,
        calls: 0,
    }
}

// The header of a book, which is checked whole first.
pub fn header_of(b: &[u8]) -> Opened
    ensures value { result ≡ header_of b.now }
    ensures b_value { result.number ≡ 0 → check b.now ≡ accepted }
    ensures calls_bound { result.calls ≤ count_at b.now }
{
    let v = check(b);
    if v.number != 0 {
        return turned_away(v);
    }
    let version = version_at(b);
    let header = header_at(b);
    let calls = count_at(b);
    Opened {
        number: 0,
        place: 0,
        version,
        header,
        calls,
    }
}

// Call i of a book that was found sound: who has not had it checked cannot ask.
pub fn call_of(b: &[u8], i: usize) -> Call
    requires b_value { check b.now ≡ accepted }
    requires i_bound { i < count_at b.now }
    ensures { result ≡ record_at b.now i }
{
    record_at(b, i)
}
