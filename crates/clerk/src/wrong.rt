// What is refused, in words: each is a line before the last one.
use crate::print;
use book::{
    FIRST_YEAR, HEADER_SIZE, Header, LAST_YEAR, MOST_AREA, count_at, header_at, most_records,
    version_at,
};
use call::{Call, MOST_PARTICIPANT};
use field::{bad_field, bad_record};
use pay::kind::{COAL, NEW_STORAGE};
use pay::{MOST_RATED, Member};
use remark::bad::field_text;
use say::Terminal;
use units::calendar::minutes_of;

// A call that the arguments say, in the month of a header.
pub fn tell_call(terminal: &Terminal, h: Header, x: Call) {
    let Some(f) = bad_field(minutes_of(h.year, h.month), x, 0) else {
        return;
    };
    let mut why = io::buffer();
    let n = field_text(Some(f), x, &mut why);
    print::note(terminal, b"call", &why[..n]);
}

// Whether a number is outside its limits; where it is, that is told by its name.
fn is_outside(terminal: &Terminal, what: &[u8], name: &[u8], n: u64, low: u64, high: u64) -> bool {
    if (low..=high).contains(&n) {
        return false;
    }
    print::outside(terminal, what, name, n, low, high);
    true
}

// The first of area, year and month that is outside its limits.
pub fn tell_header(terminal: &Terminal, what: &[u8], h: Header) {
    let (area, year, month) = (u64::from(h.area), u64::from(h.year), u64::from(h.month));
    if is_outside(terminal, what, b"AREA", area, 1, u64::from(MOST_AREA)) {
        return;
    }
    let (first, last) = (u64::from(FIRST_YEAR), u64::from(LAST_YEAR));
    if is_outside(terminal, what, b"YEAR", year, first, last) {
        return;
    }
    print::outside(terminal, what, b"MONTH", month, 1, 12);
}

// That a number is no member's.
pub fn tell_number(terminal: &Terminal, number: u16) {
    let most = u64::from(MOST_PARTICIPANT);
    print::outside(terminal, b"member", b"MEMBER", u64::from(number), 1, most);
}

// The first of a member's number, kind and rating that is outside its limits.
pub fn tell_member(terminal: &Terminal, m: Member) {
    if !(1..=MOST_PARTICIPANT).contains(&m.number) {
        tell_number(terminal, m.number);
        return;
    }
    let (least, most) = (u64::from(COAL), u64::from(NEW_STORAGE));
    if is_outside(terminal, b"member", b"KIND", u64::from(m.kind), least, most) {
        return;
    }
    let (rated, most) = (u64::from(m.rated.0), u64::from(MOST_RATED));
    print::outside(terminal, b"member", b"RATED", rated, 1, most);
}

fn tell_size(terminal: &Terminal, name: &[u8], book: &[u8]) {
    if book.len() < HEADER_SIZE {
        print::note(terminal, name, b"is shorter than the 16 bytes of a header");
        return;
    }
    print::note(
        terminal,
        name,
        b"is cut off, or longer than the number of records in its header says",
    );
}

// What is wrong with the header of a book.
fn tell_bad_header(terminal: &Terminal, name: &[u8], book: &[u8]) {
    if book.len() < HEADER_SIZE {
        return;
    }
    let h = header_at(book);
    if !h.is_sound() {
        tell_header(terminal, name, h);
        return;
    }
    let records = count_at(book);
    let most = most_records(version_at(book));
    if most < records {
        print::outside(
            terminal,
            name,
            b"the number of records",
            records as u64,
            0,
            most as u64,
        );
        return;
    }
    print::note(
        terminal,
        name,
        b"a byte of its header that must be 0 is not",
    );
}

// Record i of a book, by its bad field.
fn tell_field(terminal: &Terminal, name: &[u8], book: &[u8], i: usize) {
    let Some(r) = bad_record(book, i) else {
        return;
    };
    let Some(f) = r.field else {
        return;
    };
    let mut why = io::buffer();
    let n = field_text(Some(f), r.call, &mut why);
    print::bad_record(terminal, name, i, &why[..n]);
}

// A book that is refused with a number at a place.
pub fn tell_book(terminal: &Terminal, name: &[u8], book: &[u8], number: u32, place: usize) {
    match number {
        1 => tell_size(terminal, name, book),
        2 => print::note(terminal, name, b"is no book: it does not begin with NWB"),
        3 => print::note(
            terminal,
            name,
            b"is of a version that is not read here: versions 1 and 2 are",
        ),
        4 => tell_bad_header(terminal, name, book),
        5 => tell_field(terminal, name, book, place),
        6 => print::bad_record(
            terminal,
            name,
            place,
            b"its member and call number are not above those of the record before it",
        ),
        _ => {}
    }
}

// What a month of so many days has not.
pub fn tell_no_day(terminal: &Terminal, i: usize, days: u32) {
    match days {
        28 => print::bad_argument(terminal, i, b"no such day: the month has 28"),
        29 => print::bad_argument(terminal, i, b"no such day: the month has 29"),
        30 => print::bad_argument(terminal, i, b"no such day: the month has 30"),
        _ => print::bad_argument(terminal, i, b"no such day: the month has 31"),
    }
}
