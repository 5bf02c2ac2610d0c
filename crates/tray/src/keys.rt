// What each book has for one key.
use crate::books::{Mark, lost_at, take_book};
use call::layout::call_at;
use call::{Call, RECORD_SIZE};
use clerk::args::first;
use clerk::print;
use drawer::stale::{NextStale, Why, next_stale};
use lookup::Place;
use say::Terminal;
use text::record::call_text;

// What a book has for a key: the record that stands, or another, and why that does not stand.
#[derive(Clone, Copy)]
pub enum Own {
    Standing(Call),
    Other(Call, Why),
}

// What record k of a book is, which is c.
fn own_at(book: &[u8], joined: &[u8], k: usize, c: Call) -> Option<Own> {
    match next_stale(book, joined, k) {
        NextStale::BadBooks(_, _) => None,
        NextStale::Next(told) if told.place == k => Some(Own::Other(c, told.why)),
        NextStale::Next(_) | NextStale::NoneLeft => Some(Own::Standing(c)),
    }
}

// What a book has for the key of x, if it has one.
fn own_in(book: &[u8], joined: &[u8], x: Call) -> Option<Own> {
    let part = lookup::find(book, book, x.participant, x.number);
    if part.len() < RECORD_SIZE {
        return None;
    }
    match lookup::which(book, book, x.participant, x.number) {
        Place::Nowhere => None,
        Place::InFirst(k) | Place::InSecond(k) => own_at(book, joined, k, call_at(part, 0)),
    }
}

// The same of the book that argument i names.
pub fn own_of(
    terminal: &Terminal,
    i: usize,
    left: &mut [Mark],
    joined: &[u8],
    x: Call,
) -> Option<Own> {
    let mut book = io::large_buffer();
    let n = take_book(terminal, i, left, &mut book)?;
    own_in(first(&book, n), joined, x)
}

fn has_standing(terminal: &Terminal, i: usize, left: &mut [Mark], joined: &[u8], x: Call) -> bool {
    matches!(own_of(terminal, i, left, joined, x), Some(Own::Standing(_)))
}

// The first book that has the record that stands, if one has.
pub fn holder_of(
    terminal: &Terminal,
    from: usize,
    left: &mut [Mark],
    joined: &[u8],
    x: Call,
) -> Option<usize> {
    (from..say::arguments(terminal)).find(|i| has_standing(terminal, *i, left, joined, x))
}

// A call, and what it is the call of.
pub fn tell_call(terminal: &Terminal, what: &[u8], x: Call) {
    let mut line = io::buffer();
    let n = call_text(x, &mut line);
    if n == 0 {
        return;
    }
    print::note(terminal, what, first(&line, n - 1));
}

// The same of the book that argument i names.
pub fn tell_call_of(terminal: &Terminal, i: usize, x: Call) {
    let mut name = io::buffer();
    let n = say::word(terminal, i, &mut name);
    tell_call(terminal, &name[..n], x);
}

// The call x, which stands, by a book that has it, or by all of them together; nothing where a book is lost, for it may be the one.
pub fn tell_standing(terminal: &Terminal, from: usize, left: &mut [Mark], joined: &[u8], x: Call) {
    let holder = holder_of(terminal, from, left, joined, x);
    if lost_at(terminal, from, left).is_some() {
        return;
    }
    match holder {
        Some(h) => tell_call_of(terminal, h, x),
        None => tell_call(terminal, b"joined", x),
    }
}
