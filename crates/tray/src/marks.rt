// The keys of which some book has another record than the one that stands.
use crate::books::{Mark, take_book};
use book::MOST_RECORDS;
use clerk::args::first;
use drawer::stale::{NextStale, next_stale};
use say::Terminal;

// Marks the joined book's records for whose keys a book has another, in as many steps as a book may have records.
fn mark_book(book: &[u8], joined: &[u8], each: &mut [bool]) {
    let mut next: usize = 0;
    for _ in 0..MOST_RECORDS {
        let NextStale::Next(told) = next_stale(book, joined, next) else {
            return;
        };
        if let Some(j) = told.stands {
            mark(each, j);
        }
        next = told.place.saturating_add(1);
    }
}

fn mark(each: &mut [bool], j: usize) {
    if let Some(own) = each.get_mut(j) {
        *own = true;
    }
}

// The same of the book that argument i names.
fn mark_file(terminal: &Terminal, i: usize, left: &mut [Mark], joined: &[u8], each: &mut [bool]) {
    let mut book = io::large_buffer();
    if let Some(n) = take_book(terminal, i, left, &mut book) {
        mark_book(first(&book, n), joined, each);
    }
}

// A pass over the books that are named from argument `from` on: which of the joined book's records are marked.
pub fn marks_of(
    terminal: &Terminal,
    from: usize,
    left: &mut [Mark],
    joined: &[u8],
) -> [bool; MOST_RECORDS] {
    let mut each = [false; MOST_RECORDS];
    for i in from..say::arguments(terminal) {
        mark_file(terminal, i, left, joined, &mut each);
    }
    each
}

// Whether record j is marked.
pub fn is_marked(each: &[bool], j: usize) -> bool {
    each.get(j).copied().unwrap_or(false)
}
