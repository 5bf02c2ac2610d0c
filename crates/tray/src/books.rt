// The books that the arguments name, joined. Those that are not taken are told once, and left out from then on; so is one that cannot be read again, which the last
// line names. A mark for each argument says which.
use book::header_of;
use clerk::args::{argument, first, is_word};
use clerk::load::load_or;
use clerk::print;
use clerk::shelf::{note_at, tell_unjoined};
use clerk::wrong::tell_book;
use notice::refused_with_text;
use say::Terminal;

// How long the joined book is, and how many books are not taken.
#[derive(Clone, Copy)]
pub struct Taken {
    pub size: usize,
    pub bad: usize,
}

// What the mark of an argument says of its book: it is one of those that are joined; it is not taken; it could not be read again; the others make it spare.
#[derive(Clone, Copy, PartialEq, Eq)]
pub enum Mark {
    Stays,
    NotTaken,
    Lost,
    Spare,
}

// As many arguments have a place for a mark.
pub const MOST_MARKS: usize = 0x1_0000;

// No book is left out yet.
pub fn all_stay() -> [Mark; MOST_MARKS] {
    [Mark::Stays; MOST_MARKS]
}

// Whether argument i is left out.
pub fn is_left(left: &[Mark], i: usize) -> bool {
    mark_of(left, i) != Mark::Stays
}

// The mark of argument i; one that has no place for a mark is not taken.
pub fn mark_of(left: &[Mark], i: usize) -> Mark {
    left.get(i).copied().unwrap_or(Mark::NotTaken)
}

// Argument i left out from now on, and why.
pub fn leave(left: &mut [Mark], i: usize, mark: Mark) {
    if let Some(own) = left.get_mut(i) {
        *own = mark;
    }
}

// The first book that could not be read again, if there is one.
pub fn lost_at(terminal: &Terminal, from: usize, left: &[Mark]) -> Option<usize> {
    (from..say::arguments(terminal)).find(|i| mark_of(left, *i) == Mark::Lost)
}

// That a file is refused, and where.
pub fn note_refused(terminal: &Terminal, name: &[u8], number: u32, place: usize) {
    let mut words = io::buffer();
    let n = refused_with_text(number, place, &mut words);
    print::note(terminal, name, &words[..n]);
}

// The same of what argument i names.
pub fn note_refused_at(terminal: &Terminal, i: usize, number: u32, place: usize) {
    let mut name = io::buffer();
    let n = say::word(terminal, i, &mut name);
    note_refused(terminal, &name[..n], number, place);
}

// The bytes of the book that argument i names; what is in the way is told.
fn load_book(terminal: &Terminal, i: usize, book: &mut [u8]) -> Option<usize> {
    let mut name = io::buffer();
    let Some(k) = argument(terminal, i, &mut name) else {
        note_at(terminal, i, b"too long for a file's name");
        return None;
    };
    if k == 0 {
        print::note(
            terminal,
            b"BOOK",
            b"an argument is empty, and names no file",
        );
        return None;
    }
    load_or(terminal, first(&name, k), true, book)
}

// Why the book that argument i names is refused, in words, and with which number.
fn tell_unsound(terminal: &Terminal, i: usize, book: &[u8], number: u32, place: usize) {
    let mut name = io::buffer();
    let n = say::word(terminal, i, &mut name);
    tell_book(terminal, &name[..n], book, number, place);
    note_refused(terminal, &name[..n], number, place);
}

// The same, where it is a sound book.
fn open_book(terminal: &Terminal, i: usize, book: &mut [u8]) -> Option<usize> {
    let n = load_book(terminal, i, book)?;
    let o = header_of(first(book, n));
    if o.number != 0 {
        tell_unsound(terminal, i, first(book, n), o.number, o.place);
        return None;
    }
    Some(n)
}

// The bytes to the front of a buffer that has room for them.
fn keep(bytes: &[u8], all: &mut [u8]) -> Option<usize> {
    all.get_mut(..bytes.len())?.copy_from_slice(bytes);
    Some(bytes.len())
}

// A second book joined into the first n bytes of `all`; of no bytes it is the first.
fn join_second(
    terminal: &Terminal,
    i: usize,
    tell: bool,
    all: &mut [u8],
    n: usize,
    second: &[u8],
) -> Option<usize> {
    if n == 0 {
        return keep(second, all);
    }
    let mut out = io::large_buffer();
    let w = join::join(first(all, n), second, &mut out);
    if w.number != 0 {
        if tell {
            tell_unjoined(terminal, i, w.number, first(all, n), second);
            note_refused_at(terminal, i, w.number, w.place);
        }
        return None;
    }
    keep(first(&out, w.length), all)
}

// The book that argument i names joined to those before it, of which there are n bytes; or nothing, and one line has said why.
fn open_second(terminal: &Terminal, i: usize, all: &mut [u8], n: usize) -> Option<usize> {
    let mut second = io::large_buffer();
    let m = open_book(terminal, i, &mut second)?;
    join_second(terminal, i, true, all, n, first(&second, m))
}

// The books so far, and the one that argument i names, or it is left out.
fn with_book(
    terminal: &Terminal,
    i: usize,
    all: &mut [u8],
    left: &mut [Mark],
    before: Taken,
) -> Taken {
    match open_second(terminal, i, all, before.size) {
        Some(n) => Taken {
            size: n,
            bad: before.bad,
        },
        None => {
            leave(left, i, Mark::NotTaken);
            Taken {
                size: before.size,
                bad: before.bad.saturating_add(1),
            }
        }
    }
}

// All books that are named from argument `from` on, joined.
pub fn join_named(terminal: &Terminal, from: usize, all: &mut [u8], left: &mut [Mark]) -> Taken {
    let mut taken = Taken { size: 0, bad: 0 };
    for i in from..say::arguments(terminal) {
        taken = with_book(terminal, i, all, left, taken);
    }
    taken
}

// Later passes, in which nothing is told of a book

// The bytes of the book that argument i names.
fn load_again(terminal: &Terminal, i: usize, book: &mut [u8]) -> Option<usize> {
    let mut name = io::buffer();
    let k = argument(terminal, i, &mut name)?;
    files::load(terminal.system(), first(&name, k), book).ok()
}

// The bytes of the book that argument i names, unless it is left out. It was read before: where it cannot be read now, it is lost, and left out.
pub fn take_book(
    terminal: &Terminal,
    i: usize,
    left: &mut [Mark],
    book: &mut [u8],
) -> Option<usize> {
    if is_left(left, i) {
        return None;
    }
    let read = load_again(terminal, i, book);
    if read.is_none() {
        leave(left, i, Mark::Lost);
    }
    read
}

// The same joined into the first n bytes of `all`: how many there are then.
fn take_second(
    terminal: &Terminal,
    i: usize,
    left: &mut [Mark],
    all: &mut [u8],
    n: usize,
) -> usize {
    let mut second = io::large_buffer();
    let Some(m) = take_book(terminal, i, left, &mut second) else {
        return n;
    };
    join_second(terminal, i, false, all, n, first(&second, m)).unwrap_or(n)
}

// The books from argument `from` on that are not left out, joined, but for that of argument `without`, if one is named.
pub fn join_others(
    terminal: &Terminal,
    from: usize,
    without: Option<usize>,
    left: &mut [Mark],
    all: &mut [u8],
) -> usize {
    let mut n: usize = 0;
    for i in from..say::arguments(terminal) {
        if Some(i) != without {
            n = take_second(terminal, i, left, all, n);
        }
    }
    n
}

// Whether the book that argument i names is still a sound one, unless it is left out.
fn is_there(terminal: &Terminal, i: usize, left: &mut [Mark]) -> bool {
    if is_left(left, i) {
        return true;
    }
    let mut book = io::large_buffer();
    let Some(n) = take_book(terminal, i, left, &mut book) else {
        return false;
    };
    header_of(first(&book, n)).number == 0
}

// Whether all of them are.
fn are_there(terminal: &Terminal, from: usize, left: &mut [Mark]) -> bool {
    (from..say::arguments(terminal)).all(|i| is_there(terminal, i, left))
}

// Whether the books are still what they were: all there, and joined again, the same bytes.
pub fn is_unchanged(terminal: &Terminal, from: usize, left: &mut [Mark], joined: &[u8]) -> bool {
    let mut again = io::large_buffer();
    let n = join_others(terminal, from, None, left, &mut again);
    is_word(first(&again, n), joined) & are_there(terminal, from, left)
}
