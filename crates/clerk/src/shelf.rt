// Books and other files by their names in the arguments: loaded, checked, stored.
ghost use Rattle.std.specs.Prelude.{◌≡◌, ◌≤◌};
ghost use Rattle.book.specs.Book.{count_at};
ghost use Rattle.book.specs.Check.{accepted, check, header_of};

use crate::args::{first, is_word, path, with_word};
use crate::load::load_or;
use crate::print;
use crate::wrong::tell_book;
use book::{Header, Opened, header_of};
use files::beside::{NotBoth, page_of};
use files::{Hold, NotLoaded, NotStored};
use node::{Name, Node, led_to, node_of};
use say::Terminal;

// Whether a name is that of the file which is held.
// Stays an enum: three cases with no value, which an Option of a bool would leave without names.
#[derive(Clone, Copy)]
pub enum Compared {
    Same,
    Other,
    Unknown,
}

// Whether a file begins with a book's mark; unknown where it cannot be read.
// Stays an enum: three cases with no value, which an Option of a bool would leave without names.
#[derive(Clone, Copy)]
pub enum Mark {
    Stands,
    Missing,
    Unknown,
}

// The whole file in the buffer's first bytes; or none, and one line has said why.
pub fn load(terminal: &Terminal, path: &[u8], buf: &mut [u8]) -> Option<usize> {
    load_or(terminal, path, false, buf)
}

// The whole file that argument i names, in the buffer's first bytes.
pub fn load_at(terminal: &Terminal, i: usize, buf: &mut [u8]) -> Option<usize> {
    let mut name = io::buffer();
    let n = path(terminal, i, &mut name)?;
    load(terminal, first(&name, n), buf)
}

// The file that argument i names, held until `put` or `release`: this run alone may write it. Where it is not held, one line has said why. One that is to be new may not be there.
pub fn hold_at(terminal: &Terminal, i: usize, new: bool) -> Option<Hold> {
    let mut buf = io::buffer();
    let n = path(terminal, i, &mut buf)?;
    let path = first(&buf, n);
    files::hold_at(terminal.system(), path, new)
        .inspect_err(|why| tell_unstored(terminal, path, *why))
        .ok()
}

// The bytes as the whole file that is held, by the name that argument i gives it.
pub fn put(terminal: &Terminal, hold: Hold, i: usize, bytes: &[u8]) -> bool {
    let mut buf = io::buffer();
    let Some(n) = path(terminal, i, &mut buf) else {
        files::release(terminal.system(), hold);
        return false;
    };
    told(
        terminal,
        first(&buf, n),
        files::store(terminal.system(), hold, bytes),
    )
}

// The bytes as a new file that argument i names; one that is there already stands.
pub fn save_new(terminal: &Terminal, i: usize, bytes: &[u8]) -> bool {
    let mut buf = io::buffer();
    let Some(n) = path(terminal, i, &mut buf) else {
        return false;
    };
    let path = first(&buf, n);
    let stored = files::store_new(terminal.system(), path, bytes);
    if let Err(NotStored::Taken) = stored {
        print::failed(terminal, path, b"is there already, and a statement stands");
        return false;
    }
    told(terminal, path, stored)
}

// The page of a book that is held, held too. Where it is not, one line has said why.
pub fn hold_page(terminal: &Terminal, book: &Hold) -> Option<Hold> {
    let page = page_of(book.target);
    files::beside::hold_page(terminal.system(), book)
        .inspect_err(|why| tell_unstored_page(terminal, page, *why))
        .ok()
}

// The bytes as the whole book and the whole page that are held, the book by the name that argument i gives it.
pub fn put_both(
    terminal: &Terminal,
    book: Hold,
    page: Hold,
    i: usize,
    bytes: &[u8],
    tabs: &[u8],
) -> bool {
    let mut buf = io::buffer();
    let Some(n) = path(terminal, i, &mut buf) else {
        files::beside::release_both(terminal.system(), book, page);
        return false;
    };
    let target = page.target;
    files::beside::store_both(terminal.system(), book, page, bytes, tabs)
        .inspect_err(|why| tell_unstored_both(terminal, first(&buf, n), target.path(), *why))
        .is_ok()
}

// The bytes as the whole page that is held, beside the book that is held and stays.
pub fn put_page(terminal: &Terminal, book: Hold, page: Hold, tabs: &[u8]) -> bool {
    let target = page.target;
    files::beside::store_page(terminal.system(), book, page, tabs)
        .inspect_err(|why| tell_unstored_page(terminal, target, *why))
        .is_ok()
}

// That another run is at work, by the lock's name.
fn tell_locked(terminal: &Terminal, lock: Name) {
    print::failed(
        terminal,
        lock.path(),
        b"is there: another run is changing the file; where no run is going on, delete it",
    );
}

// Whether it was done. Where not, one line says why.
fn told(terminal: &Terminal, path: &[u8], stored: Result<(), NotStored>) -> bool {
    stored
        .inspect_err(|why| tell_unstored(terminal, path, *why))
        .is_ok()
}

// Why a file is not held, or not written.
fn tell_unstored(terminal: &Terminal, path: &[u8], why: NotStored) {
    let words: &[u8] = match why {
        NotStored::BadName => b"too long a name to write beside it, or links that lead round",
        NotStored::Unknown => b"cannot be looked at, and is left as it was",
        NotStored::NotRegular => b"is no regular file, and is left alone",
        NotStored::ReadOnly => b"its owner may not write it, and it is left alone",
        NotStored::Locked => {
            tell_locked(terminal, files::lock_of(led_to(terminal.system(), path)));
            return;
        }
        NotStored::Taken => b"is there already, and is left as it was",
        NotStored::NotMade => b"no file can be made beside it",
        NotStored::NotWritten => b"could not be written whole, and is as it was",
        NotStored::NotRenamed => b"could not be replaced, and is as it was",
        NotStored::Unsure => b"is written, but its folder could not be synced",
    };
    print::failed(terminal, path, words);
}

// The same of a page, by its own name: a link there is not followed, and where its book is to be new it may not be there.
fn tell_unstored_page(terminal: &Terminal, page: Name, why: NotStored) {
    let name = page.path();
    match why {
        NotStored::Locked => tell_locked(terminal, files::lock_of(page)),
        NotStored::Taken => {
            print::failed(terminal, name, b"is there already, and its book is not");
        }
        _ => tell_unstored(terminal, name, why),
    }
}

// The same of a book and its page.
fn tell_unstored_both(terminal: &Terminal, path: &[u8], page: &[u8], why: NotBoth) {
    match why {
        NotBoth::BookNotWritten => tell_unstored(terminal, path, NotStored::NotWritten),
        NotBoth::PageNotWritten => tell_unstored(terminal, page, NotStored::NotWritten),
        NotBoth::PageNotRemoved => tell_unstored(terminal, page, NotStored::NotRenamed),
        NotBoth::NotReplaced(removed) => tell_not_replaced(terminal, path, page, removed),
        NotBoth::PageNotPlaced => print::unplaced(terminal, page, path),
        NotBoth::Unsure => tell_unstored(terminal, path, NotStored::Unsure),
    }
}

// That a book could not be replaced, behind the page that was removed for it.
fn tell_not_replaced(terminal: &Terminal, path: &[u8], page: &[u8], removed: bool) {
    if removed {
        print::removed(terminal, page, path);
    }
    tell_unstored(terminal, path, NotStored::NotRenamed);
}

// Whether argument i names the file that is held, by whatever name; of one that cannot be looked at that is unknown.
pub fn compared_at(terminal: &Terminal, hold: &Hold, i: usize) -> Compared {
    let node = with_word(terminal, i, |path| node_of(terminal.system(), path));
    if let Node::Unknown = node {
        return Compared::Unknown;
    }
    if node.is_same(hold.node) {
        return Compared::Same;
    }
    Compared::Other
}

// Whether a whole file begins with a book's mark.
fn is_marked(bytes: &[u8]) -> bool {
    is_word(first(bytes, 3), b"NWB")
}

// The same of the file that argument i names. One that is longer than any book is none.
pub fn mark_at(terminal: &Terminal, i: usize) -> Mark {
    let mut name = io::buffer();
    let n = say::word(terminal, i, &mut name);
    let mut bytes = io::large_buffer();
    match files::load(terminal.system(), &name[..n], &mut bytes) {
        Ok(m) if is_marked(first(&bytes, m)) => Mark::Stands,
        Ok(_) | Err(NotLoaded::TooLong) => Mark::Missing,
        Err(_) => Mark::Unknown,
    }
}

// What the book that argument i names is found to be. A refusal is told.
pub fn opened_at(terminal: &Terminal, i: usize, book: &[u8]) -> Opened
    ensures value { result ≡ header_of book.now }
    ensures book_value { result.number ≡ 0 → check book.now ≡ accepted }
    ensures calls_bound { result.calls ≤ count_at book.now }
{
    let o = header_of(book);
    if o.number != 0 {
        book_refused_at(terminal, i, book, o.number, o.place);
    }
    o
}

// A refusal of the book that argument i names, in words and by its number.
fn book_refused_at(terminal: &Terminal, i: usize, book: &[u8], number: u32, place: usize) {
    with_word(terminal, i, |name| {
        tell_book(terminal, name, book, number, place);
        print::refused(terminal, number, place, name);
    });
}

// The book that argument i names, in the buffer's first bytes, sound; or none, and one line has said why.
pub fn open(terminal: &Terminal, i: usize, book: &mut [u8]) -> Option<usize> {
    let n = load_at(terminal, i, book)?;
    let o = opened_at(terminal, i, first(book, n));
    if o.number != 0 {
        return None;
    }
    Some(n)
}

// Whether the book that argument i names has a page, or one that cannot be looked at.
pub fn has_page_at(terminal: &Terminal, i: usize) -> bool {
    with_word(terminal, i, |book| {
        files::beside::has_page(terminal.system(), led_to(terminal.system(), book))
    })
}

// The page of the book that argument i names, in the buffer's first bytes: as many as it has room for, or that there is none. Where it cannot be read, one line has said so.
pub fn load_page_at(terminal: &Terminal, i: usize, page: &mut [u8]) -> Option<Option<usize>> {
    let name = page_name_at(terminal, i);
    match files::load_front(terminal.system(), name.path(), page) {
        Ok(n) => Some(Some(n)),
        Err(NotLoaded::Missing) => Some(None),
        Err(_) => {
            print::failed(terminal, name.path(), b"cannot be read");
            None
        }
    }
}

// The name of the page of the book that argument i names.
fn page_name_at(terminal: &Terminal, i: usize) -> Name {
    with_word(terminal, i, |book| page_of(led_to(terminal.system(), book)))
}

// That the page of the book that argument i names does not fit it from a member on.
pub fn unfit_at(terminal: &Terminal, i: usize, number: u32, member: usize) {
    let page = page_name_at(terminal, i);
    with_word(
        terminal,
        i,
        |book| print::unfit(terminal, page.path(), book, member),
    );
    print::refused(terminal, number, member, page.path());
}

// A refusal of what argument i names.
pub fn refused_at(terminal: &Terminal, number: u32, place: usize, i: usize) {
    with_word(
        terminal,
        i,
        |name| print::refused(terminal, number, place, name),
    );
}

// That something is wrong with what argument i names.
pub fn tell_failed(terminal: &Terminal, i: usize, why: &[u8]) {
    with_word(terminal, i, |name| print::failed(terminal, name, why));
}

// A remark on what argument i names.
pub fn note_at(terminal: &Terminal, i: usize, why: &[u8]) {
    with_word(terminal, i, |name| print::note(terminal, name, why));
}

// The same on a page.
pub fn put_note_at(terminal: &Terminal, page: &mut [u8], at: usize, i: usize, why: &[u8]) -> usize {
    with_word(
        terminal,
        i,
        |name| print::put_note(terminal, page, at, name, why),
    )
}

// The turns of the join of the book that argument i names, on a page.
pub fn put_turns_at(
    terminal: &Terminal,
    page: &mut [u8],
    at: usize,
    i: usize,
    turns: usize,
) -> usize {
    with_word(
        terminal,
        i,
        |name| print::put_turns(terminal, page, at, name, turns),
    )
}

// Of which month and area the book that argument i names is, and of which those before it.
pub fn other_month_at(terminal: &Terminal, i: usize, h: Header, before: Header) {
    with_word(
        terminal,
        i,
        |name| print::other_month(terminal, name, h, before),
    );
}

// Why joining refuses the book that argument i names, in words: it is of another month than the one before it, or there would be too many calls.
pub fn tell_unjoined(terminal: &Terminal, i: usize, number: u32, one: &[u8], two: &[u8]) {
    match number {
        7 => other_month_at(terminal, i, header_of(two).header, header_of(one).header),
        8 => note_at(
            terminal,
            i,
            b"with it there would be more than 2000 different calls",
        ),
        _ => {}
    }
}
