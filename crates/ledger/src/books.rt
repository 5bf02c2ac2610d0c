// Books as files: checked, shown, joined, and one call looked up.
ghost use Rattle.std.specs.Prelude.{◌≡◌, ◌<◌, ◌≤◌};
ghost use Rattle.book.specs.Book.{count_at};
ghost use Rattle.book.specs.Check.{accepted, check};

use crate::pages::{Run, leave, no_page, page_at, put_run, with_page};
use crate::turns::{keep_turns, no_turns, put_turns};
use book::{HEADER_SIZE, SECOND_VERSION, call_of, header_of, version_at};
use call::RECORD_SIZE;
use call::layout::call_at;
use clerk::args::{first, is_word_at, long_at, short_at};
use clerk::print;
use clerk::shelf::{
    Compared, Mark, compared_at, hold_at, load_at, mark_at, open, opened_at, put_note_at,
    refused_at, tell_failed, tell_unjoined,
};
use files::Hold;
use lookup::Place;
use pair::screen;
use say::Terminal;
use tabs::page::PAGE_SIZE;

// The books that were read, joined: how many bytes they are; whether one of those that were read is of the second version, and whether a page was brought forward.
#[derive(Clone, Copy)]
pub struct Joined {
    pub size: usize,
    pub second: bool,
    pub brought: bool,
}

// A second book joined to a first: how many bytes they are; and the turns that the join took.
#[derive(Clone, Copy)]
pub struct Added {
    pub size: usize,
    pub turns: usize,
}

// Whose call, and which: the key that arguments 4 and 5 say.
pub fn whose(terminal: &Terminal) -> Option<(u16, u32)> {
    let member = short_at(terminal, 4)?;
    let call = long_at(terminal, 5)?;
    Some((member, call))
}

pub fn check_book(terminal: &Terminal) {
    let mut book = io::large_buffer();
    if open(terminal, 2, &mut book).is_some() {
        print::done(terminal);
    }
}

// The calls of a sound book from one place to another, on a page behind its first `start` bytes.
pub fn show_calls(
    terminal: &Terminal,
    book: &[u8],
    from: usize,
    end: usize,
    page: &mut [u8],
    start: usize,
) -> usize
    requires book_value { check book.now ≡ accepted }
    requires end_bound { end ≤ count_at book.now }
{
    let mut at = start;
    for i in from..end {
        at = print::put_call(terminal, page, at, call_of(book, i));
    }
    at
}

fn show(terminal: &Terminal, book: &[u8]) {
    let o = opened_at(terminal, 2, book);
    if o.number != 0 {
        return;
    }
    let mut page = io::large_buffer();
    let at = print::put_book(terminal, &mut page, 0, o.version, o.header, o.calls);
    let end = show_calls(terminal, book, 0, o.calls, &mut page, at);
    print::finish(terminal, &mut page, end);
}

pub fn show_book(terminal: &Terminal) {
    let mut book = io::large_buffer();
    if let Some(n) = load_at(terminal, 2, &mut book) {
        show(terminal, first(&book, n));
    }
}

// The bytes to the front of a buffer that has room for them.
fn keep(bytes: &[u8], all: &mut [u8]) -> Option<usize> {
    if all.len() < bytes.len() {
        return None;
    }
    Some(node::copy(bytes, all))
}

// Whether a page is brought: where none is, it is empty.
pub fn is_brought(page: &[u8]) -> bool {
    PAGE_SIZE <= page.len()
}

// Two books joined into an output, and the page brought forward where one is brought.
fn join_with(one: &[u8], two: &[u8], out: &mut [u8], page: &mut [u8]) -> join::Joined {
    if !is_brought(page) {
        return join::join(one, two, out);
    }
    let mut next = no_page();
    let w = tabs::join_tabs(one, page, two, out, &mut next);
    if w.number == 0 {
        keep(&next, page);
    }
    w
}

// A second book joined into the first n bytes of `all`, and the page brought forward where one is brought. Argument i is what a refusal is about: a book of another month, or one too
// many.
// Stays by hand: the buffer has room behind the n bytes, which a join needs.
pub fn join_bytes(
    terminal: &Terminal,
    i: usize,
    all: &mut [u8],
    n: usize,
    second: &[u8],
    page: &mut [u8],
) -> Option<Added> {
    let mut out = io::large_buffer();
    let w = join_with(first(all, n), second, &mut out, page);
    if w.number != 0 {
        tell_unjoined(terminal, i, w.number, first(all, n), second);
        refused_at(terminal, w.number, w.place, i);
        return None;
    }
    let size = keep(first(&out, w.length), all)?;
    Some(Added {
        size,
        turns: w.turns,
    })
}

// Whether a book is of the second version.
pub fn is_second(book: &[u8]) -> bool {
    if book.len() < HEADER_SIZE {
        return false;
    }
    version_at(book) == SECOND_VERSION
}

// The book of argument i alone.
fn join_first(terminal: &Terminal, i: usize, all: &mut [u8]) -> Option<Joined> {
    let size = open(terminal, i, all)?;
    Some(Joined {
        size,
        second: is_second(first(all, size)),
        brought: false,
    })
}

// The book of argument i joined to those before it, and its turns kept.
fn join_next(
    terminal: &Terminal,
    i: usize,
    all: &mut [u8],
    lasts: &mut [usize],
    page: &mut [u8],
    before: Joined,
) -> Option<Joined> {
    let mut book = io::large_buffer();
    let m = open(terminal, i, &mut book)?;
    let second = before.second | is_second(first(&book, m));
    let added = join_bytes(terminal, i, all, before.size, first(&book, m), page)?;
    keep_turns(lasts, i, added.turns);
    Some(Joined {
        size: added.size,
        second,
        brought: is_brought(page),
    })
}

// The books that are named behind argument `from`, joined to that one, and the turns of each join kept.
fn join_others(
    terminal: &Terminal,
    from: usize,
    all: &mut [u8],
    lasts: &mut [usize],
    page: &mut [u8],
    one: Joined,
) -> Option<Joined>
    requires { from < 10 }
{
    let mut joined = Joined {
        size: one.size,
        second: one.second,
        brought: is_brought(page),
    };
    for i in from + 1..say::arguments(terminal) {
        joined = join_next(terminal, i, all, lasts, page, joined)?;
    }
    Some(joined)
}

// All books that are named from argument `from` on, joined, and the page of the first brought forward where it has one; or none, and one line has said why.
fn join_read(
    terminal: &Terminal,
    from: usize,
    all: &mut [u8],
    lasts: &mut [usize],
    has: bool,
    page: &mut [u8],
) -> Option<Joined>
    requires { from < 10 }
{
    let one = join_first(terminal, from, all)?;
    let own = page_at(terminal, from, has, first(all, one.size), page)?;
    join_others(terminal, from, all, lasts, own, one)
}

// The same, where nobody asks for the versions of those that were read, nor for the turns, nor for a page.
pub fn join_all(terminal: &Terminal, from: usize, all: &mut [u8]) -> Option<usize>
    requires { from < 10 }
{
    let mut lasts = no_turns();
    let joined = join_read(terminal, from, all, &mut lasts, false, &mut [])?;
    Some(joined.size)
}

// Call i of a sound book, on a page.
pub fn put_call(terminal: &Terminal, page: &mut [u8], at: usize, book: &[u8], i: usize) -> usize {
    let o = header_of(book);
    if o.number != 0 {
        return at;
    }
    if i < o.calls {
        return print::put_call(terminal, page, at, call_of(book, i));
    }
    at
}

// Whose month a sound book is of, and how many calls it has, on a page.
pub fn put_header(terminal: &Terminal, page: &mut [u8], at: usize, book: &[u8]) -> usize {
    let o = header_of(book);
    if o.number != 0 {
        return at;
    }
    print::put_header(terminal, page, at, o.header, o.calls)
}

// That the book which argument i names, and which is written now, is of the second version where none that was read is: on a page, behind its first `at` bytes.
pub fn put_renewed(
    terminal: &Terminal,
    page: &mut [u8],
    at: usize,
    i: usize,
    second: bool,
    book: &[u8],
) -> usize {
    if second | !is_second(book) {
        return at;
    }
    put_note_at(
        terminal,
        page,
        at,
        i,
        b"is of version 2 now, which programs of the old edition do not read",
    )
}

// Whose month the book is of that was written, and how many calls it has, on a page.
fn put_written(terminal: &Terminal, page: &mut [u8], at: usize, book: &[u8]) -> usize {
    let o = header_of(book);
    if o.number != 0 {
        return at;
    }
    print::put_book(terminal, page, at, o.version, o.header, o.calls)
}

// Whether one of the arguments from `from` on names the file that is held; where none does and the one at a place cannot be looked at, that is not known, and this is the first such place.
fn named_in(terminal: &Terminal, hold: &Hold, from: usize) -> Result<bool, usize>
    requires { from < 10 }
{
    let mut unknown = None;
    for i in from..say::arguments(terminal) {
        match compared_at(terminal, hold, i) {
            Compared::Same => return Ok(true),
            Compared::Other => {}
            Compared::Unknown => unknown = unknown.or(Some(i)),
        }
    }
    match unknown {
        Some(i) => Err(i),
        None => Ok(false),
    }
}

// The turns of the joins, what the book has that argument `out` names and that was written, and `ok`.
fn tell_joined(terminal: &Terminal, out: usize, lasts: &[usize], second: bool, book: &[u8])
    requires { out < 9 }
{
    let mut page = io::buffer();
    let turns = put_turns(terminal, &mut page, out + 1, lasts);
    let note = put_renewed(terminal, &mut page, turns, out, second, book);
    let at = put_written(terminal, &mut page, note, book);
    print::finish(terminal, &mut page, at);
}

// The books behind argument `out`, joined into the files that are held.
fn join_run(terminal: &Terminal, run: Run, out: usize)
    requires { out < 9 }
{
    let mut all = io::large_buffer();
    let mut lasts = no_turns();
    let mut page = no_page();
    let Some(joined) = join_read(
        terminal,
        out + 1,
        &mut all,
        &mut lasts,
        run.first,
        &mut page,
    ) else {
        leave(terminal, run);
        return;
    };
    let book = first(&all, joined.size);
    if put_run(terminal, run, out, book, joined.brought, &page) {
        tell_joined(terminal, out, &lasts, joined.second, book);
    }
}

// The same into the book that is held, with its page where one takes part.
fn join_held(terminal: &Terminal, hold: Hold, out: usize)
    requires { out < 9 }
{
    if let Some(run) = with_page(terminal, hold, out + 1) {
        join_run(terminal, run, out);
    }
}

// The same over a file that is none of the books, where that is asked for: it has to be a book by its mark, so that a slip costs no other file.
fn join_over(terminal: &Terminal, hold: Hold, out: usize)
    requires { out < 9 }
{
    match mark_at(terminal, out) {
        Mark::Stands => {
            join_held(terminal, hold, out);
            return;
        }
        Mark::Missing => tell_failed(
            terminal,
            out,
            b"is no book, and join -f writes over books alone",
        ),
        Mark::Unknown => tell_failed(terminal, out, b"cannot be read"),
    }
    files::release(terminal.system(), hold);
}

// The same over a file that is there, by whether it is one of the books.
fn join_there(terminal: &Terminal, hold: Hold, out: usize, forced: bool)
    requires { out < 9 }
{
    match named_in(terminal, &hold, out + 1) {
        Ok(true) => join_held(terminal, hold, out),
        Ok(false) if forced => join_over(terminal, hold, out),
        Ok(false) => {
            tell_failed(
                terminal,
                out,
                b"is there already, and is none of the books (join -f writes over a book)",
            );
            files::release(terminal.system(), hold);
        }
        Err(i) => {
            tell_failed(terminal, i, b"cannot be looked at");
            files::release(terminal.system(), hold);
        }
    }
}

// The books behind argument `out`, joined as the file that it names, which is held from before they are read; it may be there only where it is one of them, or where it is a book and
// that is asked for.
fn join_to(terminal: &Terminal, out: usize, forced: bool)
    requires { out < 9 }
{
    if say::arguments(terminal) < out + 2 {
        print::failed(terminal, b"", b"no book to join");
        return;
    }
    let Some(hold) = hold_at(terminal, out, false) else {
        return;
    };
    if hold.node.is_there() {
        join_there(terminal, hold, out, forced);
        return;
    }
    join_held(terminal, hold, out);
}

pub fn join_books(terminal: &Terminal) {
    if is_word_at(terminal, 2, b"-f") {
        join_to(terminal, 3, true);
        return;
    }
    join_to(terminal, 2, false);
}

// Where joining would refuse two books, nothing is found in them. The paper gives no number here, so that words say which book is at fault, on a page.
fn put_refused(terminal: &Terminal, page: &mut [u8], number: u32) -> usize {
    let (i, why): (usize, &[u8]) = match number {
        0..=6 => (2, b"not a sound book, so nothing is found"),
        7 => (
            3,
            b"of another month or area than the first book, so nothing is found",
        ),
        _ => (3, b"not a sound book, so nothing is found"),
    };
    put_note_at(terminal, page, 0, i, why)
}

// Whether a book has a record of the key: of a book and itself it stands.
fn has(book: &[u8], member: u16, call: u32) -> bool {
    RECORD_SIZE <= lookup::find(book, book, member, call).len()
}

// That no record stands, on a page, and why: neither book has the call, or both have it and contradict each other.
fn put_none(
    terminal: &Terminal,
    page: &mut [u8],
    one: &[u8],
    two: &[u8],
    member: u16,
    call: u32,
) -> usize {
    let why: &[u8] = if has(one, member, call) & has(two, member, call) {
        b"both books have the call at one revision and contradict each other, so that neither stands"
    } else {
        b"neither this book nor the first has the call"
    };
    let at = put_note_at(terminal, page, 0, 3, why);
    print::put_none(terminal, page, at)
}

// The record that stands for a key: which book has it, and its 32 bytes as they lie there, on a page.
fn put_found(
    terminal: &Terminal,
    page: &mut [u8],
    first: &[u8],
    second: &[u8],
    member: u16,
    call: u32,
) -> usize {
    let part = lookup::find(first, second, member, call);
    if part.len() < RECORD_SIZE {
        return put_none(terminal, page, first, second, member, call);
    }
    match lookup::which(first, second, member, call) {
        Place::Nowhere => print::put_none(terminal, page, 0),
        Place::InFirst(_) => print::put_found(terminal, page, 0, false, call_at(part, 0)),
        Place::InSecond(_) => print::put_found(terminal, page, 0, true, call_at(part, 0)),
    }
}

// The same where the books may be joined; else why not.
fn put_answer(
    terminal: &Terminal,
    page: &mut [u8],
    one: &[u8],
    two: &[u8],
    member: u16,
    call: u32,
) -> usize {
    let v = screen(one, two);
    if v.number != 0 {
        let at = put_refused(terminal, page, v.number);
        return print::put_none(terminal, page, at);
    }
    put_found(terminal, page, one, two, member, call)
}

fn find_in(terminal: &Terminal, one: &[u8], member: u16, call: u32) {
    let mut book = io::large_buffer();
    if let Some(n) = load_at(terminal, 3, &mut book) {
        let mut page = io::large_buffer();
        let at = put_answer(terminal, &mut page, one, first(&book, n), member, call);
        print::finish(terminal, &mut page, at);
    }
}

pub fn find_call(terminal: &Terminal) {
    let Some((member, call)) = whose(terminal) else {
        return;
    };
    let mut book = io::large_buffer();
    if let Some(n) = load_at(terminal, 2, &mut book) {
        find_in(terminal, first(&book, n), member, call);
    }
}
