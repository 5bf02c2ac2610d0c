// What the program prints, each line whole: at once, or, where lines stand before `ok`, collected on a page, which is written when it is full and at the end. Its last
// line is `ok`, `unchanged WHY`, `refused N P FILE` or `failed ..`. What a line says is text's and remark's; a name of a file is at most 4,096 bytes, so that every line has room
// here, and is printed without control characters.
use crate::args::first;
use crate::usage::name_of;
use book::{Header, MOST_RECORDS};
use call::Call;
use remark::away::{clash_text, contested_text, not_inside_text, not_open_text};
use remark::bad::{outside_text, record_text};
use remark::other::other_month_text;
use say::Terminal;
use text::record::{book_text, call_text, found_text, header_text, score_text, tab_text};
use text::told::{
    bad_argument_text, failed_text, no_number_text, not_higher_text, note_text, refused_about_text,
    removed_text, shown_text, takes_text, turns_text, unchanged_text, unfit_text, unplaced_text,
    usage_text,
};
use units::{Fen, Grains, Kw};

// What is put at the start of a line, printed.
fn tell<F: FnOnce(&mut [u8]) -> usize>(terminal: &Terminal, put_text: F)
    requires { F.IsAlwaysCallable put_text }
{
    let mut line = io::buffer();
    let n = put_text(&mut line);
    say::text(terminal, first(&line, n));
}

// The same on a page.
fn put<F: FnOnce(&mut [u8]) -> usize>(
    terminal: &Terminal,
    page: &mut [u8],
    at: usize,
    put_text: F,
) -> usize
    requires { F.IsAlwaysCallable put_text }
{
    let mut line = io::buffer();
    let n = put_text(&mut line);
    say::add(terminal, page, at, first(&line, n))
}

// A line with a name as it is printed. It is long: that who prints one takes no more stack the whole time, it is made in a function of its own.
#[inline(never)]
fn tell_of<F: FnOnce(&[u8], &mut [u8]) -> usize>(terminal: &Terminal, what: &[u8], put_text: F)
    requires { F.IsAlwaysCallable put_text }
{
    let mut name = io::buffer();
    let m = shown_text(what, &mut name);
    let mut line = io::large_buffer();
    let n = put_text(&name[..m], &mut line);
    say::text(terminal, first(&line, n));
}

// The same on a page.
#[inline(never)]
fn put_of<F: FnOnce(&[u8], &mut [u8]) -> usize>(
    terminal: &Terminal,
    page: &mut [u8],
    at: usize,
    what: &[u8],
    put_text: F,
) -> usize
    requires { F.IsAlwaysCallable put_text }
{
    let mut name = io::buffer();
    let m = shown_text(what, &mut name);
    let mut line = io::large_buffer();
    let n = put_text(&name[..m], &mut line);
    say::add(terminal, page, at, first(&line, n))
}

// A line with the names of a page and of its book.
#[inline(never)]
fn tell_beside<F: FnOnce(&[u8], &[u8], &mut [u8]) -> usize>(
    terminal: &Terminal,
    page: &[u8],
    book: &[u8],
    put_text: F,
)
    requires { F.IsAlwaysCallable put_text }
{
    let mut name = io::buffer();
    let m = shown_text(page, &mut name);
    let mut other = io::buffer();
    let k = shown_text(book, &mut other);
    let mut line = io::large_buffer();
    let n = put_text(&name[..m], &other[..k], &mut line);
    say::text(terminal, first(&line, n));
}

pub fn done(terminal: &Terminal) {
    say::text(terminal, b"ok\n");
}

// The same behind what stands on a page, which is written with it.
pub fn finish(terminal: &Terminal, page: &mut [u8], at: usize) {
    let n = say::add(terminal, page, at, b"ok\n");
    say::write_page(terminal, page, n);
}

// That nothing was changed, and why.
pub fn unchanged(terminal: &Terminal, why: &[u8]) {
    tell(terminal, |line| unchanged_text(why, line));
}

// The same, since a revision stands that is as high.
pub fn not_higher(terminal: &Terminal, stands: u32) {
    tell(terminal, |line| not_higher_text(stands, line));
}

// A refusal's number and place, and what it is about.
pub fn refused(terminal: &Terminal, number: u32, place: usize, what: &[u8]) {
    tell_of(
        terminal,
        what,
        |name, line| refused_about_text(number, place, name, line),
    );
}

// What failed, and why.
pub fn failed(terminal: &Terminal, what: &[u8], why: &[u8]) {
    tell_of(terminal, what, |name, line| failed_text(name, why, line));
}

// An argument that is not taken, by its name in the command's usage, and why.
pub fn bad_argument(terminal: &Terminal, i: usize, why: &[u8]) {
    tell_of(terminal, name_of(terminal, i), |name, line| {
        bad_argument_text(i, name, why, line)
    });
}

// An argument that is no number, or one too large.
pub fn no_number(terminal: &Terminal, i: usize, most: u64) {
    let name = name_of(terminal, i);
    tell(terminal, |line| no_number_text(i, name, most, line));
}

// An argument that is no quarter hour inside a window, and where that runs.
pub fn not_inside(terminal: &Terminal, i: usize, x: Call) {
    let mut why = io::buffer();
    let n = not_inside_text(x, &mut why);
    bad_argument(terminal, i, &why[..n]);
}

// A command that is given more or fewer words than it takes.
pub fn takes(
    terminal: &Terminal,
    name: &[u8],
    more: bool,
    least: usize,
    most: usize,
    given: usize,
) {
    tell(
        terminal,
        |line| takes_text(name, more, least, most, given, line),
    );
}

// A remark in words, and what it is about: a line before the last one.
pub fn note(terminal: &Terminal, what: &[u8], why: &[u8]) {
    tell_of(terminal, what, |name, line| note_text(name, why, line));
}

// The same on a page.
pub fn put_note(terminal: &Terminal, page: &mut [u8], at: usize, what: &[u8], why: &[u8]) -> usize {
    put_of(
        terminal,
        page,
        at,
        what,
        |name, line| note_text(name, why, line),
    )
}

// A number outside its limits, by its name, and what it is of: a line before the last one.
pub fn outside(terminal: &Terminal, what: &[u8], name: &[u8], n: u64, low: u64, high: u64) {
    let mut why = io::buffer();
    let k = outside_text(name, n, low, high, &mut why);
    note(terminal, what, &why[..k]);
}

// Record i of a book, told as counted from 1, and what is wrong with it.
pub fn bad_record(terminal: &Terminal, what: &[u8], i: usize, why: &[u8]) {
    if MOST_RECORDS <= i {
        return;
    }
    tell_of(
        terminal,
        what,
        |name, line| record_text(name, i + 1, why, line),
    );
}

// Of which month and area a book is, and of which those before it.
pub fn other_month(terminal: &Terminal, what: &[u8], h: Header, before: Header) {
    tell_of(
        terminal,
        what,
        |name, line| other_month_text(name, h, before, line),
    );
}

// A page of tabs that does not fit its book from a member on, by both names: a line before the last one.
pub fn unfit(terminal: &Terminal, page: &[u8], book: &[u8], member: usize) {
    tell_beside(terminal, page, book, |page, book, line| {
        unfit_text(page, book, member, line)
    });
}

// A page that is removed, where its book could not be replaced: a line before the last one.
pub fn removed(terminal: &Terminal, page: &[u8], book: &[u8]) {
    tell_beside(terminal, page, book, |page, book, line| {
        removed_text(page, book, line)
    });
}

// A page that could not be put in place, where its book is written.
pub fn unplaced(terminal: &Terminal, page: &[u8], book: &[u8]) {
    tell_beside(terminal, page, book, |page, book, line| {
        unplaced_text(page, book, line)
    });
}

// Why scoring turns a call away: it is not open to a plant, an earlier call stands against it, it is contested.
pub fn not_open(terminal: &Terminal, x: Call, kind: u8, rated: Kw, h: Header) {
    tell(terminal, |line| not_open_text(x, kind, rated, h, line));
}

pub fn clash(terminal: &Terminal, x: Call, y: Call) {
    tell(terminal, |line| clash_text(x, y, line));
}

pub fn contested(terminal: &Terminal, x: Call) {
    tell(terminal, |line| contested_text(x, line));
}

// How a command is called.
pub fn usage(terminal: &Terminal, words: &[u8]) {
    tell(terminal, |line| usage_text(words, line));
}

// One call, on one line. What is contested or withdrawn has no details.
pub fn call(terminal: &Terminal, x: Call) {
    tell(terminal, |line| call_text(x, line));
}

// The same on a page.
pub fn put_call(terminal: &Terminal, page: &mut [u8], at: usize, x: Call) -> usize {
    put(terminal, page, at, |line| call_text(x, line))
}

// The call that stands, and whether the second of two books has it or the first, on a page.
pub fn put_found(terminal: &Terminal, page: &mut [u8], at: usize, second: bool, x: Call) -> usize {
    put(terminal, page, at, |line| found_text(second, x, line))
}

// No call stands in either book, on a page.
pub fn put_none(terminal: &Terminal, page: &mut [u8], at: usize) -> usize {
    say::add(terminal, page, at, b"none\n")
}

// Whose month it is, and how many calls its book has, on a page.
pub fn put_header(
    terminal: &Terminal,
    page: &mut [u8],
    at: usize,
    h: Header,
    calls: usize,
) -> usize {
    put(terminal, page, at, |line| header_text(h, calls, line))
}

// The same of a book that is shown or written, with its version where that is the second.
pub fn put_book(
    terminal: &Terminal,
    page: &mut [u8],
    at: usize,
    version: u16,
    h: Header,
    calls: usize,
) -> usize {
    put(
        terminal,
        page,
        at,
        |line| book_text(version, h, calls, line),
    )
}

// The turns of a join, by the book that was joined in, or of all joins together, on a page.
pub fn put_turns(
    terminal: &Terminal,
    page: &mut [u8],
    at: usize,
    what: &[u8],
    turns: usize,
) -> usize {
    put_of(
        terminal,
        page,
        at,
        what,
        |name, line| turns_text(name, turns, line),
    )
}

// A member's tab, on a page: how many calls it has, and how many of them are live, contested and withdrawn.
pub fn put_tab(
    terminal: &Terminal,
    page: &mut [u8],
    at: usize,
    member: u16,
    calls: u16,
    live: u16,
    contested: u16,
    withdrawn: u16,
) -> usize {
    put(
        terminal,
        page,
        at,
        |line| tab_text(member, calls, live, contested, withdrawn, line),
    )
}

// A member's score, on a page.
pub fn put_score(
    terminal: &Terminal,
    page: &mut [u8],
    at: usize,
    grains: Grains,
    fen: Fen,
) -> usize {
    put(terminal, page, at, |line| score_text(grains, fen, line))
}
