// The page of tabs beside a book: made, read, brought forward by the runs that write a book; and a member's calls, found by it.
use crate::books::{is_brought, show_calls};
use call::MOST_PARTICIPANT;
use clerk::args::{first, short_at};
use clerk::print;
use clerk::shelf::{
    has_page_at, hold_at, hold_page, load_page_at, open, opened_at, put, put_both, put_page,
    refused_at, unfit_at,
};
use clerk::wrong::tell_number;
use files::Hold;
use files::beside::{is_paged, release_both};
use say::Terminal;
use tabs::page::PAGE_SIZE;
use tabs::{Tab, tab_of};

// The argument that names the book whose page is made or asked.
const BOOK: usize = 2;

// Whose calls are asked for.
const MEMBER: usize = 3;

// What a run that writes a book holds: the book, and its page where one takes part, that of this book or of the first that is read; and whether the first has one.
#[derive(Drop)]
pub struct Run {
    pub book: Hold,
    pub page: Option<Hold>,
    pub first: bool,
}

// Room for a page.
pub fn no_page() -> [u8; PAGE_SIZE] {
    [0; PAGE_SIZE]
}

// A book without a page.
pub fn alone(book: Hold) -> Run {
    Run {
        book,
        page: None,
        first: false,
    }
}

// A run that holds the book which it writes, with the page that takes part; argument i names the first book that is read. A page that comes later is not looked at. Where the page is not
// held nothing is, and one line has said why.
pub fn with_page(terminal: &Terminal, book: Hold, i: usize) -> Option<Run> {
    let own = is_paged(terminal.system(), &book);
    let first = has_page_at(terminal, i);
    if !(own | first) {
        return Some(alone(book));
    }
    let page = hold_page(terminal, &book);
    if page.is_none() {
        files::release(terminal.system(), book);
        return None;
    }
    Some(Run { book, page, first })
}

// Nothing is held any longer, and nothing is written.
pub fn leave(terminal: &Terminal, run: Run) {
    let Run { book, page, .. } = run;
    match page {
        Some(page) => release_both(terminal.system(), book, page),
        None => files::release(terminal.system(), book),
    }
}

// The page of the sound book that argument i names, which is brought along: empty where the book has none. One that cannot be read or does not fit is none, and one line has said why.
pub fn page_at<'a>(
    terminal: &Terminal,
    i: usize,
    has: bool,
    book: &[u8],
    page: &'a mut [u8],
) -> Option<&'a mut [u8]> {
    if !has {
        return Some(&mut []);
    }
    let Some(n) = load_page_at(terminal, i, page)? else {
        return Some(&mut []);
    };
    let v = tabs::fitting(book, first(page, n));
    if v.number != 0 {
        unfit_at(terminal, i, v.number, v.place);
        return None;
    }
    Some(page)
}

// The page of the sound book that argument i names, made afresh.
fn make_page(terminal: &Terminal, i: usize, book: &[u8], page: &mut [u8]) -> bool {
    let v = tabs::tabs(book, page);
    if v.number == 0 {
        return true;
    }
    refused_at(terminal, v.number, v.place, i);
    false
}

// The book stored, and its page made afresh.
fn put_afresh(terminal: &Terminal, hold: Hold, beside: Hold, out: usize, book: &[u8]) -> bool {
    let mut page = no_page();
    if make_page(terminal, out, book, &mut page) {
        return put_both(terminal, hold, beside, out, book, &page);
    }
    release_both(terminal.system(), hold, beside);
    false
}

// The book stored that argument `out` names. It has a page where one is brought forward, or where it had one.
pub fn put_run(
    terminal: &Terminal,
    run: Run,
    out: usize,
    book: &[u8],
    brought: bool,
    page: &[u8],
) -> bool {
    let Run {
        book: hold,
        page: beside,
        ..
    } = run;
    let Some(beside) = beside else {
        return put(terminal, hold, out, book);
    };
    if brought {
        return put_both(terminal, hold, beside, out, book, page);
    }
    if beside.node.is_there() {
        return put_afresh(terminal, hold, beside, out, book);
    }
    files::release(terminal.system(), beside);
    put(terminal, hold, out, book)
}

// A member's line, behind the first `at` bytes of the lines.
fn put_line(terminal: &Terminal, lines: &mut [u8], at: usize, member: u16, tab: Tab) -> usize {
    print::put_tab(
        terminal,
        lines,
        at,
        member,
        tab.count,
        tab.live,
        tab.contested,
        tab.withdrawn,
    )
}

// The same where the member has a record.
fn put_if_any(terminal: &Terminal, lines: &mut [u8], at: usize, member: u16, tab: Tab) -> usize {
    if tab.count == 0 {
        return at;
    }
    put_line(terminal, lines, at, member, tab)
}

// A line for each member that has a record, and `ok`.
fn tell_tabs(terminal: &Terminal, page: &[u8]) {
    let mut lines = io::buffer();
    let mut at: usize = 0;
    for member in 1..=MOST_PARTICIPANT {
        at = put_if_any(terminal, &mut lines, at, member, tab_of(page, member));
    }
    print::finish(terminal, &mut lines, at);
}

// The page of the book that argument 2 names, made afresh, where the book is sound.
fn make_sound(terminal: &Terminal, page: &mut [u8]) -> bool {
    let mut book = io::large_buffer();
    let Some(n) = open(terminal, BOOK, &mut book) else {
        return false;
    };
    make_page(terminal, BOOK, first(&book, n), page)
}

// The same, stored in the page that is held, beside the book that is held and stays.
fn make_held(terminal: &Terminal, book: Hold, page: Hold) {
    let mut tabs = no_page();
    if !make_sound(terminal, &mut tabs) {
        release_both(terminal.system(), book, page);
        return;
    }
    if put_page(terminal, book, page, &tabs) {
        tell_tabs(terminal, &tabs);
    }
}

pub fn make_tabs(terminal: &Terminal) {
    let Some(book) = hold_at(terminal, BOOK, false) else {
        return;
    };
    match hold_page(terminal, &book) {
        Some(page) => make_held(terminal, book, page),
        None => files::release(terminal.system(), book),
    }
}

// The member's line by a page that fits the book, and its calls.
fn tell_calls(terminal: &Terminal, book: &[u8], page: &[u8], member: u16) {
    let o = opened_at(terminal, BOOK, book);
    if o.number != 0 {
        return;
    }
    let tab = tab_of(page, member);
    let from = usize::from(tab.index);
    let behind = from + usize::from(tab.count);
    let end = behind.min(o.calls);
    let mut lines = io::large_buffer();
    let at = put_line(terminal, &mut lines, 0, member, tab);
    let all = show_calls(terminal, book, from, end, &mut lines, at);
    print::finish(terminal, &mut lines, all);
}

// The page of a sound book: its own where it has one, or one made afresh.
fn page_or_made(terminal: &Terminal, book: &[u8], page: &mut [u8]) -> bool {
    let Some(own) = page_at(terminal, BOOK, has_page_at(terminal, BOOK), book, page) else {
        return false;
    };
    if is_brought(own) {
        return true;
    }
    make_page(terminal, BOOK, book, page)
}

// The calls of a member in the book that argument 2 names.
fn list_of(terminal: &Terminal, member: u16) {
    let mut book = io::large_buffer();
    let Some(n) = open(terminal, BOOK, &mut book) else {
        return;
    };
    let mut page = no_page();
    if page_or_made(terminal, first(&book, n), &mut page) {
        tell_calls(terminal, first(&book, n), &page, member);
    }
}

pub fn list_calls(terminal: &Terminal) {
    let Some(member) = short_at(terminal, MEMBER) else {
        return;
    };
    if (1..=MOST_PARTICIPANT).contains(&member) {
        list_of(terminal, member);
        return;
    }
    tell_number(terminal, member);
    print::refused(terminal, 10, 0, b"member");
}
