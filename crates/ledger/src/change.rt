// New books, and changes to one: each a book of one record, joined in. The file that is written is held from before the book is read until it is replaced.
ghost use Rattle.std.specs.Prelude.{◌<◌};

use crate::books::{Joined, is_brought, is_second, join_bytes, put_renewed, whose};
use crate::pages::{Run, leave, no_page, page_at, put_run, with_page};
use book::write::{write_none, write_one};
use book::{HEADER_SIZE, Header};
use call::{Call, Content, LIVE, RECORD_SIZE};
use clerk::args::{
    byte_at, first, integer_at, is_start, length_at, long_at, service_at, short_at, start_at,
};
use clerk::print;
use clerk::shelf::{Compared, compared_at, hold_at, load_at, opened_at, tell_failed};
use clerk::wrong::{tell_call, tell_header, tell_no_day};
use files::Hold;
use say::Terminal;
use units::calendar::days_of;
use wish::{Unchanged, Wish, old_in, verdict_of};

// The arguments that name the file to write and the book to read.
pub const OUT: usize = 2;

pub const BOOK: usize = 3;

// The argument that says when a call starts, where it is entered and where it is revised.
const ENTERED: usize = 7;

const REVISED: usize = 8;

// A call enters at revision 1, and has at most this one.
const FIRST_REVISION: u32 = 1;

pub const HIGHEST: u32 = 0xffff_ffff;

// What the six arguments from i on ask for a call to be.
fn content(terminal: &Terminal, i: usize) -> Option<Content>
    requires { i < 10 }
{
    let service = service_at(terminal, i)?;
    let start = start_at(terminal, i + 1)?;
    let length = length_at(terminal, i + 2)?;
    let a = integer_at(terminal, i + 3)?;
    let b = long_at(terminal, i + 4)?;
    let c = long_at(terminal, i + 5)?;
    Some(Content {
        service,
        start,
        length,
        a,
        b,
        c,
    })
}

fn blank(member: u16, call: u32, revision: u32) -> Call {
    Call {
        participant: member,
        service: 0,
        state: LIVE,
        number: call,
        revision,
        start: 0,
        length: 0,
        a: 0,
        b: 0,
        c: 0,
    }
}

// The record that stands for the key of x.
fn old_of(book: &[u8], x: Call) -> Option<Call> {
    old_in(book, x.participant, x.number)
}

fn tell_old(terminal: &Terminal, old: Option<Call>) {
    if let Some(y) = old {
        print::call(terminal, y);
    }
}

// That a revision as high stands. Above the highest there is none.
pub fn tell_not_higher(terminal: &Terminal, revision: u32) {
    if revision == HIGHEST {
        print::unchanged(
            terminal,
            b"the highest revision stands, and can only be withdrawn",
        );
        return;
    }
    print::not_higher(terminal, revision);
}

// That the call is withdrawn.
fn tell_withdrawn(terminal: &Terminal, wish: Wish) {
    if let Wish::Withdraw = wish {
        print::unchanged(terminal, b"the call is withdrawn already");
        return;
    }
    print::unchanged(
        terminal,
        b"the call is withdrawn, and needs a new call number",
    );
}

// Why nothing is changed, behind the record that stands.
fn tell_unchanged(terminal: &Terminal, wish: Wish, old: Option<Call>, why: Unchanged) {
    tell_old(terminal, old);
    match why {
        Unchanged::InUse => print::unchanged(
            terminal,
            b"the number is in use, revise the call or give another number",
        ),
        Unchanged::NotHigher(revision) => tell_not_higher(terminal, revision),
        Unchanged::Withdrawn => tell_withdrawn(terminal, wish),
    }
}

// The call joined into the book's first n bytes, and the page brought forward where one is brought, where that changes anything. Nothing else, and one line has said why.
// Stays by hand: the buffer has room behind the n bytes, which a join needs.
pub fn join_one(
    terminal: &Terminal,
    wish: Wish,
    x: Call,
    header: Header,
    book: &mut [u8],
    n: usize,
    page: &mut [u8],
) -> Option<usize> {
    let mut one = [0u8; HEADER_SIZE + RECORD_SIZE];
    let w = write_one(header, x, &mut one);
    if w.number != 0 {
        tell_call(terminal, header, x);
        print::refused(terminal, w.number, w.place, b"call");
        return None;
    }
    let old = old_of(first(book, n), x);
    if let Err(why) = verdict_of(wish, x, old) {
        tell_unchanged(terminal, wish, old, why);
        return None;
    }
    let added = join_bytes(terminal, BOOK, book, n, &one, page)?;
    Some(added.size)
}

// A withdrawal that names no revision: at that of the call which stands.
fn withdrawal(terminal: &Terminal, book: &[u8], member: u16, call: u32) -> Option<Call> {
    if let Some(y) = old_in(book, member, call) {
        return Some(blank(y.participant, y.number, y.revision).withdrawn());
    }
    tell_failed(
        terminal,
        BOOK,
        b"does not have the call, so that a revision must be given",
    );
    None
}

// Whether the day of the start that argument i says is one of the book's month; where it is not, one line has said so.
fn is_in_month(terminal: &Terminal, i: usize, header: Header) -> bool {
    let days = days_of(header.year, header.month);
    if is_start(terminal, i, days) {
        return true;
    }
    tell_no_day(terminal, i, days);
    false
}

// The book that argument 3 names, changed in its first bytes, and its page brought forward where it has one.
fn changed<F: FnOnce(Header, &mut [u8], usize, &mut [u8]) -> Option<usize>>(
    terminal: &Terminal,
    book: &mut [u8],
    has: bool,
    page: &mut [u8],
    change: F,
) -> Option<Joined>
    requires { F.IsAlwaysCallable change }
{
    let n = load_at(terminal, BOOK, book)?;
    let o = opened_at(terminal, BOOK, first(book, n));
    if o.number != 0 {
        return None;
    }
    let own = page_at(terminal, BOOK, has, first(book, n), page)?;
    let second = is_second(first(book, n));
    let size = change(o.header, book, n, own)?;
    Some(Joined {
        size,
        second,
        brought: is_brought(own),
    })
}

// Whether the file that is held may be written: it is new, or it is the book that is read. Where it may not, one line has said why.
fn is_open(terminal: &Terminal, hold: &Hold) -> bool {
    if !hold.node.is_there() {
        return true;
    }
    match compared_at(terminal, hold, BOOK) {
        Compared::Same => return true,
        Compared::Other => tell_failed(
            terminal,
            OUT,
            b"is there already, and is not the book that is read",
        ),
        Compared::Unknown => tell_failed(terminal, BOOK, b"cannot be looked at"),
    }
    false
}

// The file that is to be written, held, with the page that takes part; where it may not be written, nothing is held, and one line has said why.
fn held_out(terminal: &Terminal) -> Option<Run> {
    let hold = hold_at(terminal, OUT, false)?;
    if !is_open(terminal, &hold) {
        files::release(terminal.system(), hold);
        return None;
    }
    with_page(terminal, hold, BOOK)
}

// What stands of the call now, on a page.
fn put_old(terminal: &Terminal, page: &mut [u8], at: usize, old: Option<Call>) -> usize {
    if let Some(y) = old {
        return print::put_call(terminal, page, at, y);
    }
    at
}

// What stands of a member's calls in the book that was written, and `ok`.
fn tell_changed(terminal: &Terminal, second: bool, book: &[u8], member: u16, calls: &[u32]) {
    let mut page = io::buffer();
    let mut at = put_renewed(terminal, &mut page, 0, OUT, second, book);
    for call in calls {
        at = put_old(terminal, &mut page, at, old_in(book, member, *call));
    }
    print::finish(terminal, &mut page, at);
}

// The book changed, and stored as argument 2, which may be there only where it is that book. Then what stands of these calls of a member is told. The change is given the month, the book in
// the first bytes of a buffer, how many they are, and the page; it gives how many bytes the book has then, or none, and one line has said why. Each command has the buffers on the stack for
// itself alone.
#[inline(never)]
pub fn apply<F: FnOnce(Header, &mut [u8], usize, &mut [u8]) -> Option<usize>>(
    terminal: &Terminal,
    member: u16,
    calls: &[u32],
    change: F,
)
    requires { F.IsAlwaysCallable change }
{
    let Some(run) = held_out(terminal) else {
        return;
    };
    let mut book = io::large_buffer();
    let mut page = no_page();
    let Some(joined) = changed(terminal, &mut book, run.first, &mut page, change) else {
        leave(terminal, run);
        return;
    };
    let written = first(&book, joined.size);
    if put_run(terminal, run, OUT, written, joined.brought, &page) {
        tell_changed(terminal, joined.second, written, member, calls);
    }
}

// The area, year and month that arguments 3 to 5 say.
fn header_asked(terminal: &Terminal) -> Option<Header> {
    let area = byte_at(terminal, 3)?;
    let year = short_at(terminal, 4)?;
    let month = byte_at(terminal, 5)?;
    Some(Header { area, year, month })
}

pub fn new_book(terminal: &Terminal) {
    if let Some(header) = header_asked(terminal) {
        make(terminal, header);
    }
}

fn make(terminal: &Terminal, header: Header) {
    let mut out = [0u8; HEADER_SIZE];
    let w = write_none(header, &mut out);
    if w.number != 0 {
        tell_header(terminal, b"header", header);
        print::refused(terminal, w.number, w.place, b"header");
        return;
    }
    if let Some(hold) = hold_at(terminal, OUT, true) {
        make_held(terminal, hold, &out);
    }
}

// The new book stored in the file that is held, beside which no page may stand.
fn make_held(terminal: &Terminal, hold: Hold, book: &[u8]) {
    let Some(run) = with_page(terminal, hold, OUT) else {
        return;
    };
    if put_run(terminal, run, OUT, book, false, &[]) {
        print::done(terminal);
    }
}

// The call joined in whose start argument i says.
fn apply_started(terminal: &Terminal, wish: Wish, x: Call, i: usize) {
    apply(
        terminal,
        x.participant,
        &[x.number],
        |header, book, n, page| {
            if !is_in_month(terminal, i, header) {
                return None;
            }
            join_one(terminal, wish, x, header, book, n, page)
        },
    );
}

pub fn enter(terminal: &Terminal) {
    let Some((member, call)) = whose(terminal) else {
        return;
    };
    if let Some(asked) = content(terminal, 6) {
        let x = blank(member, call, FIRST_REVISION).revised(FIRST_REVISION, asked);
        apply_started(terminal, Wish::Enter, x, ENTERED);
    }
}

pub fn revise(terminal: &Terminal) {
    let Some((member, call)) = whose(terminal) else {
        return;
    };
    let Some(revision) = long_at(terminal, 6) else {
        return;
    };
    if let Some(asked) = content(terminal, 7) {
        let x = blank(member, call, FIRST_REVISION).revised(revision, asked);
        apply_started(terminal, Wish::Revise, x, REVISED);
    }
}

pub fn withdraw(terminal: &Terminal) {
    let Some((member, call)) = whose(terminal) else {
        return;
    };
    if say::arguments(terminal) < 7 {
        apply(terminal, member, &[call], |header, book, n, page| {
            let x = withdrawal(terminal, first(book, n), member, call)?;
            join_one(terminal, Wish::Withdraw, x, header, book, n, page)
        });
        return;
    }
    if let Some(revision) = long_at(terminal, 6) {
        let x = blank(member, call, revision).withdrawn();
        apply(terminal, member, &[call], |header, book, n, page| {
            join_one(terminal, Wish::Withdraw, x, header, book, n, page)
        });
    }
}
