// A window cut in two: both parts joined into the book in memory, one after the other, so that the one write has both. By hand it takes two commands, and between them the plant is
// short of the second part.
use crate::books::whose;
use crate::change::{BOOK, HIGHEST, apply, join_one, tell_not_higher};
use book::Header;
use call::Call;
use clerk::args::{first, long_at, start_at};
use clerk::print;
use clerk::shelf::tell_failed;
use cutting::{NotCut, cut_of};
use say::Terminal;
use wish::Wish;

// The arguments that say where the window is cut, and the number of the part from there on.
const AT: usize = 6;

const NEW: usize = 7;

// What is asked: whose call is cut, which, at which minute, and the new number.
#[derive(Clone, Copy)]
struct Asked {
    member: u16,
    call: u32,
    at: u16,
    new: u32,
}

// That nothing is changed, and why, behind the call at which it shows.
fn tell_unchanged(terminal: &Terminal, x: Call, why: &[u8]) {
    print::call(terminal, x);
    print::unchanged(terminal, why);
}

// That a contested call is not cut, and what ends the contest: above the highest revision there is none.
fn tell_contested(terminal: &Terminal, x: Call) {
    let why: &[u8] = if x.revision == HIGHEST {
        b"the call is contested: only a withdrawal ends it"
    } else {
        b"the call is contested: a higher revision decides it"
    };
    tell_unchanged(terminal, x, why);
}

// That the call stands at the highest revision, so that its first part could have none.
fn tell_highest(terminal: &Terminal, x: Call) {
    print::call(terminal, x);
    tell_not_higher(terminal, x.revision);
}

// Both parts joined into the book's first n bytes, one after the other. Where the second is refused nothing is to be written, the first neither.
// Stays by hand: the buffer has room behind the n bytes, which a join needs.
fn join_parts(
    terminal: &Terminal,
    x: Call,
    y: Call,
    header: Header,
    book: &mut [u8],
    n: usize,
    page: &mut [u8],
) -> Option<usize> {
    let m = join_one(terminal, Wish::Revise, x, header, book, n, page)?;
    join_one(terminal, Wish::Enter, y, header, book, m, page)
}

// What stands in the way of the cut.
fn tell_not_cut(terminal: &Terminal, why: NotCut) {
    match why {
        NotCut::NoCall => tell_failed(terminal, BOOK, b"does not have the call"),
        NotCut::Withdrawn(x) => tell_unchanged(
            terminal,
            x,
            b"the call is withdrawn, and needs a new call number",
        ),
        NotCut::Contested(x) => tell_contested(terminal, x),
        NotCut::NoWindow(x) => tell_unchanged(
            terminal,
            x,
            b"only windows of deep-peak and reserve are cut",
        ),
        NotCut::Highest(x) => tell_highest(terminal, x),
        NotCut::NotInside(x) => print::not_inside(terminal, AT, x),
        NotCut::InUse(y) => tell_unchanged(
            terminal,
            y,
            b"the number is in use, give another number",
        ),
    }
}

// The window cut in the book's first n bytes, which are sound; or none, and one line has said what stands in the way.
// Stays by hand: the buffer has room behind the n bytes, which a join needs.
fn cut_in(
    terminal: &Terminal,
    asked: Asked,
    header: Header,
    book: &mut [u8],
    n: usize,
    page: &mut [u8],
) -> Option<usize> {
    let cut = cut_of(
        first(book, n),
        asked.member,
        asked.call,
        asked.at,
        asked.new,
    );
    match cut {
        Ok((x, y)) => join_parts(terminal, x, y, header, book, n, page),
        Err(why) => {
            tell_not_cut(terminal, why);
            None
        }
    }
}

// What the arguments ask for.
fn cut_asked(terminal: &Terminal) -> Option<Asked> {
    let (member, call) = whose(terminal)?;
    let at = start_at(terminal, AT)?;
    let new = long_at(terminal, NEW)?;
    Some(Asked {
        member,
        call,
        at,
        new,
    })
}

pub fn cut_call(terminal: &Terminal) {
    if let Some(asked) = cut_asked(terminal) {
        apply(
            terminal,
            asked.member,
            &[asked.call, asked.new],
            |header, book, n, page| cut_in(terminal, asked, header, book, n, page),
        );
    }
}
