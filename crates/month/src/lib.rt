// The month as one operation: the generators' part, the register, the joined book, the members' series and ramping files in, the month's statement out.
#![tactic(auto)]

ghost use Rattle.std.specs.Prelude.{◌≡◌, ◌≤◌, take};
ghost use Rattle.book.specs.Book.{HasHeader};
ghost use Rattle.ceiling.specs.Ceiling.{ceiling};
ghost use Rattle.register.specs.Register.{most_entries};
ghost use Rattle.month.specs.Settling.{month_refused, earnings, earned_month, shared_month, settling};

use book::{Header, check, count_at, header_at};
use ceiling::{LimitedLine, ceiled_array};
use register::{Entry, MOST_ENTRIES, first_bad_entry, limited_for};
use share::array::seen;
use share::limits::MOST_PART;
use units::{Fen, Grains, Mwh, SignedFen, Thousandths};

pub mod listed;
pub mod members;
pub mod rows;

use listed::first_unlisted;
use members::{compensations, members_earned};
use rows::{blank_rows, filled_rows, is_below};

// Why a month is not settled: the generators' part; a register's line; a book's refusal, by number and place; the call of a member without a line; a line whose
// member is refused, by number and place; a line whose ramping file is refused, by number and place; sharing's refusal, by number and place.
#[derive(Clone, Copy)]
pub enum Fault {
    NoFault,
    InPart,
    InRegister(usize),
    InBook(u32, usize),
    Unlisted(usize),
    OfMember(usize, u32, usize),
    OfRamping(usize, u32, usize),
    InSharing(u32, usize),
}

// What a member's ramping file gives: a refusal's number and place, or zeros; how many hours it has, and their grains together. All zeros
// where there is no file.
#[derive(Clone, Copy)]
pub struct Ramped {
    pub grains: Grains,
    pub place: usize,
    pub number: u32,
    pub hours: u16,
}

// A member's line of the statement: its share is the first sharing's; what is not collected of it, and what it gives up. The short fields come last, so that no gap stands between the others.
#[derive(Clone, Copy)]
pub struct Row {
    pub grains: Grains,
    pub compensation: Fen,
    pub weight: u64,
    pub share: SignedFen,
    pub uncollected: Fen,
    pub given: Fen,
    pub amount: SignedFen,
    pub assessment: Thousandths,
    pub energy: Mwh,
    pub number: u16,
    pub hours: u16,
}

// The statement: why there is none, and zeros; or the book's header and its calls, the generators' part, R, the user's amount, and a line for
// each member.
#[derive(Clone, Copy)]
pub struct Statement {
    pub calls: usize,
    pub gap: SignedFen,
    pub user: SignedFen,
    pub count: usize,
    pub rows: [Row; MOST_ENTRIES],
    pub fault: Fault,
    pub part: u32,
    pub header: Header,
}

// A refusal, otherwise zeros.
fn month_refused(fault: Fault) -> Statement
    ensures { result ≡ month_refused fault }
{
    let rows = blank_rows();
    Statement {
        calls: 0,
        gap: SignedFen(0),
        user: SignedFen(0),
        count: 0,
        rows,
        fault,
        part: 0,
        header: Header {
            area: 0,
            year: 0,
            month: 0,
        },
    }
}

// The lines shared within their limits, with what each member earned; or sharing's refusal.
fn shared_month(
    part: u32,
    book: &[u8],
    lines: [LimitedLine; MOST_ENTRIES],
    grains: [Grains; MOST_ENTRIES],
    ramped: [Ramped; MOST_ENTRIES],
    count: usize,
) -> Statement
    requires has_header { HasHeader book.now }
    requires count_le_most_entries { count ≤ most_entries }
    ensures { result ≡ shared_month part book.now (take count lines) (take count grains) ramped (ceiling part (take count lines)) }
{
    let shared = ceiled_array(part, lines, count);
    let number = shared.number;
    if number != 0 {
        return month_refused(Fault::InSharing(number, shared.place));
    }
    let gap = shared.gap;
    let user = shared.user;
    let filled = shared.lines;
    let negative = is_below(gap);
    let rows = filled_rows(filled, grains, ramped, count, negative);
    let header = header_at(book);
    let calls = count_at(book);
    Statement {
        calls,
        gap,
        user,
        count,
        rows,
        fault: Fault::NoFault,
        part,
        header,
    }
}

// The members in turn, then sharing.
fn earned_month(
    part: u32,
    entries: [Entry; MOST_ENTRIES],
    count: usize,
    book: &[u8],
    series: &[u32],
    lengths: [usize; MOST_ENTRIES],
    ramped: [Ramped; MOST_ENTRIES],
) -> Statement
    requires has_header { HasHeader book.now }
    requires count_le_most_entries { count ≤ most_entries }
    ensures { result ≡ earned_month part (take count entries) book.now ramped (earnings (take count entries) book.now series.now lengths ramped) }
{
    match members_earned(&entries[..count], book, series, lengths, ramped) {
        Ok(grains) => {
            let fens = compensations(grains);
            let lines = limited_for(entries, fens);
            shared_month(part, book, lines, grains, ramped, count)
        }
        Err(fault) => month_refused(fault),
    }
}

// The month: the part, the register, the book, calls of members without a line, the members in turn, sharing. The first of them that is at fault is told.
pub fn settle(
    part: u32,
    entries: [Entry; MOST_ENTRIES],
    count: usize,
    book: &[u8],
    series: &[u32],
    lengths: [usize; MOST_ENTRIES],
    ramped: [Ramped; MOST_ENTRIES],
) -> Statement
    ensures { result ≡ settling (record { part = part; entries = take count entries; count = count; book = book.now; series = series.now; lengths = lengths; ramped = ramped }) }
{
    if MOST_PART < part {
        return month_refused(Fault::InPart);
    }
    let bad = first_bad_entry(entries, seen(count));
    if bad < count {
        return month_refused(Fault::InRegister(bad));
    }
    let verdict = check(book);
    let number = verdict.number;
    if number != 0 {
        return month_refused(Fault::InBook(number, verdict.place));
    }
    let n = count_at(book);
    let lines = &entries[..count];
    let call = first_unlisted(lines, book, n);
    if call < n {
        return month_refused(Fault::Unlisted(call));
    }
    earned_month(part, entries, count, book, series, lengths, ramped)
}
