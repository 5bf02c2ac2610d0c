// Records of a book that are not the one that stands for their key.
ghost use Rattle.std.specs.Prelude.{◌≡◌, ◌<◌};
ghost use Rattle.book.specs.Book.{count_at};
ghost use Rattle.rule.specs.Standing.{same_call};
ghost use Rattle.pair.specs.Screening.{IsAccepted};
ghost use Rattle.drawer.specs.Stale.{why_not, stale_of, first_stale, next_stale};
ghost use Rattle.drawer.specs.Inner.{turn_of};

use book::{count_at, record_at};
use call::{CONTESTED, Call, WITHDRAWN};
use lookup::index_of;
use pair::screen;

// Why a record does not stand: the call is withdrawn, there is a higher revision, it is contested at this revision; for none of these where
// the record that stands does not come from joining it.
#[derive(Clone, Copy)]
pub enum Why {
    Withdrawn,
    Higher,
    Contested,
    Other,
}

// A record that is not the one that stands for its key: its index, that of the record that stands, where there is one, and why.
#[derive(Clone, Copy)]
pub struct StaleRecord {
    pub place: usize,
    pub stands: Option<usize>,
    pub why: Why,
}

// The next such record; none; or two books that joining would refuse, by number and place.
#[derive(Clone, Copy)]
pub enum NextStale {
    BadBooks(u32, usize),
    NoneLeft,
    Next(StaleRecord),
}

fn same_call(x: Call, y: Call) -> bool
    ensures { result ≡ same_call x y }
{
    x == y
}

// Why x does not stand where y does.
fn why_not(y: Call, x: Call) -> Why
    ensures { result ≡ why_not y x }
{
    if (y.state == WITHDRAWN) & (x.state != WITHDRAWN) {
        return Why::Withdrawn;
    }
    if x.revision < y.revision {
        return Why::Higher;
    }
    if y.state == CONTESTED {
        return Why::Contested;
    }
    Why::Other
}

// What is told of record i, where it is not the one that stands for its key.
fn stale_turn(book: &[u8], joined: &[u8], i: usize) -> Option<StaleRecord>
    requires accepted { IsAccepted book.now }
    requires accepted_2 { IsAccepted joined.now }
    requires i_bound { i < count_at book.now }
    ensures { result ≡ turn_of book.now joined.now i }
{
    let x = record_at(book, i);
    let stands = index_of(x.key(), joined);
    match stands {
        None => Some(StaleRecord {
            place: i,
            stands,
            why: Why::Other,
        }),
        Some(j) => {
            let y = record_at(joined, j);
            if same_call(y, x) {
                return None;
            }
            let why = why_not(y, x);
            Some(StaleRecord {
                place: i,
                stands,
                why,
            })
        }
    }
}

// The next one from record i on, of two sound books.
fn stale_from(book: &[u8], joined: &[u8], i: usize) -> NextStale
    requires accepted { IsAccepted book.now }
    requires accepted_2 { IsAccepted joined.now }
    ensures { result ≡ first_stale (stale_of book.now joined.now i) }
{
    for at in i..count_at(book) {
        if let Some(told) = stale_turn(book, joined, at) {
            return NextStale::Next(told);
        }
    }
    NextStale::NoneLeft
}

// The next record of a book, from record i on, that is not the one that the joined book has for its key. Both books are checked whole first.
pub fn next_stale(book: &[u8], joined: &[u8], i: usize) -> NextStale
    ensures { result ≡ next_stale book.now joined.now i }
{
    let v = screen(book, joined);
    let number = v.number;
    if number != 0 {
        return NextStale::BadBooks(number, v.place);
    }
    stale_from(book, joined, i)
}
