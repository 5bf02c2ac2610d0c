// Books that add nothing to others.
ghost use Rattle.std.specs.Prelude.{◌≡◌, ◌<◌};
ghost use Rattle.rule.specs.Whole.{all};
ghost use Rattle.book.specs.Book.{count_at, record_at, calls_of};
ghost use Rattle.pair.specs.Screening.{IsAccepted};
ghost use Rattle.drawer.specs.Nothing.{is_covered, adds_nothing};
ghost use Rattle.drawer.specs.Inner.{is_first};

use book::{count_at, place_of, record_at};
use lookup::index_of;
use pair::screen;
use rule::{Decision, decide_at};

// Stays by hand: each decision has its arm, and must-fail/contesting_book_left_out turns the third about.
fn is_first(decision: Decision) -> bool
    ensures { result ≡ is_first decision }
{
    match decision {
        Decision::First => true,
        Decision::Second => false,
        Decision::Struck => false,
    }
}

// Whether the others have for the key of record i a record that stands against it.
fn covered_at(others: &[u8], book: &[u8], i: usize) -> bool
    requires accepted { IsAccepted others.now }
    requires accepted_2 { IsAccepted book.now }
    requires i_bound { i < count_at book.now }
    ensures { result ≡ is_covered (calls_of others.now) (record_at book.now i) }
{
    let x = record_at(book, i);
    match index_of(x.key(), others) {
        None => false,
        Some(j) => is_first(decide_at(others, place_of(j), book, place_of(i))),
    }
}

// Whether they have for each.
fn all_covered(others: &[u8], book: &[u8]) -> bool
    requires accepted { IsAccepted others.now }
    requires accepted_2 { IsAccepted book.now }
    ensures { result ≡ all (is_covered (calls_of others.now)) (calls_of book.now) }
{
    for i in 0..count_at(book) {
        if !covered_at(others, book, i) {
            return false;
        }
    }
    true
}

// Whether a book adds nothing to the others, which come joined: what they have stands against each of its calls. Both are checked whole
// first; where joining would refuse the two, it does add.
pub fn adds_nothing(others: &[u8], book: &[u8]) -> bool
    ensures { result ≡ adds_nothing others.now book.now }
{
    let v = screen(others, book);
    if v.number != 0 {
        return false;
    }
    all_covered(others, book)
}
