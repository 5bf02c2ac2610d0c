// Refusals of the member's records, which go the first way.
ghost use Rattle.std.specs.Prelude.{◌≡◌, ℕ, ◌<◌, ◌≤◌, length};
ghost use Rattle.call.specs.Revising.{withdrawn};
ghost use Rattle.book.specs.Book.{HasRecord, size_of, record_at};
ghost use Rattle.score.specs.Refusing.{refusal_at};
ghost use Rattle.score.specs.Scoring.{first_refused};
ghost use Rattle.score.specs.Inner.{NoneBefore};

use crate::windows::is_own_live;
use book::record_at;
use pay::Member;
use pay::open::Month;
use score::refusal::{first_own, idle_refusal, refusal_at};

// The refusal of record i, or 0; no record before `first` is the member's.
pub fn refusal_of(month: Month, member: Member, b: &[u8], first: usize, i: usize) -> u32
    requires has_record { HasRecord b.now i }
    requires i_bound { (record_at b.now i).state ≤ withdrawn }
    requires none_before { NoneBefore member.number (record_at b.now) first }
    ensures { result ≡ refusal_at month member (record_at b.now) i }
{
    let x = record_at(b, i);
    if !is_own_live(member, x) {
        return idle_refusal(member.number, x);
    }
    refusal_at(month, member, b, first, i, x)
}

// The first of n records that is refused, or n.
// Stays by hand: n is a number of records, no length of the bytes, which begin with the header.
pub fn first_refused(month: Month, member: Member, b: &[u8], n: usize) -> usize
    requires n_in_bounds { size_of n ≤ length b.now }
    requires by_index { (i : ℕ) → i < n → (record_at b.now i).state ≤ withdrawn }
    ensures { result ≡ first_refused month member (record_at b.now) n }
{
    let first = first_own(b, n, member.number);
    for i in 0..n {
        let number = refusal_of(month, member, b, first, i);
        if number != 0 {
            return i;
        }
    }
    n
}
