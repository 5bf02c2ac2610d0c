// The live windows of a member and a service, and which minutes they cover.
ghost use Rattle.std.specs.Prelude.{◌≡◌, ◌≤◌, length};
ghost use Rattle.book.specs.Book.{most_keys, size_of};
ghost use Rattle.score.specs.Scoring.{is_own_live};
ghost use Rattle.reckon.specs.Reckoning.{is_window, covers};
ghost use Rattle.reckon.specs.Inner.{Placed, calls_at, first_over, Finds};

use book::{MOST_RECORDS, record_at};
use call::{Call, LIVE};
use pay::Member;

// Whether a call is a live one of the member.
// Stays two functions: the second way of scoring has no code of the first for what it reckons itself, so that a slip in one shows against the other.
#[tactic(auto, unfolding(score::specs::Scoring::is_own_live))]
pub fn is_own_live(member: Member, x: Call) -> bool
    ensures { result ≡ is_own_live member x }
{
    (x.participant == member.number) & (x.state == LIVE)
}

#[tactic(auto, unfolding(crate::specs::Reckoning::is_window))]
fn is_window(member: Member, service: u8, x: Call) -> bool
    ensures { result ≡ is_window member service x }
{
    let own = is_own_live(member, x);
    own & (x.service == service)
}

// Whether the minute begins no earlier than the window, and ends no later.
#[tactic(auto, unfolding(crate::specs::Reckoning::covers))]
pub fn covers(x: Call, minute: u32) -> bool
    ensures { result ≡ covers x minute }
{
    let begins = minute as u64;
    let ends = begins + 1;
    let from = x.start as u64;
    let to = from + x.length as u64;
    (from <= begins) & (ends <= to)
}

// The places of the windows in the book: so many at the front of `at`.
#[derive(Clone, Copy)]
pub struct Windows {
    pub count: usize,
    pub at: [usize; MOST_RECORDS],
}

// The first of the windows at these places that covers the minute.
pub fn first_over(b: &[u8], places: &[usize], minute: u32) -> Option<Call>
    requires { Placed b.now places.now }
    ensures { result ≡ first_over (calls_at b.now places.now) minute }
{
    for place in places {
        let x = record_at(b, *place);
        if covers(x, minute) {
            return Some(x);
        }
    }
    None
}

// The windows among the first n records. They are looked up once, so that a minute asks no other record.
pub fn windows_of(member: Member, service: u8, b: &[u8], n: usize) -> Windows
    requires n_in_bounds { size_of n ≤ length b.now }
    requires n_le_most_keys { n ≤ most_keys }
    ensures { Finds member service b.now n result }
{
    let mut at = [0usize; MOST_RECORDS];
    let mut count: usize = 0;
    for i in 0..n {
        if is_window(member, service, record_at(b, i)) {
            at[count] = i;
            count += 1;
        }
    }
    Windows { count, at }
}
