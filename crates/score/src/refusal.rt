// Refusals 14, 12 and 13 of one record.
ghost use Rattle.std.specs.Prelude.{◌≡◌, true, ◌+◌, ◌≤◌, length};
ghost use Rattle.book.specs.Book.{size_of, record_at};
ghost use Rattle.score.specs.Refusing.{overlaps, is_once, clashes, clash_before, first_own, number_of, refusal_at};
ghost use Rattle.score.specs.Scoring.{is_own_live};
ghost use Rattle.score.specs.Inner.{NoneBefore, idle_refusal, EndsKept, with_end, starts_after};

use book::record_at;
use call::service::{AGC_AVAILABILITY, AGC_CONTRIBUTION, AVC, BLACK_START, STANDBY};
use call::{CONTESTED, Call, LIVE};
use pay::Member;
use pay::open::{Month, open_to};

// In 32 bits, so that no end wraps.
#[tactic(auto, unfolding(crate::specs::Refusing::overlaps))]
fn overlaps(x: Call, y: Call) -> bool
    ensures { result ≡ overlaps x y }
{
    let from = x.start as u32;
    let to = from + x.length as u32;
    let since = y.start as u32;
    let until = since + y.length as u32;
    (from < until) & (since < to)
}

#[tactic(auto, unfolding(crate::specs::Refusing::is_once))]
fn is_once(service: u8) -> bool
    ensures { result ≡ is_once service }
{
    (service == BLACK_START)
        | (service == AGC_AVAILABILITY)
        | (service == AGC_CONTRIBUTION)
        | (service == AVC)
}

#[tactic(auto, unfolding(crate::specs::Refusing::clashes))]
pub fn clashes(number: u16, x: Call, y: Call) -> bool
    ensures { result ≡ clashes number x y }
{
    let one = (y.participant == number) & (y.state == LIVE) & (y.service == x.service);
    if !one {
        return false;
    }
    let shared = overlaps(x, y);
    let second = is_once(x.service);
    (x.service <= STANDBY) & shared | second
}

// The index of the member's first record, or the count.
pub fn first_own(b: &[u8], count: usize, number: u16) -> usize
    requires { size_of count ≤ length b.now }
    ensures { result ≡ first_own number (record_at b.now) count }
{
    for i in 0..count {
        let x = record_at(b, i);
        if x.participant == number {
            return i;
        }
    }
    count
}

// Whether an earlier record stands against x, record i. For speed the search starts at the member's first record, and is left out
// where the service can't clash: a member's records lie together, and events and trips are many.
fn clash_before(b: &[u8], first: usize, i: usize, number: u16, x: Call) -> bool
    requires i_in_bounds { size_of i ≤ length b.now }
    requires none_before { NoneBefore number (record_at b.now) first }
    ensures { result ≡ clash_before number x (record_at b.now) i }
{
    let second = is_once(x.service);
    if !((x.service <= STANDBY) | second) {
        return false;
    }
    for j in first..i {
        if clashes(number, x, record_at(b, j)) {
            return true;
        }
    }
    false
}

// Whether x, of a service whose calls may not overlap, starts no earlier than the latest end of its service; its own end is then among
// the ends. They stand at the numbers of services 1 to 4, so that none is searched for; no call has service 0.
fn starts_after(x: Call, ends: &mut [u32; 5]) -> bool
    ensures value { result ≡ starts_after x ends.old }
    ensures ends_after { ends.new ≡ with_end x ends.old }
{
    if STANDBY < x.service {
        return false;
    }
    let service = x.service as usize;
    let start = x.start as u32;
    let end = start + x.length as u32;
    let latest = ends[service];
    ends[service] = latest.max(end);
    latest <= start
}

// As clash_before, and the end of x is then among the latest ends. For speed earlier records are not searched where x starts no earlier
// than the latest end of its service, as it then overlaps none: of calls in the order of time none is searched for.
fn clash_by_ends(
    b: &[u8],
    first: usize,
    i: usize,
    number: u16,
    x: Call,
    ends: &mut [u32; 5],
) -> bool
    requires i_in_bounds { size_of i ≤ length b.now }
    requires none_before { NoneBefore number (record_at b.now) first }
    requires ends_kept { EndsKept number (record_at b.now) i ends.old }
    ensures value { result ≡ clash_before number x (record_at b.now) i }
    ensures ends_after { ends.new ≡ with_end x ends.old }
{
    if starts_after(x, ends) {
        return false;
    }
    clash_before(b, first, i, number, x)
}

// 12 is asked before 13.
#[tactic(auto, unfolding(crate::specs::Refusing::number_of))]
fn number_of(fit: bool, clash: bool) -> u32
    ensures { result ≡ number_of fit clash }
{
    if !fit {
        return 12;
    }
    if clash {
        return 13;
    }
    0
}

// The refusal of a record that is not a live one of the member: 14 where it is the member's and contested.
#[tactic(auto, unfolding(crate::specs::Inner::idle_refusal))]
pub fn idle_refusal(number: u16, x: Call) -> u32
    ensures { result ≡ idle_refusal number x }
{
    if (x.participant == number) & (x.state == CONTESTED) {
        return 14;
    }
    0
}

// The refusal of x, record i and a live one of the member, or 0; no record before `first` is the member's.
pub fn refusal_at(month: Month, member: Member, b: &[u8], first: usize, i: usize, x: Call) -> u32
    requires i_in_bounds { size_of i ≤ length b.now }
    requires x_value { x ≡ record_at b.now i }
    requires none_before { NoneBefore member.number (record_at b.now) first }
    requires x_value_2 { is_own_live member x ≡ true }
    ensures { result ≡ refusal_at month member (record_at b.now) i }
{
    let fit = open_to(month, member, x);
    let clash = clash_before(b, first, i, member.number, x);
    number_of(fit, clash)
}

// As refusal_at, on a walk over the records that keeps the latest ends: at first of the records before i and then, unless x is refused,
// of record i too. For speed 12 leaves at once, so that nothing is kept over the search.
pub fn refusal_by_ends(
    month: Month,
    member: Member,
    b: &[u8],
    first: usize,
    i: usize,
    x: Call,
    ends: &mut [u32; 5],
) -> u32
    requires i_in_bounds { size_of i ≤ length b.now }
    requires x_value { x ≡ record_at b.now i }
    requires none_before { NoneBefore member.number (record_at b.now) first }
    requires x_value_2 { is_own_live member x ≡ true }
    requires ends_kept { EndsKept member.number (record_at b.now) i ends.old }
    ensures value { result ≡ refusal_at month member (record_at b.now) i }
    ensures ends_kept_2 { result ≡ 0 → EndsKept member.number (record_at b.now) (i + 1) ends.new }
{
    if !open_to(month, member, x) {
        return 12;
    }
    if clash_by_ends(b, first, i, member.number, x, ends) {
        return 13;
    }
    0
}
