// Two books side by side: the refusals of both, and whose record comes first.
#![tactic(auto)]

ghost use Rattle.std.specs.Prelude.{◌≡◌, ◌+◌, ◌≤◌, ltb, length};
ghost use Rattle.call.specs.Key.{call_key};
ghost use Rattle.call.specs.Layout.{record_size, call_at};
ghost use Rattle.pair.specs.Screening.{both_sound, same_month, screen};

use book::{Header, Verdict, check, header_at, refused};
use call::layout::{call_number_at, participant_at};

// The refusals of each book alone: the first book's, then the second's, whose numbers are raised by 20.
pub fn both_sound(first: &[u8], second: &[u8]) -> Verdict
    ensures { result ≡ both_sound first.now second.now }
{
    let v = check(first);
    if v.number != 0 {
        return v;
    }
    let w = check(second);
    if w.number != 0 {
        return refused(w.number + 20, w.place);
    }
    refused(0, 0)
}

pub fn same_month(h: Header, k: Header) -> bool
    ensures { result ≡ same_month h k }
{
    h == k
}

// The refusals that need no look at what the join gives: both books sound, then of one month.
pub fn screen(first: &[u8], second: &[u8]) -> Verdict
    ensures { result ≡ screen first.now second.now }
{
    let v = both_sound(first, second);
    if v.number != 0 {
        return v;
    }
    if !same_month(header_at(first), header_at(second)) {
        return refused(7, 0);
    }
    refused(0, 0)
}

// Whether one record's key is below another's: by participant, then number.
pub fn precedes(x: &[u8], a: usize, y: &[u8], b: usize) -> bool
    requires record_size_in_bounds { a + record_size ≤ length x.now }
    requires record_size_in_bounds_2 { b + record_size ≤ length y.now }
    ensures { result ≡ ltb (call_key (call_at x.now a)) (call_key (call_at y.now b)) }
{
    let p = participant_at(x, a);
    let q = participant_at(y, b);
    if p == q {
        let k = call_number_at(x, a);
        let l = call_number_at(y, b);
        return k < l;
    }
    p < q
}
