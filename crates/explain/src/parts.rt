// The parts of a member's live calls.
ghost use Rattle.std.specs.Prelude.{◌≡◌, true, [], ℕ, ◌*◌, ◌<◌, ◌≤◌, ⊤, length, MatchOption};
ghost use Rattle.std.specs.Int.Signed.{mag};
ghost use Rattle.call.specs.Limits.{call_is_sound};
ghost use Rattle.book.specs.Book.{most_keys, HasRecord, size_of};
ghost use Rattle.pay.specs.Live.{live_wh};
ghost use Rattle.pay.specs.Inner.{most_wh};
ghost use Rattle.score.specs.Inner.{Small, RecordIsSound};
ghost use Rattle.explain.specs.Explaining.{call_part, blank_part, filled_up};
ghost use Rattle.explain.specs.Inner.{part_turn, Finds};

use crate::CallPart;
use book::{MOST_RECORDS, record_at};
use call::Call;
use pay::Member;
use pay::event::{added, event_wh};
use pay::live::{is_by_energy, live_pay, live_rate, quarters_paid};
use score::is_own_live;
use units::{Grains, Wh};

#[tactic(auto, unfolding(crate::specs::Explaining::blank_part))]
fn blank_part() -> CallPart
    ensures { result ≡ blank_part }
{
    CallPart {
        place: 0,
        rate: 0,
        wh: Wh(0),
        grains: Grains(0),
        quarters: 0,
    }
}

// Room without a part.
pub fn blank_parts() -> [CallPart; MOST_RECORDS]
    ensures { result ≡ filled_up [] }
{
    [blank_part(); MOST_RECORDS]
}

// The Wh of a live call: of an event that is paid by energy.
fn live_wh(member: Member, x: Call) -> Wh
    ensures { (result.0 ≡ live_wh member.kind x) × (mag result.0 ≤ most_wh) }
{
    if is_by_energy(member, x) {
        return event_wh(x.a, x.b, x.c);
    }
    Wh(0)
}

// The part of x, record i.
fn call_part(member: Member, series: &[u32], i: usize, x: Call) -> CallPart
    requires small { Small member series.now }
    requires x_value { call_is_sound (15 * length series.now) x ≡ true }
    ensures { (result ≡ call_part member series.now i x) × (mag result.wh.0 ≤ most_wh) }
{
    let rate = live_rate(member, x);
    let wh = live_wh(member, x);
    let grains = live_pay(member, series, x);
    let quarters = quarters_paid(member, series, x);
    CallPart {
        place: i,
        rate,
        wh,
        grains,
        quarters,
    }
}

// The part of record i, where it is a live call of the member.
#[tactic(auto, unfolding(crate::specs::Inner::part_turn))]
fn part_turn(member: Member, b: &[u8], i: usize, series: &[u32]) -> Option<CallPart>
    requires small { Small member series.now }
    requires has_record { HasRecord b.now i }
    requires record_is_sound { RecordIsSound b.now series.now i }
    ensures turn { result ≡ part_turn member b.now series.now i }
    ensures span { MatchOption result ⊤ (λ part. mag part.wh.0 ≤ most_wh) }
{
    let x = record_at(b, i);
    if is_own_live(member, x) {
        return Some(call_part(member, series, i, x));
    }
    None
}

// How many parts there are, the sum of their Wh, and the parts.
#[derive(Clone, Copy)]
pub struct PartsFound {
    pub count: usize,
    pub wh: Wh,
    pub parts: [CallPart; MOST_RECORDS],
}

// One pass over so many records.
// Stays by hand: n is a number of records, no length of the bytes, which begin with the header.
#[tactic(auto, using(crate::proofs::Before::before_few))]
pub fn parts_before(member: Member, b: &[u8], n: usize, series: &[u32]) -> PartsFound
    requires small { Small member series.now }
    requires n_in_bounds { size_of n ≤ length b.now }
    requires n_le_most_keys { n ≤ most_keys }
    requires by_index { (i : ℕ) → i < n → RecordIsSound b.now series.now i }
    ensures { Finds member b.now series.now n result }
{
    let mut parts = blank_parts();
    let mut count: usize = 0;
    let mut wh = Wh(0);
    for i in 0..n {
        if let Some(part) = part_turn(member, b, i, series) {
            parts[count] = part;
            count += 1;
            wh = added(wh, part.wh);
        }
    }
    PartsFound { count, wh, parts }
}
