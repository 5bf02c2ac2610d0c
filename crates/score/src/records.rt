// The member's records in turn: the first refusal, or the month's grains.
ghost use Rattle.std.specs.Prelude.{◌≡◌, true, false, List, ℕ, ◌+◌, ◌<◌, ◌≤◌, length};
ghost use Rattle.book.specs.Book.{most_keys, HasRecord, size_of, record_at};
ghost use Rattle.pay.specs.declared.open.Month.{Month as MonthOf};
ghost use Rattle.pay.specs.Inner.{is_by_energy};
ghost use Rattle.score.specs.Scoring.{is_own_live, records_earned};
ghost use Rattle.score.specs.Inner.{Small, RecordIsSound, NoneBefore, EndsKept, ScoreTurned};

use crate::answer::Earned;
use crate::is_own_live;
use crate::refusal::{first_own, idle_refusal, refusal_by_ends};
use book::record_at;
use pay::Member;
use pay::event::{added, event_wh, month_pay};
use pay::live::{is_by_energy, live_pay};
use pay::open::Month;
use units::{Grains, Wh};

// What a record's turn gives: a refusal's number, or 0 and the record's grains and energy.
#[derive(Clone, Copy)]
pub struct ScoreTurn {
    pub number: u32,
    pub grains: Grains,
    pub wh: Wh,
}

// A live event of the member that gives energy. For speed, as events are many: it is open to the member and stands against none,
// so no more is read than its energy.
fn energy_turn(member: Member, b: &[u8], i: usize) -> ScoreTurn
    requires has_record { HasRecord b.now i }
    requires i_value { is_own_live member (record_at b.now i) ≡ true }
    requires i_value_2 { is_by_energy member.kind (record_at b.now i) ≡ true }
    ensures { (month : MonthOf) (series : List ℕ) → ScoreTurned month member series (record_at b.now) i result.number result.grains.0 result.wh.0 }
{
    let x = record_at(b, i);
    let wh = event_wh(x.a, x.b, x.c);
    ScoreTurn {
        number: 0,
        grains: Grains(0),
        wh,
    }
}

// Any other live call of the member; `ends` as in turn_of.
fn live_turn(
    month: Month,
    member: Member,
    b: &[u8],
    first: usize,
    i: usize,
    series: &[u32],
    ends: &mut [u32; 5],
) -> ScoreTurn
    requires small { Small member series.now }
    requires has_record { HasRecord b.now i }
    requires record_is_sound { RecordIsSound b.now series.now i }
    requires none_before { NoneBefore member.number (record_at b.now) first }
    requires ends_kept { EndsKept member.number (record_at b.now) i ends.old }
    requires i_value { is_own_live member (record_at b.now i) ≡ true }
    requires i_value_2 { is_by_energy member.kind (record_at b.now i) ≡ false }
    ensures score_turned { ScoreTurned month member series.now (record_at b.now) i result.number result.grains.0 result.wh.0 }
    ensures ends_kept_2 { result.number ≡ 0 → EndsKept member.number (record_at b.now) (i + 1) ends.new }
{
    let x = record_at(b, i);
    let number = refusal_by_ends(month, member, b, first, i, x, ends);
    if number != 0 {
        return ScoreTurn {
            number,
            grains: Grains(0),
            wh: Wh(0),
        };
    }
    let grains = live_pay(member, series, x);
    ScoreTurn {
        number: 0,
        grains,
        wh: Wh(0),
    }
}

// Record i's turn; no record before `first` is the member's. `ends` are the latest ends of those before i and then, unless it is refused,
// of record i too.
fn turn_of(
    month: Month,
    member: Member,
    b: &[u8],
    first: usize,
    i: usize,
    series: &[u32],
    ends: &mut [u32; 5],
) -> ScoreTurn
    requires small { Small member series.now }
    requires has_record { HasRecord b.now i }
    requires record_is_sound { RecordIsSound b.now series.now i }
    requires none_before { NoneBefore member.number (record_at b.now) first }
    requires ends_kept { EndsKept member.number (record_at b.now) i ends.old }
    ensures score_turned { ScoreTurned month member series.now (record_at b.now) i result.number result.grains.0 result.wh.0 }
    ensures ends_kept_2 { result.number ≡ 0 → EndsKept member.number (record_at b.now) (i + 1) ends.new }
{
    let x = record_at(b, i);
    if !is_own_live(member, x) {
        let number = idle_refusal(member.number, x);
        return ScoreTurn {
            number,
            grains: Grains(0),
            wh: Wh(0),
        };
    }
    if is_by_energy(member, x) {
        return energy_turn(member, b, i);
    }
    live_turn(month, member, b, first, i, series, ends)
}

// One pass over the records, from the member's first on. Watt-hours are summed with their sign, and clamped at zero once, at the end.
// Stays by hand: count is a number of records, no length of the bytes, which begin with the header.
pub fn records_earned(
    month: Month,
    member: Member,
    b: &[u8],
    count: usize,
    series: &[u32],
) -> Earned
    requires small { Small member series.now }
    requires count_in_bounds { size_of count ≤ length b.now }
    requires count_le_most_keys { count ≤ most_keys }
    requires by_index { (i : ℕ) → i < count → RecordIsSound b.now series.now i }
    ensures { result ≡ records_earned month member series.now (record_at b.now) count }
{
    let first = first_own(b, count, member.number);
    let mut grains: u64 = 0;
    let mut wh = Wh(0);
    let mut ends = [0u32; 5];
    for i in first..count {
        let t = turn_of(month, member, b, first, i, series, &mut ends);
        let number = t.number;
        if number != 0 {
            return Earned::Refused(number, i);
        }
        grains += t.grains.0;
        wh = added(wh, t.wh);
    }
    let sum = month_pay(Grains(grains), wh);
    Earned::Accepted(sum)
}
