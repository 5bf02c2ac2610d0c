// The places of a day, two for each minute: service 1, then service 2. The windows of each service lie at places of the book.
ghost use Rattle.std.specs.Prelude.{◌≡◌, ◌+◌, ◌*◌, ◌-◌, ◌<◌, ◌≤◌};
ghost use Rattle.units.specs.Month.{minutes_per_day};
ghost use Rattle.pay.specs.declared.Member.{Member as MemberOf};
ghost use Rattle.pay.specs.Member.{most_rated};
ghost use Rattle.reckon.specs.Inner.{Placed, calls_at};
ghost use Rattle.day_runs.specs.DayRuns.{places_per_day, begins_at, run_at};
ghost use Rattle.day_runs.specs.Inner.{day_at, Next, RunIs, most_run};

use crate::runs::{DayRun, call_over, run_begins, run_length};
use call::service::{DEEP_PEAK, RESERVE};
use pay::Member;
use reckon::walk::{minute_at, output_at};
use units::Grains;
use units::calendar::MINUTES_PER_DAY;

pub const PLACES_PER_DAY: u32 = 2880;

// Whether a run begins at a place of the day that begins with minute `first`.
fn begins_at(
    b: &[u8],
    deep: &[usize],
    reserves: &[usize],
    series: &[u32],
    first: u32,
    place: u32,
) -> bool
    requires placed { Placed b.now deep.now }
    requires placed_2 { Placed b.now reserves.now }
    requires first_bound { first ≤ 44640 }
    requires place_lt_places_per_day { place < places_per_day }
    ensures { (m : MemberOf) → result ≡ begins_at (day_at m b.now deep.now reserves.now series.now first) place }
{
    let minute = first + place / 2;
    if place % 2 == 0 {
        return run_begins(b, deep, series, first, minute);
    }
    run_begins(b, reserves, series, first, minute)
}

// The next place at which a run begins, from a place on, or the day's end.
pub fn next_begin(
    b: &[u8],
    deep: &[usize],
    reserves: &[usize],
    series: &[u32],
    first: u32,
    place: u32,
) -> u32
    requires placed { Placed b.now deep.now }
    requires placed_2 { Placed b.now reserves.now }
    requires first_bound { first ≤ 44640 }
    requires place_le_places_per_day { place ≤ places_per_day }
    ensures { (m : MemberOf) → Next (day_at m b.now deep.now reserves.now series.now first) place result }
{
    for at in place..PLACES_PER_DAY {
        if begins_at(b, deep, reserves, series, first, at) {
            return at;
        }
    }
    PLACES_PER_DAY
}

// The run of a service that begins at minute `from` of the day; `before` is the day's sum so far.
fn service_run(
    member: Member,
    b: &[u8],
    places: &[usize],
    series: &[u32],
    service: u8,
    first: u32,
    from: u32,
    before: Grains,
) -> DayRun
    requires rated_le_most_rated { member.rated.0 ≤ most_rated }
    requires placed { Placed b.now places.now }
    requires first_bound { first ≤ 44640 }
    requires from_lt_minutes_per_day { from < minutes_per_day }
    requires before_bound { before.0 ≤ 192 * most_run }
    ensures { RunIs member series.now (calls_at b.now places.now) service first from before.0 result }
{
    let at = first + from;
    let length = run_length(b, places, series, at, MINUTES_PER_DAY - from);
    let call = call_over(b, places, at);
    let output = output_at(series, at);
    let minute = minute_at(member, b, places, series, at);
    let pay = length as u64 * minute.0;
    DayRun {
        service,
        from: from as u16,
        upto: (from + length) as u16,
        call,
        output,
        minute,
        sum: Grains(before.0 + pay),
    }
}

// The run that begins at a place.
pub fn run_at(
    member: Member,
    b: &[u8],
    deep: &[usize],
    reserves: &[usize],
    series: &[u32],
    first: u32,
    place: u32,
    before: Grains,
) -> DayRun
    requires rated_le_most_rated { member.rated.0 ≤ most_rated }
    requires placed { Placed b.now deep.now }
    requires placed_2 { Placed b.now reserves.now }
    requires first_bound { first ≤ 44640 }
    requires place_lt_places_per_day { place < places_per_day }
    requires before_bound { before.0 ≤ 192 * most_run }
    ensures { (result ≡ run_at (day_at member b.now deep.now reserves.now series.now first) place before.0) × (result.sum.0 ≤ before.0 + most_run) }
{
    let from = place / 2;
    if place % 2 == 0 {
        return service_run(member, b, deep, series, DEEP_PEAK, first, from, before);
    }
    service_run(member, b, reserves, series, RESERVE, first, from, before)
}
