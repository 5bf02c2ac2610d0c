// One day of a member's month, for new staff: the runs of minutes that one window covers at one output.
#![tactic(auto)]

ghost use Rattle.std.specs.Prelude.{◌≡◌, true, [], ◌≤◌};
ghost use Rattle.book.specs.Check.{check, accepted};
ghost use Rattle.pay.specs.Member.{member_is_sound, most_rated};
ghost use Rattle.reckon.specs.Reckoning.{reckoning};
ghost use Rattle.reckon.specs.Inner.{Placed};
ghost use Rattle.day_runs.specs.DayRuns.{blank_run, filled_up, runs_from, places_per_day, day_of, runs_told, day_reckoning};
ghost use Rattle.day_runs.specs.Inner.{day_at, FewRuns, RunsFound};

use crate::places::{PLACES_PER_DAY, next_begin, run_at};
use crate::runs::DayRun;
use book::{count_at, header_at};
use call::service::{DEEP_PEAK, RESERVE};
use pay::Member;
use reckon::reckon;
use reckon::windows::windows_of;
use score::answer::Score;
use units::calendar::{MINUTES_PER_DAY, days_of};
use units::{Fen, Grains, Kw};

mod places;
pub mod runs;

// No day has more runs.
pub const MOST_RUNS: usize = 192;

// The month's answer, as `reckon` gives it, and so many runs of the day.
#[derive(Clone, Copy)]
pub struct DayReckoned {
    pub number: u32,
    pub place: usize,
    pub grains: Grains,
    pub fen: Fen,
    pub count: usize,
    pub runs: [DayRun; MOST_RUNS],
}

// So many runs, at the front.
#[derive(Clone, Copy)]
pub struct RunList {
    pub count: usize,
    pub list: [DayRun; MOST_RUNS],
}

#[tactic(auto, unfolding(crate::specs::DayRuns::blank_run))]
fn blank_run() -> DayRun
    ensures { result ≡ blank_run }
{
    DayRun {
        service: 0,
        from: 0,
        upto: 0,
        call: 0,
        output: Kw(0),
        minute: Grains(0),
        sum: Grains(0),
    }
}

// Room without a run.
#[tactic(auto, unfolding(crate::specs::DayRuns::filled_up))]
fn blank_runs() -> [DayRun; MOST_RUNS]
    ensures { result ≡ filled_up [] }
{
    [blank_run(); MOST_RUNS]
}

// The runs of the day that begins with minute `first`, in turn.
fn runs_found(
    member: Member,
    b: &[u8],
    deep: &[usize],
    reserves: &[usize],
    series: &[u32],
    first: u32,
) -> RunList
    requires rated_le_most_rated { member.rated.0 ≤ most_rated }
    requires placed { Placed b.now deep.now }
    requires placed_2 { Placed b.now reserves.now }
    requires first_bound { first ≤ 44640 }
    requires few_runs { FewRuns (day_at member b.now deep.now reserves.now series.now first) }
    ensures { RunsFound (runs_from (day_at member b.now deep.now reserves.now series.now first) 0 places_per_day 0) result }
{
    let mut list = blank_runs();
    let mut count: usize = 0;
    let mut sum = Grains(0);
    let mut place = next_begin(b, deep, reserves, series, first, 0);
    // Stays a while: each step goes on to the next place at which a run begins.
    while place < PLACES_PER_DAY {
        let run = run_at(member, b, deep, reserves, series, first, place, sum);
        list[count] = run;
        count += 1;
        sum = run.sum;
        place = next_begin(b, deep, reserves, series, first, place + 1);
    }
    RunList { count, list }
}

// The runs of a day of the month, of a sound register line over a sound book.
fn day_runs(member: Member, b: &[u8], series: &[u32], day: u32) -> RunList
    requires member_value { member_is_sound member ≡ true }
    requires b_value { check b.now ≡ accepted }
    requires le_day { (1 ≤ day) × (day ≤ 31) }
    ensures { RunsFound (runs_from (day_of member b.now series.now day) 0 places_per_day 0) result }
{
    let n = count_at(b);
    let first = (day - 1) * MINUTES_PER_DAY;
    let deep = windows_of(member, DEEP_PEAK, b, n);
    let reserves = windows_of(member, RESERVE, b, n);
    runs_found(
        member,
        b,
        &deep.at[..deep.count],
        &reserves.at[..reserves.count],
        series,
        first,
    )
}

fn no_runs() -> RunList
    ensures { RunsFound [] result }
{
    let list = blank_runs();
    RunList { count: 0, list }
}

// The runs of the day where the month was accepted and has that day, otherwise none.
fn runs_told(r: Score, member: Member, b: &[u8], series: &[u32], day: u32) -> RunList
    requires { r ≡ reckoning member b.now series.now }
    ensures { RunsFound (runs_told member b.now series.now day) result }
{
    if r.number != 0 {
        return no_runs();
    }
    let h = header_at(b);
    let days = days_of(h.year, h.month);
    if (1 <= day) & (day <= days) {
        return day_runs(member, b, series, day);
    }
    no_runs()
}

// The score of one member, minute by minute, and the runs of one day, counted from 1.
#[tactic(auto, unfolding(crate::specs::DayRuns::day_reckoning, crate::specs::DayRuns::day_reckoned))]
pub fn reckon_day(member: Member, b: &[u8], series: &[u32], day: u32) -> DayReckoned
    ensures { result ≡ day_reckoning member b.now series.now day }
{
    let r = reckon(member, b, series);
    let told = runs_told(r, member, b, series, day);
    let runs = told.list;
    DayReckoned {
        number: r.number,
        place: r.place,
        grains: r.grains,
        fen: r.fen,
        count: told.count,
        runs,
    }
}
