// Services 1 and 2, deep peaking and reserve: a minute, a run of quarter hours, a window.
ghost use Rattle.std.specs.Prelude.{◌≡◌, ◌+◌, ◌*◌, ◌/◌, ◌<◌, ◌≤◌, length};
ghost use Rattle.units.specs.Month.{minutes_per_quarter, most_quarters};
ghost use Rattle.pay.specs.Member.{most_rated};
ghost use Rattle.pay.specs.Sum.{total};
ghost use Rattle.pay.specs.Window.{lacking, coal_band, coal_minute, window_pay, quarter_counts, window_quarters};
ghost use Rattle.pay.specs.Inner.{Run, lacking_at, coal_at};

use crate::Member;
use crate::kind::{COAL, GAS, HYDRO};
use call::service::{DEEP_PEAK, RESERVE};
use units::{Grains, Kw, TenthKwMin};

// Grains for each tenth of a kW·min.
#[derive(Clone, Copy)]
pub struct PerTenth(pub u64);

// A level of output, in tenths of a kW.
#[derive(Clone, Copy)]
pub struct Level(pub u32);

// What a minute at output p lacks up to a level; `full` is the lowest output that lacks nothing. For speed in 32 bits, so that the
// sum below goes four quarter hours at a time.
fn lacking(level: Level, full: Kw, p: Kw) -> TenthKwMin
    requires { full.0 ≡ (level.0 + 9) / 10 }
    ensures { result.0 ≡ lacking level.0 p.0 }
{
    let top = level.0;
    let at = p.0;
    if at < full.0 {
        let short = top - 10 * at;
        return TenthKwMin(short as u64);
    }
    TenthKwMin(0)
}

// A minute of each of so many quarter hours, in all.
fn run_lacking(level: Level, series: &[u32], from: usize, count: usize) -> TenthKwMin
    requires level_bound { level.0 ≤ 28000000 }
    requires run { Run series.now from count }
    ensures { (result.0 ≡ total (lacking_at level.0 series.now) from count) × (result.0 ≤ 122332000000) }
{
    let full = Kw((level.0 + 9) / 10);
    let mut sum: u64 = 0;
    for p in &series[from..from + count] {
        let short = lacking(level, full, Kw(*p));
        sum += short.0;
    }
    TenthKwMin(sum)
}

fn coal_band(rated: Kw, p: Kw) -> PerTenth
    ensures { result.0 ≡ coal_band rated.0 p.0 }
{
    let edge = 7 * (rated.0 as u64);
    let at = 10 * (p.0 as u64);
    if at < edge {
        return PerTenth(350);
    }
    PerTenth(70)
}

fn coal_minute(rated: Kw, top: Kw, p: Kw) -> Grains
    ensures { result.0 ≡ coal_minute rated.0 top.0 p.0 }
{
    let half = 5 * (rated.0 as u64);
    let at = 10 * (p.0 as u64);
    let to = 10 * (top.0 as u64);
    if (half < at) & (at < to) {
        let band = coal_band(rated, p);
        return Grains((to - at) * band.0);
    }
    Grains(0)
}

// 2, coal: a run of quarter hours, 15 minutes each.
fn run_coal(rated: Kw, top: Kw, series: &[u32], from: usize, count: usize) -> Grains
    requires top_le_most_rated { top.0 ≤ most_rated }
    requires run { Run series.now from count }
    ensures { result.0 ≡ total (coal_at rated.0 top.0 series.now) from count * minutes_per_quarter }
{
    let mut sum: u64 = 0;
    for p in &series[from..from + count] {
        let g = coal_minute(rated, top, Kw(*p));
        sum += g.0;
    }
    Grains(sum * 15)
}

// 1, and 2 of gas and hydro: a run of quarter hours, 15 minutes each, so many grains for each tenth that lacks. What is the same for every minute
// multiplies the sum: for speed.
fn run_below(level: Level, grains: PerTenth, series: &[u32], from: usize, count: usize) -> Grains
    requires level_bound { level.0 ≤ 28000000 }
    requires grains_bound { grains.0 ≤ 3000 }
    requires run { Run series.now from count }
    ensures { result.0 ≡ total (lacking_at level.0 series.now) from count * grains.0 * minutes_per_quarter }
{
    let short = run_lacking(level, series, from, count);
    let minute = short.0 * grains.0;
    Grains(minute * 15)
}

// The window's quarter hours. Service and kind are asked once, and not in each of them: for speed.
pub fn window_pay(
    member: Member,
    service: u8,
    top: Kw,
    series: &[u32],
    start: u16,
    minutes: u16,
) -> Grains
    requires rated_le_most_rated { member.rated.0 ≤ most_rated }
    requires top_le_most_rated { top.0 ≤ most_rated }
    requires minutes_per_quarter_in_bounds { start / minutes_per_quarter + minutes / minutes_per_quarter ≤ length series.now }
    ensures { result.0 ≡ window_pay member service top.0 series.now start minutes }
{
    let from = (start / 15) as usize;
    let count = (minutes / 15) as usize;
    let kind = member.kind;
    let rated = member.rated;
    match service {
        DEEP_PEAK => {
            match kind {
                COAL => {
                    let half = 5 * rated.0;
                    run_below(Level(half), PerTenth(3_000), series, from, count)
                }
                _ => Grains(0),
            }
        }
        RESERVE => {
            match kind {
                COAL => run_coal(rated, top, series, from, count),
                GAS | HYDRO => {
                    let edge = 7 * rated.0;
                    run_below(Level(edge), PerTenth(10), series, from, count)
                }
                _ => Grains(0),
            }
        }
        _ => Grains(0),
    }
}

// 1 where quarter hour i pays something: a window of this one quarter hour does.
fn quarter_counts(member: Member, service: u8, top: Kw, series: &[u32], i: usize) -> u32
    requires rated_le_most_rated { member.rated.0 ≤ most_rated }
    requires top_le_most_rated { top.0 ≤ most_rated }
    requires series_len_bound { length series.now ≤ most_quarters }
    requires i_in_bounds { i < length series.now }
    ensures { (result ≡ quarter_counts member service top.0 series.now i) × (result ≤ 1) }
{
    let start = (i * 15) as u16;
    let pay = window_pay(member, service, top, series, start, 15);
    if 0 < pay.0 {
        return 1;
    }
    0
}

// How many of the window's quarter hours pay something.
pub fn window_quarters(
    member: Member,
    service: u8,
    top: Kw,
    series: &[u32],
    start: u16,
    minutes: u16,
) -> u32
    requires rated_le_most_rated { member.rated.0 ≤ most_rated }
    requires top_le_most_rated { top.0 ≤ most_rated }
    requires series_len_bound { length series.now ≤ most_quarters }
    requires minutes_per_quarter_in_bounds { start / minutes_per_quarter + minutes / minutes_per_quarter ≤ length series.now }
    ensures { result ≡ window_quarters member service top.0 series.now start minutes }
{
    let from = (start / 15) as usize;
    let count = (minutes / 15) as usize;
    let mut sum: u32 = 0;
    for k in 0..count {
        let one = quarter_counts(member, service, top, series, from + k);
        sum += one;
    }
    sum
}
