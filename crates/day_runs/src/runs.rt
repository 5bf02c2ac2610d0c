// The runs of one service: minutes that one window covers at one output.
ghost use Rattle.std.specs.Prelude.{◌≡◌, ◌+◌, ◌*◌, ◌-◌, ◌<◌, ◌≤◌, length};
ghost use Rattle.pay.specs.Member.{most_rated};
ghost use Rattle.reckon.specs.Inner.{Placed, calls_at};
ghost use Rattle.day_runs.specs.DayRuns.{covered_by, call_over, goes_on, run_begins, run_length};

use book::record_at;
use reckon::walk::output_at;
use reckon::windows::{covers, first_over};
use units::{Grains, Kw};

// A run: its service, from and up to as minutes of the day, the end not included; its call, the output, what a minute pays, and the day's
// sum with it.
#[derive(Clone, Copy)]
pub struct DayRun {
    pub service: u8,
    pub from: u16,
    pub upto: u16,
    pub call: u32,
    pub output: Kw,
    pub minute: Grains,
    pub sum: Grains,
}

// The first of the windows at these places that covers the minute, or how many there are.
fn covered_by(b: &[u8], places: &[usize], minute: u32) -> usize
    requires { Placed b.now places.now }
    ensures { result ≡ covered_by (calls_at b.now places.now) minute }
{
    for (k, place) in places.iter().enumerate() {
        let x = record_at(b, *place);
        if covers(x, minute) {
            return k;
        }
    }
    places.len()
}

// The number of that window's call, or 0.
pub fn call_over(b: &[u8], places: &[usize], minute: u32) -> u32
    requires { Placed b.now places.now }
    ensures { result ≡ call_over (calls_at b.now places.now) minute }
{
    match first_over(b, places, minute) {
        Some(x) => x.number,
        None => 0,
    }
}

// Whether the next minute goes on with this one.
#[tactic(auto, unfolding(crate::specs::DayRuns::goes_on))]
fn goes_on(b: &[u8], places: &[usize], series: &[u32], minute: u32) -> bool
    requires placed { Placed b.now places.now }
    requires minute_bound { minute ≤ 100000 }
    ensures { result ≡ goes_on series.now (calls_at b.now places.now) minute }
{
    let next = minute + 1;
    let here = covered_by(b, places, minute);
    let there = covered_by(b, places, next);
    let p = output_at(series, minute);
    let q = output_at(series, next);
    (here == there) & (p.0 == q.0)
}

// Whether a run begins at the minute; `first` is the day's first.
pub fn run_begins(b: &[u8], places: &[usize], series: &[u32], first: u32, minute: u32) -> bool
    requires placed { Placed b.now places.now }
    requires first_le_minute { first ≤ minute }
    requires minute_bound { minute ≤ 100000 }
    ensures { result ≡ run_begins series.now (calls_at b.now places.now) first minute }
{
    let at = covered_by(b, places, minute);
    if places.len() <= at {
        return false;
    }
    if minute == first {
        return true;
    }
    !goes_on(b, places, series, minute - 1)
}

// How many of the minutes that are left go on from this one, itself among them.
pub fn run_length(b: &[u8], places: &[usize], series: &[u32], minute: u32, left: u32) -> u32
    requires placed { Placed b.now places.now }
    requires minute_bound { minute ≤ 90000 }
    requires left_nonzero { (0 < left) × (left ≤ 1440) }
    ensures { (result ≡ run_length series.now (calls_at b.now places.now) minute left) × (result ≤ left) }
{
    for gone in 0..left - 1 {
        if !goes_on(b, places, series, minute + gone) {
            return gone + 1;
        }
    }
    left
}
