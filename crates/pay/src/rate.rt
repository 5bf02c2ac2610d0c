// Services 3 to 10: grains for each kW of rating. A kind that the paper's row does not name is not paid.
ghost use Rattle.std.specs.Prelude.{◌≡◌, ◌≤◌};
ghost use Rattle.units.specs.Month.{most_minutes};
ghost use Rattle.call.specs.Services.{frequency_event};
ghost use Rattle.pay.specs.Member.{most_rated};
ghost use Rattle.pay.specs.Rate.{percents_above, start_stop_rate, standby_rate, black_start_rate, availability_rate, contribution_rate, event_band, event_rate, avc_rate, rate_of, rated_pay};

use crate::kind::{
    COAL, GAS, HYDRO, NEW_STORAGE, PHOTOVOLTAIC, PUMPED_STORAGE, SOLAR_THERMAL, WIND,
};
use crate::{Member, has_availability, is_by_rate};
use call::Call;
use call::service::{
    AGC_AVAILABILITY, AGC_CONTRIBUTION, AVC, BLACK_START, FREQUENCY_EVENT, STABILITY_TRIP, STANDBY,
    START_STOP,
};
use units::Grains;

// Grains for each kW.
#[derive(Clone, Copy)]
pub struct PerKw(pub u64);

// The most that black start pays, whatever the rating.
const MOST_BLACK_START: u64 = 1_800_000_000_000;

// The whole percents of a rate above a level, in hundredths of a percent both.
#[tactic(auto, unfolding(crate::specs::Rate::percents_above))]
fn percents_above(level: u32, rate: u32) -> u32
    ensures { result ≡ percents_above level rate }
{
    rate.saturating_sub(level) / 100
}

#[tactic(auto, unfolding(crate::specs::Rate::start_stop_rate))]
fn start_stop_rate(kind: u8, minutes: u16) -> PerKw
    ensures { result.0 ≡ start_stop_rate kind minutes }
{
    match kind {
        COAL => {
            if minutes <= 4320 {
                PerKw(12_000_000)
            } else {
                PerKw(0)
            }
        }
        GAS => PerKw(6_000_000),
        HYDRO => PerKw(120_000),
        _ => PerKw(0),
    }
}

#[tactic(auto, unfolding(crate::specs::Rate::standby_rate))]
fn standby_rate(kind: u8, minutes: u16) -> PerKw
    ensures { result.0 ≡ standby_rate kind minutes }
{
    let days = minutes / 1440;
    match kind {
        COAL => {
            if days < 7 {
                PerKw((days as u64) * 600_000)
            } else {
                PerKw(7 * 600_000)
            }
        }
        _ => PerKw(0),
    }
}

#[tactic(auto, unfolding(crate::specs::Rate::black_start_rate))]
fn black_start_rate(kind: u8) -> PerKw
    ensures { result.0 ≡ black_start_rate kind }
{
    match kind {
        COAL => PerKw(1_200_000),
        GAS => PerKw(1_200_000),
        HYDRO => PerKw(600_000),
        WIND => PerKw(1_200_000),
        PHOTOVOLTAIC => PerKw(1_200_000),
        SOLAR_THERMAL => PerKw(1_200_000),
        PUMPED_STORAGE => PerKw(600_000),
        NEW_STORAGE => PerKw(1_200_000),
        _ => PerKw(0),
    }
}

fn availability_rate(kind: u8, b: u32) -> PerKw
    ensures { result.0 ≡ availability_rate kind b }
{
    if has_availability(kind) & (9800 < b) {
        return PerKw(((b - 9800) as u64) * 6_000);
    }
    PerKw(0)
}

#[tactic(auto, unfolding(crate::specs::Rate::contribution_rate))]
fn contribution_rate(kind: u8, b: u32) -> PerKw
    ensures { result.0 ≡ contribution_rate kind b }
{
    let thermal = (b as u64) * 180;
    let water = (b as u64) * 30;
    let percents = percents_above(9000, b);
    let sky = (percents as u64) * 120_000;
    match kind {
        COAL => PerKw(thermal),
        GAS => PerKw(thermal),
        HYDRO => PerKw(water),
        WIND => PerKw(sky),
        PHOTOVOLTAIC => PerKw(sky),
        SOLAR_THERMAL => PerKw(thermal),
        PUMPED_STORAGE => PerKw(water),
        NEW_STORAGE => PerKw(thermal),
        _ => PerKw(0),
    }
}

#[tactic(auto, unfolding(crate::specs::Rate::event_band))]
fn event_band(b: u32, c: u32) -> PerKw
    ensures { result.0 ≡ event_band b c }
{
    if c == 1 {
        return PerKw(0);
    }
    match b {
        0..=7999 => PerKw(0),
        8000..=8999 => PerKw(3_000_000 + ((b - 8000) as u64) * 2400),
        _ => PerKw(5_400_000),
    }
}

fn event_rate(kind: u8, b: u32, c: u32) -> PerKw
    ensures { result.0 ≡ event_rate kind b c }
{
    if is_by_rate(kind) {
        return event_band(b, c);
    }
    PerKw(0)
}

fn avc_rate(minutes: u16, b: u32, c: u32) -> PerKw
    ensures { result.0 ≡ avc_rate minutes b c }
{
    if (9800 <= c) & (9900 <= b) {
        return PerKw(((b - 9900) as u64) * (minutes as u64));
    }
    PerKw(0)
}

#[tactic(auto, unfolding(crate::specs::Rate::rate_of))]
pub fn rate_of(kind: u8, x: Call) -> PerKw
    ensures { result.0 ≡ rate_of kind x }
{
    let service = x.service;
    match service {
        START_STOP => start_stop_rate(kind, x.length),
        STANDBY => standby_rate(kind, x.length),
        BLACK_START => black_start_rate(kind),
        AGC_AVAILABILITY => availability_rate(kind, x.b),
        AGC_CONTRIBUTION => contribution_rate(kind, x.b),
        FREQUENCY_EVENT => event_rate(kind, x.b, x.c),
        AVC => avc_rate(x.length, x.b, x.c),
        STABILITY_TRIP => PerKw(2_400_000),
        _ => PerKw(0),
    }
}

// The pay of a record by its rate. The ceiling of black start is one of the whole pay, not of the rate.
pub fn rated_pay(member: Member, x: Call) -> Grains
    requires rated_le_most_rated { member.rated.0 ≤ most_rated }
    requires length_le_most_minutes { x.length ≤ most_minutes }
    requires b_bound { (x.service ≡ frequency_event → ⊥) → x.b ≤ 10000 }
    ensures { result.0 ≡ rated_pay member x }
{
    let rate = rate_of(member.kind, x);
    let whole = (member.rated.0 as u64) * rate.0;
    if (x.service == BLACK_START) & (MOST_BLACK_START < whole) {
        return Grains(MOST_BLACK_START);
    }
    Grains(whole)
}
