// A live call that is open to the member: its grains, and what they come from.
ghost use Rattle.std.specs.Prelude.{◌≡◌, true, ◌*◌, ◌≤◌, length};
ghost use Rattle.units.specs.Month.{minutes_per_quarter, most_quarters};
ghost use Rattle.call.specs.Limits.{call_is_sound};
ghost use Rattle.pay.specs.Member.{most_rated};
ghost use Rattle.pay.specs.Live.{live_pay, quarters_paid};
ghost use Rattle.pay.specs.Rate.{rate_of};
ghost use Rattle.pay.specs.Inner.{is_by_energy, most_pay};

use crate::event::called_up;
use crate::rate::{rate_of, rated_pay};
use crate::window::{window_pay, window_quarters};
use crate::{Member, is_by_rate};
use call::Call;
use call::service::{DEEP_PEAK, FREQUENCY_EVENT, RESERVE};
use units::{Grains, Kw};

// An event of a kind that is paid by energy. For speed: it has no grains of its own, and is always open.
pub fn is_by_energy(member: Member, x: Call) -> bool
    ensures { result ≡ is_by_energy member.kind x }
{
    let rate = is_by_rate(member.kind);
    (x.service == FREQUENCY_EVENT) & !rate
}

pub fn live_pay(member: Member, series: &[u32], x: Call) -> Grains
    requires rated_le_most_rated { member.rated.0 ≤ most_rated }
    requires series_len_bound { length series.now ≤ most_quarters }
    requires x_value { call_is_sound (minutes_per_quarter * length series.now) x ≡ true }
    ensures { (result.0 ≡ live_pay member series.now x) × (result.0 ≤ most_pay) }
{
    let service = x.service;
    match service {
        DEEP_PEAK => window_pay(member, DEEP_PEAK, Kw(0), series, x.start, x.length),
        RESERVE => {
            let top = called_up(x.a);
            window_pay(member, RESERVE, top, series, x.start, x.length)
        }
        _ => rated_pay(member, x),
    }
}

// The grains for each kW of rating that the call is paid by: 0 for a window, and for an event that is paid by energy.
pub fn live_rate(member: Member, x: Call) -> u64
    ensures { result ≡ rate_of member.kind x }
{
    let rate = rate_of(member.kind, x);
    rate.0
}

// The quarter hours of a window that pay something: 0 for what is no window.
pub fn quarters_paid(member: Member, series: &[u32], x: Call) -> u32
    requires rated_le_most_rated { member.rated.0 ≤ most_rated }
    requires series_len_bound { length series.now ≤ most_quarters }
    requires x_value { call_is_sound (minutes_per_quarter * length series.now) x ≡ true }
    ensures { result ≡ quarters_paid member series.now x }
{
    let service = x.service;
    match service {
        DEEP_PEAK => window_quarters(member, DEEP_PEAK, Kw(0), series, x.start, x.length),
        RESERVE => {
            let top = called_up(x.a);
            window_quarters(member, RESERVE, top, series, x.start, x.length)
        }
        _ => 0,
    }
}
