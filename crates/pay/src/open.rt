// What is open to which kind: refusal 12, apart from pay.
ghost use Rattle.std.specs.Prelude.{◌≡◌};
ghost use Rattle.pay.specs.Open.{is_zero, reserve_open, event_open, is_before, closing_month, black_start_open, open_to};

use crate::kind::{COAL, GAS, HYDRO};
use crate::{Member, has_availability, is_by_rate};
use call::Call;
use call::service::{
    AGC_AVAILABILITY, AGC_CONTRIBUTION, AVC, BLACK_START, DEEP_PEAK, FREQUENCY_EVENT, MOST_RATE,
    RESERVE, STABILITY_TRIP, STANDBY, START_STOP,
};
use units::Kw;

// The month of the book that is scored.
#[derive(Clone, Copy, PartialEq, Eq, PartialOrd, Ord)]
pub struct Month {
    pub year: u16,
    pub month: u8,
}

fn is_zero(a: i32) -> bool
    ensures { result ≡ is_zero a }
{
    a == 0
}

#[tactic(auto, using(crate::proofs::Signed::back32), unfolding(crate::specs::Open::reserve_open))]
fn reserve_open(kind: u8, rated: Kw, a: i32) -> bool
    ensures { result ≡ reserve_open kind rated.0 a }
{
    let wide = a as i64;
    let most = rated.0 as i64;
    let none = is_zero(a);
    match kind {
        COAL => (1 <= wide) & (wide <= most),
        GAS => none,
        HYDRO => none,
        _ => false,
    }
}

fn event_open(kind: u8, a: i32, b: u32) -> bool
    ensures { result ≡ event_open kind a b }
{
    let none = is_zero(a);
    let rate = is_by_rate(kind);
    !rate | none & (b <= MOST_RATE)
}

#[tactic(auto, unfolding(crate::specs::Open::is_before))]
fn is_before(month: Month, other: Month) -> bool
    ensures { result ≡ is_before month other }
{
    month < other
}

// Black start is bought by auction from this month on.
fn closing_month() -> Month
    ensures { result ≡ closing_month }
{
    Month {
        year: 2027,
        month: 1,
    }
}

fn black_start_open(month: Month) -> bool
    ensures { result ≡ black_start_open month }
{
    is_before(month, closing_month())
}

// The service and its fields are open to the member's kind, in the book's month.
#[tactic(auto, using(crate::proofs::Signed::back32), unfolding(crate::specs::Open::open_to))]
pub fn open_to(month: Month, member: Member, x: Call) -> bool
    ensures { result ≡ open_to month member x }
{
    let kind = member.kind;
    let service = x.service;
    match service {
        DEEP_PEAK => kind == COAL,
        RESERVE => reserve_open(kind, member.rated, x.a),
        START_STOP => (kind == COAL) | (kind == GAS) | (kind == HYDRO),
        STANDBY => kind == COAL,
        BLACK_START => black_start_open(month),
        AGC_AVAILABILITY => has_availability(kind),
        AGC_CONTRIBUTION => true,
        FREQUENCY_EVENT => event_open(kind, x.a, x.b),
        AVC => true,
        STABILITY_TRIP => true,
        _ => false,
    }
}
