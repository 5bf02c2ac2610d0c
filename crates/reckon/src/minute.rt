// What one minute of a window pays at an output, by the paper's rule.
ghost use Rattle.std.specs.Prelude.{◌≡◌, ◌≤◌};
ghost use Rattle.pay.specs.Member.{most_rated};
ghost use Rattle.pay.specs.Window.{lacking, deep_peak_minute, coal_band, coal_minute, gas_hydro_minute, reserve_minute};
ghost use Rattle.reckon.specs.Reckoning.{window_minute};
ghost use Rattle.reckon.specs.Inner.{most_minute};

use call::Call;
use call::service::{DEEP_PEAK, RESERVE};
use pay::Member;
use pay::event::called_up;
use pay::kind::{COAL, GAS, HYDRO};
use units::{Grains, Kw, TenthKwMin};

// What a minute at output p lacks up to a level, in tenths of a kW·min.
#[tactic(auto, unfolding(pay::specs::Window::lacking))]
fn lacking(level: TenthKwMin, p: Kw) -> TenthKwMin
    ensures { result.0 ≡ lacking level.0 p.0 }
{
    let at = 10 * (p.0 as u64);
    TenthKwMin(level.0.saturating_sub(at))
}

// 1: what a coal unit lacks up to half of its rating.
#[tactic(auto, using(pay::proofs::Bounds::lacking_most), unfolding(pay::specs::Window::deep_peak_minute))]
fn deep_peak_minute(kind: u8, rated: Kw, p: Kw) -> Grains
    ensures { result.0 ≡ deep_peak_minute kind rated.0 p.0 }
{
    if kind != COAL {
        return Grains(0);
    }
    let half = 5 * (rated.0 as u64);
    let short = lacking(TenthKwMin(half), p);
    Grains(short.0 * 3_000)
}

// Grains for each tenth of a kW·min: more below 70% of the rating.
#[tactic(auto, unfolding(pay::specs::Window::coal_band))]
fn coal_band(rated: Kw, p: Kw) -> u64
    ensures { result ≡ coal_band rated.0 p.0 }
{
    let edge = 7 * (rated.0 as u64);
    let at = 10 * (p.0 as u64);
    if at < edge {
        return 350;
    }
    70
}

// 2, coal: above half of the rating, what it lacks up to the called power.
#[tactic(auto, unfolding(pay::specs::Window::coal_minute))]
fn coal_minute(rated: Kw, top: Kw, p: Kw) -> Grains
    ensures { result.0 ≡ coal_minute rated.0 top.0 p.0 }
{
    let half = 5 * (rated.0 as u64);
    let at = 10 * (p.0 as u64);
    if at <= half {
        return Grains(0);
    }
    let to = 10 * (top.0 as u64);
    let short = lacking(TenthKwMin(to), p);
    let band = coal_band(rated, p);
    Grains(short.0 * band)
}

// 2, gas and hydro: what the output lacks up to 70% of the rating.
#[tactic(auto, using(pay::proofs::Bounds::lacking_most), unfolding(pay::specs::Window::gas_hydro_minute))]
fn gas_hydro_minute(rated: Kw, p: Kw) -> Grains
    ensures { result.0 ≡ gas_hydro_minute rated.0 p.0 }
{
    let edge = 7 * (rated.0 as u64);
    let short = lacking(TenthKwMin(edge), p);
    Grains(short.0 * 10)
}

#[tactic(auto, unfolding(pay::specs::Window::reserve_minute))]
fn reserve_minute(kind: u8, rated: Kw, top: Kw, p: Kw) -> Grains
    ensures { result.0 ≡ reserve_minute kind rated.0 top.0 p.0 }
{
    match kind {
        COAL => coal_minute(rated, top, p),
        GAS | HYDRO => gas_hydro_minute(rated, p),
        _ => Grains(0),
    }
}

// A minute of window x at output p.
pub fn window_minute(member: Member, x: Call, p: Kw) -> Grains
    requires { member.rated.0 ≤ most_rated }
    ensures { (result.0 ≡ window_minute member x p.0) × (result.0 ≤ most_minute) }
{
    let top = called_up(x.a);
    let service = x.service;
    match service {
        DEEP_PEAK => deep_peak_minute(member.kind, member.rated, p),
        RESERVE => reserve_minute(member.kind, member.rated, top, p),
        _ => Grains(0),
    }
}
