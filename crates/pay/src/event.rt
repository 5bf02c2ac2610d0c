// Service 8 of kinds that are paid by energy: signed watt-hours.
ghost use Rattle.std.specs.Prelude.{◌≡◌, ◌+◌, ◌≤◌, ◌+ℤ◌};
ghost use Rattle.std.specs.Int.Signed.{mag};
ghost use Rattle.pay.specs.Event.{event_wh, called_up, energy_pay};
ghost use Rattle.pay.specs.Inner.{most_wh, most_month_wh, most_month_pay};

use units::{Grains, Kw, Wh};

// The energy of an event: the smaller of a and b, or nothing where c is 1.
pub fn event_wh(a: i32, b: u32, c: u32) -> Wh
    ensures { (result.0 ≡ event_wh a b c) × (mag result.0 ≤ most_wh) }
{
    if c == 1 {
        return Wh(0);
    }
    let moved = a as i64;
    let most = b as i64;
    if moved < most { Wh(moved) } else { Wh(most) }
}

// Energy added to the month's.
pub fn added(x: Wh, y: Wh) -> Wh
    requires x_bound { mag x.0 ≤ most_month_wh }
    requires y_bound { mag y.0 ≤ most_month_wh }
    ensures { result.0 ≡ x.0 +ℤ y.0 }
{
    let a = x.0;
    let b = y.0;
    Wh(a + b)
}

// The month's other pay and its energy's. The sum of energy is clamped at zero here, once: below zero it pays nothing, and takes nothing away.
pub fn month_pay(other: Grains, x: Wh) -> Grains
    requires other_le_most_month_pay { other.0 ≤ most_month_pay }
    requires x_bound { mag x.0 ≤ most_month_wh }
    ensures { result.0 ≡ other.0 + energy_pay x.0 }
{
    let rest = other.0;
    let a = x.0;
    if a < 0 {
        return Grains(rest);
    }
    Grains(rest + (a as u64) * 120_000)
}

// The power that a reserve call goes up to.
pub fn called_up(a: i32) -> Kw
    ensures { result.0 ≡ called_up a }
{
    if a < 0 {
        return Kw(0);
    }
    Kw(a as u32)
}
