// A member's month, scored a second way: services 1 and 2 minute by minute. Refusals, and the other services, go the first way.
#![tactic(auto)]

ghost use Rattle.std.specs.Prelude.{◌≡◌, true, ℕ, ◌*◌, ◌<◌, ◌≤◌, length};
ghost use Rattle.units.specs.Month.{quarters_of};
ghost use Rattle.book.specs.Book.{header_at, count_at};
ghost use Rattle.book.specs.Check.{check, accepted};
ghost use Rattle.pay.specs.Member.{member_is_sound};
ghost use Rattle.score.specs.Inner.{Small, RecordIsSound};
ghost use Rattle.reckon.specs.Reckoning.{reckoned_grains, records_reckoned, sound_reckoned, grains_reckoned, reckoning};

use crate::others::others_earned;
use crate::refusing::{first_refused, refusal_of};
use crate::walk::walked;
use book::{check, count_at, header_at};
use call::service::{DEEP_PEAK, RESERVE};
use pay::Member;
use pay::event::month_pay;
use pay::open::Month;
use score::answer::{Earned, Score, in_fen};
use score::series::series_fault;
use units::Grains;
use units::calendar::{minutes_of, quarters_of};

mod minute;
mod others;
mod refusing;
pub mod walk;
pub mod windows;

// The month's grains: service 1, service 2, and the others.
fn reckoned_grains(member: Member, b: &[u8], series: &[u32]) -> Grains
    requires member_value { member_is_sound member ≡ true }
    requires b_value { check b.now ≡ accepted }
    requires series_len { length series.now ≡ quarters_of (header_at b.now).year (header_at b.now).month }
    ensures { result.0 ≡ reckoned_grains member b.now series.now }
{
    let h = header_at(b);
    let n = count_at(b);
    let minutes = minutes_of(h.year, h.month);
    let first = walked(member, DEEP_PEAK, b, n, series, minutes);
    let second = walked(member, RESERVE, b, n, series, minutes);
    let other = others_earned(member, b, series, n);
    let sum = first.0 + second.0 + other.grains.0;
    month_pay(Grains(sum), other.wh)
}

// The first refusal among the records, or the month's grains.
fn records_reckoned(member: Member, b: &[u8], series: &[u32]) -> Earned
    requires member_value { member_is_sound member ≡ true }
    requires b_value { check b.now ≡ accepted }
    requires series_len { length series.now ≡ quarters_of (header_at b.now).year (header_at b.now).month }
    ensures { result ≡ records_reckoned member b.now series.now }
{
    let h = header_at(b);
    let month = Month {
        year: h.year,
        month: h.month,
    };
    let n = count_at(b);
    let at = first_refused(month, member, b, n);
    if at < n {
        let number = refusal_of(month, member, b, 0, at);
        return Earned::Refused(number, at);
    }
    let grains = reckoned_grains(member, b, series);
    Earned::Accepted(grains)
}

// The grains of a sound register line over a sound book.
// Stays two functions: this and score's `sound_earned` differ in what comes last, which asks for a sound book and series; a closure that asks for them makes a longer head than this test.
fn sound_reckoned(member: Member, b: &[u8], series: &[u32]) -> Earned
    requires member_value { member_is_sound member ≡ true }
    requires b_value { check b.now ≡ accepted }
    ensures { result ≡ sound_reckoned member b.now series.now }
{
    let h = header_at(b);
    let fault = series_fault(series, quarters_of(h.year, h.month) as usize);
    let number = fault.number;
    if number != 0 {
        return Earned::Refused(number, fault.place);
    }
    records_reckoned(member, b, series)
}

// The grains of one member's month, or a refusal's number and place.
// Stays two functions: this and score's `grains_earned` differ in what comes last, which asks for a sound line and book; a closure that asks for them makes a longer head than these tests.
fn grains_reckoned(member: Member, b: &[u8], series: &[u32]) -> Earned
    ensures { result ≡ grains_reckoned member b.now series.now }
{
    if !member.is_sound() {
        return Earned::Refused(10, 0);
    }
    let fault = check(b);
    let number = fault.number;
    if number != 0 {
        return Earned::Refused(number, fault.place);
    }
    sound_reckoned(member, b, series)
}

// The score of one member, minute by minute: a refusal's number and place, or the month's grains and fen.
#[tactic(auto, unfolding(crate::specs::Reckoning::reckoning))]
pub fn reckon(member: Member, b: &[u8], series: &[u32]) -> Score
    ensures { result ≡ reckoning member b.now series.now }
{
    in_fen(grains_reckoned(member, b, series))
}
