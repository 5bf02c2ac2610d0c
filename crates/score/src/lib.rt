// A member's month, scored: the register line, the book, the series, then the member's records in turn.
#![tactic(auto)]

ghost use Rattle.std.specs.Prelude.{◌≡◌, true};
ghost use Rattle.pay.specs.Member.{member_is_sound};
ghost use Rattle.book.specs.Check.{check, accepted};
ghost use Rattle.score.specs.Scoring.{is_own_live, sound_earned, grains_earned, scoring};

use crate::answer::{Earned, Score, in_fen};
use crate::records::records_earned;
use crate::series::series_fault;
use book::{check, count_at, header_at};
use call::{Call, LIVE};
use pay::Member;
use pay::open::Month;
use units::calendar::quarters_of;

pub mod answer;
mod records;
pub mod refusal;
pub mod series;

// Whether a call is a live one of the member: what pays.
#[tactic(auto, unfolding(crate::specs::Scoring::is_own_live))]
pub fn is_own_live(member: Member, x: Call) -> bool
    ensures { result ≡ is_own_live member x }
{
    (x.participant == member.number) & (x.state == LIVE)
}

// The grains of a sound register line over a sound book.
fn sound_earned(member: Member, b: &[u8], series: &[u32]) -> Earned
    requires member_value { member_is_sound member ≡ true }
    requires b_value { check b.now ≡ accepted }
    ensures { result ≡ sound_earned member b.now series.now }
{
    let h = header_at(b);
    let fault = series_fault(series, quarters_of(h.year, h.month) as usize);
    let number = fault.number;
    if number != 0 {
        return Earned::Refused(number, fault.place);
    }
    let month = Month {
        year: h.year,
        month: h.month,
    };
    let n = count_at(b);
    records_earned(month, member, b, n, series)
}

// The grains of one member's month, or a refusal's number and place.
pub fn grains_earned(member: Member, b: &[u8], series: &[u32]) -> Earned
    ensures { result ≡ grains_earned member b.now series.now }
{
    if !member.is_sound() {
        return Earned::Refused(10, 0);
    }
    let fault = check(b);
    let number = fault.number;
    if number != 0 {
        return Earned::Refused(number, fault.place);
    }
    sound_earned(member, b, series)
}

// The score of one member: a refusal's number and place, or the month's grains and fen.
#[tactic(auto, unfolding(crate::specs::Scoring::scoring))]
pub fn score(member: Member, b: &[u8], series: &[u32]) -> Score
    ensures { result ≡ scoring member b.now series.now }
{
    in_fen(grains_earned(member, b, series))
}
