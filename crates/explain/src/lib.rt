// Why a member got its grains: a part for each of its live calls, the month's energy, and what its ramping hours add.
#![tactic(auto)]

ghost use Rattle.std.specs.Prelude.{◌≡◌};
ghost use Rattle.score.specs.declared.answer.Earned.TheVariants.{Accepted};
ghost use Rattle.score.specs.Scoring.{grains_earned};
ghost use Rattle.explain.specs.Explaining.{hours_sum, explain_earned, explaining};

use crate::parts::{blank_parts, parts_before};
use book::{MOST_RECORDS, count_at};
use pay::Member;
use pay::event::month_pay;
use score::answer::Earned;
use score::grains_earned;
use units::{Grains, Wh};

pub mod parts;

// The hours of 31 days.
pub const MOST_HOURS: usize = 744;

// One live call of the member: its record, the grains for each kW of rating, the Wh of its event, its grains, and the quarter hours
// of a window that paid.
#[derive(Clone, Copy)]
pub struct CallPart {
    pub place: usize,
    pub rate: u64,
    pub wh: Wh,
    pub grains: Grains,
    pub quarters: u32,
}

// A refusal's number and place, otherwise zeros; or how many parts there are, the month's Wh and their pay, what the ramping hours add, all
// the grains, and the parts.
#[derive(Clone, Copy)]
pub struct Explained {
    pub number: u32,
    pub place: usize,
    pub count: usize,
    pub wh: Wh,
    pub energy: Grains,
    pub added: Grains,
    pub grains: Grains,
    pub parts: [CallPart; MOST_RECORDS],
}

// An accepted score.
fn explain_accepted(
    member: Member,
    book: &[u8],
    series: &[u32],
    added: Grains,
    grains: Grains,
) -> Explained
    requires { grains_earned member book.now series.now ≡ Accepted grains }
    ensures { result ≡ explain_earned member book.now series.now added (Accepted grains) }
{
    let n = count_at(book);
    let found = parts_before(member, book, n, series);
    let parts = found.parts;
    Explained {
        number: 0,
        place: 0,
        count: found.count,
        wh: found.wh,
        energy: month_pay(Grains(0), found.wh),
        added,
        grains: grains.plus(added),
        parts,
    }
}

// The member's score, explained part by part, with so many grains added to it.
fn explain_with(member: Member, book: &[u8], series: &[u32], added: Grains) -> Explained
    ensures { result ≡ explain_earned member book.now series.now added (grains_earned member book.now series.now) }
{
    let earned = grains_earned(member, book, series);
    match earned {
        Earned::Accepted(g) => explain_accepted(member, book, series, added, g),
        Earned::Refused(number, place) => {
            let parts = blank_parts();
            Explained {
                number,
                place,
                count: 0,
                wh: Wh(0),
                energy: Grains(0),
                added: Grains(0),
                grains: Grains(0),
                parts,
            }
        }
    }
}

// The hours' grains together.
fn hours_sum(hours: [Grains; MOST_HOURS]) -> Grains
    ensures { result.0 ≡ hours_sum hours }
{
    let mut sum = Grains(0);
    for hour in &hours {
        sum = sum.plus(*hour);
    }
    sum
}

// The member's score, explained part by part, and its ramping hours, 0 where one pays nothing.
#[tactic(auto, unfolding(crate::specs::Explaining::explaining))]
pub fn explain(
    member: Member,
    book: &[u8],
    series: &[u32],
    hours: [Grains; MOST_HOURS],
) -> Explained
    ensures { result ≡ explaining member book.now series.now hours }
{
    let added = hours_sum(hours);
    explain_with(member, book, series, added)
}
