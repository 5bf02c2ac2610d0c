// What a member's ramping file gives to its month.
ghost use Rattle.std.specs.Prelude.{◌≡◌};
ghost use Rattle.hours.specs.Hours.{month_hours};
ghost use Rattle.hours_file.specs.Given.{hours_of, ramped_of};

use hours::{Hours, HoursFault, MOST_HOURS};
use month::Ramped;
use units::Grains;
use units::calendar::days_of;

const HOURS_PER_DAY: u32 = 24;

// The hours of a month.
#[tactic(auto, using(units::proofs::Laws::days_most), unfolding(crate::specs::Given::hours_of))]
pub fn hours_of(year: u16, month: u8) -> u16
    ensures { result ≡ hours_of year month }
{
    (days_of(year, month) * HOURS_PER_DAY) as u16
}

// As many hours, of which no month has more than 744.
#[tactic(auto, unfolding(hours::specs::Hours::month_hours))]
fn hours_told(count: usize) -> u16
    ensures { result ≡ month_hours count }
{
    count.min(MOST_HOURS) as u16
}

// How many hours there are and their grains together, or the refusal.
#[tactic(auto, unfolding(crate::specs::Given::ramped_of))]
pub fn ramped_of(h: Hours) -> Ramped
    ensures { result ≡ ramped_of h }
{
    let fault = h.fault;
    let sum = h.sum;
    let count = h.count;
    match fault {
        None => {
            let hours = hours_told(count);
            Ramped {
                grains: sum,
                place: 0,
                number: 0,
                hours,
            }
        }
        Some(HoursFault::OfMember(number)) => Ramped {
            grains: Grains(0),
            place: 0,
            number,
            hours: 0,
        },
        Some(HoursFault::AtLine(line)) => Ramped {
            grains: Grains(0),
            place: line,
            number: 10,
            hours: 0,
        },
    }
}
