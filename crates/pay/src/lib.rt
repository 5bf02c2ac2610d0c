// What a member's calls pay, in grains, service by service, and which service is open to which kind.
#![tactic(auto)]

ghost use Rattle.std.specs.Prelude.{◌≡◌};
ghost use Rattle.pay.specs.Member.{member_is_sound, is_by_rate, has_availability};

use crate::kind::{
    COAL, GAS, HYDRO, NEW_STORAGE, PHOTOVOLTAIC, PUMPED_STORAGE, SOLAR_THERMAL, WIND,
};
use call::MOST_PARTICIPANT;
use units::Kw;

pub mod event;
pub mod kind;
pub mod live;
pub mod open;
mod rate;
mod window;

// The largest rating, in kW.
pub const MOST_RATED: u32 = 4_000_000;

// A register line: participant, kind and rating.
#[derive(Clone, Copy)]
pub struct Member {
    pub number: u16,
    pub kind: u8,
    pub rated: Kw,
}

impl Member {
    #[tactic(auto, unfolding(crate::specs::Member::member_is_sound))]
    pub fn is_sound(self) -> bool
        ensures { result ≡ member_is_sound self }
    {
        (1 <= self.number)
            & (self.number <= MOST_PARTICIPANT)
            & (COAL <= self.kind)
            & (self.kind <= NEW_STORAGE)
            & (1 <= self.rated.0)
            & (self.rated.0 <= MOST_RATED)
    }
}

// Wind and photovoltaic: a frequency event is paid by its rate, not by energy.
#[tactic(auto, unfolding(crate::specs::Member::is_by_rate))]
pub fn is_by_rate(kind: u8) -> bool
    ensures { result ≡ is_by_rate kind }
{
    (kind == WIND) | (kind == PHOTOVOLTAIC)
}

// The kinds that service 6 names.
#[tactic(auto, unfolding(crate::specs::Member::has_availability))]
fn has_availability(kind: u8) -> bool
    ensures { result ≡ has_availability kind }
{
    (kind == COAL)
        | (kind == GAS)
        | (kind == HYDRO)
        | (kind == SOLAR_THERMAL)
        | (kind == PUMPED_STORAGE)
        | (kind == NEW_STORAGE)
}
