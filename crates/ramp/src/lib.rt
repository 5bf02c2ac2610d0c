// Ramping of ordinary units: one hour's control actions, scored to the grain.
#![tactic(auto)]

ghost use Rattle.std.specs.Prelude.{◌≡◌, ◌*◌, ◌≤◌, length};
ghost use Rattle.ramp.specs.Ramping.{is_ramping, hour_refused, hour_paid, first_bad_action};
ghost use Rattle.ramp.specs.Bytes.{action_size, actions_from, ramping_bytes};
ghost use Rattle.ramp.specs.Inner.{SoFar};

use crate::actions::{ACTION_SIZE, action_at};
use crate::so_far::HourSoFar;
use pay::Member;
use pay::kind::{COAL, GAS, HYDRO};
use units::{Grains, Kw};

pub mod actions;
pub mod so_far;

// A control action: power at the start and the end and commanded power in kW, delay in seconds, real and standard rate in kW a minute.
#[derive(Clone, Copy)]
pub struct Action {
    pub start: Kw,
    pub end: Kw,
    pub command: Kw,
    pub delay: u32,
    pub real: u32,
    pub standard: u32,
}

// A refusal's number and place, otherwise zeros; or the hour's grains.
#[derive(Clone, Copy)]
pub struct Hour {
    pub number: u32,
    pub place: usize,
    pub grains: Grains,
}

// Coal, gas and hydro units.
#[tactic(auto, unfolding(crate::specs::Ramping::is_ramping))]
pub fn is_ramping(kind: u8) -> bool
    ensures { result ≡ is_ramping kind }
{
    (kind == COAL) | (kind == GAS) | (kind == HYDRO)
}

#[tactic(auto, unfolding(crate::specs::Ramping::hour_refused))]
fn hour_refused(number: u32, place: usize) -> Hour
    ensures { result ≡ hour_refused number place }
{
    Hour {
        number,
        place,
        grains: Grains(0),
    }
}

#[tactic(auto, unfolding(crate::specs::Ramping::hour_paid))]
fn hour_paid(grains: Grains) -> Hour
    ensures { result ≡ hour_paid grains.0 }
{
    Hour {
        number: 0,
        place: 0,
        grains,
    }
}

// What the actions before the first bad one leave.
fn hour_so_far(s: &[u8], count: usize) -> HourSoFar
    requires { action_size * count ≤ length s.now }
    ensures so_far { SoFar (actions_from s.now 0 result.count) result }
    ensures count_value { result.count ≡ first_bad_action (actions_from s.now 0 count) }
{
    let mut h = HourSoFar::start();
    for i in 0..count {
        let a = action_at(s, ACTION_SIZE * i);
        if !h.takes(a) {
            return h;
        }
        h = h.with(a);
    }
    h
}

// One hour of one member, its actions 24 bytes each.
pub fn ramping_bytes(member: Member, actions: &[u8]) -> Hour
    ensures { result ≡ ramping_bytes member actions.now }
{
    if actions.len() % ACTION_SIZE != 0 {
        return hour_refused(1, 0);
    }
    if !member.is_sound() {
        return hour_refused(10, 0);
    }
    if !is_ramping(member.kind) {
        return hour_refused(12, 0);
    }
    let count = actions.len() / ACTION_SIZE;
    let h = hour_so_far(actions, count);
    if h.count < count {
        return hour_refused(10, h.count);
    }
    hour_paid(h.grains(member.rated))
}
