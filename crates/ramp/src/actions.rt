// A control action: which way it went, how far, and how far off; its limits; its 24 bytes.
ghost use Rattle.std.specs.Prelude.{◌≡◌, ◌+◌, ◌≤◌, length};
ghost use Rattle.ramp.specs.Ramping.{apart, is_right_way, move_of, error_of, action_is_sound};
ghost use Rattle.ramp.specs.Bytes.{action_size, action_at};

use crate::Action;
use le::u32_at;
use units::Kw;

pub const ACTION_SIZE: usize = 24;

pub const MOST_POWER: u32 = 5_000_000;

pub const MOST_DELAY: u32 = 300;

pub const MOST_RAMP_RATE: u32 = 1_000_000;

pub const MOST_OVER_STANDARD: u64 = 100;

// The action in the 24 bytes from `at` on.
pub fn action_at(s: &[u8], at: usize) -> Action
    requires { at + action_size ≤ length s.now }
    ensures { result ≡ action_at s.now at }
{
    let start = u32_at(s, at);
    let end = u32_at(s, at + 4);
    let command = u32_at(s, at + 8);
    let delay = u32_at(s, at + 12);
    let real = u32_at(s, at + 16);
    let standard = u32_at(s, at + 20);
    Action {
        start: Kw(start),
        end: Kw(end),
        command: Kw(command),
        delay,
        real,
        standard,
    }
}

// How far two powers are apart, either side.
#[tactic(auto, unfolding(crate::specs::Ramping::apart))]
fn apart(p: Kw, q: Kw) -> u32
    ensures { result ≡ apart p.0 q.0 }
{
    p.0.abs_diff(q.0)
}

// The end is on the commanded side of the start; any other action is wrong-way.
#[tactic(auto, unfolding(crate::specs::Ramping::is_right_way))]
pub fn is_right_way(a: Action) -> bool
    ensures { result ≡ is_right_way a }
{
    (a.start.0 < a.command.0) & (a.start.0 < a.end.0)
        | (a.command.0 < a.start.0) & (a.end.0 < a.start.0)
}

pub fn move_of(a: Action) -> u32
    ensures { result ≡ move_of a }
{
    apart(a.start, a.end)
}

pub fn error_of(a: Action) -> u32
    ensures { result ≡ error_of a }
{
    apart(a.end, a.command)
}

// Within the limits, of the hour's standard rate.
#[tactic(auto, unfolding(crate::specs::Ramping::action_is_sound))]
pub fn action_is_sound(standard: u32, a: Action) -> bool
    ensures { result ≡ action_is_sound standard a }
{
    (a.standard != 0)
        & (a.standard == standard)
        & (a.command.0 != a.start.0)
        & (a.start.0 <= MOST_POWER)
        & (a.end.0 <= MOST_POWER)
        & (a.command.0 <= MOST_POWER)
        & (a.delay <= MOST_DELAY)
        & (a.real <= MOST_RAMP_RATE)
        & (a.standard <= MOST_RAMP_RATE)
        & (a.real as u64 <= MOST_OVER_STANDARD * (a.standard as u64))
}
