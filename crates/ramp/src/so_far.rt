// An hour as it goes: what the actions so far leave, of which its pay is made. No action is kept.
ghost use Rattle.std.specs.Prelude.{◌≡◌, true, List, [], ◌∷◌, ◌++◌, ◌*◌, ◌/◌, ◌^◌, ◌<◌, ◌≤◌};
ghost use Rattle.pay.specs.Member.{most_rated};
ghost use Rattle.ramp.specs.declared.Action.{Action};
ghost use Rattle.ramp.specs.Ramping.{most_actions, most_power, hour_grains};
ghost use Rattle.ramp.specs.Inner.{standard_with, takes_action, SoFar, Goes, given_so_far, taken_so_far, over_so_far, most_index};

use crate::Action;
use crate::actions::{action_is_sound, error_of, is_right_way, move_of};
use product::product_over;
use units::{Grains, Kw};

pub const MOST_ACTIONS: usize = 60;

// The standard rate and the number of the actions so far; of the right-way ones their number and, added up, moves, errors, real rates and delays.
#[derive(Clone, Copy)]
pub struct HourSoFar {
    pub count: usize,
    pub right: u64,
    pub distance: u64,
    pub error: u64,
    pub real: u64,
    pub delay: u64,
    pub standard: u32,
}

impl HourSoFar {
    // The hour before any action.
    pub fn start() -> HourSoFar
        ensures { SoFar [] result }
    {
        HourSoFar {
            count: 0,
            right: 0,
            distance: 0,
            error: 0,
            real: 0,
            delay: 0,
            standard: 0,
        }
    }

    // The hour's standard rate, if this is its next action.
    fn standard_with(self, a: Action) -> u32
        ensures { result ≡ standard_with self a }
    {
        if self.count == 0 {
            return a.standard;
        }
        self.standard
    }

    // Whether one more action is good: fewer than 60 so far, and it is sound with the hour's standard rate, its own where it is the first.
    pub fn takes(self, a: Action) -> bool
        ensures { result ≡ takes_action self a }
    {
        let standard = self.standard_with(a);
        let sound = action_is_sound(standard, a);
        (self.count < MOST_ACTIONS) & sound
    }

    // The hour after an action that it takes.
    pub fn with(self, a: Action) -> HourSoFar
        requires goes { Goes self }
        requires a_value { takes_action self a ≡ true }
        ensures { (actions : List Action) → SoFar actions self → SoFar (actions ++ a ∷ []) result }
    {
        if !is_right_way(a) {
            return HourSoFar {
                count: self.count + 1,
                standard: a.standard,
                ..self
            };
        }
        let moved = move_of(a);
        let error = error_of(a);
        HourSoFar {
            count: self.count + 1,
            right: self.right + 1,
            distance: self.distance + moved as u64,
            error: self.error + error as u64,
            real: self.real + a.real as u64,
            delay: self.delay + a.delay as u64,
            standard: a.standard,
        }
    }

    // What the right-way actions' indices give together, what they take, and over what.
    #[tactic(auto, unfolding(crate::specs::Inner::given_so_far))]
    fn given_so_far(self, rated: Kw) -> u64
        requires goes { Goes self }
        requires rated_le_most_rated { rated.0 ≤ most_rated }
        ensures { result ≡ given_so_far rated.0 self }
    {
        let rates = 900 * self.real;
        let early = (600 * self.right - self.delay) * (self.standard as u64);
        (rates + early) * (rated.0 as u64)
    }

    #[tactic(auto, unfolding(crate::specs::Inner::taken_so_far))]
    fn taken_so_far(self) -> u64
        requires { Goes self }
        ensures { result ≡ taken_so_far self }
    {
        20_000 * self.error * (self.standard as u64)
    }

    #[tactic(auto, unfolding(crate::specs::Inner::over_so_far))]
    fn over_so_far(self, rated: Kw) -> u64
        requires goes { Goes self }
        requires rated_le_most_rated { rated.0 ≤ most_rated }
        ensures { result ≡ over_so_far rated.0 self }
    {
        (self.standard as u64) * (rated.0 as u64) * self.right
    }

    // What the hour pays.
    pub fn grains(self, rated: Kw) -> Grains
        requires goes { Goes self }
        requires le_rated { (1 ≤ rated.0) × (rated.0 ≤ most_rated) }
        ensures { (actions : List Action) → SoFar actions self → result.0 ≡ hour_grains rated.0 actions }
    {
        if self.right == 0 {
            return Grains(0);
        }
        let given = self.given_so_far(rated);
        let taken = self.taken_so_far();
        if given <= taken {
            return Grains(0);
        }
        let n = self.distance * 60;
        let all = self.over_so_far(rated);
        Grains(times_over(n, given - taken, all))
    }
}

// n times worth over all, rounded down: the whole part of worth over all is split off, so that what is left to multiply is below `all`.
fn times_over(n: u64, worth: u64, all: u64) -> u64
    requires n_bound { n ≤ 60 * most_actions * most_power }
    requires worth_bound { worth ≤ most_index * all }
    requires all_nonzero { (0 < all) × (all < 2 ^ 62) }
    ensures { result ≡ n * worth / all }
{
    let part = product_over(n, worth % all, all);
    n * (worth / all) + part.q
}
