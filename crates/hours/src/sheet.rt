// What the lines so far come to, or that one of them was bad.
ghost use Rattle.std.specs.Prelude.{◌≡◌, ℕ, ◌≤◌, true, Some, None, List, [], ◌∷◌, ◌++◌, length, replicate, nat_lt};
ghost use Rattle.pay.specs.declared.Member.{Member};
ghost use Rattle.pay.specs.Member.{most_rated};
ghost use Rattle.ramp.specs.Ramping.{most_actions, hour_grains};
ghost use Rattle.hours.specs.declared.HourLine.{HourLine};
ghost use Rattle.hours.specs.Hours.{most_hours, as_hour_line, hours_refused};
ghost use Rattle.hours.specs.declared.HoursFault.TheVariants.{AtLine};
ghost use Rattle.hours.specs.Inner.{ended_line, ended_lines, filled_for, standard_for, sheet_takes, lines_say, BlankSheet, GoodHour, Taken, Judged};

use crate::line::{line_in, no_action};
use crate::sums::{grains_sum, hours_with};
use crate::{HourLine, Hours, HoursFault, MOST_HOURS};
use grid::Grid;
use pay::{MOST_RATED, Member};
use ramp::actions::action_is_sound;
use ramp::so_far::{HourSoFar, MOST_ACTIONS};
use ramp::{Action, is_ramping};
use row::MOST_COLUMNS;
use units::{Grains, Kw};

// How many lines were taken, the hour of the last of them (else 0), its actions, how many they are, and for each hour of the month its grains and its actions.
// The fault is the member's, or that of the line after them. The actions of the last hour are kept, and their sums made of them anew at every line: sums that
// came from no actions could be past what adding to them allows.
#[derive(Clone, Copy)]
pub struct Sheet {
    pub fault: Option<HoursFault>,
    pub member: Member,
    pub hours: u16,
    pub count: usize,
    pub last: u16,
    pub filled: usize,
    pub kept: [Action; MOST_ACTIONS],
    pub grains: [Grains; MOST_HOURS],
    pub actions: [u8; MOST_HOURS],
}

// What the actions of an hour pay, where none is bad.
fn paid(rated: Kw, actions: &[Action]) -> Grains
    requires { length actions.now ≤ most_actions }
    ensures { (1 ≤ rated.0) × (rated.0 ≤ most_rated) → GoodHour actions.now → result.0 ≡ hour_grains rated.0 actions.now }
{
    let mut h = HourSoFar::start();
    for a in actions {
        if !h.takes(*a) {
            return Grains(0);
        }
        h = h.with(*a);
    }
    if (1 <= rated.0) & (rated.0 <= MOST_RATED) {
        return h.grains(rated);
    }
    Grains(0)
}

// A fault, otherwise zeros.
#[tactic(auto, unfolding(crate::specs::Hours::hours_refused))]
fn hours_refused(fault: HoursFault) -> Hours
    ensures { result ≡ hours_refused fault }
{
    Hours {
        fault: Some(fault),
        count: 0,
        sum: Grains(0),
        grains: [Grains(0); MOST_HOURS],
        actions: [0; MOST_HOURS],
    }
}

impl Sheet {
    // The sheet before any line, with a fault of the member or none.
    fn blank(member: Member, hours: u16, fault: Option<HoursFault>) -> Sheet
        ensures { BlankSheet member hours fault result }
    {
        Sheet {
            fault,
            member,
            hours,
            count: 0,
            last: 0,
            filled: 0,
            kept: [no_action(); MOST_ACTIONS],
            grains: [Grains(0); MOST_HOURS],
            actions: [0; MOST_HOURS],
        }
    }

    // The sheet before any line.
    pub fn start(member: Member, hours: u16) -> Sheet
        ensures { Judged member hours [] result }
    {
        if !member.is_sound() {
            return Sheet::blank(member, hours, Some(HoursFault::OfMember(10)));
        }
        if !is_ramping(member.kind) {
            return Sheet::blank(member, hours, Some(HoursFault::OfMember(12)));
        }
        Sheet::blank(member, hours, None)
    }

    // How many actions of an hour the sheet has.
    // Stays two functions: a judge of hour_faults keeps an hour of any size, and of its actions how many they are, not they themselves.
    #[tactic(auto, unfolding(crate::specs::Inner::filled_for))]
    fn filled_for(self, hour: u16) -> usize
        ensures { result ≡ filled_for self hour }
    {
        if hour == self.last { self.filled } else { 0 }
    }

    // The standard rate that an action must have, where its hour has n before it.
    // Stays two functions: a judge of hour_faults keeps the rate, the sheet the action that has it.
    #[tactic(auto, unfolding(crate::specs::Inner::standard_for, ramp::specs::Ramping::no_action))]
    fn standard_for(self, n: usize, a: Action) -> u32
        ensures { result ≡ standard_for self n a }
    {
        if n == 0 {
            a.standard
        } else {
            self.kept[0].standard
        }
    }

    // Whether a line is taken.
    fn takes(self, l: HourLine) -> bool
        ensures { result ≡ sheet_takes self l }
    {
        let a = l.action;
        let n = self.filled_for(l.hour);
        let sound = action_is_sound(self.standard_for(n, a), a);
        (l.hour < self.hours) & (self.last <= l.hour) & (n < MOST_ACTIONS) & sound
    }

    // The sheet after a line that it takes.
    #[tactic(auto, using(crate::proofs::Taking::takes_room))]
    fn taking(mut self, l: HourLine) -> Sheet
        requires { sheet_takes self l ≡ true }
        ensures { (m : Member) (hours : ℕ) (ls : List HourLine) → self.fault ≡ None → Taken m hours ls self → (result.fault ≡ None) × Taken m hours (ls ++ l ∷ []) result }
    {
        let n = self.filled_for(l.hour);
        self.kept[n] = l.action;
        let pay = paid(self.member.rated, &self.kept[..n + 1]);
        let hour = usize::from(l.hour);
        if hour < MOST_HOURS {
            self.grains[hour] = pay;
            self.actions[hour] = (n + 1) as u8;
        }
        self.count = self.count.wrapping_add(1);
        self.last = l.hour;
        self.filled = n + 1;
        self
    }

    // The sheet after a line that it does not take.
    fn refusing(mut self) -> Sheet
        ensures { result.fault ≡ Some (AtLine self.count) }
    {
        self.fault = Some(HoursFault::AtLine(self.count));
        self
    }

    // The sheet after a line.
    fn with(self, grid: Grid, ended: [u64; MOST_COLUMNS]) -> Sheet
        ensures { (m : Member) (hours : ℕ) (ls : List HourLine) → Judged m hours ls self → Judged m hours (ls ++ ended_line grid ended ∷ []) result }
    {
        if self.fault.is_some() {
            return self;
        }
        let l = line_in(grid, ended);
        if !self.takes(l) {
            return self.refusing();
        }
        self.taking(l)
    }

    // The sheet after a blank line, whatever lines stand behind it.
    fn spoilt(self) -> Sheet
        ensures { (m : Member) (hours : ℕ) (ls more : List HourLine) → Judged m hours ls self → Judged m hours (ls ++ as_hour_line [] ∷ more) result }
    {
        if self.fault.is_some() {
            return self;
        }
        self.refusing()
    }

    // The sheet after the end of a line, where a blank line is held back or none.
    pub fn after(self, blank: bool, grid: Grid, ended: [u64; MOST_COLUMNS]) -> Sheet
        ensures { (m : Member) (hours : ℕ) (ls : List HourLine) (held : ℕ) → blank ≡ nat_lt 0 held → Judged m hours ls self → Judged m hours (ls ++ ended_lines held grid ended) result }
    {
        if grid.is_heading() {
            return self;
        }
        if grid.is_blank() {
            return self;
        }
        if blank {
            return self.spoilt();
        }
        self.with(grid, ended)
    }

    // The answer where no line follows.
    pub fn answer(self) -> Hours
        ensures { (m : Member) (hours : ℕ) (ls : List HourLine) → Judged m hours ls self → result ≡ lines_say m hours ls }
    {
        match self.fault {
            Some(fault) => hours_refused(fault),
            None => {
                let grains = self.grains;
                let actions = self.actions;
                Hours {
                    fault: None,
                    count: hours_with(&actions),
                    sum: grains_sum(&grains),
                    grains,
                    actions,
                }
            }
        }
    }
}
