// What is wrong with a ramping file: its first bad line, found in a stream of any length in fixed memory.
#![tactic(auto)]

mod judge;
pub mod words;

ghost use Rattle.std.specs.Prelude.{◌≡◌, ℕ, ◌≤◌, true, List, [], ◌++◌, length, slice_index};
ghost use Rattle.ramp.specs.Ramping.{most_ramp_rate};
ghost use Rattle.hour_faults.specs.HourFaults.{
  is_sound,
  column_fault,
  month_fault,
  cells_fault,
  rising_fault,
  full_fault,
  standard_fault,
  fast_fault,
  move_fault,
  action_fault,
  first_hour_fault,
};
ghost use Rattle.hours.specs.Hours.{hour_columns, month_hours};
ghost use Rattle.hour_faults.specs.Inner.{found_by, fault_is_known, finder_is_settled, found_left};

use faults::first_row;
use grid::Grid;
use hours::month_hours;
use judge::{COLUMNS, Judge};
use ramp::actions::{MOST_DELAY, MOST_OVER_STANDARD, MOST_POWER, MOST_RAMP_RATE};
use ramp::so_far::MOST_ACTIONS;
use row::{CEILING, MOST_COLUMNS};

// What is wrong with a line: it is blank, with another behind it; so many cells, and so many that it should have; a column, counted from 1, that has no number;
// one whose number is outside its limits, with these; an hour below that of the line before, with that; an hour that has 60 actions before it; a standard rate of an hour
// that is not its first action's, with that; a real rate more than 100 times the standard; a commanded power that is the start's.
#[derive(Clone, Copy)]
pub enum HourWrong {
    Blank,
    Columns(usize, usize),
    NoNumber(usize),
    Outside(usize, u64, u64, u64),
    Earlier(u64, u64),
    Full(u64),
    OtherStandard(u64, u64, u64),
    TooFast(u64, u64),
    NoMove(u64),
}

// A fault at its line, all lines of the file counted from 1.
#[derive(Clone, Copy)]
pub struct HourFound {
    pub line: usize,
    pub wrong: HourWrong,
}

// All that is kept of the file so far: the line that is being read, whether a blank line before it is held back, the line of its first row where that is known,
// and what the lines before that come to.
#[derive(Clone, Copy)]
pub struct Finder {
    grid: Grid,
    ended: [u64; MOST_COLUMNS],
    blank: bool,
    first: Option<usize>,
    judge: Judge,
}

// Whether nothing is wrong.
pub fn is_sound(wrong: Option<HourWrong>) -> bool
    ensures { result ≡ is_sound wrong }
{
    wrong.is_none()
}

// Stays two functions: a register's (faults) is a fault of another kind, and names the limits beside a cell that is no number too.
#[tactic(auto, unfolding(crate::specs::HourFaults::column_fault))]
fn column_fault(column: usize, least: u64, most: u64, n: u64) -> Option<HourWrong>
    ensures { result ≡ column_fault column least most n }
{
    if CEILING < n {
        return Some(HourWrong::NoNumber(column));
    }
    if (least <= n) & (n <= most) {
        return None;
    }
    Some(HourWrong::Outside(column, n, least, most))
}

// The first column: an hour of the month.
#[tactic(auto, unfolding(crate::specs::HourFaults::month_fault))]
fn month_fault(hours: u16, n: u64) -> Option<HourWrong>
    ensures { result ≡ month_fault hours n }
{
    let end = u64::from(hours);
    if CEILING < n {
        return Some(HourWrong::NoNumber(1));
    }
    if n < end {
        return None;
    }
    Some(HourWrong::Outside(1, n, 0, end.saturating_sub(1)))
}

// The first of a line's cells that is wrong.
#[tactic(auto, unfolding(crate::specs::HourFaults::cells_fault))]
fn cells_fault(hours: u16, cells: &[u64]) -> Option<HourWrong>
    requires { length cells.now ≡ hour_columns }
    ensures { result ≡ cells_fault hours cells.now }
{
    let g = column_fault(7, 1, u64::from(MOST_RAMP_RATE), cells[6]);
    let f = column_fault(6, 0, u64::from(MOST_RAMP_RATE), cells[5]).or(g);
    let e = column_fault(5, 0, u64::from(MOST_DELAY), cells[4]).or(f);
    let d = column_fault(4, 0, u64::from(MOST_POWER), cells[3]).or(e);
    let c = column_fault(3, 0, u64::from(MOST_POWER), cells[2]).or(d);
    let b = column_fault(2, 0, u64::from(MOST_POWER), cells[1]).or(c);
    month_fault(hours, cells[0]).or(b)
}

#[tactic(auto, unfolding(crate::specs::HourFaults::rising_fault))]
fn rising_fault(last: u64, hour: u64) -> Option<HourWrong>
    ensures { result ≡ rising_fault last hour }
{
    if last <= hour {
        return None;
    }
    Some(HourWrong::Earlier(hour, last))
}

#[tactic(auto, unfolding(crate::specs::HourFaults::full_fault))]
fn full_fault(n: usize, hour: u64) -> Option<HourWrong>
    ensures { result ≡ full_fault n hour }
{
    if n < MOST_ACTIONS {
        return None;
    }
    Some(HourWrong::Full(hour))
}

#[tactic(auto, unfolding(crate::specs::HourFaults::standard_fault))]
fn standard_fault(first: u64, hour: u64, n: u64) -> Option<HourWrong>
    ensures { result ≡ standard_fault first hour n }
{
    if n == first {
        return None;
    }
    Some(HourWrong::OtherStandard(n, hour, first))
}

#[tactic(auto, unfolding(crate::specs::HourFaults::fast_fault))]
fn fast_fault(real: u64, standard: u64) -> Option<HourWrong>
    requires { standard ≤ most_ramp_rate }
    ensures { result ≡ fast_fault real standard }
{
    if real <= MOST_OVER_STANDARD * standard {
        return None;
    }
    Some(HourWrong::TooFast(real, standard))
}

#[tactic(auto, unfolding(crate::specs::HourFaults::move_fault))]
fn move_fault(start: u64, command: u64) -> Option<HourWrong>
    ensures { result ≡ move_fault start command }
{
    if command == start {
        return Some(HourWrong::NoMove(start));
    }
    None
}

// What is wrong with cells that are within their limits: behind a line of the last hour, where their own has n actions before them and its first a standard rate.
#[tactic(auto, unfolding(crate::specs::HourFaults::action_fault))]
fn action_fault(last: u64, n: usize, first: u64, cells: &[u64]) -> Option<HourWrong>
    requires seven { length cells.now ≡ hour_columns }
    requires rate { slice_index cells.now 6 ≤ most_ramp_rate }
    ensures { result ≡ action_fault last n first cells.now }
{
    let hour = cells[0];
    let move_ = move_fault(cells[1], cells[3]);
    let fast = fast_fault(cells[5], cells[6]).or(move_);
    let standard = standard_fault(first, hour, cells[6]).or(fast);
    let full = full_fault(n, hour).or(standard);
    rising_fault(last, hour).or(full)
}

// A fault behind so many lines without one, or none.
#[tactic(auto, unfolding(crate::specs::Inner::found_by))]
fn found_by(first: usize, judge: Judge) -> Option<HourFound>
    ensures { result ≡ found_by first judge }
{
    let wrong = judge.wrong?;
    Some(HourFound {
        line: first.wrapping_add(judge.count),
        wrong,
    })
}

impl Finder {
    // The finder in a month of so many hours, before any byte.
    pub fn start(hours: u16) -> Finder
        ensures { (rest : List ℕ) → found_left result rest ≡ first_hour_fault (month_hours hours) rest }
    {
        Finder {
            grid: Grid::start(),
            ended: [0; MOST_COLUMNS],
            blank: false,
            first: None,
            judge: Judge::start(month_hours(hours)),
        }
    }

    // The finder after some bytes more.
    // Stays two functions: a reader (hours) takes the same steps, and keeps a sheet where this keeps a judge. A walk over both would take the end of a line
    // as a closure, with a contract for each, and be longer than the two.
    pub fn feed(self, bytes: &[u8]) -> Finder
        ensures { (rest : List ℕ) → found_left result rest ≡ found_left self (bytes.now ++ rest) }
    {
        let first = self.first.or(first_row(bytes));
        let mut grid = self.grid;
        let mut ended = self.ended;
        let mut blank = self.blank;
        let mut judge = self.judge;
        let mut i: usize = 0;
        // Stays a while: a step passes over a whole run of digits, so the place does not move by one.
        while i < bytes.len() {
            if bytes[i] == b'\n' {
                judge = judge.after(blank, grid, ended);
                blank = grid.holds_blank(blank);
                grid = grid.next();
                i += 1;
            } else {
                let step = grid.step(bytes, i, &mut ended);
                grid = step.grid;
                i = step.end;
            }
        }
        Finder {
            grid,
            ended,
            blank,
            first,
            judge,
        }
    }

    // Whether the line that is being read has its fault whatever follows: it is neither a heading nor blank, and a blank line is held back before it, or it has too many cells.
    // Of any other line only its end tells what is wrong with it: before that there may be too few.
    fn fault_is_known(self) -> bool
        ensures { result ≡ fault_is_known self }
    {
        let grid = self.grid;
        if grid.is_heading() {
            return false;
        }
        if grid.is_blank() {
            return false;
        }
        self.blank | (COLUMNS <= grid.at)
    }

    // Whether the fault is known, and its line. No bytes that follow change it then.
    pub fn is_settled(self) -> bool
        ensures value { result ≡ finder_is_settled self }
        ensures rest_value { result ≡ true → (rest : List ℕ) → found_left self rest ≡ found_left self [] }
    {
        if self.first.is_none() {
            return false;
        }
        if !is_sound(self.judge.wrong) {
            return true;
        }
        self.fault_is_known()
    }

    // The first fault, if the file ends here.
    pub fn finish(self) -> Option<HourFound>
        ensures { result ≡ found_left self [] }
    {
        let ended = self.ended;
        let last = self.judge.after(self.blank, self.grid, ended);
        found_by(self.first.unwrap_or(2), last)
    }
}

// The first fault of a whole file in a month of so many hours.
pub fn first_hour_fault(hours: u16, text: &[u8]) -> Option<HourFound>
    ensures { result ≡ first_hour_fault (month_hours hours) text.now }
{
    Finder::start(hours).feed(text).finish()
}
