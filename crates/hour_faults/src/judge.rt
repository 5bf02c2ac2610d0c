// What the lines so far come to: none of them has a fault, or which the first has.
ghost use Rattle.std.specs.Prelude.{◌≡◌, [], length};
ghost use Rattle.grid.specs.Meaning.{row_left};
ghost use Rattle.hours.specs.Hours.{hour_columns};
ghost use Rattle.faults.specs.Inner.{as_told};
ghost use Rattle.hour_faults.specs.HourFaults.{or_else, cells_fault, action_fault};
ghost use Rattle.hour_faults.specs.Inner.{judge_first, filled_for, standard_for, judge_fault, judge_taking, judge_refusing, judge_of, judge_after};

use crate::{HourWrong, action_fault, cells_fault, is_sound};
use faults::cells_of;
use grid::Grid;
use row::MOST_COLUMNS;

// A line has seven cells.
pub const COLUMNS: usize = 7;

// The fault of the first bad line, or that there is none so far; the hours of the month; how many lines were sound before it, the hour of the last of them (else 0), how
// many actions that has, and the standard rate of its first.
#[derive(Clone, Copy)]
pub struct Judge {
    pub wrong: Option<HourWrong>,
    pub hours: u16,
    pub count: usize,
    pub last: u64,
    pub filled: usize,
    pub first: u64,
}

// What is wrong with the cells of a line, each by itself or together.
fn line_fault(hours: u16, last: u64, n: usize, first: u64, cells: &[u64]) -> Option<HourWrong>
    requires { length cells.now ≡ hour_columns }
    ensures { result ≡ or_else (cells_fault hours cells.now) (action_fault last n first cells.now) }
{
    match cells_fault(hours, cells) {
        None => action_fault(last, n, first, cells),
        wrong => wrong,
    }
}

impl Judge {
    // The judge before any line, in a month of so many hours.
    #[tactic(auto, unfolding(crate::specs::Inner::judge_first))]
    pub fn start(hours: u16) -> Judge
        ensures { result ≡ judge_first hours }
    {
        Judge {
            wrong: None,
            hours,
            count: 0,
            last: 0,
            filled: 0,
            first: 0,
        }
    }

    // How many actions of an hour were taken.
    // Stays two functions: the sheet of hours keeps its hours in 16 bits, and of an hour its actions; a judge keeps any number that a cell may hold, and no action.
    #[tactic(auto, unfolding(crate::specs::Inner::filled_for))]
    fn filled_for(self, hour: u64) -> usize
        ensures { result ≡ filled_for self hour }
    {
        if hour == self.last { self.filled } else { 0 }
    }

    // The standard rate that an action must have, where its hour has n before it.
    // Stays two functions: the sheet of hours reads the rate off the first action that it keeps, a judge keeps the rate alone.
    #[tactic(auto, unfolding(crate::specs::Inner::standard_for))]
    fn standard_for(self, n: usize, own: u64) -> u64
        ensures { result ≡ standard_for self n own }
    {
        if n == 0 { own } else { self.first }
    }

    // What is wrong with a line of these cells.
    fn fault(self, cells: &[u64]) -> Option<HourWrong>
        ensures { result ≡ judge_fault self cells.now }
    {
        let count = cells.len();
        if count == 0 {
            return Some(HourWrong::Blank);
        }
        if count != COLUMNS {
            return Some(HourWrong::Columns(count, COLUMNS));
        }
        let n = self.filled_for(cells[0]);
        let first = self.standard_for(n, cells[6]);
        line_fault(self.hours, self.last, n, first, cells)
    }

    // The judge behind a line without a fault.
    fn taking(self, cells: &[u64]) -> Judge
        requires { length cells.now ≡ hour_columns }
        ensures { result ≡ judge_taking self cells.now }
    {
        let hour = cells[0];
        let n = self.filled_for(hour);
        let first = self.standard_for(n, cells[6]);
        Judge {
            wrong: None,
            count: self.count.wrapping_add(1),
            last: hour,
            filled: n.wrapping_add(1),
            first,
            ..self
        }
    }

    // The judge behind a line with a fault.
    #[tactic(auto, unfolding(crate::specs::Inner::judge_refusing))]
    fn refusing(self, wrong: HourWrong) -> Judge
        ensures { result ≡ judge_refusing self wrong }
    {
        Judge {
            wrong: Some(wrong),
            ..self
        }
    }

    // The judge behind a line of these cells.
    fn judged(self, cells: &[u64]) -> Judge
        ensures { result ≡ judge_of self cells.now }
    {
        if !is_sound(self.wrong) {
            return self;
        }
        match self.fault(cells) {
            None => self.taking(cells),
            Some(wrong) => self.refusing(wrong),
        }
    }

    // The judge behind a line that ends here.
    fn with(self, grid: Grid, ended: [u64; MOST_COLUMNS]) -> Judge
        ensures { result ≡ judge_of self (row_left as_told grid ended []) }
    {
        let row = cells_of(grid, ended);
        self.judged(&row.cells[..row.count])
    }

    // The judge behind a blank line, behind which another stands.
    fn spoilt(self) -> Judge
        ensures { result ≡ judge_of self [] }
    {
        if !is_sound(self.wrong) {
            return self;
        }
        self.refusing(HourWrong::Blank)
    }

    // The judge behind the end of a line, where a blank line is held back or none.
    pub fn after(self, blank: bool, grid: Grid, ended: [u64; MOST_COLUMNS]) -> Judge
        ensures { result ≡ judge_after self blank grid ended }
    {
        if grid.is_heading() {
            return self;
        }
        if grid.is_blank() {
            return self;
        }
        if blank {
            return self.spoilt();
        }
        self.with(grid, ended)
    }
}
