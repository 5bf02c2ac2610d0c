// A ramping file read from text, a byte at a time, in fixed memory, whatever the text's length: what each hour of the month pays.
#![tactic(auto)]

mod line;
pub mod name;
mod sheet;
mod sums;

ghost use Rattle.std.specs.Prelude.{◌≡◌, ℕ, List, [], ◌++◌};
ghost use Rattle.pay.specs.declared.Member.{Member};
ghost use Rattle.hours.specs.Hours.{month_hours, read_hours};
ghost use Rattle.hours.specs.Stream.{HasRead, is_spoilt, reader_is_settled, Stops};

use grid::Grid;
use line::is_lost;
use pay::Member;
use ramp::Action;
use row::MOST_COLUMNS;
use sheet::Sheet;
use units::Grains;

// The hours of 31 days.
pub const MOST_HOURS: usize = 744;

// A line of the file: its hour of the month, and its action.
#[derive(Clone, Copy)]
pub struct HourLine {
    pub hour: u16,
    pub action: Action,
}

// What is wrong: the register line (10) or its kind (12); a line of the file, counted from 0.
#[derive(Clone, Copy)]
pub enum HoursFault {
    OfMember(u32),
    AtLine(usize),
}

// A fault, otherwise zeros; or how many hours the file has, their grains together, and for each hour of the month its grains and its actions.
#[derive(Clone, Copy)]
pub struct Hours {
    pub fault: Option<HoursFault>,
    pub count: usize,
    pub sum: Grains,
    pub grains: [Grains; MOST_HOURS],
    pub actions: [u8; MOST_HOURS],
}

// A month of so many hours: no month has more than 744.
#[tactic(auto, unfolding(crate::specs::Hours::month_hours))]
pub fn month_hours(hours: u16) -> u16
    ensures { result ≡ month_hours hours }
{
    hours.min(MOST_HOURS as u16)
}

// All that is kept of the file so far: the line that is being read, whether a blank line before it is held back, and what the lines before that come to.
#[derive(Clone, Copy)]
pub struct Reader {
    grid: Grid,
    ended: [u64; MOST_COLUMNS],
    blank: bool,
    sheet: Sheet,
}

impl Reader {
    // The reader of a member's file in a month of so many hours, before any byte.
    pub fn start(member: Member, hours: u16) -> Reader
        ensures { HasRead member (month_hours hours) result [] }
    {
        Reader {
            grid: Grid::start(),
            ended: [0; MOST_COLUMNS],
            blank: false,
            sheet: Sheet::start(member, month_hours(hours)),
        }
    }

    // The reader after some bytes more. The sheet is large: between line feeds only the grid moves.
    // Stays two functions: a finder (hour_faults) takes the same steps, and keeps a judge where this keeps a sheet. A walk over both would take the end of a line
    // as a closure, with a contract for each, and be longer than the two.
    pub fn feed(self, bytes: &[u8]) -> Reader
        ensures { (m : Member) (hours : ℕ) (text : List ℕ) → HasRead m hours self text → HasRead m hours result (text ++ bytes.now) }
    {
        let mut grid = self.grid;
        let mut ended = self.ended;
        let mut blank = self.blank;
        let mut sheet = self.sheet;
        let mut i: usize = 0;
        // Stays a while: a step passes over a whole run of digits, so the place does not move by one.
        while i < bytes.len() {
            if bytes[i] == b'\n' {
                sheet = sheet.after(blank, grid, ended);
                blank = grid.holds_blank(blank);
                grid = grid.next();
                i += 1;
            } else {
                let step = grid.step(bytes, i, &mut ended);
                grid = step.grid;
                i = step.end;
            }
        }
        Reader {
            grid,
            ended,
            blank,
            sheet,
        }
    }

    // Whether the line that is being read is bad whatever follows: it is neither a heading nor blank, and a blank line is held back before it, or no bytes can mend it.
    fn is_spoilt(self) -> bool
        ensures { result ≡ is_spoilt self }
    {
        let grid = self.grid;
        let ended = self.ended;
        if grid.is_heading() {
            return false;
        }
        if grid.is_blank() {
            return false;
        }
        self.blank | is_lost(grid, ended)
    }

    // Whether a fault is known: of the member, of a line that has ended, or of one that no bytes can mend. Nothing that follows changes the answer then.
    pub fn is_settled(self) -> bool
        ensures value { result ≡ reader_is_settled self }
        ensures stops { (m : Member) (hours : ℕ) (text : List ℕ) → HasRead m hours self text → Stops m hours text result }
    {
        if self.sheet.fault.is_some() {
            return true;
        }
        self.is_spoilt()
    }

    // The answer, if the file ends here.
    pub fn finish(self) -> Hours
        ensures { (m : Member) (hours : ℕ) (text : List ℕ) → HasRead m hours self text → result ≡ read_hours m hours text }
    {
        let ended = self.ended;
        self.sheet.after(self.blank, self.grid, ended).answer()
    }
}

// What a whole file says of a member in a month of so many hours.
pub fn read_hours(member: Member, hours: u16, text: &[u8]) -> Hours
    ensures { result ≡ read_hours member (month_hours hours) text.now }
{
    Reader::start(member, hours).feed(text).finish()
}
