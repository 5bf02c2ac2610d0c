// The texts of monthly statements, taken into a year one by one: each is read, held to the limits and to the first one's area, and given to the year as a statement.
// One that is no statement, is of another area, or is beyond a limit stands as a statement of no month, which no year takes.
#![tactic(auto)]

ghost use Rattle.std.specs.Prelude.{◌≡◌, true, ◌≤◌, IfOk};
ghost use Rattle.register.specs.Register.{most_entries};
ghost use Rattle.intake.specs.Intake.{area_after, is_taken, as_statement, no_texts, TakesText};
ghost use Rattle.intake.specs.Reasons.{reason_of, reason_in, GivesReason};
ghost use Rattle.intake.specs.Limits.{statement_is_within};

use month::Statement;
use posted::read_posted;
use year::judging::statement_is_sound;
use year::{MonthStatement, Year};

mod limits;
mod lines;
pub mod told;

use limits::{line_beyond, statement_is_within};
use lines::{blank_statement, month_statement};

// The year so far, and the area of its first statement, 0 before there is one.
#[derive(Clone, Copy)]
pub struct Intake {
    pub year: Year,
    pub area: u8,
}

// Why a text is not taken: a line of it, counted from 0, is none of a statement; a number of a line is beyond its limit; it is of another area, of another year, of a
// month that does not come after the last; its amounts do not add up to zero.
#[derive(Clone, Copy)]
pub enum Reason {
    NotLine(usize),
    Beyond(usize),
    OtherArea(u8),
    OtherYear(u16),
    NotLater(u8),
    NotZero,
}

// The first area that is not 0.
fn area_after(area: u8, p: Result<Statement, usize>) -> u8
    ensures { result ≡ area_after area p }
{
    let Ok(s) = p else {
        return area;
    };
    if area != 0 {
        return area;
    }
    let header = s.header;
    header.area
}

// Whether a statement is of an area, within the limits.
fn is_taken(area: u8, s: Statement) -> bool
    requires { s.count ≤ most_entries }
    ensures { result ≡ is_taken area s }
{
    let header = s.header;
    (header.area == area) & statement_is_within(s)
}

fn as_statement(area: u8, p: Result<Statement, usize>) -> MonthStatement
    requires { IfOk p (λ s. s.count ≤ most_entries) }
    ensures { result ≡ as_statement area p }
{
    let Ok(s) = p else {
        return blank_statement();
    };
    if !is_taken(area, s) {
        return blank_statement();
    }
    month_statement(s)
}

// What is wrong with a statement within the limits, behind those that were taken, if anything is.
fn reason_in(g: Intake, s: Statement) -> Option<Reason>
    requires count_le_most_entries { s.count ≤ most_entries }
    requires s_value { statement_is_within s ≡ true }
    ensures { result ≡ reason_in g s }
{
    let header = s.header;
    let y = g.year;
    if (g.area != 0) & (header.area != g.area) {
        return Some(Reason::OtherArea(header.area));
    }
    if (y.count != 0) & (header.year != y.year) {
        return Some(Reason::OtherYear(header.year));
    }
    if header.month <= y.month {
        return Some(Reason::NotLater(header.month));
    }
    if !statement_is_sound(month_statement(s)) {
        return Some(Reason::NotZero);
    }
    None
}

fn reason_of(g: Intake, p: Result<Statement, usize>) -> Option<Reason>
    requires { IfOk p (λ s. s.count ≤ most_entries) }
    ensures { result ≡ reason_of g p }
{
    let s = match p {
        Ok(s) => s,
        Err(line) => return Some(Reason::NotLine(line)),
    };
    if !statement_is_within(s) {
        return Some(Reason::Beyond(line_beyond(s)));
    }
    reason_in(g, s)
}

impl Intake {
    // Before any text.
    pub fn start() -> Intake
        ensures { result ≡ no_texts }
    {
        let year = Year::start();
        Intake { year, area: 0 }
    }

    // The year with one text more. The first refusal stands.
    pub fn with(self, text: &[u8]) -> Intake
        ensures { TakesText text.now self result }
    {
        let p = read_posted(text);
        let area = area_after(self.area, p);
        let s = as_statement(area, p);
        let before = self.year;
        let year = before.with(s);
        Intake { year, area }
    }

    // Why a text is not taken behind those before it, if there is a reason.
    pub fn reason(self, text: &[u8]) -> Option<Reason>
        ensures { GivesReason text.now self result }
    {
        let p = read_posted(text);
        reason_of(self, p)
    }
}
