// A statement as the year takes it.
ghost use Rattle.std.specs.Prelude.{◌≡◌, map, replicate};
ghost use Rattle.year.specs.Year.{most_members};
ghost use Rattle.year.specs.Verdict.{blank_line, blank_statement};
ghost use Rattle.intake.specs.Intake.{year_line, year_lines, month_statement};

use month::{Row, Statement};
use units::{Fen, SignedFen, Thousandths};
use year::{MOST_MEMBERS, MonthStatement, YearLine};

fn year_line(r: Row) -> YearLine
    ensures { result ≡ year_line r }
{
    let compensation = r.compensation;
    let assessment = r.assessment;
    let share = r.share;
    let amount = r.amount;
    YearLine {
        number: r.number,
        compensation,
        assessment,
        share,
        amount,
    }
}

fn blank_line() -> YearLine
    ensures { result ≡ blank_line }
{
    YearLine {
        number: 0,
        compensation: Fen(0),
        assessment: Thousandths(0),
        share: SignedFen(0),
        amount: SignedFen(0),
    }
}

fn blank_lines() -> [YearLine; MOST_MEMBERS]
    ensures { result ≡ replicate most_members blank_line }
{
    let none = blank_line();
    [none; MOST_MEMBERS]
}

// A statement of no month, which no year takes.
pub fn blank_statement() -> MonthStatement
    ensures { result ≡ blank_statement }
{
    let lines = blank_lines();
    MonthStatement {
        year: 0,
        month: 0,
        count: 0,
        lines,
        user: SignedFen(0),
    }
}

fn year_lines(rows: [Row; MOST_MEMBERS]) -> [YearLine; MOST_MEMBERS]
    ensures { result ≡ year_lines rows }
{
    let mut lines = blank_lines();
    for (i, r) in rows.iter().enumerate() {
        lines[i] = year_line(*r);
    }
    lines
}

// A month's own numbers, as the year takes them.
pub fn month_statement(s: Statement) -> MonthStatement
    ensures { result ≡ month_statement s }
{
    let rows = s.rows;
    let lines = year_lines(rows);
    let header = s.header;
    let user = s.user;
    MonthStatement {
        year: header.year,
        month: header.month,
        count: s.count,
        lines,
        user,
    }
}
