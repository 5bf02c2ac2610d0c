// The members' lines of the statement.
ghost use Rattle.std.specs.Prelude.{◌≡◌, ◌≤◌, pos, take, replicate};
ghost use Rattle.std.specs.Int.Signed.{lt_z};
ghost use Rattle.share.specs.Sharing.{most_energy};
ghost use Rattle.register.specs.Register.{most_entries};
ghost use Rattle.share.specs.Limits.{CountedWithin};
ghost use Rattle.ceiling.specs.Ceiling.{plain_lines};
ghost use Rattle.month.specs.Settling.{blank_row, filled_rows};
ghost use Rattle.month.specs.Inner.{row_in, rows_in};

use crate::{Ramped, Row};
use ceiling::LimitedLine;
use register::MOST_ENTRIES;
use share::settle::weight_of;
use units::{Fen, Grains, Mwh, SignedFen, Thousandths};

fn blank_row() -> Row
    ensures { result ≡ blank_row }
{
    Row {
        grains: Grains(0),
        compensation: Fen(0),
        weight: 0,
        share: SignedFen(0),
        uncollected: Fen(0),
        given: Fen(0),
        amount: SignedFen(0),
        assessment: Thousandths(0),
        energy: Mwh(0),
        number: 0,
        hours: 0,
    }
}

pub fn blank_rows() -> [Row; MOST_ENTRIES]
    ensures { result ≡ replicate most_entries blank_row }
{
    let none = blank_row();
    [none; MOST_ENTRIES]
}

// Whether R is below zero.
pub fn is_below(gap: SignedFen) -> bool
    ensures { result ≡ lt_z gap.0 (pos 0) }
{
    gap.0 < 0
}

// The row of a line that is filled in; `negative` says that R is below zero.
fn row_in(negative: bool, limited: LimitedLine, grains: Grains, hours: u16) -> Row
    requires { limited.line.energy.0 ≤ most_energy }
    ensures { result ≡ row_in negative limited grains hours }
{
    let l = limited.line;
    let weight = weight_of(l, negative);
    let compensation = l.compensation;
    let share = l.share;
    let uncollected = limited.uncollected;
    let given = limited.given;
    let amount = l.amount;
    let assessment = l.assessment;
    let energy = l.energy;
    Row {
        grains,
        compensation,
        weight,
        share,
        uncollected,
        given,
        amount,
        assessment,
        energy,
        number: l.number,
        hours,
    }
}

// The rows of the first lines, and blank ones behind them.
pub fn filled_rows(
    lines: [LimitedLine; MOST_ENTRIES],
    grains: [Grains; MOST_ENTRIES],
    ramped: [Ramped; MOST_ENTRIES],
    count: usize,
    negative: bool,
) -> [Row; MOST_ENTRIES]
    requires { CountedWithin (plain_lines lines) count }
    ensures { result ≡ filled_rows (rows_in negative (take count lines) (take count grains) ramped) }
{
    let mut rows = blank_rows();
    for i in 0..count {
        rows[i] = row_in(negative, lines[i], grains[i], ramped[i].hours);
    }
    rows
}
