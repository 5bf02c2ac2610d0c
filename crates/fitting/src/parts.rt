// A member's row against its part of the sharing.
ghost use Rattle.std.specs.Prelude.{◌≡◌, ◌≤◌, take};
ghost use Rattle.register.specs.Register.{most_entries};
ghost use Rattle.month.specs.Inner.{got_in};
ghost use Rattle.fitting.specs.Fitting.{same_fen, part_apart, first_part_of};
ghost use Rattle.fitting.specs.Inner.{got_of};

use crate::Finding;
use ceiling::LimitedLine;
use month::Row;
use register::MOST_ENTRIES;
use units::SignedFen;

// Stays by hand: `==` of SignedFen asks for as long a proof that it is same_fen (specs/Fitting.antt).
pub fn is_same(a: SignedFen, b: SignedFen) -> bool
    ensures { result ≡ same_fen a.0 b.0 }
{
    a.0 == b.0
}

// Share, what is not collected, what is given up and amount of a row on a line.
fn part_apart(line: usize, r: Row, l: LimitedLine) -> Result<(), Finding>
    ensures { result ≡ part_apart line r (got_in l) }
{
    let own = l.line;
    let share = r.share;
    let borne = own.share;
    if !is_same(share, borne) {
        return Err(Finding::Share(line, share, borne));
    }
    let uncollected = r.uncollected;
    let beyond = l.uncollected;
    if uncollected.0 != beyond.0 {
        return Err(Finding::Uncollected(line, uncollected, beyond));
    }
    let given = r.given;
    let up = l.given;
    if given.0 != up.0 {
        return Err(Finding::Given(line, given, up));
    }
    let amount = r.amount;
    let got = own.amount;
    if !is_same(amount, got) {
        return Err(Finding::Amount(line, amount, got));
    }
    Ok(())
}

// The first row that is not its part.
pub fn first_part(
    rows: [Row; MOST_ENTRIES],
    lines: [LimitedLine; MOST_ENTRIES],
    count: usize,
) -> Result<(), Finding>
    requires { count ≤ most_entries }
    ensures { result ≡ first_part_of 1 (take count rows) (got_of (take count lines)) }
{
    for i in 0..count {
        part_apart(1 + i, rows[i], lines[i])?;
    }
    Ok(())
}
