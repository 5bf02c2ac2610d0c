// The judge of a statement: whether its numbers are a month's. Taken as they stand are the part and of each member the number, the hours, the grains, the assessment, the energy and what is not
// collected of it; the weight stands for a status. Every other number follows from these.
#![tactic(auto)]

ghost use Rattle.std.specs.Prelude.{◌≡◌, ◌≤◌, take};
ghost use Rattle.register.specs.Register.{most_entries};
ghost use Rattle.ceiling.specs.Ceiling.{ceiling};
ghost use Rattle.fitting.specs.Fitting.{is_fits, total_apart, user_apart, by_ceiling, finding_in};

use ceiling::{LimitedLine, ceiled_array};
use month::Statement;
use month::rows::is_below;
use register::MOST_ENTRIES;
use share::share;
use units::{Fen, SignedFen};

mod own;
mod parts;
pub mod told;

use own::{first_own, own_limits, own_lines};
use parts::{first_part, is_same};

// What does not fit in a statement: sharing refuses its lines, by number and place; or a column of a line of its text, counted from 0: what stands there, and what follows.
#[derive(Clone, Copy)]
pub enum Finding {
    NotShared(u32, usize),
    Compensation(usize, Fen, Fen),
    Weight(usize, u64, u64),
    Share(usize, SignedFen, SignedFen),
    Uncollected(usize, Fen, Fen),
    Given(usize, Fen, Fen),
    Amount(usize, SignedFen, SignedFen),
    Total(usize, SignedFen, SignedFen),
    User(usize, SignedFen, SignedFen),
}

pub fn is_fits(f: Result<(), Finding>) -> bool
    ensures { result ≡ is_fits f }
{
    f.is_ok()
}

// R, on the line behind the members'.
// Stays two functions: total_apart and user_apart are two definitions (specs/Fitting.antt), of two fields on two lines, and a closure for each would be as long.
fn total_apart(s: Statement, follows: SignedFen) -> Result<(), Finding>
    requires { s.count ≤ most_entries }
    ensures { result ≡ total_apart s follows.0 }
{
    let stands = s.gap;
    if is_same(stands, follows) {
        return Ok(());
    }
    Err(Finding::Total(1 + s.count, stands, follows))
}

// The user's amount, on the last line.
fn user_apart(s: Statement, follows: SignedFen) -> Result<(), Finding>
    requires { s.count ≤ most_entries }
    ensures { result ≡ user_apart s follows.0 }
{
    let stands = s.user;
    if is_same(stands, follows) {
        return Ok(());
    }
    Err(Finding::User(2 + s.count, stands, follows))
}

// Against the sharing of its own lines: R, the members' parts, the user's amount.
fn by_ceiling(s: Statement, limited: [LimitedLine; MOST_ENTRIES]) -> Result<(), Finding>
    requires { s.count ≤ most_entries }
    ensures { result ≡ by_ceiling s (ceiling s.part (take s.count limited)) }
{
    let c = ceiled_array(s.part, limited, s.count);
    if c.number != 0 {
        return Err(Finding::NotShared(c.number, c.place));
    }
    total_apart(s, c.gap)?;
    first_part(s.rows, c.lines, s.count)?;
    user_apart(s, c.user)
}

// What does not fit in a statement.
pub fn finding_in(s: Statement) -> Result<(), Finding>
    ensures { result ≡ finding_in s }
{
    let count = s.count;
    if MOST_ENTRIES < count {
        return Err(Finding::NotShared(10, MOST_ENTRIES));
    }
    let rows = s.rows;
    let negative = is_below(s.gap);
    first_own(negative, &rows[..count])?;
    let first = share(s.part, own_lines(negative, rows), count);
    if first.number != 0 {
        return Err(Finding::NotShared(first.number, first.place));
    }
    let shared = first.lines;
    let limited = own_limits(negative, rows, shared, count);
    by_ceiling(s, limited)
}
