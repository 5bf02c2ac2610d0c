// The sums below a month's table.
ghost use Rattle.std.specs.Prelude.{◌≡◌, ◌-◌, length};
ghost use Rattle.report.specs.Totals.{fen_plus, due_of, owed_of, apart, with_line, with_user, no_lines, totals_of};

use month::Row;
use units::{Fen, SignedFen, Thousandths};

// C, A, what is due to members and what members owe, in fen.
#[derive(Clone, Copy)]
pub struct Totals {
    pub compensation: u64,
    pub assessment: u64,
    pub due: u64,
    pub owed: u64,
}

// Fen, and more of them: a sum past the top of 64 bits is told as the top, so that none wraps.
#[tactic(auto, unfolding(crate::specs::Totals::fen_plus))]
pub fn plus(a: u64, b: u64) -> u64
    ensures { result ≡ fen_plus a b }
{
    a.saturating_add(b)
}

// What an amount above zero gives, and what one below zero takes.
pub fn due_of(n: i64) -> u64
    ensures { result ≡ due_of n }
{
    if n < 0 { 0 } else { n.unsigned_abs() }
}

pub fn owed_of(n: i64) -> u64
    ensures { result ≡ owed_of n }
{
    if n < 0 { n.unsigned_abs() } else { 0 }
}

// How far two sums are apart.
#[tactic(auto, unfolding(crate::specs::Totals::apart))]
pub fn apart(a: u64, b: u64) -> u64
    ensures { result ≡ apart a b }
{
    a.abs_diff(b)
}

// What the one is short of the other.
pub fn short(a: u64, b: u64) -> u64
    ensures { result ≡ b - a }
{
    b.saturating_sub(a)
}

// The sums with a line more: what it is paid, what it is charged, and its amount.
pub fn with_line(t: Totals, paid: Fen, charged: Thousandths, amount: SignedFen) -> Totals
    ensures { result ≡ with_line t paid.0 charged.0 amount.0 }
{
    let charged = charged.to_fen();
    Totals {
        compensation: plus(t.compensation, paid.0),
        assessment: plus(t.assessment, charged.0),
        due: plus(t.due, due_of(amount.0)),
        owed: plus(t.owed, owed_of(amount.0)),
    }
}

// The sums with the user's amount.
#[tactic(auto, unfolding(crate::specs::Totals::with_user))]
pub fn with_user(t: Totals, user: SignedFen) -> Totals
    ensures { result ≡ with_user t user.0 }
{
    Totals {
        due: plus(t.due, due_of(user.0)),
        owed: plus(t.owed, owed_of(user.0)),
        ..t
    }
}

// The sums of no lines.
pub fn no_lines() -> Totals
    ensures { result ≡ no_lines }
{
    Totals {
        compensation: 0,
        assessment: 0,
        due: 0,
        owed: 0,
    }
}

// The sums of lines.
pub fn totals_of(rows: &[Row]) -> Totals
    ensures { result ≡ totals_of rows.now (length rows.now) }
{
    let mut t = no_lines();
    for row in rows {
        t = with_line(t, row.compensation, row.assessment, row.amount);
    }
    t
}
