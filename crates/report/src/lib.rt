// What people read of a month, as bytes in a buffer that the caller lends. Each function answers how long its text is. It answers 0, and
// leaves the buffer alone, where that is shorter than the most bytes its text may have.
#![tactic(auto)]

ghost use Rattle.std.specs.Prelude.{◌≡◌, ◌+◌, ◌*◌, ◌≤◌, length};
ghost use Rattle.io.specs.Counts.{IsPrefixLen};
ghost use Rattle.render.specs.Inner.{Puts};
ghost use Rattle.render.specs.Room.{Renders};
ghost use Rattle.report.specs.Texts.{row_text, rows_text, foot_text, month_of, month_text, most_row, most_foot, most_month};
ghost use Rattle.form.specs.Form.{most_of, most_with};
ghost use Rattle.report.specs.Forms.{row_values, foot_values, no_line_form, no_line_text, above_form, above_text};

use crate::forms::{ABOVE, FOOT, NO_LINE, ROW};
use form::{fen_bits, fill, say, say_with};
use month::{Row, Statement};
use share::array::seen;
use share::limits::MOST_COMPENSATION;
use units::{Fen, SignedFen};

mod forms;
pub mod hourly;
pub mod totals;
pub mod why;

use totals::{Totals, apart, short, totals_of, with_user};

// The most bytes of a month: 346 for each of 64 members, and 199 of the user's line and the sums.
pub const MOST_MONTH: usize = 22343;

#[tactic(auto, unfolding(crate::specs::Forms::row_values))]
fn row_values(r: Row) -> [u64; 11]
    ensures { result ≡ row_values r }
{
    [
        r.number as u64,
        r.hours as u64,
        r.grains.to_fen().0,
        r.compensation.0,
        r.assessment.to_fen().0,
        r.energy.0 as u64,
        r.weight,
        fen_bits(r.share),
        r.uncollected.0,
        r.given.0,
        fen_bits(r.amount),
    ]
}

fn put_row(out: &mut [u8], at: usize, r: Row) -> usize
    requires { at + most_row ≤ length out.old }
    ensures { Puts most_row out.old at (row_text r) out.new result }
{
    let values = row_values(r);
    fill(out, at, &ROW, &values)
}

fn put_rows(out: &mut [u8], rows: &[Row]) -> usize
    requires count_bound { length rows.now ≤ 64 }
    requires most_row_in_bounds { 64 * most_row ≤ length out.old }
    ensures { Puts (64 * most_row) out.old 0 (rows_text rows.now (length rows.now)) out.new result }
{
    let mut next = 0;
    for row in rows {
        next = put_row(out, next, *row);
    }
    next
}

#[tactic(auto, unfolding(crate::specs::Forms::foot_values))]
fn foot_values(user: SignedFen, gap: SignedFen, part: u32, t: Totals) -> [u64; 7]
    ensures { result ≡ foot_values user.0 gap.0 part t }
{
    [
        fen_bits(user),
        t.compensation,
        t.assessment,
        fen_bits(gap),
        part as u64,
        short(t.due, t.owed),
        apart(t.due, t.owed),
    ]
}

// The user's line and the sums.
fn put_foot(
    out: &mut [u8],
    at: usize,
    user: SignedFen,
    gap: SignedFen,
    part: u32,
    t: Totals,
) -> usize
    requires { at + most_foot ≤ length out.old }
    ensures { Puts most_foot out.old at (foot_text user.0 gap.0 part t) out.new result }
{
    let values = foot_values(user, gap, part, t);
    fill(out, at, &FOOT, &values)
}

fn put_month(out: &mut [u8], s: Statement, count: usize) -> usize
    requires count_bound { count ≤ 64 }
    requires most_month_in_bounds { most_month ≤ length out.old }
    ensures { Puts most_month out.old 0 (month_of s count) out.new result }
{
    let rows = &s.rows[..count];
    let t = totals_of(rows);
    let all = with_user(t, s.user);
    let a = put_rows(out, rows);
    put_foot(out, a, s.user, s.gap, s.part, all)
}

// The month's table.
pub fn month_text(s: Statement, out: &mut [u8]) -> usize
    ensures renders { Renders most_month (month_text s) out.old out.new result }
    ensures prefix_len { IsPrefixLen result out.new }
{
    if out.len() < MOST_MONTH {
        return 0;
    }
    put_month(out, s, seen(s.count))
}

// That a register has no line for a member.
pub fn no_line_text(register: &[u8], member: u16, out: &mut [u8]) -> usize
    ensures renders { Renders (most_with no_line_form (length register.now) 0) (no_line_text register.now member) out.old out.new result }
    ensures prefix_len { IsPrefixLen result out.new }
{
    say_with(&NO_LINE, &[member as u64], register, b"", out)
}

// That a member's compensation is above what a line may have.
pub fn above_text(member: u16, fen: Fen, out: &mut [u8]) -> usize
    ensures renders { Renders (most_of above_form) (above_text member fen.0) out.old out.new result }
    ensures prefix_len { IsPrefixLen result out.new }
{
    say(&ABOVE, &[member as u64, fen.0, MOST_COMPENSATION], out)
}
