// What people read of a year, as bytes in a buffer that the caller lends: a line for each member that is in a month, the users' sum, and the sums of all. It answers how
// long the text is; 0, and leaves the buffer alone, where that is shorter than the most bytes such a text may have.
#![tactic(auto)]

ghost use Rattle.std.specs.Prelude.{◌≡◌, ◌+◌, ◌*◌, ◌≤◌, length};
ghost use Rattle.std.specs.List.{list_any};
ghost use Rattle.io.specs.Counts.{IsPrefixLen};
ghost use Rattle.render.specs.Inner.{Puts};
ghost use Rattle.render.specs.Room.{Renders};
ghost use Rattle.annual.specs.Forms.{member_values, foot_values};
ghost use Rattle.annual.specs.Texts.{line_text, members_text, foot_text, year_of_text, year_text, most_line, most_foot, most_year};

use form::{fen_bits, fill};
use forms::{FOOT, HEAD, MEMBER};
use report::totals::{Totals, apart, short, with_user};
use units::SignedFen;
use year::{MOST_MEMBERS, MemberYear, Year};

mod forms;
mod sums;

use sums::year_totals;

// The most bytes of a year: 80 of its first line, 271 for each of 64 members, and 146 of the users' line and the sums.
pub const MOST_YEAR: usize = 17570;

// Whether a month is present.
fn is_present(months: &[bool]) -> bool
    ensures { result ≡ list_any (λ present. present) months.now }
{
    months.iter().any(|present| *present)
}

fn member_values(number: u16, m: &MemberYear) -> [u64; 19]
    ensures { result ≡ member_values number m.now }
{
    let sums = m.sums;
    let w = m.months;
    let charged = sums.assessment.to_fen();
    let share = fen_bits(sums.share);
    let amount = fen_bits(sums.amount);
    let most = fen_bits(m.largest.amount);
    [
        number as u64,
        w[0] as u64,
        w[1] as u64,
        w[2] as u64,
        w[3] as u64,
        w[4] as u64,
        w[5] as u64,
        w[6] as u64,
        w[7] as u64,
        w[8] as u64,
        w[9] as u64,
        w[10] as u64,
        w[11] as u64,
        sums.compensation.0,
        charged.0,
        share,
        amount,
        most,
        m.largest.month as u64,
    ]
}

// A member's line, if it is in a month.
fn put_line(out: &mut [u8], at: usize, number: u16, m: &MemberYear) -> usize
    requires { at + most_line ≤ length out.old }
    ensures { Puts most_line out.old at (line_text number m.now) out.new result }
{
    if !is_present(&m.months) {
        return at;
    }
    let values = member_values(number, m);
    fill(out, at, &MEMBER, &values)
}

fn put_members(out: &mut [u8], at: usize, members: &[MemberYear; MOST_MEMBERS]) -> usize
    requires { at + 64 * most_line ≤ length out.old }
    ensures { Puts (64 * most_line) out.old at (members_text members.now 64) out.new result }
{
    let mut next = at;
    for (i, m) in members.iter().enumerate() {
        next = put_line(out, next, (i + 1) as u16, m);
    }
    next
}

#[tactic(auto, unfolding(crate::specs::Forms::foot_values))]
fn foot_values(users: SignedFen, t: Totals) -> [u64; 5]
    ensures { result ≡ foot_values users.0 t }
{
    let minus = short(t.due, t.owed);
    let left = apart(t.due, t.owed);
    [fen_bits(users), t.compensation, t.assessment, minus, left]
}

// The users' line and the sums.
fn put_foot(out: &mut [u8], at: usize, users: SignedFen, t: Totals) -> usize
    requires { at + most_foot ≤ length out.old }
    ensures { Puts most_foot out.old at (foot_text users.0 t) out.new result }
{
    let values = foot_values(users, t);
    fill(out, at, &FOOT, &values)
}

fn put_year(out: &mut [u8], area: u8, y: Year) -> usize
    requires { most_year ≤ length out.old }
    ensures { Puts most_year out.old 0 (year_of_text area y) out.new result }
{
    let t = year_totals(&y.members);
    let all = with_user(t, y.users);
    let head = [area as u64, y.year as u64, y.count as u64];
    let a = fill(out, 0, &HEAD, &head);
    let b = put_members(out, a, &y.members);
    put_foot(out, b, y.users, all)
}

// The year's table; none of a year that is refused.
pub fn year_text(area: u8, y: Year, out: &mut [u8]) -> usize
    ensures renders { Renders most_year (year_text area y) out.old out.new result }
    ensures prefix_len { IsPrefixLen result out.new }
{
    if out.len() < MOST_YEAR {
        return 0;
    }
    if y.number != 0 {
        return 0;
    }
    put_year(out, area, y)
}
