// A member's year, and a month's lines added to the members.
ghost use Rattle.std.specs.Prelude.{◌≡◌, true, false, ◌-◌, ◌≤◌, nat_abs, ◌+ℤ◌, set, replicate};
ghost use Rattle.share.specs.Sharing.{most_compensation, most_assessment};
ghost use Rattle.year.specs.Year.{most_members, most_either_way, lines_are_sound, no_months};
ghost use Rattle.year.specs.Verdict.{LineFits, IsMonth};
ghost use Rattle.year.specs.Every.{fen_plus, thousandths_plus, signed_plus, sums_with, largest_with, member_with, with_lines};
ghost use Rattle.year.specs.Inner.{most_sum};

use crate::{Largest, MOST_MEMBERS, MOST_STATEMENTS, MemberYear, Sums, YearLine};
use units::{Fen, SignedFen, Thousandths};

// What twelve statements can come to.
const MOST_YEAR_FEN: u64 = 1_200_000_000_000;

const MOST_YEAR_THOUSANDTHS: u32 = 120_000_000;

const MOST_YEAR_SIGNED: i64 = 2_400_000_000_000;

const LEAST_YEAR_SIGNED: i64 = -2_400_000_000_000;

// A sum, and a month's number more. A sum past all that twelve statements can come to comes from no statements, and stays as it is.
// Stays two functions: fen and thousandths have a bound, a width and a definition (specs/Every.antt) each, and a trait that holds the three would be longer than both.
fn fen_plus(a: Fen, b: Fen) -> Fen
    requires { b.0 ≤ most_compensation }
    ensures { result.0 ≡ fen_plus a.0 b.0 }
{
    let sum = a.0;
    if sum <= MOST_YEAR_FEN {
        return Fen(sum + b.0);
    }
    Fen(sum)
}

fn thousandths_plus(a: Thousandths, b: Thousandths) -> Thousandths
    requires { b.0 ≤ most_assessment }
    ensures { result.0 ≡ thousandths_plus a.0 b.0 }
{
    let sum = a.0;
    if sum <= MOST_YEAR_THOUSANDTHS {
        return Thousandths(sum + b.0);
    }
    Thousandths(sum)
}

// Two sums, each far from the ends of 64 bits.
pub fn added(a: SignedFen, b: SignedFen) -> SignedFen
    requires a_bound { nat_abs a.0 ≤ most_sum }
    requires b_bound { nat_abs b.0 ≤ most_sum }
    ensures { result.0 ≡ a.0 +ℤ b.0 }
{
    let sum = a.0;
    let more = b.0;
    SignedFen(sum + more)
}

pub fn signed_plus(a: SignedFen, b: SignedFen) -> SignedFen
    requires { nat_abs b.0 ≤ most_either_way }
    ensures { result.0 ≡ signed_plus a.0 b.0 }
{
    let sum = a.0;
    if (LEAST_YEAR_SIGNED <= sum) & (sum <= MOST_YEAR_SIGNED) {
        return added(a, b);
    }
    a
}

// The sums after a line more.
fn sums_with(s: Sums, l: YearLine) -> Sums
    requires { LineFits l }
    ensures { result ≡ sums_with s l }
{
    let compensation = fen_plus(s.compensation, l.compensation);
    let assessment = thousandths_plus(s.assessment, l.assessment);
    let share = signed_plus(s.share, l.share);
    let amount = signed_plus(s.amount, l.amount);
    Sums {
        compensation,
        assessment,
        share,
        amount,
    }
}

// The largest after a month's amount: the first stands, and after it one that is above the largest; one as large leaves the earlier.
fn largest_with(g: Largest, month: u8, amount: SignedFen) -> Largest
    ensures { result ≡ largest_with g month amount.0 }
{
    let most = g.amount.0;
    let now = amount.0;
    if (g.month == 0) | (most < now) {
        return Largest { amount, month };
    }
    g
}

// The months with one more.
fn with_month(mut months: [bool; MOST_STATEMENTS], month: u8) -> [bool; MOST_STATEMENTS]
    requires { IsMonth month }
    ensures { result ≡ set months (month - 1) true }
{
    months[usize::from(month) - 1] = true;
    months
}

// A member after its line of a month.
fn member_with(m: MemberYear, month: u8, l: YearLine) -> MemberYear
    requires month { IsMonth month }
    requires line_fits { LineFits l }
    ensures { result ≡ member_with m month l }
{
    let so_far = m.months;
    let months = with_month(so_far, month);
    let sums = sums_with(m.sums, l);
    let largest = largest_with(m.largest, month, l.amount);
    MemberYear {
        months,
        sums,
        largest,
    }
}

fn no_months() -> MemberYear
    ensures { result ≡ no_months }
{
    MemberYear {
        months: [false; MOST_STATEMENTS],
        sums: Sums {
            compensation: Fen(0),
            assessment: Thousandths(0),
            share: SignedFen(0),
            amount: SignedFen(0),
        },
        largest: Largest {
            amount: SignedFen(0),
            month: 0,
        },
    }
}

pub fn no_members() -> [MemberYear; MOST_MEMBERS]
    ensures { result ≡ replicate most_members no_months }
{
    let none = no_months();
    [none; MOST_MEMBERS]
}

// The members after the lines of a month.
pub fn with_lines(
    mut members: [MemberYear; MOST_MEMBERS],
    month: u8,
    lines: &[YearLine],
) -> [MemberYear; MOST_MEMBERS]
    requires month { IsMonth month }
    requires lines_value { lines_are_sound 0 lines.now ≡ true }
    ensures { result ≡ with_lines members month lines.now }
{
    for line in lines {
        let at = usize::from(line.number) - 1;
        let m = members[at];
        members[at] = member_with(m, month, *line);
    }
    members
}
