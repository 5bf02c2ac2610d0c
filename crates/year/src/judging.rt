// A monthly statement, judged by itself: its month, the user's amount, its lines in turn, and that all amounts add up to zero.
ghost use Rattle.std.specs.Prelude.{◌≡◌, true, ◌&&◌, ◌≤◌, length};
ghost use Rattle.year.specs.Year.{most_members, is_within, year_line_is_sound, lines_are_sound, adds_to_zero, date_is_sound, statement_is_sound};

use crate::member::added;
use crate::{MOST_MEMBERS, MonthStatement, YearLine};
use book::{FIRST_YEAR, LAST_YEAR};
use share::limits::{MOST_ASSESSMENT, MOST_COMPENSATION, MOST_NUMBER};
use units::SignedFen;
use units::calendar::MONTHS_PER_YEAR;

// A share or an amount is at most so many fen, and below zero no more than so many.
const MOST_EITHER_WAY: i64 = 200_000_000_000;

const LEAST_EITHER_WAY: i64 = -200_000_000_000;

// Whether a share or an amount is within its limit.
pub fn is_within(fen: SignedFen) -> bool
    ensures { result ≡ is_within fen.0 }
{
    let n = fen.0;
    (LEAST_EITHER_WAY <= n) & (n <= MOST_EITHER_WAY)
}

// Whether a line is sound after the number `before`.
fn year_line_is_sound(l: YearLine, before: u16) -> bool
    ensures { result ≡ year_line_is_sound before l }
{
    let share = l.share;
    let amount = l.amount;
    (before < l.number)
        & (u64::from(l.number) <= MOST_NUMBER)
        & (l.compensation.0 <= MOST_COMPENSATION)
        & (u64::from(l.assessment.0) <= MOST_ASSESSMENT)
        & is_within(share)
        & is_within(amount)
}

// Whether lines are sound in turn, and their amounts and the user's add up to zero.
fn lines_add_up(lines: &[YearLine], user: SignedFen) -> bool
    requires few { length lines.now ≤ most_members }
    requires user_value { is_within user.0 ≡ true }
    ensures { result ≡ (lines_are_sound 0 lines.now && adds_to_zero lines.now user.0) }
{
    let mut before: u16 = 0;
    let mut sum = SignedFen(0);
    for line in lines {
        if !year_line_is_sound(*line, before) {
            return false;
        }
        before = line.number;
        sum = added(sum, line.amount);
    }
    let all = added(sum, user);
    all.0 == 0
}

// Whether year and month are in the ranges of a book's header.
fn date_is_sound(year: u16, month: u8) -> bool
    ensures { result ≡ date_is_sound year month }
{
    (FIRST_YEAR <= year) & (year <= LAST_YEAR) & (1 <= month) & (month <= MONTHS_PER_YEAR)
}

// Whether a statement by itself is sound.
pub fn statement_is_sound(s: MonthStatement) -> bool
    ensures { result ≡ statement_is_sound s }
{
    if !date_is_sound(s.year, s.month) {
        return false;
    }
    let count = s.count;
    if MOST_MEMBERS < count {
        return false;
    }
    let user = s.user;
    if !is_within(user) {
        return false;
    }
    let lines = s.lines;
    lines_add_up(&lines[..count], user)
}
