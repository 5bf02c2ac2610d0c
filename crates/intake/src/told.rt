// Why a text is not taken, in words, as bytes in a buffer that the caller lends.
ghost use Rattle.std.specs.Prelude.{◌≡◌, ◌+◌, ◌*◌, ◌≤◌, length, Some};
ghost use Rattle.io.specs.Counts.{IsPrefixLen};
ghost use Rattle.render.specs.Inner.{Puts};
ghost use Rattle.render.specs.Room.{Renders};
ghost use Rattle.intake.specs.Told.{line_text, other_text, not_later_text, reason_text, most_line, most_other, most_not_later, most_reason};

use crate::Reason;
use names::put_month;
use render::{put_decimal, put_field, put_word};

// The most bytes of a reason.
pub const MOST_REASON: usize = 84;

// A line as people count it, from 1 on, and why it is not taken.
// Stays two functions: fitting has the same, and intake and fitting share no crate that tells lines; line_text stands in the specs of each.
fn put_line(out: &mut [u8], line: u64, why: &[u8]) -> usize
    requires { most_line + length why.now ≤ length out.old }
    ensures { Puts (most_line + length why.now) out.old 0 (line_text line why.now) out.new result }
{
    let a = put_word(out, 0, b"line ");
    let b = put_decimal(out, a, line.saturating_add(1));
    put_word(out, b, why)
}

fn put_other(out: &mut [u8], what: &[u8], own: u64, before: u64) -> usize
    requires { most_other + 2 * length what.now ≤ length out.old }
    ensures { Puts (most_other + 2 * length what.now) out.old 0 (other_text what.now own before) out.new result }
{
    let a = put_field(out, 0, what, own);
    let b = put_word(out, a, b", and the statements before it of ");
    put_field(out, b, what, before)
}

fn put_not_later(out: &mut [u8], own: u8, before: u8) -> usize
    requires { most_not_later ≤ length out.old }
    ensures { Puts most_not_later out.old 0 (not_later_text own before) out.new result }
{
    let a = put_month(out, 0, own);
    let b = put_word(out, a, b" does not come after ");
    put_month(out, b, before)
}

fn put_why(out: &mut [u8], area: u8, year: u16, month: u8, reason: Reason) -> usize
    requires { most_reason ≤ length out.old }
    ensures { Puts most_reason out.old 0 (reason_text area year month (Some reason)) out.new result }
{
    match reason {
        Reason::NotLine(line) => put_line(out, line as u64, b" is not a line of a statement"),
        Reason::Beyond(line) => put_line(out, line as u64, b" has a number beyond its limit"),
        Reason::OtherArea(own) => put_other(out, b"area ", u64::from(own), u64::from(area)),
        Reason::OtherYear(own) => put_other(out, b"year ", u64::from(own), u64::from(year)),
        Reason::NotLater(own) => put_not_later(out, own, month),
        Reason::NotZero => put_word(out, 0, b"its amounts do not add up to zero"),
    }
}

fn put_reason(out: &mut [u8], area: u8, year: u16, month: u8, reason: Option<Reason>) -> usize
    requires { most_reason ≤ length out.old }
    ensures { Puts most_reason out.old 0 (reason_text area year month reason) out.new result }
{
    match reason {
        None => 0,
        Some(own) => put_why(out, area, year, month, own),
    }
}

// A reason, behind statements of an area and a year, the last of them of a month; nothing where there is none.
pub fn reason_text(area: u8, year: u16, month: u8, reason: Option<Reason>, out: &mut [u8]) -> usize
    ensures renders { Renders most_reason (reason_text area year month reason) out.old out.new result }
    ensures prefix_len { IsPrefixLen result out.new }
{
    if out.len() < MOST_REASON {
        return 0;
    }
    put_reason(out, area, year, month, reason)
}
