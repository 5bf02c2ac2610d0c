// 64 lines with limits, by value.
ghost use Rattle.std.specs.Prelude.{◌≡◌, ◌<◌, ◌≤◌, length, set, take, replicate};
ghost use Rattle.share.specs.Sharing.{most_number};
ghost use Rattle.ceiling.specs.Ceiling.{limited_is_sound, first_bad_limited, plain_lines};
ghost use Rattle.ceiling.specs.Forms.{cleared_line, cleared_lines};
ghost use Rattle.ceiling.specs.Inner.{blank_limited};

use crate::{Limit, LimitedLine, limit_is_sound};
use share::Line;
use share::array::{blank_line, blank_lines};
use share::settle::{filled, line_is_sound};
use units::{Fen, SignedFen};

// Whether a line is sound after the number `before`, and its limit is.
fn limited_is_sound(l: LimitedLine, before: u16) -> bool
    ensures { result ≡ limited_is_sound before l }
{
    let line = l.line;
    let limit = l.limit;
    line_is_sound(line, before) & limit_is_sound(limit)
}

// The place of the first line that is not sound, or their number.
// Stays two functions: a walk shared with plain lines would take the test and the number as closures, and be no shorter.
pub fn first_bad_limited(lines: &[LimitedLine]) -> usize
    ensures { result ≡ first_bad_limited 0 lines.now }
{
    let mut before: u16 = 0;
    for (i, l) in lines.iter().enumerate() {
        if !limited_is_sound(*l, before) {
            return i;
        }
        before = l.line.number;
    }
    lines.len()
}

// The lines without their limits, in front.
pub fn plain_lines(lines: &[LimitedLine]) -> [Line; 64]
    requires { length lines.now ≤ most_number }
    ensures { take (length lines.now) result ≡ plain_lines lines.now }
{
    let mut out = blank_lines();
    for (i, l) in lines.iter().enumerate() {
        out[i] = l.line;
    }
    out
}

// A line whose share, amount, what is not collected and what is given up are 0.
fn cleared_line(l: LimitedLine) -> LimitedLine
    ensures { result ≡ cleared_line l }
{
    let line = filled(l.line, SignedFen(0), SignedFen(0));
    let limit = l.limit;
    LimitedLine {
        line,
        limit,
        uncollected: Fen(0),
        given: Fen(0),
    }
}

// The lines with the four 0.
pub fn cleared_lines(mut lines: [LimitedLine; 64]) -> [LimitedLine; 64]
    ensures { result ≡ cleared_lines lines }
{
    for line in lines.iter_mut() {
        *line = cleared_line(*line);
    }
    lines
}

pub fn blank_limited() -> LimitedLine
    ensures { result ≡ blank_limited }
{
    let line = blank_line();
    LimitedLine {
        line,
        limit: Limit {
            none: false,
            fen: Fen(0),
        },
        uncollected: Fen(0),
        given: Fen(0),
    }
}

pub fn blank_limiteds() -> [LimitedLine; 64]
    ensures { result ≡ replicate 64 blank_limited }
{
    let none = blank_limited();
    [none; 64]
}

pub fn put_limited(mut lines: [LimitedLine; 64], i: usize, l: LimitedLine) -> [LimitedLine; 64]
    requires { i < 64 }
    ensures { result ≡ set lines i l }
{
    lines[i] = l;
    lines
}
