// 64 lines by value: what callers of the array form need around it.
ghost use Rattle.std.specs.Prelude.{◌≡◌, ◌<◌, ◌≤◌, min, set, replicate};
ghost use Rattle.share.specs.Sharing.{sharing_refused};
ghost use Rattle.share.specs.Forms.{answer_of, blank_line, nothing_shared};

use crate::{Answer, Line, Shared};
use units::{Fen, Mwh, SignedFen, Thousandths};

pub fn blank_line() -> Line
    ensures { result ≡ blank_line }
{
    Line {
        number: 0,
        status: 0,
        energy: Mwh(0),
        compensation: Fen(0),
        assessment: Thousandths(0),
        share: SignedFen(0),
        amount: SignedFen(0),
    }
}

pub fn blank_lines() -> [Line; 64]
    ensures { result ≡ replicate 64 blank_line }
{
    let none = blank_line();
    [none; 64]
}

// A refusal, of lines that stay where they lie.
pub fn refused(number: u32, place: usize) -> Answer
    ensures { result ≡ answer_of (sharing_refused number place) }
{
    Answer {
        number,
        place,
        gap: SignedFen(0),
        user: SignedFen(0),
    }
}

// A refusal where there are no lines to hand back.
pub fn nothing_shared(number: u32, place: usize) -> Shared
    ensures { result ≡ nothing_shared number place }
{
    let lines = blank_lines();
    Shared {
        number,
        place,
        gap: SignedFen(0),
        user: SignedFen(0),
        lines,
    }
}

// How many of so many lines the array holds.
pub fn seen(count: usize) -> usize
    ensures { (result ≡ min count 64) × (result ≤ count) × (result ≤ 64) }
{
    count.min(64)
}

pub fn put_line(mut lines: [Line; 64], i: usize, l: Line) -> [Line; 64]
    requires { i < 64 }
    ensures { result ≡ set lines i l }
{
    lines[i] = l;
    lines
}
