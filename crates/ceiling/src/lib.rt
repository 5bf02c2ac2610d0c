// The ceiling on a bad month: sharing of lines with limits. What a member pays beyond its limit is not collected; the members with positive
// amounts give it up.
#![tactic(auto)]

pub mod array;
pub mod lent;
pub mod second;

ghost use Rattle.std.specs.Prelude.{◌≡◌};
ghost use Rattle.ceiling.specs.Ceiling.{limit_is_sound, ceiling_refused};
ghost use Rattle.ceiling.specs.Forms.{ceiled_of, ceiled_array};

use array::{cleared_lines, first_bad_limited};
use lent::lend_limited;
use share::Line;
use share::limits::{MOST_PART, PART_PLACE};
use units::{Fen, SignedFen};

// The largest limit, in fen.
pub const MOST_LIMIT: u64 = 100_000_000_000;

// What a member pays at most: `none` is the mark for no limit, and the number beside it is not looked at then.
#[derive(Clone, Copy)]
pub struct Limit {
    pub none: bool,
    pub fen: Fen,
}

// A line of the sharing with its limit; share, amount, what is not collected of it and what it gives up are filled in.
#[derive(Clone, Copy)]
pub struct LimitedLine {
    pub line: Line,
    pub limit: Limit,
    pub uncollected: Fen,
    pub given: Fen,
}

// A refusal's number and place, or zeros; R; the user's amount; and the lines, filled in where there is no refusal.
#[derive(Clone, Copy)]
pub struct Ceiled {
    pub number: u32,
    pub place: usize,
    pub gap: SignedFen,
    pub user: SignedFen,
    pub lines: [LimitedLine; 64],
}

// Whether a limit is none, or within its own bound.
#[tactic(auto, unfolding(crate::specs::Ceiling::limit_is_sound))]
pub fn limit_is_sound(l: Limit) -> bool
    ensures { result ≡ limit_is_sound l }
{
    l.none | (l.fen.0 <= MOST_LIMIT)
}

// A refusal; share, amount, what is not collected and what is given up are 0.
pub fn refuse(number: u32, place: usize, lines: [LimitedLine; 64]) -> Ceiled
    ensures { result ≡ ceiled_of lines (ceiling_refused number place) }
{
    let cleared = cleared_lines(lines);
    Ceiled {
        number,
        place,
        gap: SignedFen(0),
        user: SignedFen(0),
        lines: cleared,
    }
}

// Sharing of the first `count` of 64 lines with limits; `part` is the generators', in hundredths of a percent.
pub fn ceiled_array(part: u32, lines: [LimitedLine; 64], count: usize) -> Ceiled
    ensures { result ≡ ceiled_array part lines count }
{
    if count <= 64 {
        return lend_limited(part, cleared_lines(lines), count);
    }
    if MOST_PART < part {
        return refuse(10, PART_PLACE, lines);
    }
    let bad = first_bad_limited(&lines);
    refuse(10, bad, lines)
}
