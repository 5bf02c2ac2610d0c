// Sharing: the gap between assessments and compensations; the generators' part of it is carried by the lines by weight, the rest is the user's.
#![tactic(auto)]

pub mod array;
pub mod lent;
pub mod limits;
pub mod settle;

ghost use Rattle.std.specs.Prelude.{◌≡◌};
ghost use Rattle.share.specs.Forms.{shared_array};

use crate::lent::lend_front;
use crate::limits::{MOST_PART, PART_PLACE};
use crate::settle::{clear, first_bad_line, refuse};
use units::{Fen, Mwh, SignedFen, Thousandths};

// One line of the sharing; share and amount are filled in.
#[derive(Clone, Copy, PartialEq, Eq)]
pub struct Line {
    pub number: u16,
    pub status: u8,
    pub energy: Mwh,
    pub assessment: Thousandths,
    pub compensation: Fen,
    pub share: SignedFen,
    pub amount: SignedFen,
}

// A refusal's number and place, or zeros; R; the user's amount; and the lines, filled in where there is no refusal.
#[derive(Clone, Copy, PartialEq, Eq)]
pub struct Shared {
    pub number: u32,
    pub place: usize,
    pub gap: SignedFen,
    pub user: SignedFen,
    pub lines: [Line; 64],
}

// A refusal's number and place, or zeros, R and the user's amount.
#[derive(Clone, Copy)]
pub struct Answer {
    pub number: u32,
    pub place: usize,
    pub gap: SignedFen,
    pub user: SignedFen,
}

// The sharing of the first `count` of 64 lines; `part` is the generators', in hundredths of a percent.
pub fn share(part: u32, lines: [Line; 64], count: usize) -> Shared
    ensures { result ≡ shared_array part lines count }
{
    if count <= 64 {
        return lend_front(part, clear(lines), count);
    }
    if MOST_PART < part {
        return refuse(10, PART_PLACE, lines);
    }
    let bad = first_bad_line(&lines);
    refuse(10, bad, lines)
}
