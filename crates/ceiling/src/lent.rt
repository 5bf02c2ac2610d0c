// Lines with limits that the caller lends, filled in where they lie.
ghost use Rattle.std.specs.Prelude.{◌≡◌, ◌≤◌};
ghost use Rattle.ceiling.specs.Forms.{LentLimited};
ghost use Rattle.ceiling.specs.Inner.{beside_ceiled, lend_limited};

use crate::array::{first_bad_limited, plain_lines};
use crate::second::second_sharing;
use crate::{Ceiled, LimitedLine};
use share::Answer;
use share::array::refused;
use share::lent::share_lines;
use share::limits::{MOST_PART, PART_PLACE};

// Sharing of all lines lent: share, amount, what is not collected and what is given up are filled in, or, on a refusal, nothing.
pub fn share_limited(part: u32, lines: &mut [LimitedLine]) -> Answer
    ensures { LentLimited part lines.old lines.new result }
{
    if MOST_PART < part {
        return refused(10, PART_PLACE);
    }
    let count = lines.len();
    let bad = first_bad_limited(lines);
    if bad < count {
        return refused(10, bad);
    }
    let mut shared = plain_lines(lines);
    let first = share_lines(part, &mut shared[..count]);
    if first.number != 0 {
        return refused(first.number, first.place);
    }
    second_sharing(lines, &shared[..count], first)
}

fn beside(told: Answer, lines: [LimitedLine; 64]) -> Ceiled
    ensures { result ≡ beside_ceiled told lines }
{
    let gap = told.gap;
    let user = told.user;
    Ceiled {
        number: told.number,
        place: told.place,
        gap,
        user,
        lines,
    }
}

// The first `count` lines are lent, and come back in their place.
pub fn lend_limited(part: u32, mut lines: [LimitedLine; 64], count: usize) -> Ceiled
    requires { count ≤ 64 }
    ensures { result ≡ lend_limited part lines count }
{
    let told = share_limited(part, &mut lines[..count]);
    beside(told, lines)
}
