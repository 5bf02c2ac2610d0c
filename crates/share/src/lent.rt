// Lines that the caller lends, filled in where they lie.
ghost use Rattle.std.specs.Prelude.{◌≡◌, ◌≤◌};
ghost use Rattle.share.specs.Forms.{Lent, shared_array};
ghost use Rattle.share.specs.Inner.{beside, lend_front, Told};

use crate::settle::{Carried, fill_in, outcome};
use crate::{Answer, Line, Shared, share};

// What is said of the lines, besides what each carries.
fn told(o: Carried) -> Answer
    ensures { Told o result }
{
    let gap = o.gap;
    let user = o.user;
    Answer {
        number: o.number,
        place: o.place,
        gap,
        user,
    }
}

// The sharing of all lines lent: share and amount of each are filled in, or, on a refusal, nothing.
pub fn share_lines(part: u32, lines: &mut [Line]) -> Answer
    ensures { Lent part lines.old lines.new result }
{
    let o = outcome(part, lines);
    let answer = told(o);
    if o.number != 0 {
        return answer;
    }
    fill_in(lines, o.shares, o.negative);
    answer
}

fn beside(told: Answer, lines: [Line; 64]) -> Shared
    ensures { result ≡ beside told lines }
{
    let gap = told.gap;
    let user = told.user;
    Shared {
        number: told.number,
        place: told.place,
        gap,
        user,
        lines,
    }
}

// The first `count` lines are lent, and come back in their place.
pub fn lend_front(part: u32, mut lines: [Line; 64], count: usize) -> Shared
    requires { count ≤ 64 }
    ensures { result ≡ lend_front part lines count }
{
    let told = share_lines(part, &mut lines[..count]);
    beside(told, lines)
}

// The sharing of the first `count` of 64 lines, as `share` has it, which lends them.
pub fn share_front(part: u32, lines: [Line; 64], count: usize) -> Shared
    ensures { result ≡ shared_array part lines count }
{
    share(part, lines, count)
}
