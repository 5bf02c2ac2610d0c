// The operations that the paper has tables for, each with its table as its contract: what the machine knows of a lent slice, that it holds bytes, is part of their proof,
// and nobody has to supply it. They do nothing of their own.
#![tactic(auto)]

ghost use Rattle.book.specs.Refusals.{Refusal};
ghost use Rattle.join.specs.Joining.{join_outcome};
ghost use Rattle.join.specs.Verdict.{JoinVerdict};
ghost use Rattle.score.specs.Outcomes.{ScoreOutcome};
ghost use Rattle.operations.specs.Finding.{FindVerdict};

use book::{Verdict, check};
use join::{Joined, join};
use lookup::find;
use pay::Member;
use score::answer::Score;
use score::score;

// Any bytes, checked: number and place are those of their row.
pub fn checked(b: &[u8]) -> Verdict
    ensures { Refusal b.now result }
{
    check(b)
}

// Any two books, joined into the output: the answer and every byte of the output are those of their row.
pub fn joined(first: &[u8], second: &[u8], out: &mut [u8]) -> Joined
    ensures { JoinVerdict first.now second.now out.old (join_outcome result out.new) }
{
    join(first, second, out)
}

// One key in any two books: the part is that of its row.
pub fn found<'a>(first: &'a [u8], second: &'a [u8], participant: u16, number: u32) -> &'a [u8]
    ensures { FindVerdict first.now second.now participant number result.now }
{
    find(first, second, participant, number)
}

// Any member, book and series, scored: the answer is that of its row.
pub fn scored(member: Member, b: &[u8], series: &[u32]) -> Score
    ensures { ScoreOutcome member b.now series.now result }
{
    score(member, b, series)
}
