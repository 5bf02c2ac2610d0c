// The members in turn: each one's grains over the book and its own part of the series, and those of its ramping file.
ghost use Rattle.std.specs.Prelude.{◌≡◌, ◌+◌, ◌-◌, ◌≤◌, min, length};
ghost use Rattle.score.specs.declared.answer.Earned.TheVariants.{Accepted};
ghost use Rattle.score.specs.Scoring.{grains_earned};
ghost use Rattle.register.specs.Register.{most_entries};
ghost use Rattle.month.specs.Settling.{earned_with, compensation_of, member_fault, earnings, compensations};
ghost use Rattle.month.specs.Inner.{MembersEarned};

use crate::{Fault, Ramped};
use pay::Member;
use register::{Entry, MOST_ENTRIES};
use score::answer::Earned;
use score::grains_earned;
use units::{Fen, Grains};

// What a member's turn gives: the grains of its score and of its ramping file together; the score's refusal; the file's.
#[derive(Clone, Copy)]
pub enum MemberEarned {
    ScoreAndHours(Grains),
    NotScored(u32, usize),
    NotRamped(u32, usize),
}

// Where the part of a member ends that begins at `at` and has so many values, of so many in all.
fn part_end(at: usize, values: usize, all: usize) -> usize
    requires { at ≤ all }
    ensures { (result ≡ at + min values (all - at)) × (at ≤ result) × (result ≤ all) }
{
    at + values.min(all - at)
}

// The grains of a score and of a ramping file together; or the file's refusal.
fn with_ramping(score: Grains, ramped: Ramped) -> MemberEarned
    ensures { result ≡ earned_with (Accepted score) ramped }
{
    let number = ramped.number;
    if number != 0 {
        return MemberEarned::NotRamped(number, ramped.place);
    }
    let hours = ramped.grains;
    let sum = score.plus(hours);
    MemberEarned::ScoreAndHours(sum)
}

// A member's turn: its score's refusal, then its ramping file's, then the grains of both.
fn member_earned(member: Member, book: &[u8], series: &[u32], ramped: Ramped) -> MemberEarned
    ensures { result ≡ earned_with (grains_earned member book.now series.now) ramped }
{
    let earned = grains_earned(member, book, series);
    match earned {
        Earned::Accepted(g) => with_ramping(g, ramped),
        Earned::Refused(number, place) => MemberEarned::NotScored(number, place),
    }
}

// The fen of what a member's turn gives, once; none where it is refused.
fn compensation_of(earned: MemberEarned) -> Fen
    ensures { result ≡ compensation_of earned }
{
    match earned {
        MemberEarned::ScoreAndHours(g) => g.to_fen(),
        MemberEarned::NotScored(_, _) => Fen(0),
        MemberEarned::NotRamped(_, _) => Fen(0),
    }
}

// A member's compensation: the fen of its score and its hours together.
pub fn member_compensation(member: Member, book: &[u8], series: &[u32], ramped: Ramped) -> Fen
    ensures { result ≡ compensation_of (earned_with (grains_earned member book.now series.now) ramped) }
{
    let earned = member_earned(member, book, series, ramped);
    compensation_of(earned)
}

// What is told of a member that is refused.
fn member_fault(line: usize, earned: MemberEarned) -> Fault
    ensures { result ≡ member_fault line earned }
{
    match earned {
        MemberEarned::ScoreAndHours(_) => Fault::NoFault,
        MemberEarned::NotScored(number, place) => Fault::OfMember(line, number, place),
        MemberEarned::NotRamped(number, place) => Fault::OfRamping(line, number, place),
    }
}

// The members in turn, each with the next so many values of the series: the grains of each, or what is told of the first that is refused.
pub fn members_earned(
    entries: &[Entry],
    book: &[u8],
    series: &[u32],
    lengths: [usize; MOST_ENTRIES],
    ramped: [Ramped; MOST_ENTRIES],
) -> Result<[Grains; MOST_ENTRIES], Fault>
    requires { length entries.now ≤ most_entries }
    ensures { MembersEarned (earnings entries.now book.now series.now lengths ramped) (length entries.now) result }
{
    let mut grains = [Grains(0); MOST_ENTRIES];
    let mut at: usize = 0;
    for (i, e) in entries.iter().enumerate() {
        let end = part_end(at, lengths[i], series.len());
        let earned = member_earned(e.member, book, &series[at..end], ramped[i]);
        let MemberEarned::ScoreAndHours(g) = earned else {
            return Err(member_fault(i, earned));
        };
        grains[i] = g;
        at = end;
    }
    Ok(grains)
}

// The fen of grains, once for each member: the compensations.
pub fn compensations(grains: [Grains; MOST_ENTRIES]) -> [Fen; MOST_ENTRIES]
    ensures { result ≡ compensations grains }
{
    let mut fens = [Fen(0); MOST_ENTRIES];
    for (i, g) in grains.iter().enumerate() {
        fens[i] = g.to_fen();
    }
    fens
}
