// The year in exact numbers: monthly statements taken one by one, in fixed memory, and what they come to for each member.
#![tactic(auto)]

ghost use Rattle.std.specs.Prelude.{◌≡◌, true, List, [], ◌∷◌, ◌++◌};
ghost use Rattle.year.specs.declared.MonthStatement.{MonthStatement};
ghost use Rattle.year.specs.Year.{year_refused, HasTaken};
ghost use Rattle.year.specs.Every.{year_takes, year_taking, year_with};

use units::{Fen, SignedFen, Thousandths};

pub mod judging;
mod member;

use judging::statement_is_sound;
use member::{no_members, signed_plus, with_lines};

// The most statements, which are as many as a year has months, and the most members.
pub const MOST_STATEMENTS: usize = 12;

pub const MOST_MEMBERS: usize = 64;

// A member's line of a monthly statement.
#[derive(Clone, Copy)]
pub struct YearLine {
    pub number: u16,
    pub compensation: Fen,
    pub assessment: Thousandths,
    pub share: SignedFen,
    pub amount: SignedFen,
}

// A month's statement: its lines are the first `count`, and the others are not looked at; the user's amount has no number.
#[derive(Clone, Copy)]
pub struct MonthStatement {
    pub year: u16,
    pub month: u8,
    pub count: usize,
    pub lines: [YearLine; MOST_MEMBERS],
    pub user: SignedFen,
}

// A member's sums over the months it is in.
#[derive(Clone, Copy)]
pub struct Sums {
    pub compensation: Fen,
    pub assessment: Thousandths,
    pub share: SignedFen,
    pub amount: SignedFen,
}

// The largest monthly amount, which may be below zero, and its month, the earliest at a tie; zeros where there is none.
// Stays a flag: largest_with (specs/Every.antt) and the year's table read the month 0 as none, and two must-fail edits change that test.
#[derive(Clone, Copy)]
pub struct Largest {
    pub amount: SignedFen,
    pub month: u8,
}

// A member's year: which months it is in, from January on, its sums, and its largest monthly amount.
#[derive(Clone, Copy)]
pub struct MemberYear {
    pub months: [bool; MOST_STATEMENTS],
    pub sums: Sums,
    pub largest: Largest,
}

// A refusal's number and place, otherwise zeros; or the year, the last month taken, how many statements there are, each member's year, and the users' amounts
// together.
#[derive(Clone, Copy)]
pub struct Year {
    pub number: u32,
    pub place: usize,
    pub year: u16,
    pub month: u8,
    pub count: usize,
    pub members: [MemberYear; MOST_MEMBERS],
    pub users: SignedFen,
}

impl Year {
    // The year before any statement.
    pub fn start() -> Year
        ensures { HasTaken result [] }
    {
        Year::refused(0, 0)
    }

    // A refusal, otherwise zeros.
    fn refused(number: u32, place: usize) -> Year
        ensures { result ≡ year_refused number place }
    {
        let members = no_members();
        Year {
            number,
            place,
            year: 0,
            month: 0,
            count: 0,
            members,
            users: SignedFen(0),
        }
    }

    // Whether a statement goes on behind those that were taken.
    fn takes(self, s: MonthStatement) -> bool
        ensures { result ≡ year_takes self s }
    {
        (self.count < MOST_STATEMENTS)
            & ((self.count == 0) | (s.year == self.year))
            & (self.month < s.month)
            & statement_is_sound(s)
    }

    // The year after a statement that it takes.
    fn taking(self, s: MonthStatement) -> Year
        requires { year_takes self s ≡ true }
        ensures { result ≡ year_taking self s }
    {
        let before = self.members;
        let lines = s.lines;
        let members = with_lines(before, s.month, &lines[..s.count]);
        let users = self.users;
        let user = s.user;
        let sum = signed_plus(users, user);
        Year {
            number: 0,
            place: 0,
            year: s.year,
            month: s.month,
            count: self.count + 1,
            members,
            users: sum,
        }
    }

    // The year after one statement more. The first refusal stands: what comes after it changes nothing. The first `ensures` speaks of the statements that were
    // taken; the second says of every year, also of one that comes from no statements, how it goes on, so that none is left open.
    pub fn with(self, s: MonthStatement) -> Year
        ensures has_taken { (ss : List MonthStatement) → HasTaken self ss → HasTaken result (ss ++ s ∷ []) }
        ensures value { result ≡ year_with self s }
    {
        if self.number != 0 {
            return self;
        }
        if !self.takes(s) {
            return Year::refused(10, self.count);
        }
        self.taking(s)
    }
}
