// The register of a month: a line a member, with what its sharing line needs besides the compensation, and with its limit.
#![tactic(auto)]

ghost use Rattle.std.specs.Prelude.{◌≡◌, ◌≤◌, take};
ghost use Rattle.register.specs.Register.{most_entries, blank_entry, entry_line, entry_is_sound, first_bad_entry, limited_for};

use ceiling::array::blank_limiteds;
use ceiling::{Limit, LimitedLine, limit_is_sound};
use pay::Member;
use share::Line;
use share::limits::numbers_are_sound;
use units::{Fen, Kw, Mwh, SignedFen, Thousandths};

// A member, what its sharing line needs besides its compensation, and what it pays at most.
#[derive(Clone, Copy)]
pub struct Entry {
    pub member: Member,
    pub status: u8,
    pub energy: Mwh,
    pub assessment: Thousandths,
    pub limit: Limit,
}

// The most entries that a register may have.
pub const MOST_ENTRIES: usize = 64;

// An entry that is never sound.
pub fn blank_entry() -> Entry
    ensures { result ≡ blank_entry }
{
    Entry {
        member: Member {
            number: 0,
            kind: 0,
            rated: Kw(0),
        },
        status: 0,
        energy: Mwh(0),
        assessment: Thousandths(0),
        limit: Limit {
            none: false,
            fen: Fen(0),
        },
    }
}

impl Entry {
    // The sharing line of an entry whose member is compensated so.
    #[tactic(auto, unfolding(crate::specs::Register::entry_line))]
    pub fn line(self, fen: Fen) -> Line
        ensures { result ≡ entry_line self fen }
    {
        let energy = self.energy;
        let assessment = self.assessment;
        Line {
            number: self.member.number,
            status: self.status,
            energy,
            compensation: fen,
            assessment,
            share: SignedFen(0),
            amount: SignedFen(0),
        }
    }

    // Whether an entry is sound after the number `before`.
    pub fn is_sound(self, before: u16) -> bool
        ensures { result ≡ entry_is_sound before self }
    {
        let member = self.member;
        let is_line = numbers_are_sound(
            before as u64,
            member.number as u64,
            self.status as u64,
            self.energy.0 as u64,
            0,
            self.assessment.0 as u64,
        );
        let limit = self.limit;
        member.is_sound() & (is_line & limit_is_sound(limit))
    }
}

// The place of the first entry that is not sound, or count.
// Stays two functions: a walk shared with sharing's lines would take the test and the number as closures, and be no shorter.
pub fn first_bad_entry(entries: [Entry; MOST_ENTRIES], count: usize) -> usize
    requires { count ≤ most_entries }
    ensures { result ≡ first_bad_entry 0 (take count entries) }
{
    let mut before: u16 = 0;
    for (i, e) in entries[..count].iter().enumerate() {
        if !e.is_sound(before) {
            return i;
        }
        before = e.member.number;
    }
    count
}

// The sharing lines, with their limits, of entries whose members are compensated so, in turn.
pub fn limited_for(
    entries: [Entry; MOST_ENTRIES],
    fens: [Fen; MOST_ENTRIES],
) -> [LimitedLine; MOST_ENTRIES]
    ensures { result ≡ limited_for entries fens }
{
    let mut lines = blank_limiteds();
    for i in 0..MOST_ENTRIES {
        let line = entries[i].line(fens[i]);
        let limit = entries[i].limit;
        lines[i] = LimitedLine {
            line,
            limit,
            uncollected: Fen(0),
            given: Fen(0),
        };
    }
    lines
}
