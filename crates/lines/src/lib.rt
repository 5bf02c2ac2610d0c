// A sharing text, read a byte at a time, in fixed memory, whatever its length: the generators' part on a line of its own, then the lines.
#![tactic(auto)]

mod body;
mod line;
mod part;
mod sheet;

ghost use Rattle.std.specs.Prelude.{◌≡◌, List, [], ◌∷◌, ◌++◌, ℕ};
ghost use Rattle.lines.specs.Text.{part_then, read_text, taken_shared};
ghost use Rattle.lines.specs.Meaning.{HeadIs, meaning};
ghost use Rattle.lines.specs.Stream.{HasRead, Settled, Tells, GoesOn, Stays};

use body::{Body, Listed};
use part::{first_line, is_past, part_in};
use row::Row;
use share::array::{blank_lines, nothing_shared};
use share::lent::share_front;
use share::limits::{MOST_PART, PART_PLACE};
use share::{Line, Shared};

// The most lines that a text may have, besides that of the part.
pub const MOST_LINES: usize = 64;

// The answer: 10 and a place, or zeros, how many lines there are, and the lines; and the part, where it is one.
#[derive(Clone, Copy)]
pub struct Taken {
    pub number: u32,
    pub place: usize,
    pub count: usize,
    pub lines: [Line; MOST_LINES],
    pub part: u32,
}

// All that is kept of the text so far: the first line, the part once that line is read, and the lines.
#[derive(Clone, Copy)]
pub struct Reader {
    first: Row,
    body: Body,
    part: Option<u32>,
}

// What some bytes have of the first line: it as far as it is read; and once it is, the part and where the lines begin.
#[derive(Clone, Copy)]
pub struct Head {
    pub first: Row,
    pub next: usize,
    pub part: Option<u32>,
}

// What the lines say, with the part; or that the part is none.
fn part_then(part: u32, listed: Listed) -> Taken
    ensures { result ≡ part_then part listed }
{
    if MOST_PART < part {
        let lines = blank_lines();
        return Taken {
            number: 10,
            place: PART_PLACE,
            count: 0,
            lines,
            part: 0,
        };
    }
    let lines = listed.lines;
    Taken {
        number: listed.number,
        place: listed.place,
        count: listed.count,
        lines,
        part,
    }
}

// The first `ensures` of each speaks of the text that was read. The second says of every reader, also of one that has read no text, how it
// answers, so that none is left open.
impl Reader {
    // The reader before any byte.
    pub fn start() -> Reader
        ensures { HasRead result [] }
    {
        let first = Row::start();
        let body = Body::start();
        Reader {
            first,
            body,
            part: None,
        }
    }

    // The reader after one byte more.
    pub fn step(self, b: u8) -> Reader
        ensures by_index { (text : List ℕ) → HasRead self text → HasRead result (text ++ b ∷ []) }
        ensures goes_on { GoesOn self (b ∷ []) result }
    {
        let one = [b];
        self.feed(&one)
    }

    // What the bytes have of the first line, if it is not read yet.
    fn head(self, bytes: &[u8]) -> Head
        ensures { HeadIs self bytes.now result }
    {
        let first = self.first;
        if let Some(part) = self.part {
            return Head {
                first,
                next: 0,
                part: Some(part),
            };
        }
        let line = first_line(first, bytes);
        let row = line.row;
        if bytes.len() <= line.next {
            return Head {
                first: row,
                next: 0,
                part: None,
            };
        }
        Head {
            first: row,
            next: line.next + 1,
            part: Some(part_in(row)),
        }
    }

    // The reader after some bytes more. The lines are fed in one place: from two the loop over their bytes takes two instructions a byte more.
    pub fn feed(self, bytes: &[u8]) -> Reader
        ensures by_index { (text : List ℕ) → HasRead self text → HasRead result (text ++ bytes.now) }
        ensures goes_on { GoesOn self bytes.now result }
    {
        let head = self.head(bytes);
        let first = head.first;
        let body = self.body;
        let Some(part) = head.part else {
            return Reader {
                first,
                body,
                part: None,
            };
        };
        Reader {
            first,
            body: body.feed(&bytes[head.next..]),
            part: Some(part),
        }
    }

    // Whether the answer is known, whatever follows.
    pub fn is_settled(self) -> bool
        ensures by_index { (text : List ℕ) → HasRead self text → Tells (Settled text) result }
        ensures tells { Tells (Stays self) result }
    {
        let Some(part) = self.part else {
            return is_past(self.first);
        };
        if MOST_PART < part {
            return true;
        }
        let body = self.body;
        body.is_settled()
    }

    // The answer, if the text ends here.
    pub fn finish(self) -> Taken
        ensures by_index { (text : List ℕ) → HasRead self text → result ≡ read_text text }
        ensures value { result ≡ meaning self [] }
    {
        let body = self.body;
        let listed = body.finish();
        match self.part {
            Some(part) => part_then(part, listed),
            None => part_then(part_in(self.first), listed),
        }
    }
}

// What a whole text says.
pub fn read_text(text: &[u8]) -> Taken
    ensures { result ≡ read_text text.now }
{
    let first = Reader::start();
    let last = first.feed(text);
    last.finish()
}

impl Taken {
    // The sharing of what was read, or its refusal and no lines.
    pub fn shared(self) -> Shared
        ensures { result ≡ taken_shared self }
    {
        let lines = self.lines;
        if self.number == 0 {
            return share_front(self.part, lines, self.count);
        }
        nothing_shared(self.number, self.place)
    }
}
