// The lines behind the part, a byte at a time, in fixed memory, whatever the text's length.
ghost use Rattle.std.specs.Prelude.{◌≡◌, List, [], ◌++◌, ℕ};
ghost use Rattle.lines.specs.Meaning.{body_meaning, BodyStays, BodyFresh};
ghost use Rattle.lines.specs.Stream.{Tells};

use crate::MOST_LINES;
use crate::line::{LAST, best, line_in};
use crate::sheet::Sheet;
use row::{Row, grown, hold, is_digit};
use share::Line;

// What the lines say: 10 and a place, or zeros, how many there are, and the lines.
#[derive(Clone, Copy)]
pub struct Listed {
    pub number: u32,
    pub place: usize,
    pub count: usize,
    pub lines: [Line; MOST_LINES],
}

// The line that is being read, and the lines before it.
#[derive(Clone, Copy)]
pub struct Body {
    pub row: Row,
    pub sheet: Sheet,
}

impl Body {
    // Before any byte.
    pub fn start() -> Body
        ensures { BodyFresh result }
    {
        let row = Row::start();
        let sheet = Sheet::start();
        Body { row, sheet }
    }

    // After some bytes more. Row and sheet are changed where they stand: by a call that takes and returns them their arrays would
    // be copied for each byte, or for each line. Numbers of an earlier line may stay in the row: none is read that has not ended in this one.
    pub fn feed(self, bytes: &[u8]) -> Body
        ensures { (rest : List ℕ) → body_meaning result rest ≡ body_meaning self (bytes.now ++ rest) }
    {
        let mut row = self.row;
        let mut sheet = self.sheet;
        for &b in bytes {
            if is_digit(b) {
                row.digit = true;
                row.value = grown(row.value, b);
            } else if b == b'\n' {
                let l = line_in(row);
                let at = sheet.count;
                if !sheet.refused & (sheet.before < l.number) & (at < MOST_LINES) {
                    sheet.before = l.number;
                    sheet.count = at + 1;
                    sheet.lines[at] = l;
                } else {
                    sheet.refused = true;
                }
                row.bad = false;
                row.digit = false;
                row.at = 0;
                row.value = 0;
            } else if (b == b' ') & row.digit & (row.at < LAST) {
                let at = row.at;
                row.ended[at] = hold(row.value);
                row.at = at + 1;
                row.value = 0;
                row.digit = false;
            } else {
                row.bad = true;
            }
        }
        Body { row, sheet }
    }

    // Whether the answer is known, whatever follows.
    pub fn is_settled(self) -> bool
        ensures { Tells (BodyStays self) result }
    {
        let row = self.row;
        let sheet = self.sheet;
        if sheet.refused {
            return true;
        }
        if !row.is_begun() {
            return false;
        }
        !sheet.takes(best(row))
    }

    // The answer, if the text ends here.
    pub fn finish(self) -> Listed
        ensures { result ≡ body_meaning self [] }
    {
        let row = self.row;
        let sheet = self.sheet;
        if row.is_begun() {
            let closed = sheet.with(row);
            return closed.answer();
        }
        sheet.answer()
    }
}
