// The lines taken so far, or that one of them was bad.
ghost use Rattle.std.specs.Prelude.{◌≡◌, true, ◌&&◌, ltb, List, [], ◌∷◌};
ghost use Rattle.share.specs.declared.Line.{Line};
ghost use Rattle.share.specs.Sharing.{line_is_sound, most_number};
ghost use Rattle.row.specs.Judging.{judged};
ghost use Rattle.lines.specs.Text.{sharing_lines};
ghost use Rattle.lines.specs.Meaning.{sheet_outcome, row_line};

use crate::MOST_LINES;
use crate::body::Listed;
use crate::line::line_in;
use row::Row;
use share::Line;
use share::array::blank_lines;

// How many lines were sound, the number of the last of them (else 0), and the lines; `refused`: the one after them was not.
// Stays a flag: the lines before a refused one still count, since their number is the place that is told.
#[derive(Clone, Copy)]
pub struct Sheet {
    pub refused: bool,
    pub before: u16,
    pub count: usize,
    pub lines: [Line; MOST_LINES],
}

impl Sheet {
    // The sheet before any line.
    pub fn start() -> Sheet
        ensures { (ls : List Line) → sheet_outcome result ls ≡ judged sharing_lines ls }
    {
        let lines = blank_lines();
        Sheet {
            refused: false,
            before: 0,
            count: 0,
            lines,
        }
    }

    fn refuse(mut self) -> Sheet
        ensures { (result.refused ≡ true) × (result.count ≡ self.count) }
    {
        self.refused = true;
        self
    }

    // Whether the line is taken, if it ends here. A line that was read is within its limits or blank: its number decides.
    pub fn takes(self, row: Row) -> bool
        ensures { result ≡ (line_is_sound self.before (row_line row []) && ltb self.count most_number) }
    {
        let l = line_in(row);
        (self.before < l.number) & (self.count < MOST_LINES)
    }

    // The sheet after the end of a line.
    pub fn with(self, row: Row) -> Sheet
        ensures { (ls : List Line) → sheet_outcome result ls ≡ sheet_outcome self (row_line row [] ∷ ls) }
    {
        if self.refused {
            return self;
        }
        let l = line_in(row);
        if l.number <= self.before {
            return self.refuse();
        }
        let at = self.count;
        if MOST_LINES <= at {
            return self.refuse();
        }
        let mut lines = self.lines;
        lines[at] = l;
        Sheet {
            refused: false,
            before: l.number,
            count: at + 1,
            lines,
        }
    }

    // The answer where no line follows.
    pub fn answer(self) -> Listed
        ensures { result ≡ sheet_outcome self [] }
    {
        if self.refused {
            let none = blank_lines();
            return Listed {
                number: 10,
                place: self.count,
                count: 0,
                lines: none,
            };
        }
        let lines = self.lines;
        Listed {
            number: 0,
            place: 0,
            count: self.count,
            lines,
        }
    }
}
