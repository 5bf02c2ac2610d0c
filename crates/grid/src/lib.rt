// A table's text, as a spreadsheet saves it, read byte after byte in fixed memory: its rows of numbers.
#![tactic(auto)]

pub mod alone;
pub mod cell;

ghost use Rattle.std.specs.Prelude.{◌≡◌, true, false, List, [], ℕ, ◌<◌, ◌≤◌, length, get_or};
ghost use Rattle.row.specs.Numbers.{line_feed, is_digit};
ghost use Rattle.row.specs.Meaning.{most_columns};
ghost use Rattle.grid.specs.Grid.{mark, is_separator, carriage_return, quote};
ghost use Rattle.grid.specs.Told.{dash};
ghost use Rattle.grid.specs.Meaning.{head_left, blank_left, blank_behind, grid_opened, mark_goes_on, grid_begun, grid_known, grid_spoilt, grid_digits, grid_first, InLine, Follows, StepFrom};
ghost use Rattle.grid.specs.Meaning.{Starts, Next};

use cell::{Cell, run_from};
use row::is_digit;

// What parts the cells of a line: one of these in a whole text.
const COMMA: u8 = b',';

const SEMICOLON: u8 = b';';

const TAB: u8 = b'\t';

const QUOTE: u8 = b'"';

const DASH: u8 = b'-';

const CARRIAGE_RETURN: u8 = b'\r';

// Stages of a text: 0 to 2, so many bytes of the mark and nothing else; the first line, without a digit so far; behind its first digit or its end.
const FIRST_LINE: u8 = 3;

const BODY: u8 = 4;

// All that is kept of a text, but for the numbers of the line's cells that ended, which are beside it. `separator` is one once one was read. Of the line that is being
// read, `filled`: it has a byte that is no separator; `shut`: it has a carriage return, behind which its line feed should come; `at`: how many cells have ended, or as
// many as are kept.
#[derive(Clone, Copy)]
pub struct Grid {
    pub stage: u8,
    pub separator: u8,
    pub filled: bool,
    pub shut: bool,
    pub cell: Cell,
    pub at: usize,
}

// A grid, and the place of the next byte.
#[derive(Clone, Copy)]
pub struct Step {
    pub grid: Grid,
    pub end: usize,
}

fn is_separator(b: u8) -> bool
    ensures { result ≡ is_separator b }
{
    (b == COMMA) | (b == SEMICOLON) | (b == TAB)
}

// A byte of the mark.
fn mark_at(stage: u8) -> u8
    ensures { stage < 3 → result ≡ get_or mark stage 0 }
{
    if stage == 0 {
        return 239;
    }
    if stage == 1 {
        return 187;
    }
    191
}

impl Grid {
    // The grid before the first line, behind the mark if there is one.
    fn first() -> Grid
        ensures { result ≡ grid_first }
    {
        Grid {
            stage: FIRST_LINE,
            separator: 0,
            filled: false,
            shut: false,
            cell: Cell::Fresh,
            at: 0,
        }
    }

    // The grid before any byte.
    pub fn start() -> Grid
        ensures { Starts result }
    {
        Grid {
            stage: 0,
            separator: 0,
            filled: false,
            shut: false,
            cell: Cell::Fresh,
            at: 0,
        }
    }

    // A carriage return with a byte of its line behind it is a byte like any other.
    fn opened(self) -> Grid
        ensures { result ≡ grid_opened self }
    {
        if self.shut {
            return Grid {
                filled: true,
                shut: false,
                cell: Cell::Bad,
                ..self
            };
        }
        self
    }

    // The mark does not go on: what was read is of the first line.
    fn begun(mut self) -> Grid
        ensures { result ≡ grid_begun self }
    {
        if self.stage < FIRST_LINE {
            self.stage = FIRST_LINE;
            return self;
        }
        self
    }

    // The first separator is the file's.
    fn known(mut self, b: u8) -> Grid
        ensures { result ≡ grid_known self b }
    {
        if is_separator(self.separator) {
            return self;
        }
        self.separator = b;
        self
    }

    // The grid after a byte that no cell has.
    fn spoilt(self) -> Grid
        ensures { result ≡ grid_spoilt self }
    {
        Grid {
            filled: true,
            cell: Cell::Bad,
            ..self
        }
    }

    // The grid after digits, with which those of the open cell are worth v.
    fn digits(self, v: u64) -> Grid
        ensures { result ≡ grid_digits self v }
    {
        let cell = self.cell.digits(v);
        Grid {
            stage: BODY,
            filled: true,
            cell,
            ..self
        }
    }

    // Whether the mark goes on with a byte.
    fn marks(self, b: u8) -> bool
        ensures { result ≡ mark_goes_on self.stage b }
    {
        let stage = self.stage;
        if stage < FIRST_LINE {
            return b == mark_at(stage);
        }
        false
    }

    // The grid after a byte with which the mark goes on.
    fn marked(mut self, b: u8) -> Grid
        requires b_value { mark_goes_on self.stage b ≡ true }
        requires shut_value { self.shut ≡ false }
        ensures { (ended : List ℕ) → Follows self ended b result ended }
    {
        let stage = self.stage;
        if 2 <= stage {
            return Grid::first();
        }
        self.stage = stage + 1;
        self.spoilt()
    }

    // The grid after the file's separator: the open cell has ended.
    fn parted(self, ended: &mut [u64]) -> Grid
        requires most_columns_in_bounds { most_columns ≤ length ended.old }
        requires in_line { InLine self }
        requires separator_value { is_separator self.separator ≡ true }
        ensures { Follows self ended.old self.separator result ended.new }
    {
        let at = self.at;
        if at < ended.len() {
            ended[at] = self.cell.told();
            return Grid {
                shut: false,
                cell: Cell::Fresh,
                at: at + 1,
                ..self
            };
        }
        Grid {
            shut: false,
            cell: Cell::Fresh,
            ..self
        }
    }

    // The grid after a comma, a semicolon or a tab.
    fn separated(self, b: u8, ended: &mut [u64]) -> Grid
        requires most_columns_in_bounds { most_columns ≤ length ended.old }
        requires in_line { InLine self }
        requires b_value { is_separator b ≡ true }
        ensures { Follows self ended.old b result ended.new }
    {
        let known = self.known(b);
        if b == known.separator {
            return known.parted(ended);
        }
        known.spoilt()
    }

    // The grid after a quote.
    fn quoted(self) -> Grid
        requires { InLine self }
        ensures { (ended : List ℕ) → Follows self ended quote result ended }
    {
        let cell = self.cell.quote();
        Grid {
            filled: true,
            shut: false,
            cell,
            ..self
        }
    }

    // The grid after a dash.
    fn dashed(self) -> Grid
        requires { InLine self }
        ensures { (ended : List ℕ) → Follows self ended dash result ended }
    {
        let cell = self.cell.dash();
        Grid {
            filled: true,
            shut: false,
            cell,
            ..self
        }
    }

    // The grid after a carriage return, which is held back.
    fn returned(mut self) -> Grid
        requires { InLine self }
        ensures { (ended : List ℕ) → Follows self ended carriage_return result ended }
    {
        self.shut = true;
        self
    }

    // The grid after a byte of its line that is no digit.
    fn typed(self, b: u8, ended: &mut [u64]) -> Grid
        requires most_columns_in_bounds { most_columns ≤ length ended.old }
        requires in_line { InLine self }
        requires b_value { (is_digit b ≡ false) × (b ≡ line_feed → ⊥) }
        ensures { Follows self ended.old b result ended.new }
    {
        if is_separator(b) {
            return self.separated(b, ended);
        }
        if b == QUOTE {
            return self.quoted();
        }
        if b == CARRIAGE_RETURN {
            return self.returned();
        }
        if b == DASH {
            return self.dashed();
        }
        self.spoilt()
    }

    // The same where the mark may still go on, or a carriage return is held back.
    fn other(self, b: u8, ended: &mut [u64]) -> Grid
        requires most_columns_in_bounds { most_columns ≤ length ended.old }
        requires b_value { (is_digit b ≡ false) × (b ≡ line_feed → ⊥) }
        ensures { Follows self ended.old b result ended.new }
    {
        let open = self.opened();
        if open.marks(b) {
            return open.marked(b);
        }
        let begun = open.begun();
        begun.typed(b, ended)
    }

    // The grid after the digits from byte i of a text on.
    fn after_run(self, text: &[u8], i: usize) -> Step
        requires i_in_bounds { i < length text.now }
        requires i_value { is_digit (get_or text.now i 0) ≡ true }
        ensures { (ended : List ℕ) → StepFrom text.now i self ended result ended }
    {
        let open = self.opened();
        let run = run_from(text, i, open.cell.so_far());
        Step {
            grid: open.digits(run.value),
            end: run.end,
        }
    }

    // The grid after byte i of a text, which is no line feed: with the digits behind it, where it is one.
    pub fn step(self, text: &[u8], i: usize, ended: &mut [u64]) -> Step
        requires most_columns_in_bounds { most_columns ≤ length ended.old }
        requires i_in_bounds { i < length text.now }
        requires fact { get_or text.now i 0 ≡ line_feed → ⊥ }
        ensures { StepFrom text.now i self ended.old result ended.new }
    {
        let b = text[i];
        if is_digit(b) {
            return self.after_run(text, i);
        }
        let grid = self.other(b, ended);
        Step { grid, end: i + 1 }
    }

    // The grid after a line feed.
    pub fn next(self) -> Grid
        ensures { Next self result }
    {
        Grid {
            stage: BODY,
            separator: self.separator,
            filled: false,
            shut: false,
            cell: Cell::Fresh,
            at: 0,
        }
    }

    // Whether the line is a heading, if it ends here.
    pub fn is_heading(self) -> bool
        ensures { result ≡ head_left self [] }
    {
        self.stage < BODY
    }

    // Whether it is blank.
    pub fn is_blank(self) -> bool
        ensures { result ≡ blank_left self [] }
    {
        !self.filled
    }

    // Whether a blank line is held back behind the line, if it ends here: a heading leaves what was before it.
    pub fn holds_blank(self, before: bool) -> bool
        ensures { result ≡ blank_behind self before }
    {
        if self.is_heading() {
            return before;
        }
        self.is_blank()
    }
}
