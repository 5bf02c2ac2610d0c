// What is wrong with a register, or a series: each line judged by itself, told one after the other.
#![tactic(auto)]

pub mod words;

ghost use Rattle.std.specs.Prelude.{◌≡◌, ℕ, ◌+◌, ◌%◌, ◌^◌, ◌<◌, ◌≤◌, true, false, List, [], length, take, drop, slice_index, is_none};
ghost use Rattle.faults.specs.declared.Found.{Found};
ghost use Rattle.faults.specs.Faults.{is_sound, column_fault, limit_fault, rising_fault, entry_fault, columns_of, cells_fault, line_fault, number_of, first_line, table_faults};
ghost use Rattle.tables.specs.Register.{register_columns};
ghost use Rattle.faults.specs.Inner.{first_row, first_of, Walks, AtEnd, ToEnd, Ended, CellsOf, Passes, IsLine, IsHeld};

use ceiling::MOST_LIMIT;
use grid::Grid;
use grid::cell::NONE_TOLD;
use row::{CEILING, MOST_COLUMNS, is_digit};

// Which table it is.
#[derive(Clone, Copy)]
pub enum Table {
    Register,
    Series,
}

// What is wrong with a line: it is blank, with another behind it; so many cells, and so many that it should have; a column, counted from 1, that has no number,
// or one outside its limits, with these; a member's number that is not above the one before it.
#[derive(Clone, Copy)]
pub enum Wrong {
    Blank,
    Columns(usize, usize),
    NoNumber(usize, u64, u64),
    Outside(usize, u64, u64, u64),
    NotAbove(u64, u64),
}

// A fault at its line, all lines of the file counted from 1.
#[derive(Clone, Copy)]
pub struct Found {
    pub line: usize,
    pub wrong: Wrong,
}

// Where a walk over a table stands: the next byte, the line that is being read, which one that is where no blank line before it is held back, how many are, and the number
// that it is held against.
#[derive(Clone, Copy)]
pub struct Walk {
    pub table: Table,
    pub at: usize,
    pub grid: Grid,
    pub ended: [u64; MOST_COLUMNS],
    pub line: usize,
    pub before: u64,
    pub blanks: usize,
}

// A fault, or none, and where the walk stands then.
#[derive(Clone, Copy)]
pub struct Faulted {
    pub found: Option<Found>,
    pub walk: Walk,
}

const MOST_MEMBER: u64 = 64;

// Whether nothing is wrong.
pub fn is_sound(wrong: Option<Wrong>) -> bool
    ensures { result ≡ is_sound wrong }
{
    wrong.is_none()
}

// Stays two functions: a ramping file's (hour_faults) is a fault of another kind, and names no limits beside a cell that is no number.
#[tactic(auto, unfolding(crate::specs::Faults::column_fault))]
fn column_fault(column: usize, least: u64, most: u64, n: u64) -> Option<Wrong>
    ensures { result ≡ column_fault column least most n }
{
    if CEILING < n {
        return Some(Wrong::NoNumber(column, least, most));
    }
    if (least <= n) & (n <= most) {
        return None;
    }
    Some(Wrong::Outside(column, n, least, most))
}

// The limit's cell.
#[tactic(auto, unfolding(crate::specs::Faults::limit_fault))]
fn limit_fault(n: u64) -> Option<Wrong>
    ensures { result ≡ limit_fault n }
{
    if n == NONE_TOLD {
        return None;
    }
    column_fault(7, 0, MOST_LIMIT, n)
}

#[tactic(auto, unfolding(crate::specs::Faults::rising_fault))]
fn rising_fault(before: u64, n: u64) -> Option<Wrong>
    ensures { result ≡ rising_fault before n }
{
    if before < n {
        return None;
    }
    Some(Wrong::NotAbove(n, before))
}

// The first of a register line's cells that is wrong.
#[tactic(auto, unfolding(crate::specs::Faults::entry_fault))]
fn entry_fault(cells: &[u64]) -> Option<Wrong>
    requires { length cells.now ≡ register_columns }
    ensures { result ≡ entry_fault cells.now }
{
    let a = column_fault(6, 0, 10_000_000, cells[5]).or(limit_fault(cells[6]));
    let e = column_fault(5, 0, 5_000_000, cells[4]).or(a);
    let s = column_fault(4, 0, 2, cells[3]).or(e);
    let p = column_fault(3, 1, 4_000_000, cells[2]).or(s);
    let k = column_fault(2, 1, 8, cells[1]).or(p);
    column_fault(1, 1, MOST_MEMBER, cells[0]).or(k)
}

// How many cells a line has.
#[tactic(auto, unfolding(crate::specs::Faults::columns_of))]
pub fn columns_of(table: Table) -> usize
    ensures { result ≡ columns_of table }
{
    match table {
        Table::Register => 7,
        Table::Series => 1,
    }
}

// The first of them that is wrong.
#[tactic(auto, unfolding(crate::specs::Faults::cells_fault, crate::specs::Faults::columns_of))]
fn cells_fault(table: Table, before: u64, cells: &[u64]) -> Option<Wrong>
    requires { length cells.now ≡ columns_of table }
    ensures { result ≡ cells_fault table before cells.now }
{
    match table {
        Table::Register => entry_fault(cells).or(rising_fault(before, cells[0])),
        Table::Series => column_fault(1, 0, 5_000_000, cells[0]),
    }
}

// What is wrong with a line of these cells.
#[tactic(auto, unfolding(crate::specs::Faults::line_fault))]
fn line_fault(table: Table, before: u64, cells: &[u64]) -> Option<Wrong>
    ensures { result ≡ line_fault table before cells.now }
{
    let count = cells.len();
    if count == 0 {
        return Some(Wrong::Blank);
    }
    let wanted = columns_of(table);
    if count == wanted {
        return cells_fault(table, before, cells);
    }
    Some(Wrong::Columns(count, wanted))
}

// The number that the line behind a line of one cell or more is held against.
fn number_of(n: u64) -> u64
    ensures { (row : List ℕ) → n ≡ slice_index row 0 → result ≡ number_of row }
{
    if (1 <= n) & (n <= MOST_MEMBER) {
        return n;
    }
    0
}

// The line of a text's first row, where these bytes tell it: at a digit its first, at the end of a line without one its second.
pub fn first_row(bytes: &[u8]) -> Option<usize>
    ensures { result ≡ first_row bytes.now }
{
    for b in bytes {
        if *b == b'\n' {
            return Some(2);
        }
        if is_digit(*b) {
            return Some(1);
        }
    }
    None
}

// Where a text's rows begin: at its first line, or behind a heading at the second.
fn first_line(text: &[u8]) -> usize
    ensures { result ≡ first_line text.now }
{
    first_row(text).unwrap_or(2)
}

// What the cells of a line say: the first `count` of the list.
#[derive(Clone, Copy)]
pub struct Cells {
    pub cells: [u64; MOST_COLUMNS],
    pub count: usize,
}

// What the cells of a line say that ends here.
pub fn cells_of(grid: Grid, ended: [u64; MOST_COLUMNS]) -> Cells
    ensures { CellsOf grid ended result }
{
    let mut cells = ended;
    let at = grid.at;
    if MOST_COLUMNS <= at {
        return Cells {
            cells,
            count: MOST_COLUMNS,
        };
    }
    cells[at] = grid.cell.told();
    Cells {
        cells,
        count: at + 1,
    }
}

impl Walk {
    // The walk before any byte of a text.
    pub fn start(table: Table, text: &[u8]) -> Walk
        ensures { Walks text.now result (table_faults table text.now) }
    {
        Walk {
            table,
            at: 0,
            grid: Grid::start(),
            ended: [0; MOST_COLUMNS],
            line: first_line(text),
            before: 0,
            blanks: 0,
        }
    }

    // The walk at the end of its line.
    fn to_end(mut self, text: &[u8]) -> Walk
        ensures { ToEnd text.now self result }
    {
        // Stays a while: a step passes over a whole run of digits, so the place does not move by one.
        while self.at < text.len() && text[self.at] != b'\n' {
            let step = self.grid.step(text, self.at, &mut self.ended);
            self.grid = step.grid;
            self.at = step.end;
        }
        self
    }

    // The walk behind the end of its line, which is not told.
    fn passing(mut self, line: usize, before: u64, blanks: usize) -> Faulted
        ensures { Passes self line before blanks result }
    {
        self.at = self.at.wrapping_add(1);
        self.grid = self.grid.next();
        self.line = line;
        self.before = before;
        self.blanks = blanks;
        Faulted {
            found: None,
            walk: self,
        }
    }

    // A line that is no heading and not blank, with none held back before it.
    fn line(self) -> Faulted
        ensures by_index { (text : List ℕ) → AtEnd text self → IsLine self → Ended text self result }
        ensures at_value { is_none result.found ≡ true → result.walk.at ≡ (self.at + 1) % 2 ^ 64 }
    {
        let ended = self.ended;
        let row = cells_of(self.grid, ended);
        let next = self.passing(self.line.wrapping_add(1), number_of(row.cells[0]), 0);
        match line_fault(self.table, self.before, &row.cells[..row.count]) {
            None => next,
            Some(wrong) => Faulted {
                found: Some(Found {
                    line: self.line,
                    wrong,
                }),
                walk: next.walk,
            },
        }
    }

    // A blank line that was held back, where another line stands behind it.
    fn blank(mut self) -> Faulted
        requires { 1 ≤ self.blanks }
        ensures by_index { (text : List ℕ) → AtEnd text self → IsHeld self → Ended text self result }
        ensures wrong_value { is_none result.found ≡ false }
    {
        let line = self.line;
        self.line = line.wrapping_add(1);
        self.before = 0;
        self.blanks -= 1;
        Faulted {
            found: Some(Found {
                line,
                wrong: Wrong::Blank,
            }),
            walk: self,
        }
    }

    // The line that ends here, or the text's end: its fault, or none.
    fn ended(self) -> Faulted
        ensures by_index { (text : List ℕ) → AtEnd text self → Ended text self result }
        ensures at_value { is_none result.found ≡ true → result.walk.at ≡ (self.at + 1) % 2 ^ 64 }
    {
        if self.grid.is_heading() {
            return self.passing(self.line, self.before, self.blanks);
        }
        if self.grid.is_blank() {
            return self.passing(self.line, self.before, self.blanks.wrapping_add(1));
        }
        if 0 < self.blanks {
            return self.blank();
        }
        self.line()
    }

    // The next fault of a text, or that there is none.
    pub fn next_fault(self, text: &[u8]) -> Faulted
        ensures found_value { (left : List Found) → Walks text.now self left → result.found ≡ first_of left }
        ensures walks { (left : List Found) → Walks text.now self left → is_none result.found ≡ false → Walks text.now result.walk (drop 1 left) }
    {
        let mut walk = self;
        // Stays a while: a turn passes over a whole line, so the place does not move by one.
        while walk.at < text.len() {
            let told = walk.to_end(text).ended();
            if told.found.is_some() {
                return told;
            }
            walk = told.walk;
        }
        walk.ended()
    }
}
