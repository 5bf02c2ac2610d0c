// The text of a register: a line a member.
ghost use Rattle.std.specs.Prelude.{◌≡◌, true, false, List, [], ◌∷◌, map, ℕ};
ghost use Rattle.row.specs.Judging.{filled_up, judged};
ghost use Rattle.grid.specs.Meaning.{blanks_then};
ghost use Rattle.tables.specs.Register.{register_row, limit_told, as_entry, register_entries, read_register};
ghost use Rattle.tables.specs.Meaning.{seven_of, fair_entry, entry_cells, entry_in, roll_outcome, roll_blanks, line_ends};

use ceiling::{Limit, limit_is_sound};
use grid::Grid;
use grid::cell::NONE_TOLD;
use pay::Member;
use register::{Entry, MOST_ENTRIES, blank_entry};
use row::MOST_COLUMNS;
use share::limits::numbers_are_sound;
use units::{Fen, Kw, Mwh, Thousandths};

// The answer: 10 and a place, or zeros, how many entries there are, and the entries.
#[derive(Clone, Copy)]
pub struct Register {
    pub number: u32,
    pub place: usize,
    pub count: usize,
    pub entries: [Entry; MOST_ENTRIES],
}

// How many entries were sound, the number of the last of them (else 0), and the entries; `refused`: the one after them was not; `blank`: a blank line is held back, which is
// one of them where another line stands behind it.
#[derive(Clone, Copy)]
pub struct Roll {
    pub refused: bool,
    pub blank: bool,
    pub before: u16,
    pub count: usize,
    pub entries: [Entry; MOST_ENTRIES],
}

// A line is seven cells: six numbers and a limit.
const COLUMNS: usize = 7;

// Which of them is the last, from 0 on.
const LAST: usize = COLUMNS - 1;

#[tactic(auto, unfolding(row::specs::Judging::filled_up))]
fn blank_entries() -> [Entry; MOST_ENTRIES]
    ensures { result ≡ filled_up register_entries [] }
{
    [blank_entry(); MOST_ENTRIES]
}

// The limit that a cell says.
#[tactic(auto, unfolding(crate::specs::Register::limit_told))]
fn limit_told(n: u64) -> Limit
    ensures { result ≡ limit_told n }
{
    if n == NONE_TOLD {
        return Limit {
            none: true,
            fen: Fen(0),
        };
    }
    Limit {
        none: false,
        fen: Fen(n),
    }
}

// The entry that seven cells say, or a blank one where one of them is past its limit or no number.
fn typed(ended: [u64; MOST_COLUMNS], last: u64) -> Entry
    ensures { result ≡ fair_entry (as_entry (seven_of ended last)) }
{
    let n = ended[0];
    let k = ended[1];
    let p = ended[2];
    let s = ended[3];
    let e = ended[4];
    let a = ended[5];
    let line = numbers_are_sound(0, n, s, e, 0, a);
    let limit = limit_told(last);
    let bound = limit_is_sound(limit);
    if (1 <= k) & (k <= 8) & (1 <= p) & (p <= 4_000_000) & line & bound {
        return Entry {
            member: Member {
                number: n as u16,
                kind: k as u8,
                rated: Kw(p as u32),
            },
            status: s as u8,
            energy: Mwh(e as u32),
            assessment: Thousandths(a as u32),
            limit,
        };
    }
    blank_entry()
}

// The entry that a line says, if it ends here.
fn entry_in(grid: Grid, ended: [u64; MOST_COLUMNS]) -> Entry
    ensures { result ≡ entry_in grid ended }
{
    if grid.at == LAST {
        return typed(ended, grid.cell.told());
    }
    blank_entry()
}

impl Roll {
    // The roll before any line.
    fn start() -> Roll
        ensures by_index { (rows : List (List ℕ)) → roll_outcome result rows ≡ judged register_entries (map as_entry rows) }
        ensures blank_value { result.blank ≡ false }
    {
        Roll {
            refused: false,
            blank: false,
            before: 0,
            count: 0,
            entries: blank_entries(),
        }
    }

    fn refuse(mut self) -> Roll
        ensures { (result.refused ≡ true) × (result.count ≡ self.count) × (result.blank ≡ self.blank) }
    {
        self.refused = true;
        self
    }

    // The roll after a line. An entry that was read is within its limits or blank: its number decides.
    fn with(mut self, grid: Grid, ended: [u64; MOST_COLUMNS]) -> Roll
        ensures by_index { (rows : List (List ℕ)) → roll_outcome result rows ≡ roll_outcome self (entry_cells grid ended ∷ rows) }
        ensures blank_value { result.blank ≡ self.blank }
    {
        if self.refused {
            return self;
        }
        let e = entry_in(grid, ended);
        if e.member.number <= self.before {
            return self.refuse();
        }
        let at = self.count;
        if MOST_ENTRIES <= at {
            return self.refuse();
        }
        self.entries[at] = e;
        self.before = e.member.number;
        self.count = at + 1;
        self
    }

    // The answer where no line follows.
    fn answer(self) -> Register
        ensures { result ≡ roll_outcome self [] }
    {
        if self.refused {
            let entries = blank_entries();
            return Register {
                number: 10,
                place: self.count,
                count: 0,
                entries,
            };
        }
        let entries = self.entries;
        Register {
            number: 0,
            place: 0,
            count: self.count,
            entries,
        }
    }

    // The roll after the end of a line: a heading is left out, and a blank line held back.
    fn after(mut self, grid: Grid, ended: [u64; MOST_COLUMNS]) -> Roll
        ensures { (rows : List (List ℕ)) → roll_outcome result (blanks_then (roll_blanks result) rows) ≡ roll_outcome self (line_ends register_row (roll_blanks self) grid ended rows) }
    {
        if grid.is_heading() {
            return self;
        }
        if grid.is_blank() {
            self.blank = true;
            return self;
        }
        if self.blank {
            return self.refuse();
        }
        self.with(grid, ended)
    }
}

// What a register's text says. The roll is large: between line feeds only the grid moves.
pub fn read_register(text: &[u8]) -> Register
    ensures { result ≡ read_register text.now }
{
    let mut grid = Grid::start();
    let mut ended: [u64; MOST_COLUMNS] = [0; MOST_COLUMNS];
    let mut roll = Roll::start();
    let mut i: usize = 0;
    // Stays a while: a step passes over a whole run of digits, so the place does not move by one.
    while i < text.len() {
        if text[i] == b'\n' {
            roll = roll.after(grid, ended);
            grid = grid.next();
            i += 1;
        } else {
            let step = grid.step(text, i, &mut ended);
            grid = step.grid;
            i = step.end;
        }
    }
    roll.after(grid, ended).answer()
}
