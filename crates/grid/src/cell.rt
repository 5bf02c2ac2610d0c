// The cell that is being read: a decimal number or a dash, perhaps between quotes; and a run of its digits.
ghost use Rattle.std.specs.Prelude.{◌≡◌, ◌≤◌, length};
ghost use Rattle.grid.specs.Meaning.{cell_told, cell_so_far, cell_digits, cell_quote, cell_dash, RunFrom};

use row::{CEILING, grown, hold, is_digit};

// It stands for a cell that is no number, and is above every limit.
pub const NO_NUMBER: u64 = CEILING + 1;

// It stands for a cell that is a dash alone, which says none.
pub const NONE_TOLD: u64 = CEILING + 2;

// Nothing read; digits, worth so much; a quote; digits behind it; a dash behind it. Closed: it says so much, if it ends here. Bad: no bytes can make it say anything.
#[derive(Clone, Copy)]
pub enum Cell {
    Fresh,
    Bare(u64),
    Opened,
    Quoted(u64),
    Dashed,
    Closed(u64),
    Bad,
}

// Where the digits end, and what they are worth with those before them, held once it is past every limit.
#[derive(Clone, Copy)]
pub struct Run {
    pub end: usize,
    pub value: u64,
}

impl Cell {
    // What the digits so far are worth.
    pub fn so_far(self) -> u64
        ensures { result ≡ cell_so_far self }
    {
        match self {
            Cell::Bare(v) | Cell::Quoted(v) => v,
            _ => 0,
        }
    }

    // The cell behind digits more, after which they are worth v.
    pub fn digits(self, v: u64) -> Cell
        ensures { result ≡ cell_digits self v }
    {
        match self {
            Cell::Fresh | Cell::Bare(_) => Cell::Bare(v),
            Cell::Opened | Cell::Quoted(_) => Cell::Quoted(v),
            _ => Cell::Bad,
        }
    }

    // The cell behind a quote.
    pub fn quote(self) -> Cell
        ensures { result ≡ cell_quote self }
    {
        match self {
            Cell::Fresh => Cell::Opened,
            Cell::Quoted(v) => Cell::Closed(hold(v)),
            Cell::Dashed => Cell::Closed(NONE_TOLD),
            _ => Cell::Bad,
        }
    }

    // The cell behind a dash.
    pub fn dash(self) -> Cell
        ensures { result ≡ cell_dash self }
    {
        match self {
            Cell::Fresh => Cell::Closed(NONE_TOLD),
            Cell::Opened => Cell::Dashed,
            _ => Cell::Bad,
        }
    }

    // What the cell says, if it ends here.
    #[tactic(auto, unfolding(crate::specs::Meaning::told_left))]
    pub fn told(self) -> u64
        ensures { result ≡ cell_told self }
    {
        match self {
            Cell::Bare(v) => hold(v),
            Cell::Closed(n) => n,
            _ => NO_NUMBER,
        }
    }
}

// The digits from byte i of a text on, behind digits that are worth v.
pub fn run_from(text: &[u8], i: usize, v: u64) -> Run
    requires { i ≤ length text.now }
    ensures { RunFrom text.now i v result }
{
    let mut value = v;
    for end in i..text.len() {
        let b = text[end];
        if !is_digit(b) {
            return Run { end, value };
        }
        value = grown(value, b);
    }
    Run {
        end: text.len(),
        value,
    }
}
