// The line that is being read: seven numbers parted by commas, of which the last one read may still grow.
ghost use Rattle.std.specs.Prelude.{◌≡◌, nat_le};
ghost use Rattle.std.specs.List.{list_any};
ghost use Rattle.row.specs.Numbers.{ceiling};
ghost use Rattle.ramp.specs.Ramping.{no_action};
ghost use Rattle.hours.specs.Hours.{as_hour_line};
ghost use Rattle.hours.specs.Inner.{blank_hour_line, fair_hour_line, ended_line, seven_of, is_past, is_lost};

use crate::HourLine;
use grid::Grid;
use grid::cell::Cell;
use ramp::Action;
use row::{CEILING, MOST_COLUMNS};
use units::Kw;

// A line is seven numbers.
const COLUMNS: usize = 7;

// Which of them is the last, from 0 on.
const LAST: usize = COLUMNS - 1;

const MOST_SHORT: u64 = 0xffff;

const MOST_WORD: u64 = 0xffff_ffff;

// An action of zeros.
#[tactic(auto, unfolding(ramp::specs::Ramping::no_action))]
pub fn no_action() -> Action
    ensures { result ≡ no_action }
{
    Action {
        start: Kw(0),
        end: Kw(0),
        command: Kw(0),
        delay: 0,
        real: 0,
        standard: 0,
    }
}

#[tactic(auto, unfolding(crate::specs::Inner::blank_hour_line))]
fn blank_hour_line() -> HourLine
    ensures { result ≡ blank_hour_line }
{
    HourLine {
        hour: 0,
        action: no_action(),
    }
}

// The line of seven numbers, or a blank one where a number does not fit: it is past its limit.
fn typed(ended: [u64; MOST_COLUMNS], standard: u64) -> HourLine
    ensures { result ≡ fair_hour_line (as_hour_line (seven_of ended standard)) }
{
    let h = ended[0];
    let s = ended[1];
    let e = ended[2];
    let c = ended[3];
    let d = ended[4];
    let x = ended[5];
    if (h <= MOST_SHORT)
        & (s <= MOST_WORD)
        & (e <= MOST_WORD)
        & (c <= MOST_WORD)
        & (d <= MOST_WORD)
        & (x <= MOST_WORD)
        & (standard <= MOST_WORD)
    {
        return HourLine {
            hour: h as u16,
            action: Action {
                start: Kw(s as u32),
                end: Kw(e as u32),
                command: Kw(c as u32),
                delay: d as u32,
                real: x as u32,
                standard: standard as u32,
            },
        };
    }
    blank_hour_line()
}

// The line, if it ends here.
pub fn line_in(grid: Grid, ended: [u64; MOST_COLUMNS]) -> HourLine
    ensures { result ≡ fair_hour_line (ended_line grid ended) }
{
    if grid.at == LAST {
        return typed(ended, grid.cell.told());
    }
    blank_hour_line()
}

// Whether a cell is no number or past every limit, whatever follows of it.
fn is_past(cell: Cell) -> bool
    ensures { result ≡ is_past cell }
{
    match cell {
        Cell::Fresh => false,
        Cell::Bare(v) => CEILING <= v,
        Cell::Opened => false,
        Cell::Quoted(v) => CEILING <= v,
        Cell::Dashed => true,
        Cell::Closed(n) => CEILING <= n,
        Cell::Bad => true,
    }
}

// Whether one of these cells is.
fn some_past(cells: &[u64]) -> bool
    ensures { result ≡ list_any (λ n. nat_le ceiling n) cells.now }
{
    cells.iter().any(|n| CEILING <= *n)
}

// Whether no bytes that follow make the line one that is taken: one of its cells is no number or past every limit, or an eighth is begun.
pub fn is_lost(grid: Grid, ended: [u64; MOST_COLUMNS]) -> bool
    ensures { result ≡ is_lost grid ended }
{
    if COLUMNS <= grid.at {
        return true;
    }
    some_past(&ended[..grid.at]) | is_past(grid.cell)
}
