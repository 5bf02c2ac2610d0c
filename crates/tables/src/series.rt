// A member's series: one output a line, into a list that the caller lends; and its name in its folder.
ghost use Rattle.std.specs.Prelude.{◌≡◌, List, [], ◌∷◌, ◌++◌, ℕ, ◌≤◌, ◌<◌, length, replicate};
ghost use Rattle.row.specs.Meaning.{most_columns};
ghost use Rattle.tables.specs.Series.{output_of, series_of, filled_with, series_name};
ghost use Rattle.tables.specs.Meaning.{output_in, fill_from, most_size, PutLine};

use grid::Grid;
use row::MOST_COLUMNS;

// No output: it stands for a line that is no number, and scoring refuses it with 11 at its index.
const NO_OUTPUT: u32 = u32::MAX;

// The next place of the list, and how many blank lines are held back.
#[derive(Clone, Copy)]
pub struct Place {
    pub next: usize,
    pub blanks: usize,
}

// The output that a line says, if it ends here.
#[tactic(auto, using(crate::proofs::Filling::output_here, crate::proofs::Filling::output_none))]
fn output_in(grid: Grid) -> u32
    ensures { (ended : List ℕ) → most_columns ≤ length ended → result ≡ output_in grid ended }
{
    if grid.at == 0 {
        return u32::try_from(grid.cell.told()).unwrap_or(NO_OUTPUT);
    }
    NO_OUTPUT
}

// An output to place n of the list, if there is such a place. Answers with the next place.
#[tactic(auto, using(crate::proofs::Filling::put_none, crate::proofs::Filling::put_one))]
fn put_output(x: u32, out: &mut [u32], n: usize) -> usize
    ensures { (row : List ℕ) (rows : List (List ℕ)) → x ≡ output_of row → fill_from out.new result rows ≡ fill_from out.old n (row ∷ rows) }
{
    if n < out.len() {
        out[n] = x;
        return n + 1;
    }
    n
}

// No output for each of so many lines, from place n of the list on, as far as there are places. Answers with the next place.
fn put_blanks(out: &mut [u32], n: usize, blanks: usize) -> usize
    ensures { (rows : List (List ℕ)) → fill_from out.new result rows ≡ fill_from out.old n (replicate blanks [] ++ rows) }
{
    let mut at = n;
    for _ in 0..blanks {
        at = put_output(NO_OUTPUT, out, at);
    }
    at
}

// A line that ends here: nothing of a heading, a blank line held back, or its output behind those held back.
fn put_line(grid: Grid, out: &mut [u32], place: Place) -> Place
    requires { place.blanks < most_size }
    ensures { PutLine grid out.old place out.new result }
{
    if grid.is_heading() {
        return place;
    }
    if grid.is_blank() {
        return Place {
            blanks: place.blanks + 1,
            ..place
        };
    }
    let n = put_blanks(out, place.next, place.blanks);
    let x = output_in(grid);
    Place {
        next: put_output(x, out, n),
        blanks: 0,
    }
}

// The outputs of a text, as many as there is room for. Answers with how many.
pub fn read_series(text: &[u8], out: &mut [u32]) -> usize
    ensures { record { count = result; values = out.new } ≡ filled_with out.old (series_of text.now) }
{
    let mut grid = Grid::start();
    let mut ended: [u64; MOST_COLUMNS] = [0; MOST_COLUMNS];
    let mut place = Place { next: 0, blanks: 0 };
    let mut i: usize = 0;
    // Stays a while: a step passes over a whole run of digits, so the place does not move by one.
    while i < text.len() {
        if text[i] == b'\n' {
            place = put_line(grid, out, place);
            grid = grid.next();
            i += 1;
        } else {
            let step = grid.step(text, i, &mut ended);
            grid = step.grid;
            i = step.end;
        }
    }
    put_line(grid, out, place).next
}

// A member's series in its folder: the member's number in two digits and .csv, behind a slash.
// Stays two functions, with hours::name::ramping_name: the names differ in length and in all bytes but the two digits, so a shared one would take the rest as a parameter and copy it.
#[tactic(auto, unfolding(crate::specs::Series::series_name))]
pub fn series_name(member: u16) -> [u8; 7]
    ensures { result ≡ series_name member }
{
    let tens = b'0' + (member / 10 % 10) as u8;
    let ones = b'0' + (member % 10) as u8;
    [b'/', tens, ones, b'.', b'c', b's', b'v']
}
