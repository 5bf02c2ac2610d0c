// The line that is being read: five numbers parted by blanks, of which the last one read may still grow.
ghost use Rattle.std.specs.Prelude.{◌≡◌, List, [], ◌++◌, ℕ};
ghost use Rattle.lines.specs.Text.{as_line};
ghost use Rattle.lines.specs.Meaning.{fair_line, five_of, line_in, row_line, LineFollows, best_bytes, number_bytes};

use row::{Row, hold};
use share::Line;
use share::array::blank_line;
use share::limits::numbers_are_sound;
use units::{Fen, Mwh, SignedFen, Thousandths};

// A line is five numbers.
const COLUMNS: usize = 5;

// Which of them is the last, from 0 on.
pub const LAST: usize = COLUMNS - 1;

// The row after a byte of its line.
pub fn stepped(row: Row, b: u8) -> Row
    ensures { LineFollows row b result }
{
    row.step(b' ', LAST, b)
}

// The row after the bytes that end its open number best.
fn numbered(row: Row) -> Row
    ensures { (rest : List ℕ) → row_line result rest ≡ row_line row (number_bytes row ++ rest) }
{
    if 0 < row.at {
        if row.digit {
            return row;
        }
        return stepped(row, b'0');
    }
    if row.value == 0 {
        let six = stepped(row, b'6');
        return stepped(six, b'4');
    }
    if row.value < 6 {
        return stepped(row, b'9');
    }
    if row.value == 6 {
        return stepped(row, b'4');
    }
    row
}

// The row after the bytes that end its line best: if any bytes make it sound, these do.
pub fn best(start: Row) -> Row
    ensures { row_line result [] ≡ row_line start (best_bytes start) }
{
    let mut row = numbered(start);
    for _column in start.at..LAST {
        let parted = stepped(row, b' ');
        row = stepped(parted, b'0');
    }
    row
}

// The line of five numbers, or a blank one where a number is past its limit.
fn typed(ended: [u64; 5], assessed: u64) -> Line
    ensures { result ≡ fair_line (as_line (five_of ended assessed)) }
{
    let n = ended[0];
    let s = ended[1];
    let e = ended[2];
    let c = ended[3];
    if numbers_are_sound(0, n, s, e, c, assessed) {
        return Line {
            number: n as u16,
            status: s as u8,
            energy: Mwh(e as u32),
            compensation: Fen(c),
            assessment: Thousandths(assessed as u32),
            share: SignedFen(0),
            amount: SignedFen(0),
        };
    }
    blank_line()
}

// The line, if it ends here.
pub fn line_in(row: Row) -> Line
    ensures { result ≡ line_in row }
{
    if row.is_whole(LAST) {
        let ended = row.first_five();
        return typed(ended, hold(row.value));
    }
    blank_line()
}
