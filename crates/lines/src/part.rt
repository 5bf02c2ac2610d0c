// The first line: the generators' part, one number.
ghost use Rattle.std.specs.Prelude.{◌≡◌, []};
ghost use Rattle.lines.specs.Meaning.{part_when, fair_part, FirstLineIs, part_is_past};

use row::Row;
use share::limits::MOST_PART;

// The row after the bytes of its line, and the place of the line feed behind it, or where the bytes end.
#[derive(Clone, Copy)]
pub struct FirstLine {
    pub row: Row,
    pub next: usize,
}

// The part's line up to its end, or that of the bytes.
pub fn first_line(start: Row, bytes: &[u8]) -> FirstLine
    ensures { FirstLineIs start bytes.now result }
{
    let mut row = start;
    for (next, b) in bytes.iter().enumerate() {
        if *b == b'\n' {
            return FirstLine { row, next };
        }
        row = row.step(b' ', 0, *b);
    }
    FirstLine {
        row,
        next: bytes.len(),
    }
}

// The part, if its line ends here; one above the limit where it is none.
pub fn part_in(row: Row) -> u32
    ensures { result ≡ fair_part (part_when row []) }
{
    if !row.is_whole(0) {
        return MOST_PART + 1;
    }
    if (MOST_PART as u64) < row.value {
        return MOST_PART + 1;
    }
    row.value as u32
}

// Whether the part is above its limit or none, whatever follows. Where it has no digit yet, one has to come.
pub fn is_past(row: Row) -> bool
    ensures { result ≡ part_is_past row }
{
    let spoilt = row.bad | (0 < row.at);
    if row.digit {
        return spoilt | ((MOST_PART as u64) < row.value);
    }
    spoilt | ((MOST_PART as u64) / 10 < row.value)
}
