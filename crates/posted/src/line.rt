// The lines at the front of a text, each judged by itself: its numbers are taken, what they would be printed as is compared with it.
ghost use Rattle.std.specs.Prelude.{◌≡◌, ◌^◌, ◌≤◌, ◌<◌, length, ℤ, ℕ, List, MatchOption};
ghost use Rattle.posted.specs.Reading.{BeginsHead, BeginsRow};
ghost use Rattle.posted.specs.Inner.{EarnedIs, CarriedIs, GotIs, HeadIs, RowIs, SumIs, NoSum, HeadAt, RowAt, SumAt, RowsAt};

use crate::put::{put_head, put_row, put_sum};
use crate::taken::{after, read_field, read_signed_field};
use book::Header;
use month::Row;
use month::rows::blank_rows;
use register::MOST_ENTRIES;
use units::{Fen, Grains, Mwh, SignedFen, Thousandths};

// The numbers of a first line.
#[derive(Clone, Copy)]
pub struct Heads {
    pub calls: usize,
    pub part: u32,
    pub header: Header,
}

// The numbers of the three parts of a member's line.
#[derive(Clone, Copy)]
pub struct Earned {
    pub number: u64,
    pub hours: u64,
    pub grains: u64,
    pub compensation: u64,
    pub assessment: u64,
}

#[derive(Clone, Copy)]
pub struct Carried {
    pub energy: u64,
    pub weight: u64,
    pub share: i64,
}

#[derive(Clone, Copy)]
pub struct Got {
    pub uncollected: u64,
    pub given: u64,
    pub amount: i64,
}

// The members' lines: the first rows, and how many they are.
#[derive(Clone, Copy)]
pub struct Members {
    pub rows: [Row; MOST_ENTRIES],
    pub count: usize,
}

// Where a number does not fit its bits, no line has it: any will do.
fn read_heads(text: &[u8]) -> Heads
    ensures { HeadIs text.now result }
{
    let (area, rest) = read_field(text, b"area ");
    let (year, rest) = read_field(rest, b" year ");
    let (month, rest) = read_field(rest, b" month ");
    let (calls, rest) = read_field(rest, b" calls ");
    let (part, _rest) = read_field(rest, b" part ");
    Heads {
        calls: calls as usize,
        part: u32::try_from(part).unwrap_or(0),
        header: Header {
            area: u8::try_from(area).unwrap_or(0),
            year: u16::try_from(year).unwrap_or(0),
            month: u8::try_from(month).unwrap_or(0),
        },
    }
}

fn read_earned(text: &[u8]) -> (Earned, &[u8])
    ensures { EarnedIs text.now result.0 result.1.now }
{
    let (number, rest) = read_field(text, b"member ");
    let (hours, rest) = read_field(rest, b" hours ");
    let (grains, rest) = read_field(rest, b" grains ");
    let (compensation, rest) = read_field(rest, b" compensation ");
    let (assessment, rest) = read_field(rest, b" assessment ");
    let earned = Earned {
        number,
        hours,
        grains,
        compensation,
        assessment,
    };
    (earned, rest)
}

fn read_carried(text: &[u8]) -> (Carried, &[u8])
    ensures { CarriedIs text.now result.0 result.1.now }
{
    let (energy, rest) = read_field(text, b" energy ");
    let (weight, rest) = read_field(rest, b" weight ");
    let (share, rest) = read_signed_field(rest, b" share ");
    let carried = Carried {
        energy,
        weight,
        share,
    };
    (carried, rest)
}

fn read_got(text: &[u8]) -> Got
    ensures { GotIs text.now result }
{
    let (uncollected, rest) = read_field(text, b" uncollected ");
    let (given, rest) = read_field(rest, b" given ");
    let (amount, _rest) = read_signed_field(rest, b" amount ");
    Got {
        uncollected,
        given,
        amount,
    }
}

fn read_numbers(text: &[u8]) -> Row
    ensures { RowIs text.now result }
{
    let (e, rest) = read_earned(text);
    let (c, rest) = read_carried(rest);
    let g = read_got(rest);
    Row {
        grains: Grains(e.grains),
        compensation: Fen(e.compensation),
        weight: c.weight,
        share: SignedFen(c.share),
        uncollected: Fen(g.uncollected),
        given: Fen(g.given),
        amount: SignedFen(g.amount),
        assessment: Thousandths(u32::try_from(e.assessment).unwrap_or(0)),
        energy: Mwh(u32::try_from(c.energy).unwrap_or(0)),
        number: u16::try_from(e.number).unwrap_or(0),
        hours: u16::try_from(e.hours).unwrap_or(0),
    }
}

// A first line, and what is behind it.
pub fn read_head(text: &[u8]) -> Option<(Heads, &[u8])>
    ensures { MatchOption result (BeginsHead text.now → ⊥) (λ got. HeadAt text.now got.0 got.1.now) }
{
    let h = read_heads(text);
    let mut line = [0u8; 132];
    let k = put_head(&mut line, 0, h.header, h.calls, h.part);
    let rest = after(text, &line[..k])?;
    Some((h, rest))
}

// A member's line.
pub fn read_row(text: &[u8]) -> Option<(Row, &[u8])>
    ensures { MatchOption result (BeginsRow text.now → ⊥) (λ got. RowAt text.now got.0 got.1.now) }
{
    let row = read_numbers(text);
    let mut line = [0u8; 320];
    let k = put_row(&mut line, 0, row);
    let rest = after(text, &line[..k])?;
    Some((row, rest))
}

// The line of R or of the user's amount, by its name.
pub fn read_sum<'a>(text: &'a [u8], name: &[u8]) -> Option<(SignedFen, &'a [u8])>
    requires name_len_bound { length name.now ≤ 6 }
    ensures { MatchOption result (NoSum name.now text.now) (λ got. SumAt name.now text.now got.0.0 got.1.now) }
{
    let (fen, _rest) = read_signed_field(text, name);
    let amount = SignedFen(fen);
    let mut line = [0u8; 27];
    let k = put_sum(&mut line, 0, name, amount);
    let rest = after(text, &line[..k])?;
    Some((amount, rest))
}

pub fn read_members(text: &[u8]) -> (Members, &[u8])
    ensures { RowsAt text.now result.0.rows result.0.count result.1.now }
{
    let mut rows = blank_rows();
    let mut rest = text;
    for count in 0..MOST_ENTRIES {
        let Some((row, behind)) = read_row(rest) else {
            return (Members { rows, count }, rest);
        };
        rows[count] = row;
        rest = behind;
    }
    let all = Members {
        rows,
        count: MOST_ENTRIES,
    };
    (all, rest)
}
