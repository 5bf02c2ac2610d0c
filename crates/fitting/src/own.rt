// A member's row by itself: its compensation and its weight; and the line that was shared for it, with its limit.
ghost use Rattle.std.specs.Prelude.{◌≡◌, ◌≤◌, length, take};
ghost use Rattle.register.specs.Register.{most_entries};
ghost use Rattle.ceiling.specs.Ceiling.{paid};
ghost use Rattle.ceiling.specs.Inner.{part_in, parts_in};
ghost use Rattle.fitting.specs.Fitting.{weight_by, status_for, own_apart, first_own, own_line, own_lines, limit_for, own_limited, own_limits};

use crate::Finding;
use ceiling::array::blank_limiteds;
use ceiling::{Limit, LimitedLine};
use month::Row;
use register::MOST_ENTRIES;
use share::Line;
use share::array::blank_lines;
use units::{Fen, Mwh, SignedFen};

// The weight of an energy by a status; `negative` says that R is below zero.
fn weight_by(negative: bool, status: u8, energy: Mwh) -> u64
    ensures { result ≡ weight_by negative status energy.0 }
{
    let e = u64::from(energy.0);
    if status == 0 {
        return e * 10;
    }
    if status == 1 {
        return e * 5;
    }
    if negative { e * 12 } else { e * 10 }
}

// The status that a weight fits, 0 where it fits none.
fn status_for(negative: bool, energy: Mwh, weight: u64) -> u8
    ensures { result ≡ status_for negative energy.0 weight }
{
    if weight == weight_by(negative, 0, energy) {
        return 0;
    }
    if weight == weight_by(negative, 1, energy) {
        return 1;
    }
    if weight == weight_by(negative, 2, energy) {
        2
    } else {
        0
    }
}

fn own_line(negative: bool, r: Row) -> Line
    ensures { result ≡ own_line negative r }
{
    let energy = r.energy;
    let compensation = r.compensation;
    let assessment = r.assessment;
    Line {
        number: r.number,
        status: status_for(negative, energy, r.weight),
        energy,
        assessment,
        compensation,
        share: SignedFen(0),
        amount: SignedFen(0),
    }
}

// The lines that were shared.
pub fn own_lines(negative: bool, rows: [Row; MOST_ENTRIES]) -> [Line; MOST_ENTRIES]
    ensures value { result ≡ own_lines negative rows }
    ensures rows_len { length rows ≡ most_entries }
{
    let mut lines = blank_lines();
    for (i, r) in rows.iter().enumerate() {
        lines[i] = own_line(negative, *r);
    }
    lines
}

// Compensation and weight of a row on a line.
fn own_apart(negative: bool, line: usize, r: Row) -> Result<(), Finding>
    ensures { result ≡ own_apart negative line r }
{
    let grains = r.grains;
    let fen = grains.to_fen();
    let compensation = r.compensation;
    if compensation.0 != fen.0 {
        return Err(Finding::Compensation(line, compensation, fen));
    }
    let weight = r.weight;
    let energy = r.energy;
    let follows = weight_by(negative, status_for(negative, energy, weight), energy);
    if weight != follows {
        return Err(Finding::Weight(line, weight, follows));
    }
    Ok(())
}

// The first row whose compensation or weight does not fit.
pub fn first_own(negative: bool, rows: &[Row]) -> Result<(), Finding>
    requires { length rows.now ≤ most_entries }
    ensures { result ≡ first_own negative 1 rows.now }
{
    for (i, r) in rows.iter().enumerate() {
        own_apart(negative, 1 + i, *r)?;
    }
    Ok(())
}

// What a member with such an amount pays.
fn paid(amount: SignedFen) -> u64
    ensures { result ≡ paid amount.0 }
{
    if amount.0 < 0 {
        amount.0.unsigned_abs()
    } else {
        0
    }
}

// The limit of which so much is not collected of an amount; none where all is.
fn limit_for(amount: SignedFen, uncollected: Fen) -> Limit
    ensures { result ≡ limit_for amount.0 uncollected.0 }
{
    let most = paid(amount).saturating_sub(uncollected.0);
    Limit {
        none: uncollected.0 == 0,
        fen: Fen(most),
    }
}

// The line that was shared, with its limit; `shared` is the line of the first sharing.
fn own_limited(negative: bool, r: Row, shared: Line) -> LimitedLine
    ensures { result ≡ own_limited negative r (part_in shared) }
{
    let line = own_line(negative, r);
    let limit = limit_for(shared.amount, r.uncollected);
    LimitedLine {
        line,
        limit,
        uncollected: Fen(0),
        given: Fen(0),
    }
}

pub fn own_limits(
    negative: bool,
    rows: [Row; MOST_ENTRIES],
    shared: [Line; MOST_ENTRIES],
    count: usize,
) -> [LimitedLine; MOST_ENTRIES]
    requires { count ≤ most_entries }
    ensures { take count result ≡ own_limits negative (take count rows) (parts_in (take count shared)) }
{
    let mut limited = blank_limiteds();
    for i in 0..count {
        limited[i] = own_limited(negative, rows[i], shared[i]);
    }
    limited
}
