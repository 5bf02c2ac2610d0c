// The lines of a statement's text held to their limits.
ghost use Rattle.std.specs.Prelude.{◌≡◌, ◌≤◌, length};
ghost use Rattle.register.specs.Register.{most_entries};
ghost use Rattle.intake.specs.Limits.{head_is_within, row_is_within, gap_is_within, first_beyond, line_beyond, statement_is_within};

use book::{Header, MOST_RECORDS};
use month::{Row, Statement};
use render::size;
use share::limits::{MOST_COMPENSATION, MOST_PART, numbers_are_sound};
use units::SignedFen;
use year::judging::is_within;

// The hours of 31 days: no month has more.
const MOST_HOURS: u16 = 744;

// A weight is at most so much: 5,000,000 MWh by the factor 12.
const MOST_WEIGHT: u64 = 60_000_000;

// What is not collected and what is given up are at most so many fen, as a share and an amount either way.
const MOST_EITHER_WAY: u64 = 200_000_000_000;

fn head_is_within(h: Header, calls: usize, part: u32) -> bool
    ensures { result ≡ head_is_within h calls part }
{
    h.is_sound() & (calls <= MOST_RECORDS) & (part <= MOST_PART)
}

// Whether a member's line is within the limits behind the number `before`.
fn row_is_within(before: u16, r: Row) -> bool
    ensures { result ≡ row_is_within before r }
{
    let uncollected = r.uncollected;
    let given = r.given;
    let grains = r.grains;
    let fen = grains.to_fen();
    let energy = r.energy;
    let compensation = r.compensation;
    let assessment = r.assessment;
    let is_line = numbers_are_sound(
        u64::from(before),
        u64::from(r.number),
        0,
        u64::from(energy.0),
        compensation.0,
        u64::from(assessment.0),
    );
    is_line
        & (r.hours <= MOST_HOURS)
        & (fen.0 <= MOST_COMPENSATION)
        & (r.weight <= MOST_WEIGHT)
        & is_within(r.share)
        & (uncollected.0 <= MOST_EITHER_WAY)
        & (given.0 <= MOST_EITHER_WAY)
        & is_within(r.amount)
}

// The place of the first line that is beyond a limit, or their number where none is.
fn first_beyond(rows: &[Row]) -> usize
    ensures { result ≡ first_beyond 0 rows.now }
{
    let mut before: u16 = 0;
    for (i, r) in rows.iter().enumerate() {
        if !row_is_within(before, *r) {
            return i;
        }
        before = r.number;
    }
    rows.len()
}

fn gap_is_within(gap: SignedFen) -> bool
    ensures { result ≡ gap_is_within gap.0 }
{
    size(gap.0) <= MOST_COMPENSATION
}

// The first line of a statement's text that is beyond a limit, or the number of its lines where none is.
pub fn line_beyond(s: Statement) -> usize
    requires { s.count ≤ most_entries }
    ensures { result ≡ line_beyond s }
{
    let header = s.header;
    if !head_is_within(header, s.calls, s.part) {
        return 0;
    }
    let rows = s.rows;
    let count = s.count;
    let bad = first_beyond(&rows[..count]);
    if bad < count {
        return 1 + bad;
    }
    let gap = s.gap;
    if !gap_is_within(gap) {
        return 1 + count;
    }
    let user = s.user;
    if !is_within(user) {
        return 2 + count;
    }
    3 + count
}

pub fn statement_is_within(s: Statement) -> bool
    requires { s.count ≤ most_entries }
    ensures { result ≡ statement_is_within s }
{
    line_beyond(s) == 3 + s.count
}
