// The lines of a statement, from a place of a buffer on. Each answers the place behind what it put.
ghost use Rattle.std.specs.Prelude.{◌++◌, ◌+◌, ◌*◌, ◌≤◌, length};
ghost use Rattle.register.specs.Register.{most_entries};
ghost use Rattle.render.specs.Inner.{Puts};
ghost use Rattle.render.specs.Room.{most_decimal};
ghost use Rattle.posted.specs.Posted.{head_text, earned_text, carried_text, got_text, row_text, rows_text, total_text, user_text};
ghost use Rattle.posted.specs.Inner.{date_text, most_date, who_text, most_who, load_text, most_load, sum_text};
ghost use Rattle.posted.specs.Posted.{most_head, most_earned, most_carried, most_got, most_row, most_posted};

use book::Header;
use month::Row;
use render::{put_field, put_money, put_word};
use units::SignedFen;

fn put_date(out: &mut [u8], at: usize, h: Header) -> usize
    requires { at + most_date ≤ length out.old }
    ensures { Puts most_date out.old at (date_text h) out.new result }
{
    let a = put_field(out, at, b"area ", h.area as u64);
    let b = put_field(out, a, b" year ", h.year as u64);
    put_field(out, b, b" month ", h.month as u64)
}

pub fn put_head(out: &mut [u8], at: usize, h: Header, calls: usize, part: u32) -> usize
    requires { at + most_head ≤ length out.old }
    ensures { Puts most_head out.old at (head_text h calls part) out.new result }
{
    let a = put_date(out, at, h);
    let b = put_field(out, a, b" calls ", calls as u64);
    let c = put_field(out, b, b" part ", part as u64);
    put_word(out, c, b"\n")
}

fn put_who(out: &mut [u8], at: usize, r: Row) -> usize
    requires { at + most_who ≤ length out.old }
    ensures { Puts most_who out.old at (who_text r) out.new result }
{
    let a = put_field(out, at, b"member ", r.number as u64);
    put_field(out, a, b" hours ", r.hours as u64)
}

fn put_earned(out: &mut [u8], at: usize, r: Row) -> usize
    requires { at + most_earned ≤ length out.old }
    ensures { Puts most_earned out.old at (earned_text r) out.new result }
{
    let a = put_who(out, at, r);
    let b = put_field(out, a, b" grains ", r.grains.0);
    let c = put_field(out, b, b" compensation ", r.compensation.0);
    put_field(out, c, b" assessment ", r.assessment.0 as u64)
}

fn put_load(out: &mut [u8], at: usize, r: Row) -> usize
    requires { at + most_load ≤ length out.old }
    ensures { Puts most_load out.old at (load_text r) out.new result }
{
    let a = put_field(out, at, b" energy ", r.energy.0 as u64);
    put_field(out, a, b" weight ", r.weight)
}

fn put_carried(out: &mut [u8], at: usize, r: Row) -> usize
    requires { at + most_carried ≤ length out.old }
    ensures { Puts most_carried out.old at (carried_text r) out.new result }
{
    let a = put_load(out, at, r);
    put_money(out, a, b" share ", r.share)
}

fn put_got(out: &mut [u8], at: usize, r: Row) -> usize
    requires { at + most_got ≤ length out.old }
    ensures { Puts most_got out.old at (got_text r) out.new result }
{
    let a = put_field(out, at, b" uncollected ", r.uncollected.0);
    let b = put_field(out, a, b" given ", r.given.0);
    let c = put_money(out, b, b" amount ", r.amount);
    put_word(out, c, b"\n")
}

pub fn put_row(out: &mut [u8], at: usize, r: Row) -> usize
    requires { at + most_row ≤ length out.old }
    ensures { Puts most_row out.old at (row_text r) out.new result }
{
    let a = put_earned(out, at, r);
    let b = put_carried(out, a, r);
    put_got(out, b, r)
}

// Stays two functions: text, report and annual go over their lines so too, each with its own line and text; one walk for all would take a closure and what is proved of it, and is longer.
fn put_rows(out: &mut [u8], at: usize, rows: &[Row]) -> usize
    requires count_le_most_entries { length rows.now ≤ most_entries }
    requires most_row_in_bounds { at + 64 * most_row ≤ length out.old }
    ensures { Puts (64 * most_row) out.old at (rows_text rows.now) out.new result }
{
    let mut next = at;
    for row in rows {
        next = put_row(out, next, *row);
    }
    next
}

// A line of one signed number behind a name.
pub fn put_sum(out: &mut [u8], at: usize, name: &[u8], amount: SignedFen) -> usize
    requires { at + length name.now + most_decimal + 1 ≤ length out.old }
    ensures { Puts (length name.now + most_decimal + 1) out.old at (sum_text name.now amount.0) out.new result }
{
    let next = put_money(out, at, name, amount);
    put_word(out, next, b"\n")
}

pub fn put_posted(
    out: &mut [u8],
    h: Header,
    calls: usize,
    part: u32,
    rows: &[Row],
    gap: SignedFen,
    user: SignedFen,
) -> usize
    requires count_le_most_entries { length rows.now ≤ most_entries }
    requires most_posted_in_bounds { most_posted ≤ length out.old }
    ensures { Puts most_posted out.old 0 (head_text h calls part ++ rows_text rows.now ++ total_text gap.0 ++ user_text user.0) out.new result }
{
    let a = put_head(out, 0, h, calls, part);
    let b = put_rows(out, a, rows);
    let c = put_sum(out, b, b"total ", gap);
    put_sum(out, c, b"user ", user)
}
