// What is wrong with a line of a ramping file, in words: into a lent buffer from a place on; each answers the place behind what it put.
ghost use Rattle.std.specs.Prelude.{◌+◌, ◌≤◌, length};
ghost use Rattle.io.specs.Counts.{IsPrefixLen};
ghost use Rattle.render.specs.Inner.{Puts};
ghost use Rattle.render.specs.Room.{Renders};
ghost use Rattle.hour_faults.specs.Words.{column_name, column_text, cell_text, no_number_text, outside_text, earlier_text, full_text, other_text, fast_text, move_text, wrong_text, hour_fault_text};
ghost use Rattle.hour_faults.specs.Words.{most_name, most_column, most_cell, most_wrong, most_hour_fault};

use crate::HourWrong;
use faults::words::{put_columns, put_limits, put_line, put_number};
use render::{put_field, put_word};

// The most bytes of a fault's line, but for the file's name.
const MOST_FAULT: usize = 170;

// Stays two functions: a register's columns (faults) have other names.
fn put_name(out: &mut [u8], at: usize, column: usize) -> usize
    requires { at + most_name ≤ length out.old }
    ensures { Puts most_name out.old at (column_name column) out.new result }
{
    if column == 1 {
        return put_word(out, at, b"HOUR");
    }
    if column == 2 {
        return put_word(out, at, b"START");
    }
    if column == 3 {
        return put_word(out, at, b"END");
    }
    if column == 4 {
        return put_word(out, at, b"COMMAND");
    }
    if column == 5 {
        return put_word(out, at, b"DELAY");
    }
    if column == 6 {
        return put_word(out, at, b"REAL");
    }
    put_word(out, at, b"STANDARD")
}

// Which cell it is.
// Stays two functions: a register's (faults) names its own columns.
fn put_column(out: &mut [u8], at: usize, column: usize) -> usize
    requires { at + most_column ≤ length out.old }
    ensures { Puts most_column out.old at (column_text column) out.new result }
{
    let a = put_field(out, at, b"column ", column as u64);
    let b = put_word(out, a, b", ");
    put_name(out, b, column)
}

// Which cell, and what it says.
fn put_cell(out: &mut [u8], at: usize, column: usize, n: u64) -> usize
    requires { at + most_cell ≤ length out.old }
    ensures { Puts most_cell out.old at (cell_text column n) out.new result }
{
    let a = put_column(out, at, column);
    put_number(out, a, n)
}

fn put_no_number(out: &mut [u8], at: usize, column: usize) -> usize
    requires { at + most_wrong ≤ length out.old }
    ensures { Puts most_wrong out.old at (no_number_text column) out.new result }
{
    let a = put_column(out, at, column);
    put_word(out, a, b" is no number")
}

fn put_outside(out: &mut [u8], at: usize, column: usize, n: u64, least: u64, most: u64) -> usize
    requires { at + most_wrong ≤ length out.old }
    ensures { Puts most_wrong out.old at (outside_text column n least most) out.new result }
{
    let a = put_cell(out, at, column, n);
    put_limits(out, a, least, most)
}

fn put_earlier(out: &mut [u8], at: usize, hour: u64, last: u64) -> usize
    requires { at + most_wrong ≤ length out.old }
    ensures { Puts most_wrong out.old at (earlier_text hour last) out.new result }
{
    let a = put_field(out, at, b"hour ", hour);
    let b = put_field(out, a, b" stands behind hour ", last);
    put_word(out, b, b": hours must not fall")
}

fn put_full(out: &mut [u8], at: usize, hour: u64) -> usize
    requires { at + most_wrong ≤ length out.old }
    ensures { Puts most_wrong out.old at (full_text hour) out.new result }
{
    let a = put_field(out, at, b"action 61 of hour ", hour);
    put_word(out, a, b": an hour has at most 60")
}

fn put_other(out: &mut [u8], at: usize, n: u64, hour: u64, first: u64) -> usize
    requires { at + most_wrong ≤ length out.old }
    ensures { Puts most_wrong out.old at (other_text n hour first) out.new result }
{
    let a = put_cell(out, at, 7, n);
    let b = put_field(out, a, b" is not that of the first action of hour ", hour);
    put_field(out, b, b", ", first)
}

fn put_fast(out: &mut [u8], at: usize, real: u64, standard: u64) -> usize
    requires { at + most_wrong ≤ length out.old }
    ensures { Puts most_wrong out.old at (fast_text real standard) out.new result }
{
    let a = put_cell(out, at, 6, real);
    put_field(out, a, b" is more than 100 times STANDARD, ", standard)
}

fn put_move(out: &mut [u8], at: usize, power: u64) -> usize
    requires { at + most_wrong ≤ length out.old }
    ensures { Puts most_wrong out.old at (move_text power) out.new result }
{
    let a = put_column(out, at, 4);
    let b = put_field(out, a, b" is START, ", power);
    put_word(out, b, b": nothing is commanded")
}

// What is wrong; nothing where nothing is.
fn put_wrong(out: &mut [u8], at: usize, wrong: Option<HourWrong>) -> usize
    requires { at + most_wrong ≤ length out.old }
    ensures { Puts most_wrong out.old at (wrong_text wrong) out.new result }
{
    match wrong {
        None => put_word(out, at, b""),
        Some(HourWrong::Blank) => put_word(out, at, b"blank, and a line stands behind it"),
        Some(HourWrong::Columns(n, wanted)) => put_columns(out, at, n, wanted),
        Some(HourWrong::NoNumber(column)) => put_no_number(out, at, column),
        Some(HourWrong::Outside(column, n, least, most)) => {
            put_outside(out, at, column, n, least, most)
        }
        Some(HourWrong::Earlier(hour, last)) => put_earlier(out, at, hour, last),
        Some(HourWrong::Full(hour)) => put_full(out, at, hour),
        Some(HourWrong::OtherStandard(n, hour, first)) => put_other(out, at, n, hour, first),
        Some(HourWrong::TooFast(real, standard)) => put_fast(out, at, real, standard),
        Some(HourWrong::NoMove(power)) => put_move(out, at, power),
    }
}

// A fault's line.
fn put_fault(out: &mut [u8], name: &[u8], line: usize, wrong: Option<HourWrong>) -> usize
    requires { most_hour_fault name.now ≤ length out.old }
    ensures { Puts (most_hour_fault name.now) out.old 0 (hour_fault_text name.now line wrong) out.new result }
{
    let a = put_word(out, 0, name);
    let b = put_line(out, a, line);
    let c = put_wrong(out, b, wrong);
    put_word(out, c, b"\n")
}

// What is wrong with a line of a ramping file in words, on one line; where nothing is, the line alone.
pub fn hour_fault_text(name: &[u8], line: usize, wrong: Option<HourWrong>, out: &mut [u8]) -> usize
    ensures renders { Renders (most_hour_fault name.now) (hour_fault_text name.now line wrong) out.old out.new result }
    ensures prefix_len { IsPrefixLen result out.new }
{
    if out.len() < MOST_FAULT + name.len() {
        return 0;
    }
    put_fault(out, name, line, wrong)
}
