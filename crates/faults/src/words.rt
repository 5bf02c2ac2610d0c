// What is wrong with a line, in words: into a lent buffer from a place on; each answers the place behind what it put.
ghost use Rattle.std.specs.Prelude.{◌≡◌, ◌+◌, ◌≤◌, length};
ghost use Rattle.io.specs.Counts.{IsPrefixLen};
ghost use Rattle.render.specs.Inner.{Puts};
ghost use Rattle.render.specs.Room.{Renders};
ghost use Rattle.faults.specs.Words.{column_name, column_text, number_text, limits_text, cells_text, columns_text, no_number_text, outside_text, not_above_text, wrong_text, line_text};
ghost use Rattle.faults.specs.Words.{parted_text, neither_text};
ghost use Rattle.faults.specs.Words.{fault_text, thousand_text, grouped, has_text, whose_text, wanted_text, lines_text, count_text};
ghost use Rattle.faults.specs.Words.{most_name, most_column, most_number, most_limits, most_cells, most_parted, most_neither, most_wrong, most_line, most_fault};
ghost use Rattle.faults.specs.Words.{most_grouped, most_has, most_whose, most_wanted, most_lines, most_count};

use crate::{Table, Wrong};
use names::put_month;
use render::{put_decimal, put_field, put_word};
use row::{CEILING, MOST_COLUMNS};

// The most bytes of a fault's line and of a count's, but for the file's name.
const MOST_FAULT: usize = 154;

const MOST_COUNT: usize = 104;

// The column of a register that may say that there is none.
const LIMIT_COLUMN: usize = 7;

// Stays two functions: a ramping file's columns (hour_faults) have other names.
fn put_name(out: &mut [u8], at: usize, column: usize) -> usize
    requires { at + most_name ≤ length out.old }
    ensures { Puts most_name out.old at (column_name column) out.new result }
{
    if column == 1 {
        return put_word(out, at, b"MEMBER");
    }
    if column == 2 {
        return put_word(out, at, b"KIND");
    }
    if column == 3 {
        return put_word(out, at, b"KW");
    }
    if column == 4 {
        return put_word(out, at, b"STATUS");
    }
    if column == 5 {
        return put_word(out, at, b"MWH");
    }
    if column == 6 {
        return put_word(out, at, b"THOUSANDTHS");
    }
    put_word(out, at, b"LIMIT")
}

// Which cell it is.
// Stays two functions: a ramping file's (hour_faults) names its own columns, and a series has one cell alone.
fn put_column(out: &mut [u8], at: usize, table: Table, column: usize) -> usize
    requires { at + most_column ≤ length out.old }
    ensures { Puts most_column out.old at (column_text table column) out.new result }
{
    match table {
        Table::Register => {
            let a = put_field(out, at, b"column ", column as u64);
            let b = put_word(out, a, b", ");
            put_name(out, b, column)
        }
        Table::Series => put_word(out, at, b"the output"),
    }
}

// A cell's number, unless it was held.
pub fn put_number(out: &mut [u8], at: usize, n: u64) -> usize
    requires { at + most_number ≤ length out.old }
    ensures { Puts most_number out.old at (number_text n) out.new result }
{
    if n < CEILING {
        return put_field(out, at, b" ", n);
    }
    put_word(out, at, b"")
}

pub fn put_limits(out: &mut [u8], at: usize, least: u64, most: u64) -> usize
    requires { at + most_limits ≤ length out.old }
    ensures { Puts most_limits out.old at (limits_text least most) out.new result }
{
    let a = put_field(out, at, b" is none of ", least);
    put_field(out, a, b" to ", most)
}

fn put_cells(out: &mut [u8], at: usize, n: usize) -> usize
    requires { at + most_cells ≤ length out.old }
    ensures { Puts most_cells out.old at (cells_text n) out.new result }
{
    let a = put_decimal(out, at, n as u64);
    if n == 1 {
        return put_word(out, a, b" cell");
    }
    if n == MOST_COLUMNS {
        return put_word(out, a, b" cells or more");
    }
    put_word(out, a, b" cells")
}

// Of too many cells, where they may come from.
fn put_parted(out: &mut [u8], at: usize, n: usize, wanted: usize) -> usize
    requires { at + most_parted ≤ length out.old }
    ensures { Puts most_parted out.old at (parted_text n wanted) out.new result }
{
    if wanted < n {
        return put_word(
            out,
            at,
            b" (a separator inside a number parts it, in quotes too)",
        );
    }
    put_word(out, at, b"")
}

// The cells that a line has, and how many it should have.
pub fn put_columns(out: &mut [u8], at: usize, n: usize, wanted: usize) -> usize
    requires { at + most_wrong ≤ length out.old }
    ensures { Puts most_wrong out.old at (columns_text n wanted) out.new result }
{
    let a = put_cells(out, at, n);
    let b = put_field(out, a, b", a line has ", wanted as u64);
    put_parted(out, b, n, wanted)
}

// That a cell is no number, and which it could be.
fn put_neither(out: &mut [u8], at: usize, column: usize, least: u64, most: u64) -> usize
    requires { at + most_neither ≤ length out.old }
    ensures { Puts most_neither out.old at (neither_text column least most) out.new result }
{
    if column == LIMIT_COLUMN {
        let a = put_field(out, at, b" is neither a number from ", least);
        let b = put_field(out, a, b" to ", most);
        return put_word(out, b, b" nor - for none");
    }
    let c = put_field(out, at, b" is no number from ", least);
    put_field(out, c, b" to ", most)
}

fn put_no_number(
    out: &mut [u8],
    at: usize,
    table: Table,
    column: usize,
    least: u64,
    most: u64,
) -> usize
    requires { at + most_wrong ≤ length out.old }
    ensures { Puts most_wrong out.old at (no_number_text table column least most) out.new result }
{
    let a = put_column(out, at, table, column);
    put_neither(out, a, column, least, most)
}

fn put_outside(
    out: &mut [u8],
    at: usize,
    table: Table,
    column: usize,
    n: u64,
    least: u64,
    most: u64,
) -> usize
    requires { at + most_wrong ≤ length out.old }
    ensures { Puts most_wrong out.old at (outside_text table column n least most) out.new result }
{
    let a = put_column(out, at, table, column);
    let b = put_number(out, a, n);
    put_limits(out, b, least, most)
}

fn put_not_above(out: &mut [u8], at: usize, n: u64, before: u64) -> usize
    requires { at + most_wrong ≤ length out.old }
    ensures { Puts most_wrong out.old at (not_above_text n before) out.new result }
{
    let a = put_field(out, at, b"member ", n);
    put_field(out, a, b" does not come after member ", before)
}

// What is wrong; nothing where nothing is.
fn put_wrong(out: &mut [u8], at: usize, table: Table, wrong: Option<Wrong>) -> usize
    requires { at + most_wrong ≤ length out.old }
    ensures { Puts most_wrong out.old at (wrong_text table wrong) out.new result }
{
    match wrong {
        None => put_word(out, at, b""),
        Some(Wrong::Blank) => put_word(out, at, b"blank, and a line stands behind it"),
        Some(Wrong::Columns(n, wanted)) => put_columns(out, at, n, wanted),
        Some(Wrong::NoNumber(column, least, most)) => {
            put_no_number(out, at, table, column, least, most)
        }
        Some(Wrong::Outside(column, n, least, most)) => {
            put_outside(out, at, table, column, n, least, most)
        }
        Some(Wrong::NotAbove(n, before)) => put_not_above(out, at, n, before),
    }
}

// Which line it is.
pub fn put_line(out: &mut [u8], at: usize, line: usize) -> usize
    requires { at + most_line ≤ length out.old }
    ensures { Puts most_line out.old at (line_text line) out.new result }
{
    let a = put_field(out, at, b" line ", line as u64);
    put_word(out, a, b": ")
}

// A fault's line.
fn put_fault(out: &mut [u8], table: Table, name: &[u8], line: usize, wrong: Option<Wrong>) -> usize
    requires { most_fault name.now ≤ length out.old }
    ensures { Puts (most_fault name.now) out.old 0 (fault_text table name.now line wrong) out.new result }
{
    let a = put_word(out, 0, name);
    let b = put_line(out, a, line);
    let c = put_wrong(out, b, table, wrong);
    put_word(out, c, b"\n")
}

// What is wrong with a line of a file in words, on one line; where nothing is, the line alone.
pub fn fault_text(
    table: Table,
    name: &[u8],
    line: usize,
    wrong: Option<Wrong>,
    out: &mut [u8],
) -> usize
    ensures renders { Renders (most_fault name.now) (fault_text table name.now line wrong) out.old out.new result }
    ensures prefix_len { IsPrefixLen result out.new }
{
    if out.len() < MOST_FAULT + name.len() {
        return 0;
    }
    put_fault(out, table, name, line, wrong)
}

// Three digits behind a comma.
fn put_thousand(out: &mut [u8], at: usize, n: u64) -> usize
    requires { at + 4 ≤ length out.old }
    ensures { Puts 4 out.old at (thousand_text n) out.new result }
{
    let a = b'0' + (n / 100 % 10) as u8;
    let b = b'0' + (n / 10 % 10) as u8;
    let c = b'0' + (n % 10) as u8;
    put_word(out, at, &[b',', a, b, c])
}

// A number with a comma before its last three digits.
fn put_grouped(out: &mut [u8], at: usize, n: u64) -> usize
    requires { at + most_grouped ≤ length out.old }
    ensures { Puts most_grouped out.old at (grouped n) out.new result }
{
    if n < 1000 {
        return put_decimal(out, at, n);
    }
    let a = put_decimal(out, at, n / 1000);
    put_thousand(out, a, n)
}

// Whose month it is.
fn put_whose(out: &mut [u8], at: usize, year: u16, month: u8) -> usize
    requires { at + most_whose ≤ length out.old }
    ensures { Puts most_whose out.old at (whose_text year month) out.new result }
{
    let a = put_month(out, at, month);
    put_field(out, a, b" ", u64::from(year))
}

// How many lines it has.
fn put_has(out: &mut [u8], at: usize, n: u64) -> usize
    requires { at + most_has ≤ length out.old }
    ensures { Puts most_has out.old at (has_text n) out.new result }
{
    let a = put_word(out, at, b" has ");
    put_grouped(out, a, n)
}

fn put_wanted(out: &mut [u8], at: usize, year: u16, month: u8, wanted: u64) -> usize
    requires { at + most_wanted ≤ length out.old }
    ensures { Puts most_wanted out.old at (wanted_text year month wanted) out.new result }
{
    let a = put_whose(out, at, year, month);
    let b = put_has(out, a, wanted);
    put_word(out, b, b"\n")
}

fn put_lines(out: &mut [u8], at: usize, n: u64) -> usize
    requires { at + most_lines ≤ length out.old }
    ensures { Puts most_lines out.old at (lines_text n) out.new result }
{
    if n == 1 {
        return put_word(out, at, b" line, ");
    }
    put_word(out, at, b" lines, ")
}

fn put_count(out: &mut [u8], name: &[u8], count: u64, year: u16, month: u8, wanted: u64) -> usize
    requires { most_count name.now ≤ length out.old }
    ensures { Puts (most_count name.now) out.old 0 (count_text name.now count year month wanted) out.new result }
{
    let a = put_word(out, 0, name);
    let b = put_has(out, a, count);
    let c = put_lines(out, b, count);
    put_wanted(out, c, year, month, wanted)
}

// How many lines a file has, and how many the month wants, on one line.
pub fn count_text(
    name: &[u8],
    count: u64,
    year: u16,
    month: u8,
    wanted: u64,
    out: &mut [u8],
) -> usize
    ensures renders { Renders (most_count name.now) (count_text name.now count year month wanted) out.old out.new result }
    ensures prefix_len { IsPrefixLen result out.new }
{
    if out.len() < MOST_COUNT + name.len() {
        return 0;
    }
    put_count(out, name, count, year, month, wanted)
}
