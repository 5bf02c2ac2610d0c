// What is wrong with a register or a series, in words: lines before that of its refusal.
ghost use Rattle.std.specs.Prelude.{◌≡◌, length};

use book::header_of;
use clerk::args::first;
use faults::words::{count_text, fault_text};
use faults::{Found, Table, Walk};
use say::Terminal;
use tables::series::read_series;
use text::told::shown_text;
use units::calendar::quarters_of;

// The place of a series that has not the month's length: no index.
const LENGTH_PLACE: usize = 65535;

// A fault's line, on a page.
fn put_fault(terminal: &Terminal, page: &mut [u8], at: usize, name: &[u8], found: Found) -> usize {
    let mut line = io::large_buffer();
    let n = fault_text(
        Table::Register,
        name,
        found.line,
        Some(found.wrong),
        &mut line,
    );
    say::add(terminal, page, at, &line[..n])
}

// The faults of a register's text, a line each: no text has more of them than bytes, and one.
fn tell_faults(terminal: &Terminal, name: &[u8], text: &[u8]) {
    let mut page = io::large_buffer();
    let mut at: usize = 0;
    let mut walk = Walk::start(Table::Register, text);
    for _ in 0..text.len() {
        let told = walk.next_fault(text);
        let Some(found) = told.found else {
            say::write_page(terminal, &page, at);
            return;
        };
        at = put_fault(terminal, &mut page, at, name, found);
        walk = told.walk;
    }
    say::write_page(terminal, &page, at);
}

// The same by the file's name as it is given.
pub fn tell_register(terminal: &Terminal, name: &[u8], text: &[u8]) {
    let mut shown = io::buffer();
    let m = shown_text(name, &mut shown);
    tell_faults(terminal, &shown[..m], text);
}

// Room for as many lines as a file has bytes.
fn lines_room() -> [u32; 65536]
    ensures { 65536 ≡ length result }
{
    [0; 65536]
}

// How many lines a series has, and how many the book's month wants.
fn tell_count(terminal: &Terminal, name: &[u8], text: &[u8], book: &[u8]) {
    let o = header_of(book);
    if o.number != 0 {
        return;
    }
    let mut all = lines_room();
    let count = read_series(text, &mut all);
    let h = o.header;
    let wanted = u64::from(quarters_of(h.year, h.month));
    let mut line = io::large_buffer();
    let n = count_text(name, count as u64, h.year, h.month, wanted, &mut line);
    say::text(terminal, &line[..n]);
}

// The first of its lines that is bad, if one is.
fn tell_line(terminal: &Terminal, name: &[u8], text: &[u8]) {
    let walk = Walk::start(Table::Series, text);
    let told = walk.next_fault(text);
    if let Some(found) = told.found {
        let mut line = io::large_buffer();
        let n = fault_text(
            Table::Series,
            name,
            found.line,
            Some(found.wrong),
            &mut line,
        );
        say::text(terminal, &line[..n]);
    }
}

// What is wrong with a series that was refused at a place, by the file's name as it is printed: the first bad line, and how many there are where they are not as many as the month has. A
// blank line inside is both.
fn tell_text(terminal: &Terminal, name: &[u8], text: &[u8], place: usize, book: &[u8]) {
    tell_line(terminal, name, text);
    if place == LENGTH_PLACE {
        tell_count(terminal, name, text, book);
    }
}

// The same of the file at a path.
pub fn tell_series(terminal: &Terminal, path: &[u8], place: usize, book: &[u8]) {
    let mut shown = io::buffer();
    let m = shown_text(path, &mut shown);
    let mut text = io::large_buffer();
    if let Ok(n) = files::load(terminal.system(), path, &mut text) {
        tell_text(terminal, &shown[..m], first(&text, n), place, book);
    }
}
