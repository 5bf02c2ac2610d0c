// What is wrong with a month in words: lines before that of its refusal.
use crate::places::register_at;
use clerk::load::tell_of;
use clerk::print;
use clerk::shelf::{note_at, put_note_at};
use hour_faults::HourFound;
use hour_faults::words::hour_fault_text;
use hours_file::Unread;
use hours_file::faulty::find_fault;
use say::Terminal;
use text::told::shown_text;

// Why a ramping file was not read to its end, where it is there: of a run that ends by it, or of one that goes on.
pub fn tell_unread(terminal: &Terminal, path: &[u8], goes_on: bool, unread: Unread) {
    match unread {
        Unread::Missing => {}
        Unread::Nowhere => tell_of(terminal, path, goes_on, b"is a link that leads to no file"),
        Unread::TooLong => tell_of(terminal, path, goes_on, b"longer than 16777216 bytes"),
        Unread::Failed => tell_of(terminal, path, goes_on, b"cannot be read"),
    }
}

// That a kind does not ramp, and what that is told of.
pub fn tell_unramped(terminal: &Terminal, what: &[u8]) {
    print::note(terminal, what, b"only coal, gas and hydro ramp");
}

// Whether a fault is that of the row at a place: its line is the place counted from 1, behind a heading from 2.
fn is_of(found: HourFound, place: usize) -> bool {
    let behind = found.line.wrapping_sub(place);
    (behind == 1) | (behind == 2)
}

// A fault in words, where it is that of the row at a place; otherwise the file has changed.
fn tell_row(terminal: &Terminal, path: &[u8], fault: Option<HourFound>, place: usize) {
    if let Some(found) = fault {
        if is_of(found, place) {
            let mut shown = io::buffer();
            let m = shown_text(path, &mut shown);
            let mut line = io::large_buffer();
            let n = hour_fault_text(&shown[..m], found.line, Some(found.wrong), &mut line);
            say::text(terminal, &line[..n]);
            return;
        }
    }
    print::note(terminal, path, b"changed while it was read");
}

// What is wrong with the row at which a ramping file was refused, in a month of so many hours. The file is read again. What is wrong with a line that does not end, only its end
// would tell: then the file's length is told.
pub fn tell_ramping_row(terminal: &Terminal, path: &[u8], hours: u16, place: usize) {
    match find_fault(terminal.system(), path, hours) {
        Ok(fault) => tell_row(terminal, path, fault, place),
        Err(Unread::TooLong) => tell_unread(terminal, path, true, Unread::TooLong),
        Err(_) => print::note(terminal, path, b"cannot be read again"),
    }
}

// Why a member's ramping file is refused, in words: with 12 its kind, with 10 a row.
pub fn tell_ramping_file(terminal: &Terminal, path: &[u8], hours: u16, number: u32, place: usize) {
    if number == 12 {
        tell_unramped(terminal, path);
        return;
    }
    tell_ramping_row(terminal, path, hours, place);
}

// That a register of so many members has none, on a page: how many bytes stand there then.
pub fn put_nobody(terminal: &Terminal, page: &mut [u8], members: usize) -> usize {
    if members != 0 {
        return 0;
    }
    put_note_at(
        terminal,
        page,
        0,
        register_at(terminal),
        b"has no member, so that nobody is settled",
    )
}

// The same at once.
pub fn tell_nobody(terminal: &Terminal, members: usize) {
    let mut page = io::large_buffer();
    let n = put_nobody(terminal, &mut page, members);
    say::write_page(terminal, &page, n);
}

// What is wrong with the sums of all members, in words.
pub fn tell_sums(terminal: &Terminal, number: u32) {
    if number == 15 {
        note_at(
            terminal,
            register_at(terminal),
            b"the compensations of all members are together above 1000000000.00 yuan",
        );
    }
    if number == 16 {
        note_at(
            terminal,
            register_at(terminal),
            b"the members have a part of the gap to share, and none has a weight to share it by",
        );
    }
    if number == 17 {
        note_at(
            terminal,
            register_at(terminal),
            b"what is not collected above the members' limits is more than all that members get",
        );
    }
}
