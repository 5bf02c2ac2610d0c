// Why a member got its grains: its calls, what each was paid by, and the sums.
use crate::ramping::{no_hours, put_each};
use crate::settle::{open_register, tell_member, tell_no_line, tell_ramping};
use clerk::args::{first, short_at};
use clerk::print;
use explain::{CallPart, Explained, explain};
use hours::Hours;
use hours_file::Unread;
use hours_file::given::ramped_of;
use ledger::books::{join_all, put_call, put_header};
use month_files::places::books_at;
use month_files::ramps::{month_hours, read_ramping};
use month_files::series::{entry_at, line_of, read_member};
use register::Entry;
use report::why::{energy_text, explained_text, part_text};
use say::Terminal;
use tally::outputs::{part, series_room};

// A call and what it was paid by, on a page.
fn put_part(terminal: &Terminal, page: &mut [u8], at: usize, p: CallPart, book: &[u8]) -> usize {
    let next = put_call(terminal, page, at, book, p.place);
    let mut out = io::buffer();
    let n = part_text(p.quarters, p.rate, p.wh, p.grains, &mut out);
    say::add(terminal, page, next, &out[..n])
}

// The member's calls, on a page behind its first `from` bytes.
fn put_parts(
    terminal: &Terminal,
    page: &mut [u8],
    from: usize,
    x: &Explained,
    book: &[u8],
) -> usize {
    let mut at = from;
    for p in x.parts.iter().take(x.count) {
        at = put_part(terminal, page, at, *p, book);
    }
    at
}

// The month's energy, on a page.
fn put_energy(terminal: &Terminal, page: &mut [u8], at: usize, x: &Explained) -> usize {
    let mut out = io::buffer();
    let n = energy_text(x.wh, x.energy, &mut out);
    say::add(terminal, page, at, &out[..n])
}

// What the hours add and all the grains, and what stands before them on the page.
fn tell_sums(terminal: &Terminal, page: &mut [u8], at: usize, x: &Explained, many: u16) {
    let mut out = io::buffer();
    let n = explained_text(many, x.added, x.grains, &mut out);
    let end = say::add(terminal, page, at, &out[..n]);
    print::finish(terminal, page, end);
}

fn tell_explained(terminal: &Terminal, x: &Explained, hours: &Hours, many: u16, book: &[u8]) {
    let mut page = io::large_buffer();
    let head = put_header(terminal, &mut page, 0, book);
    let calls = put_parts(terminal, &mut page, head, x, book);
    let energy = put_energy(terminal, &mut page, calls, x);
    let end = put_each(terminal, &mut page, energy, hours);
    tell_sums(terminal, &mut page, end, x, many);
}

// The explanation over the joined book, the member's series and its hours; or the score's refusal, then the ramping file's.
fn explain_hours(
    terminal: &Terminal,
    e: Entry,
    line: usize,
    book: &[u8],
    series: &[u32],
    hours: Hours,
) {
    let x = explain(e.member, book, series, hours.grains);
    if x.number != 0 {
        tell_member(terminal, e, line, x.number, x.place, book);
        return;
    }
    let r = ramped_of(hours);
    if r.number != 0 {
        tell_ramping(terminal, e, book, r.number, r.place);
        return;
    }
    tell_explained(terminal, &x, &hours, r.hours, book);
}

// The member's own series and ramping file, if it has one.
fn explain_with(terminal: &Terminal, e: Entry, line: usize, book: &[u8]) {
    let mut series = series_room();
    let Some(n) = read_member(terminal, e.member.number, false, &mut series) else {
        return;
    };
    let file = read_ramping(terminal, e.member, month_hours(book), false);
    match file.found {
        Ok(()) => explain_hours(terminal, e, line, book, part(&series, 0, n), file.hours),
        Err(Unread::Missing) => explain_hours(
            terminal,
            e,
            line,
            book,
            part(&series, 0, n),
            no_hours(),
        ),
        Err(_) => {}
    }
}

fn explain_line(terminal: &Terminal, e: Entry, line: usize) {
    let mut all = io::large_buffer();
    if let Some(n) = join_all(terminal, books_at(terminal), &mut all) {
        explain_with(terminal, e, line, first(&all, n));
    }
}

// The member that argument 2 names, by its line of the register.
pub fn explain_member(terminal: &Terminal) {
    let Some(number) = short_at(terminal, 2) else {
        return;
    };
    let Some(register) = open_register(terminal) else {
        return;
    };
    let entries = register.entries;
    let line = line_of(entries, register.count, number);
    if line < register.count {
        explain_line(terminal, entry_at(entries, line), line);
        return;
    }
    tell_no_line(terminal, number);
}
