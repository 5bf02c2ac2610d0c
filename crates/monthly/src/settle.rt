// The month: the generators' part, the register, the books joined, every member's series and ramping file; then the library settles it.
use book::{call_of, header_of};
use clerk::args::{first, is_none, number_at, path};
use clerk::print;
use clerk::shelf::{load, refused_at, save_new};
use ledger::books::join_all;
use month::members::member_compensation;
use month::{Fault, Ramped, Statement};
use month_files::places::{books_at, register_at};
use month_files::ramps::{Ramps, month_hours, ramped_at, ramping_file_of, read_ramps};
use month_files::series::{Lengths, entry_at, file_of, part_of, read_all, room};
use month_files::told::{put_nobody, tell_ramping_file, tell_sums};
use posted::posted_text;
use register::Entry;
use report::{above_text, month_text, no_line_text};
use say::Terminal;
use share::array::seen;
use share::limits::{MOST_PART, PART_PLACE};
use tables::roll::{Register, read_register};
use tally::away::tell_away;
use tally::wrong::{tell_register, tell_series};
use text::told::shown_text;

// The arguments that name the statement's file, and give the part.
const STATEMENT: usize = 2;

const PART: usize = 3;

// The statement as the file that argument 2 names, if it names one.
fn post(terminal: &Terminal, s: Statement) -> bool {
    if is_none(terminal, STATEMENT) {
        return true;
    }
    let mut out = io::large_buffer();
    let n = posted_text(s, &mut out);
    save_new(terminal, STATEMENT, &out[..n])
}

// The statement of so many members, once its file stands; that they are none is told before it.
fn tell_statement(terminal: &Terminal, members: usize, s: Statement) {
    if !post(terminal, s) {
        return;
    }
    let mut page = io::large_buffer();
    let note = put_nobody(terminal, &mut page, members);
    let at = print::put_header(terminal, &mut page, note, s.header, s.calls);
    let mut out = io::large_buffer();
    let n = month_text(s, &mut out);
    let end = say::add(terminal, &mut page, at, &out[..n]);
    print::finish(terminal, &mut page, end);
}

// The member's refusal: of its series, with a line before it that says why, of a call, which is shown before, or of its line.
pub fn tell_member(
    terminal: &Terminal,
    e: Entry,
    line: usize,
    number: u32,
    place: usize,
    book: &[u8],
) {
    if number == 11 {
        let name = file_of(terminal, e.member.number);
        let path = first(&name.bytes, name.size);
        tell_series(terminal, path, place, book);
        print::refused(terminal, number, place, path);
        return;
    }
    if number == 10 {
        refused_at(terminal, number, line, register_at(terminal));
        return;
    }
    if 11 < number {
        tell_away(terminal, book, place, number, e.member);
    }
    print::refused(terminal, number, place, b"joined");
}

// The refusal of a member's ramping file in the month of a book, and why.
pub fn tell_ramping(terminal: &Terminal, e: Entry, book: &[u8], number: u32, place: usize) {
    let name = ramping_file_of(terminal, e.member.number);
    let path = first(&name.bytes, name.size);
    tell_ramping_file(terminal, path, month_hours(book), number, place);
    print::refused(terminal, number, place, path);
}

// That the register has no line for a member.
pub fn tell_no_line(terminal: &Terminal, member: u16) {
    let mut name = io::buffer();
    let k = say::word(terminal, register_at(terminal), &mut name);
    let mut shown = io::buffer();
    let m = shown_text(&name[..k], &mut shown);
    let mut out = io::large_buffer();
    let n = no_line_text(&shown[..m], member, &mut out);
    say::text(terminal, &out[..n]);
}

// Call i of a sound book, and that its member has no line.
fn tell_unlisted(terminal: &Terminal, book: &[u8], i: usize) {
    let o = header_of(book);
    if o.number != 0 {
        return;
    }
    if i < o.calls {
        let x = call_of(book, i);
        print::call(terminal, x);
        tell_no_line(terminal, x.participant);
    }
}

// Sharing's refusal. A compensation above a line's limit is told in words before it.
fn tell_sharing(
    terminal: &Terminal,
    e: Entry,
    number: u32,
    place: usize,
    book: &[u8],
    series: &[u32],
    ramped: Ramped,
) {
    if number == 10 {
        let fen = member_compensation(e.member, book, series, ramped);
        let mut out = io::buffer();
        let n = above_text(e.member.number, fen, &mut out);
        say::text(terminal, &out[..n]);
    }
    tell_sums(terminal, number);
    refused_at(terminal, number, place, register_at(terminal));
}

// That the part is none.
fn tell_part(terminal: &Terminal) {
    print::note(terminal, b"part", b"is no number from 0 to 10000");
    print::refused(terminal, 10, PART_PLACE, b"part");
}

// The statement; or why there is none.
fn settle_with(
    terminal: &Terminal,
    part: u32,
    register: &Register,
    book: &[u8],
    series: &[u32],
    lengths: Lengths,
    ramps: Ramps,
) {
    let entries = register.entries;
    let s = month::settle(
        part,
        entries,
        register.count,
        book,
        series,
        lengths.each,
        ramps.each,
    );
    match s.fault {
        Fault::NoFault => tell_statement(terminal, register.count, s),
        Fault::InPart => tell_part(terminal),
        Fault::InRegister(line) => refused_at(terminal, 10, line, register_at(terminal)),
        Fault::InBook(number, place) => print::refused(terminal, number, place, b"joined"),
        Fault::Unlisted(call) => tell_unlisted(terminal, book, call),
        Fault::OfMember(line, number, place) => {
            let e = entry_at(entries, line);
            tell_member(terminal, e, line, number, place, book);
        }
        Fault::OfRamping(line, number, place) => {
            let e = entry_at(entries, line);
            tell_ramping(terminal, e, book, number, place);
        }
        Fault::InSharing(number, place) => {
            let e = entry_at(entries, place);
            let part = part_of(lengths, place, series);
            let ramped = ramped_at(ramps, place);
            tell_sharing(terminal, e, number, place, book, part, ramped);
        }
    }
}

// The members' series and ramping files are read, all of them, before anything is judged.
fn settle_book(terminal: &Terminal, part: u32, register: &Register, book: &[u8]) {
    let entries = register.entries;
    let count = seen(register.count);
    let mut series = room();
    let lengths = read_all(terminal, entries, count, false, &mut series);
    if lengths.bad == 0 {
        let ramps = read_ramps(terminal, entries, count, month_hours(book), false);
        if ramps.bad == 0 {
            settle_with(terminal, part, register, book, &series, lengths, ramps);
        }
    }
}

fn settle(terminal: &Terminal, part: u32, register: &Register) {
    let mut all = io::large_buffer();
    if let Some(n) = join_all(terminal, books_at(terminal), &mut all) {
        settle_book(terminal, part, register, first(&all, n));
    }
}

// A register that is refused: a line for each of its faults, then its refusal.
fn tell_bad(terminal: &Terminal, number: u32, place: usize, name: &[u8], text: &[u8]) {
    tell_register(terminal, name, text);
    print::refused(terminal, number, place, name);
}

// The register; or none, and its last line has said why, behind a line for each of its faults.
pub fn open_register(terminal: &Terminal) -> Option<Register> {
    let mut buf = io::buffer();
    let n = path(terminal, register_at(terminal), &mut buf)?;
    let name = first(&buf, n);
    let mut text = io::large_buffer();
    let size = load(terminal, name, &mut text)?;
    let register = read_register(first(&text, size));
    if register.number != 0 {
        tell_bad(
            terminal,
            register.number,
            register.place,
            name,
            first(&text, size),
        );
        return None;
    }
    Some(register)
}

fn settle_part(terminal: &Terminal, part: u32) {
    if let Some(register) = open_register(terminal) {
        settle(terminal, part, &register);
    }
}

// The part first: where it is none, nothing is read.
pub fn settle_month(terminal: &Terminal) {
    if let Some(n) = number_at(terminal, PART) {
        if n <= u64::from(MOST_PART) {
            settle_part(terminal, n as u32);
            return;
        }
    }
    tell_part(terminal);
}
