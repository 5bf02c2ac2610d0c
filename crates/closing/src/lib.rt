// The closing-day list: everything that is in the drawer and in the way of the month, told at once. Nothing is changed.
#![tactic(auto)]

ghost use Rattle.std.specs.Prelude.{◌≡◌, ◌≤◌};
ghost use Rattle.closing.specs.Closing.{is_settled};

use book::header_of;
use clerk::args::{argument, first, number_at};
use clerk::load::load_or;
use clerk::print;
use clerk::shelf::{note_at, tell_failed};
use faults::{Table, Walk, is_sound};
use month::Fault;
use month_files::places::{books_at, register_at};
use month_files::ramps::{Ramps, month_hours, read_ramps};
use month_files::series::{Lengths, folder_is_named, read_all, room};
use month_files::told::{tell_nobody, tell_sums};
use notice::{Counted, counted_text, unsettled_text};
use register::{Entry, MOST_ENTRIES};
use say::Terminal;
use share::array::seen;
use share::limits::{MOST_PART, PART_PLACE};
use tables::roll::{Register, read_register};
use tally::wrong::tell_register;
use tray::books::{
    Mark, all_stay, is_unchanged, join_named, lost_at, note_refused, note_refused_at,
};
use tray::spare::tell_spare;

pub mod calls;
pub mod members;
pub mod sound;

use calls::list_calls;
use members::{list_above, list_ramping, list_series};
use sound::sound_register;

// The argument that gives the part.
const PART: usize = 2;

// Whether a month with such a fault is settled.
#[tactic(auto, unfolding(crate::specs::Closing::is_settled))]
fn is_settled(fault: Fault) -> bool
    ensures { result ≡ is_settled fault }
{
    matches!(fault, Fault::NoFault)
}

// Nothing is listed yet.
fn none_listed() -> Counted {
    Counted {
        stale: 0,
        contested: 0,
        closed: 0,
        against: 0,
        unlisted: 0,
        register: 0,
        series: 0,
        ramping: 0,
        books: 0,
        spare: 0,
        part: 0,
        sharing: 0,
    }
}

// How much of what is listed is in the way of the month: all but records that do not stand, and books that add nothing.
fn in_the_way(c: Counted) -> usize {
    [
        c.contested,
        c.closed,
        c.against,
        c.unlisted,
        c.register,
        c.series,
        c.ramping,
        c.books,
        c.part,
        c.sharing,
    ]
    .iter()
    .fold(0, |all: usize, n| all.saturating_add(*n))
}

// The part. Where it is none, that is told.
fn list_part(terminal: &Terminal) -> Option<u32> {
    if let Some(n) = number_at(terminal, PART) {
        if n <= u64::from(MOST_PART) {
            return Some(n as u32);
        }
    }
    print::note(terminal, b"part", b"is no number from 0 to 10000");
    note_refused(terminal, b"part", 10, PART_PLACE);
    None
}

// The lines of a register that was read.
pub fn lines_of(register: &Register) -> &[Entry] {
    &register.entries[..seen(register.count)]
}

// The register, and how many of its lines are bad: where there are any, or it could not be read, its number is not 0, and remarks have said why; its entries
// are then its sound lines.
#[derive(Clone, Copy)]
pub struct Roll {
    pub register: Register,
    pub bad: usize,
}

// No register, which is one thing in the way.
fn no_register() -> Roll {
    let mut register = read_register(b"");
    register.number = 10;
    Roll { register, bad: 1 }
}

// How many faults a register's text has: no more than bytes.
fn count_faults(text: &[u8]) -> usize {
    let mut walk = Walk::start(Table::Register, text);
    for n in 0..text.len() {
        let told = walk.next_fault(text);
        let wrong = told.found.map(|found| found.wrong);
        if is_sound(wrong) {
            return n;
        }
        walk = told.walk;
    }
    text.len()
}

// What a register's text says; where it is refused, every fault of it is told, and its sound lines are its entries.
fn list_lines(terminal: &Terminal, name: &[u8], text: &[u8]) -> Roll {
    let register = read_register(text);
    if register.number == 0 {
        return Roll { register, bad: 0 };
    }
    tell_register(terminal, name, text);
    note_refused(terminal, name, register.number, register.place);
    let mut sound = sound_register(text);
    sound.number = register.number;
    Roll {
        register: sound,
        bad: count_faults(text).max(1),
    }
}

// The register's file.
fn list_register(terminal: &Terminal) -> Roll {
    let mut name = io::buffer();
    let Some(n) = argument(terminal, register_at(terminal), &mut name) else {
        note_at(
            terminal,
            register_at(terminal),
            b"too long for a file's name",
        );
        return no_register();
    };
    let mut text = io::large_buffer();
    let Some(size) = load_or(terminal, first(&name, n), true, &mut text) else {
        return no_register();
    };
    list_lines(terminal, first(&name, n), first(&text, size))
}

// Whose month it is, and how many calls the joined book has.
fn tell_header(terminal: &Terminal, joined: &[u8]) {
    let o = header_of(joined);
    if o.number != 0 {
        return;
    }
    let mut page = io::buffer();
    let n = print::put_header(terminal, &mut page, 0, o.header, o.calls);
    say::write_page(terminal, &page, n);
}

// What the run comes to: how many of each, and the last line.
fn tell_end(terminal: &Terminal, c: Counted, settled: bool) {
    let mut line = io::buffer();
    let n = counted_text(c, &mut line);
    say::text(terminal, &line[..n]);
    if settled {
        print::done(terminal);
        return;
    }
    let mut last = io::buffer();
    let m = unsettled_text(in_the_way(c), &mut last);
    say::text(terminal, &last[..m]);
}

// What sharing refuses besides a compensation above a line's limit, which is told of each member: where nothing else is in the way, for its sums are of all members.
fn list_sharing(terminal: &Terminal, before: Counted, fault: Fault) -> usize {
    if in_the_way(before) != 0 {
        return 0;
    }
    match fault {
        Fault::InSharing(number, place) => {
            tell_sums(terminal, number);
            note_refused_at(terminal, register_at(terminal), number, place);
            1
        }
        _ => 0,
    }
}

// That a sound register has no member, so that the month would be settled of nobody.
fn list_nobody(terminal: &Terminal, register: &Register) {
    if register.number == 0 {
        tell_nobody(terminal, register.count);
    }
}

// The month is settled as `month` settles it, a part that is none with it, and what sharing refuses is told. Whether it is settled, and everything was read, decides the last line.
fn list_month(
    terminal: &Terminal,
    part: Option<u32>,
    register: &Register,
    joined: &[u8],
    series: &[u32],
    lengths: Lengths,
    ramps: Ramps,
    before: Counted,
) {
    let mut c = before;
    c.sharing = list_above(terminal, register, joined, series, lengths, ramps);
    let s = month::settle(
        part.unwrap_or(MOST_PART + 1),
        register.entries,
        register.count,
        joined,
        series,
        lengths.each,
        ramps.each,
    );
    c.sharing = c.sharing.saturating_add(list_sharing(terminal, c, s.fault));
    list_nobody(terminal, register);
    let read = (c.register == 0) & (c.books == 0) & (lengths.bad == 0) & (ramps.bad == 0);
    tell_end(terminal, c, is_settled(s.fault) & read);
}

// Of how many members the files are read: of none, where their folder has no name, and that is told.
fn files_of(terminal: &Terminal, count: usize) -> usize
    ensures { result ≤ count }
{
    if (count == 0) | folder_is_named(terminal) {
        return count;
    }
    print::note(
        terminal,
        b"SERIES-FOLDER",
        b"no name, or too long for a folder's name",
    );
    0
}

// The members' ramping files, in a month of so many hours; none, where no book says whose month it is.
fn ramps_of(terminal: &Terminal, entries: [Entry; MOST_ENTRIES], count: usize, hours: u16) -> Ramps
    requires { count ≤ 64 }
{
    if hours == 0 {
        return read_ramps(terminal, entries, 0, 0, true);
    }
    read_ramps(terminal, entries, count, hours, true)
}

// Whether the books could be read again and are still what they were; else that is told in the last line.
fn is_current(terminal: &Terminal, left: &mut [Mark], joined: &[u8]) -> bool {
    let same = is_unchanged(terminal, books_at(terminal), left, joined);
    if let Some(lost) = lost_at(terminal, books_at(terminal), left) {
        tell_failed(terminal, lost, b"cannot be read again: make the list again");
        return false;
    }
    if !same {
        print::failed(
            terminal,
            b"",
            b"a book has changed while the list was made: make it again",
        );
    }
    same
}

// The members' files, then the joined book's calls, then books that add nothing; then the month, unless a book has changed since it was joined, or could not be read again.
fn list_joined(
    terminal: &Terminal,
    part: Option<u32>,
    register: &Register,
    joined: &[u8],
    left: &mut [Mark],
    before: Counted,
) {
    let mut c = before;
    let count = seen(register.count);
    let files = files_of(terminal, count);
    if files < count {
        c.series = 1;
    }
    let entries = &register.entries[..files];
    let mut series = room();
    let lengths = read_all(terminal, register.entries, files, true, &mut series);
    let bad = list_series(terminal, entries, joined, &series, lengths);
    c.series = c.series.saturating_add(lengths.bad).saturating_add(bad);
    let hours = month_hours(joined);
    let ramps = ramps_of(terminal, register.entries, files, hours);
    c.ramping = ramps
        .bad
        .saturating_add(list_ramping(terminal, entries, ramps, hours));
    list_calls(terminal, books_at(terminal), left, joined, register, &mut c);
    c.spare = tell_spare(terminal, books_at(terminal), left);
    if is_current(terminal, left, joined) {
        list_month(terminal, part, register, joined, &series, lengths, ramps, c);
    }
}

// The part, the register and the books first.
pub fn list_drawer(terminal: &Terminal) {
    let mut c = none_listed();
    let part = list_part(terminal);
    if part.is_none() {
        c.part = 1;
    }
    let roll = list_register(terminal);
    c.register = roll.bad;
    let mut all = io::large_buffer();
    let mut left = all_stay();
    let taken = join_named(terminal, books_at(terminal), &mut all, &mut left);
    c.books = taken.bad;
    let joined = first(&all, taken.size);
    tell_header(terminal, joined);
    list_joined(terminal, part, &roll.register, joined, &mut left, c);
}
