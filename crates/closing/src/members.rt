// What is in the way of the members: their series, their ramping files, a compensation above what a line may have.
use crate::lines_of;
use clerk::args::first;
use month::Ramped;
use month::members::member_compensation;
use month_files::places::register_at;
use month_files::ramps::{Ramps, hours_are_known, ramped_at, ramping_file_of};
use month_files::series::{Lengths, file_of, is_read, part_of};
use month_files::told::tell_ramping_file;
use register::Entry;
use report::above_text;
use say::Terminal;
use score::answer::Earned;
use score::grains_earned;
use share::limits::MOST_COMPENSATION;
use tables::roll::Register;
use tally::wrong::tell_series;
use tray::books::{note_refused, note_refused_at};

// What is wrong with a member's series, and that it is refused with 11, and where.
fn note_series(terminal: &Terminal, member: u16, place: usize, joined: &[u8]) {
    let name = file_of(terminal, member);
    let path = first(&name.bytes, name.size);
    tell_series(terminal, path, place, joined);
    note_refused(terminal, path, 11, place);
}

// That a member's ramping file is refused: of another kind, or at its lowest bad line; and why.
fn note_ramping(terminal: &Terminal, member: u16, hours: u16, number: u32, place: usize) {
    let name = ramping_file_of(terminal, member);
    let path = first(&name.bytes, name.size);
    tell_ramping_file(terminal, path, hours, number, place);
    note_refused(terminal, path, number, place);
}

// Whether a series that was read is refused: with 11. That is told.
fn is_refused(terminal: &Terminal, e: Entry, joined: &[u8], series: &[u32]) -> bool {
    if let Earned::Refused(11, place) = grains_earned(e.member, joined, series) {
        note_series(terminal, e.member.number, place, joined);
        return true;
    }
    false
}

// How many of the series that were read are refused.
pub fn list_series(
    terminal: &Terminal,
    entries: &[Entry],
    joined: &[u8],
    series: &[u32],
    lengths: Lengths,
) -> usize {
    let mut n: usize = 0;
    for (i, e) in entries.iter().enumerate() {
        let own = part_of(lengths, i, series);
        if is_read(lengths, i) && is_refused(terminal, *e, joined, own) {
            n = n.saturating_add(1);
        }
    }
    n
}

// How many of the ramping files that were read are refused, in a month of so many hours.
pub fn list_ramping(terminal: &Terminal, entries: &[Entry], ramps: Ramps, hours: u16) -> usize {
    let mut n: usize = 0;
    for (i, e) in entries.iter().enumerate() {
        let ramped = ramped_at(ramps, i);
        if ramped.number != 0 {
            note_ramping(
                terminal,
                e.member.number,
                hours,
                ramped.number,
                ramped.place,
            );
            n = n.saturating_add(1);
        }
    }
    n
}

// Whether the compensation of line i's member is above what a line may have. That is told; where the register has a bad line, which of its lines is this one is not told.
fn is_above(
    terminal: &Terminal,
    e: Entry,
    i: usize,
    refused: u32,
    joined: &[u8],
    series: &[u32],
    ramped: Ramped,
) -> bool {
    let fen = member_compensation(e.member, joined, series, ramped);
    if fen.0 <= MOST_COMPENSATION {
        return false;
    }
    let mut out = io::buffer();
    let size = above_text(e.member.number, fen, &mut out);
    say::text(terminal, &out[..size]);
    if refused == 0 {
        note_refused_at(terminal, register_at(terminal), 10, i);
    }
    true
}

// How many of the compensations are above what a line may have: of members whose ramping file could be read, or who have none; a member without its series has no compensation.
pub fn list_above(
    terminal: &Terminal,
    register: &Register,
    joined: &[u8],
    series: &[u32],
    lengths: Lengths,
    ramps: Ramps,
) -> usize {
    let mut n: usize = 0;
    for (i, e) in lines_of(register).iter().enumerate() {
        let own = part_of(lengths, i, series);
        let ramped = ramped_at(ramps, i);
        if hours_are_known(ramps, i)
            && is_above(terminal, *e, i, register.number, joined, own, ramped)
        {
            n = n.saturating_add(1);
        }
    }
    n
}
