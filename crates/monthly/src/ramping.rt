// Ramping files: what a member's hours pay, told by themselves, and for the month and its explanation.
use clerk::args::{first, path};
use clerk::print;
use clerk::wrong::tell_member;
use hours::{Hours, HoursFault, MOST_HOURS};
use hours_file::given::ramped_of;
use hours_file::{HoursFile, Unread, read_file};
use month_files::told::{tell_ramping_row, tell_unramped, tell_unread};
use pay::Member;
use report::hourly::{hour_text, hours_text};
use say::Terminal;
use tally::member::member_given;
use units::Grains;

// The argument that names the file of `ramp`.
const FILE: usize = 5;

// The hours of no ramping file.
pub fn no_hours() -> Hours {
    let none = Grains(0);
    Hours {
        fault: None,
        count: 0,
        sum: none,
        grains: [none; MOST_HOURS],
        actions: [0; MOST_HOURS],
    }
}

// A line for each hour that has an action, on a page behind its first `from` bytes.
pub fn put_each(terminal: &Terminal, page: &mut [u8], from: usize, hours: &Hours) -> usize {
    let mut at = from;
    for i in 0..MOST_HOURS {
        let n = hours.actions[i];
        if n != 0 {
            let mut line = io::buffer();
            let size = hour_text(i as u16, u16::from(n), hours.grains[i], &mut line);
            at = say::add(terminal, page, at, &line[..size]);
        }
    }
    at
}

// The hours and their sum; or the file's lowest bad line, and why.
fn tell_hours(terminal: &Terminal, hours: Hours, path: &[u8]) {
    let r = ramped_of(hours);
    if r.number != 0 {
        tell_ramping_row(terminal, path, MOST_HOURS as u16, r.place);
        print::refused(terminal, r.number, r.place, path);
        return;
    }
    let mut page = io::large_buffer();
    let at = put_each(terminal, &mut page, 0, &hours);
    let mut line = io::buffer();
    let n = hours_text(r.hours, r.grains, &mut line);
    let end = say::add(terminal, &mut page, at, &line[..n]);
    print::finish(terminal, &mut page, end);
}

// Why a member's hours are not judged, in words: it is no register line, or of a kind that does not ramp.
fn tell_no_hours(terminal: &Terminal, member: Member, number: u32) {
    if number == 12 {
        tell_unramped(terminal, b"member");
        return;
    }
    tell_member(terminal, member);
}

// The register line first, then the file.
fn tell_file(terminal: &Terminal, member: Member, file: HoursFile, path: &[u8]) {
    let hours = file.hours;
    if let Some(HoursFault::OfMember(number)) = hours.fault {
        tell_no_hours(terminal, member, number);
        print::refused(terminal, number, 0, b"member");
        return;
    }
    match file.found {
        Ok(()) => tell_hours(terminal, hours, path),
        Err(Unread::Missing) => print::failed(terminal, path, b"no such file"),
        Err(unread) => tell_unread(terminal, path, false, unread),
    }
}

// A member's hours over the file that argument 5 names, in a month of 31 days.
pub fn ramp_member(terminal: &Terminal) {
    let Some(member) = member_given(terminal) else {
        return;
    };
    let mut name = io::buffer();
    let Some(n) = path(terminal, FILE, &mut name) else {
        return;
    };
    let path = first(&name, n);
    tell_file(
        terminal,
        member,
        read_file(terminal.system(), path, member, MOST_HOURS as u16),
        path,
    );
}
