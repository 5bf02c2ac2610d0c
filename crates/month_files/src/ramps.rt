// The members' ramping files.
ghost use Rattle.std.specs.Prelude.{◌≡◌, ◌+◌, ◌<◌, ◌≤◌};

use crate::series::{Name, in_folder};
use crate::told::tell_unread;
use book::header_of;
use clerk::args::first;
use hours::name::ramping_name;
use hours_file::given::{hours_of, ramped_of};
use hours_file::{HoursFile, Unread, read_file};
use month::Ramped;
use pay::Member;
use register::{Entry, MOST_ENTRIES};
use say::Terminal;
use units::Grains;

// What each member's ramping file gives; which could not be read, and how many these are: of each one line has said why.
// Stays a flag: month::settle takes the Ramped of all members as they stand, and Options of them would be copied for it.
#[derive(Clone, Copy)]
pub struct Ramps {
    pub each: [Ramped; MOST_ENTRIES],
    pub unread: [bool; MOST_ENTRIES],
    pub bad: usize,
}

// No ramping file.
pub fn no_ramping() -> Ramped {
    Ramped {
        grains: Grains(0),
        place: 0,
        number: 0,
        hours: 0,
    }
}

// The ramping file of a member.
pub fn ramping_file_of(terminal: &Terminal, member: u16) -> Name {
    let name = ramping_name(member);
    in_folder(terminal, &name)
}

// The hours of a sound book's month; of any other book none.
pub fn month_hours(book: &[u8]) -> u16 {
    let o = header_of(book);
    let h = o.header;
    hours_of(h.year, h.month)
}

// What became of a member's ramping file; that it could not be read is told.
pub fn read_ramping(terminal: &Terminal, member: Member, hours: u16, goes_on: bool) -> HoursFile {
    let name = ramping_file_of(terminal, member.number);
    let bytes = name.bytes;
    let path = first(&bytes, name.size);
    let file = read_file(terminal.system(), path, member, hours);
    if let Err(unread) = file.found {
        tell_unread(terminal, path, goes_on, unread);
    }
    file
}

fn no_ramps() -> Ramps
    ensures { result.bad ≡ 0 }
{
    let none = no_ramping();
    Ramps {
        each: [none; MOST_ENTRIES],
        unread: [false; MOST_ENTRIES],
        bad: 0,
    }
}

// What the ramping file of line i's member gives: nothing where there is none. Where one could not be read, the next is read only if the run goes on.
fn read_next(
    terminal: &Terminal,
    e: Entry,
    i: usize,
    hours: u16,
    goes_on: bool,
    before: Ramps,
) -> Ramps
    requires i_bound { i < 64 }
    requires bad_le_i { before.bad ≤ i }
    ensures { result.bad ≤ before.bad + 1 }
{
    let bad = before.bad;
    if (bad != 0) & !goes_on {
        return before;
    }
    let mut each = before.each;
    let mut unread = before.unread;
    let file = read_ramping(terminal, e.member, hours, goes_on);
    match file.found {
        Ok(()) => each[i] = ramped_of(file.hours),
        Err(Unread::Missing) => {}
        Err(_) => {
            unread[i] = true;
            return Ramps {
                each,
                unread,
                bad: bad + 1,
            };
        }
    }
    Ramps { each, unread, bad }
}

// The ramping files of the first entries' members, in turn, up to the first that cannot be read, or all of them where the run goes on.
pub fn read_ramps(
    terminal: &Terminal,
    entries: [Entry; MOST_ENTRIES],
    count: usize,
    hours: u16,
    goes_on: bool,
) -> Ramps
    requires { count ≤ 64 }
    ensures { result.bad ≤ 64 }
{
    let mut ramps = no_ramps();
    for (i, e) in entries[..count].iter().enumerate() {
        ramps = read_next(terminal, *e, i, hours, goes_on, ramps);
    }
    ramps
}

// What the ramping file of line i's member gives.
pub fn ramped_at(ramps: Ramps, i: usize) -> Ramped {
    let each = ramps.each;
    if i < MOST_ENTRIES {
        return each[i];
    }
    no_ramping()
}

// Whether what the ramping file of line i's member gives is known: it could be read, or there is none.
pub fn hours_are_known(ramps: Ramps, i: usize) -> bool {
    let unread = ramps.unread;
    if i < MOST_ENTRIES {
        return !unread[i];
    }
    false
}
