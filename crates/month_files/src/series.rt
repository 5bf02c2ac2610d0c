// The members' series: a file each, read one behind the other into one array.
ghost use Rattle.std.specs.Prelude.{◌≡◌, ◌+◌, ◌<◌, ◌≤◌, length};
ghost use Rattle.tally.specs.Room.{series_room, ReadsWithin};
ghost use Rattle.month_files.specs.Room.{all_room};

use crate::places::folder_at;
use clerk::args::{argument, first, path};
use clerk::print;
use register::{Entry, MOST_ENTRIES, blank_entry};
use say::Terminal;
use tables::series::series_name;
use tally::outputs::{SERIES_ROOM, part, read_or};

// Room for a series of each member.
pub const ALL_ROOM: usize = MOST_ENTRIES * SERIES_ROOM;

// The longest name of a file in it, a ramping file's, and the longest name of a folder that leaves room for it.
const MOST_FILE: usize = 15;

const MOST_FOLDER: usize = node::PATH_MAX - MOST_FILE;

// A file's name in its first bytes; where it has none, one line has said why.
// Stays a flag: what is told of a file takes its name as its first size bytes, and one that has none is told by the empty name.
#[derive(Clone, Copy)]
pub struct Name {
    pub bytes: [u8; node::PATH_MAX],
    pub size: usize,
}

// Where each member's series begins and how many values it has, whether it was read, and how many values there are together; how many series could not
// be read, of each of which one line has said why.
// Stays a flag: month::settle takes the lengths of all members as they stand, and Options of them would be copied for it.
#[derive(Clone, Copy)]
pub struct Lengths {
    pub starts: [usize; MOST_ENTRIES],
    pub each: [usize; MOST_ENTRIES],
    pub read: [bool; MOST_ENTRIES],
    pub all: usize,
    pub bad: usize,
}

// Room for every member's series.
pub fn room() -> [u32; ALL_ROOM]
    ensures { all_room ≡ length result }
{
    [0; ALL_ROOM]
}

// A file's name behind its folder's, from byte n on.
fn put_name(name: &[u8], buf: &mut [u8], n: usize)
    requires { n + length name.now ≤ length buf.old }
{
    node::copy(name, &mut buf[n..]);
}

// Whether the folder of the series has a name that leaves room for a file's.
pub fn folder_is_named(terminal: &Terminal) -> bool {
    let mut bytes = io::buffer();
    argument(terminal, folder_at(terminal), &mut bytes).is_some_and(|n| (0 < n)
        & (n <= MOST_FOLDER))
}

// A file in the folder of the series.
pub fn in_folder(terminal: &Terminal, name: &[u8]) -> Name {
    let folder = folder_at(terminal);
    let mut bytes = io::buffer();
    let Some(n) = path(terminal, folder, &mut bytes) else {
        return Name { bytes, size: 0 };
    };
    if MOST_FOLDER < n {
        print::bad_argument(terminal, folder, b"too long for a folder's name");
        return Name { bytes, size: 0 };
    }
    if MOST_FILE < name.len() {
        return Name { bytes, size: 0 };
    }
    put_name(name, &mut bytes, n);
    Name {
        bytes,
        size: n + name.len(),
    }
}

// The file of a member's series.
pub fn file_of(terminal: &Terminal, member: u16) -> Name {
    let name = series_name(member);
    in_folder(terminal, &name)
}

// The values of a member's series.
pub fn read_member(
    terminal: &Terminal,
    member: u16,
    goes_on: bool,
    out: &mut [u32],
) -> Option<usize>
    ensures { ReadsWithin (length out.old) result }
{
    let name = file_of(terminal, member);
    let bytes = name.bytes;
    if name.size == 0 {
        return None;
    }
    read_or(terminal, first(&bytes, name.size), goes_on, out)
}

fn none_read() -> Lengths
    ensures { (result.all ≡ 0) × (result.bad ≡ 0) }
{
    Lengths {
        starts: [0; MOST_ENTRIES],
        each: [0; MOST_ENTRIES],
        read: [false; MOST_ENTRIES],
        all: 0,
        bad: 0,
    }
}

// One that could not be read more.
fn one_bad(before: Lengths) -> Lengths
    requires { before.bad < 64 }
    ensures { (result.all ≡ before.all) × (result.bad ≡ before.bad + 1) }
{
    let mut after = before;
    after.bad = before.bad + 1;
    after
}

// The series of line i's member behind those before it. Where one could not be read, the next is read only if the run goes on.
fn read_next(
    terminal: &Terminal,
    e: Entry,
    i: usize,
    goes_on: bool,
    before: Lengths,
    series: &mut [u32],
) -> Lengths
    requires i_bound { i < 64 }
    requires bad_le_i { before.bad ≤ i }
    requires series_room_in_bounds { before.all + series_room ≤ length series.old }
    ensures all_bound { result.all ≤ before.all + series_room }
    ensures bad_bound { result.bad ≤ before.bad + 1 }
    ensures series_len_unchanged { length series.new ≡ length series.old }
{
    let bad = before.bad;
    if (bad != 0) & !goes_on {
        return before;
    }
    let at = before.all;
    let end = at + SERIES_ROOM;
    let taken = read_member(terminal, e.member.number, goes_on, &mut series[at..end]);
    let Some(n) = taken else {
        return one_bad(before);
    };
    let mut starts = before.starts;
    let mut each = before.each;
    let mut read = before.read;
    starts[i] = at;
    each[i] = n;
    read[i] = true;
    Lengths {
        starts,
        each,
        read,
        all: at + n,
        bad,
    }
}

// The series of the first entries' members, in turn, up to the first that cannot be read, or all of them where the run goes on.
pub fn read_all(
    terminal: &Terminal,
    entries: [Entry; MOST_ENTRIES],
    count: usize,
    goes_on: bool,
    series: &mut [u32],
) -> Lengths
    requires count_bound { count ≤ 64 }
    requires all_room_in_bounds { all_room ≤ length series.old }
    ensures { result.bad ≤ 64 }
{
    let mut lengths = none_read();
    for (i, e) in entries[..count].iter().enumerate() {
        lengths = read_next(terminal, *e, i, goes_on, lengths, series);
    }
    lengths
}

// The register's line i.
pub fn entry_at(entries: [Entry; MOST_ENTRIES], i: usize) -> Entry {
    if i < MOST_ENTRIES {
        return entries[i];
    }
    blank_entry()
}

// The line of a member, or count where it has none.
pub fn line_of(entries: [Entry; MOST_ENTRIES], count: usize, number: u16) -> usize {
    entries
        .iter()
        .take(count)
        .position(|e| e.member.number == number)
        .unwrap_or(count)
}

// The series of line i's member.
pub fn part_of(lengths: Lengths, i: usize, series: &[u32]) -> &[u32] {
    let starts = lengths.starts;
    let each = lengths.each;
    if i < MOST_ENTRIES {
        return part(series, starts[i], each[i]);
    }
    &series[..0]
}

// Whether the series of line i's member was read.
pub fn is_read(lengths: Lengths, i: usize) -> bool {
    let read = lengths.read;
    if i < MOST_ENTRIES {
        return read[i];
    }
    false
}
