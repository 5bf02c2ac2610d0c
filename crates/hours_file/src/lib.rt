// A ramping file by its name, read as a stream: however long it is, it is never held whole.
#![tactic(auto)]

use hours::{Hours, Reader};
use pay::Member;
use std::fs::File;
use std::io::{Error, ErrorKind, Read};
use std::rt::HostRuntime;

pub mod faulty;
pub mod given;

// More bytes than any file needs, 16 MiB: 60 actions in each of 744 hours come to some 2 MB, and 3 where numbers are quoted. A first line without a digit is a heading whatever its
// length, so that one without an end would be read for ever.
const MOST_BYTES: u64 = 16_777_216;

// Why a file was not read to its end, or until its fault was known: there is none; its name is a link that leads to no file; it goes on behind the most bytes; or a read failed, which is
// no end of it.
#[derive(Clone, Copy)]
pub enum Unread {
    Missing,
    Nowhere,
    TooLong,
    Failed,
}

// What became of the file, and what it says where it was read. A member that is refused is told by `hours`, also where the file was not read.
#[derive(Clone, Copy)]
pub struct HoursFile {
    pub hours: Hours,
    pub found: Result<(), Unread>,
}

// What takes a file part by part, and is done once no byte that follows changes what it says.
trait ByParts: Copy {
    fn after(self, bytes: &[u8]) -> Self;

    fn is_done(self) -> bool;
}

impl ByParts for Reader {
    fn after(self, bytes: &[u8]) -> Reader {
        self.feed(bytes)
    }

    fn is_done(self) -> bool {
        self.is_settled()
    }
}

// The file in reads of up to 64 KiB, to its end, or until all is said; what became of it.
fn take_all<T: ByParts>(file: &mut File, before: T) -> (T, Result<(), Unread>) {
    let mut taken = before;
    let mut left = MOST_BYTES + 1;
    // Stays a while: each read takes as many bytes off as the file gave.
    while 0 < left {
        let mut buffer = io::large_buffer();
        let Ok(n) = file.read(&mut buffer) else {
            return (taken, Err(Unread::Failed));
        };
        taken = taken.after(&buffer[..n]);
        if n == 0 || taken.is_done() {
            return (taken, Ok(()));
        }
        left = left.saturating_sub(n as u64);
    }
    (taken, Err(Unread::TooLong))
}

// Why a file could not be opened. A name that is there is a file: only where nothing has it is there none.
fn unopened(rt: HostRuntime, path: &[u8], error: Error) -> Unread {
    if error.kind() != ErrorKind::NotFound {
        return Unread::Failed;
    }
    if node::is_absent(rt, path) {
        return Unread::Missing;
    }
    if node::is_link(rt, path) {
        return Unread::Nowhere;
    }
    Unread::Failed
}

// The file of that name, of a member, in a month of so many hours.
pub fn read_file(rt: HostRuntime, path: &[u8], member: Member, hours: u16) -> HoursFile {
    let reader = Reader::start(member, hours);
    let (reader, found) = match node::open(rt, path) {
        Ok(mut file) => take_all(&mut file, reader),
        Err(error) => (reader, Err(unopened(rt, path, error))),
    };
    HoursFile {
        hours: reader.finish(),
        found,
    }
}
