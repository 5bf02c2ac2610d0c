// The first fault of a ramping file by its name, read a second time, as a stream again: nothing of the first reading is kept but where the file was refused.
use crate::{ByParts, Unread, take_all};
use hour_faults::{Finder, HourFound};
use std::rt::HostRuntime;

impl ByParts for Finder {
    fn after(self, bytes: &[u8]) -> Finder {
        self.feed(bytes)
    }

    fn is_done(self) -> bool {
        self.is_settled()
    }
}

// The first fault of the file of that name in a month of so many hours, if it has one; or why that was not read to its end, or until its fault was known.
pub fn find_fault(rt: HostRuntime, path: &[u8], hours: u16) -> Result<Option<HourFound>, Unread> {
    let Ok(mut file) = node::open(rt, path) else {
        return Err(Unread::Failed);
    };
    let (finder, found) = take_all(&mut file, Finder::start(hours));
    found?;
    Ok(finder.finish())
}
