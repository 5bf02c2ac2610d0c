// A file of a run that may go on without it.
use crate::print;
use files::NotLoaded;
use say::Terminal;

// What is in the way of a file: in the last line, or, where the run goes on, in a remark.
pub fn tell_of(terminal: &Terminal, path: &[u8], goes_on: bool, why: &[u8]) {
    if goes_on {
        print::note(terminal, path, why);
        return;
    }
    print::failed(terminal, path, why);
}

// The whole file in the buffer's first bytes.
pub fn load_or(terminal: &Terminal, path: &[u8], goes_on: bool, buf: &mut [u8]) -> Option<usize> {
    let why: &[u8] = match files::load(terminal.system(), path, buf) {
        Ok(n) => return Some(n),
        Err(NotLoaded::Missing) => b"no such file",
        Err(NotLoaded::TooLong) => b"longer than 65536 bytes",
        Err(NotLoaded::Failed) => b"cannot be read",
    };
    tell_of(terminal, path, goes_on, why);
    None
}
