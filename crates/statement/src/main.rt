// Reads the generators' part and sharing lines from standard input and prints the statement: R, number, share and amount of each line, the user's amount.
#![tactic(auto)]

use lines::Reader;
use say::Terminal;
use std::io::Read;
use std::rt::HostRuntime;
use text::sharing::statement_text;
use text::told::failed_text;

// More reads than any input has.
const MOST_READS: u64 = 0xffff_ffff_ffff_ffff;

// A reader of the whole input, in reads of up to 64 KiB; none where a read failed: a statement of half the lines would be a wrong one.
fn read_all(terminal: &Terminal) -> Option<Reader> {
    let mut buffer = io::large_buffer();
    let mut reader = Reader::start();
    for _ in 0..MOST_READS {
        let Ok(n) = terminal.system().stdin().read(&mut buffer) else {
            return None;
        };
        reader = reader.feed(&buffer[..n]);
        if (n == 0) | reader.is_settled() {
            return Some(reader);
        }
    }
    None
}

fn main(rt: HostRuntime) {
    let terminal = Terminal::new(rt);
    let mut out = io::buffer();
    let Some(reader) = read_all(&terminal) else {
        let n = failed_text(b"", b"to read the lines", &mut out);
        say::text(&terminal, &out[..n]);
        return;
    };
    let taken = reader.finish();
    let count = taken.count;
    let n = statement_text(taken.shared(), count, &mut out);
    say::text(&terminal, &out[..n]);
}
