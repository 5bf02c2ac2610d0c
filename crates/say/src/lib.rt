// What programs print: words, numbers, and money with its sign; at once, or collected on a page.
#![tactic(auto)]

ghost use Rattle.std.specs.Prelude.{◌≤◌, length, IfSome};
ghost use Rattle.io.specs.Counts.{IsPrefixLen};

use render::put_word;
use std::cell::Cell;
use std::env::{Env, FillError};
use std::io::{Eprint, Print};
use std::rt::HostRuntime;
use units::SignedFen;

// What a program speaks to: its arguments, standard output, and the system, which has the files. One is made in `main`, and lent to all that reads, writes or prints.
#[derive(Drop)]
pub struct Terminal {
    rt: HostRuntime,
    shut: Cell<bool>,
}

impl Terminal {
    pub fn new(rt: HostRuntime) -> Terminal {
        Terminal {
            rt,
            shut: Cell::new(false),
        }
    }

    // The system: who reads or writes a file is given it.
    pub fn system(&self) -> HostRuntime {
        self.rt
    }
}

// Words in one write. Where they do not get out, or not all of them, that is told on standard error, once, and nothing more gets out: who reads the rest must not take it for
// the whole.
pub fn text(terminal: &Terminal, words: &[u8]) {
    if terminal.shut.get() {
        return;
    }
    if terminal.rt.write_all(words).is_ok() {
        return;
    }
    terminal.shut.set(true);
    let _told = terminal
        .rt
        .stderr()
        .write_all(b"not all could be written to standard output\n");
}

// The first n bytes of a page, in one write: all of it where it has no more.
pub fn write_page(terminal: &Terminal, page: &[u8], n: usize) {
    text(terminal, page.get(..n).unwrap_or(page));
}

// Words behind the first n bytes of a page, which are written before it has no room for more. Gives how many stand there then.
pub fn add(terminal: &Terminal, page: &mut [u8], n: usize, words: &[u8]) -> usize
    ensures { IsPrefixLen result page.new }
{
    if page.len() < words.len() {
        write_page(terminal, page, n);
        text(terminal, words);
        return 0;
    }
    if page.len() - words.len() < n {
        write_page(terminal, page, n);
        return put_word(page, 0, words);
    }
    put_word(page, n, words)
}

pub fn number(terminal: &Terminal, n: u64) {
    let mut digits = [0u8; 20];
    let k = io::decimal(n, &mut digits);
    text(terminal, &digits[..k]);
}

pub fn money(terminal: &Terminal, x: SignedFen) {
    if x.0 < 0 {
        text(terminal, b"-");
    }
    number(terminal, x.0.unsigned_abs());
}

// Argument i, at the start of the buffer: how long it is; none where it is missing or longer than the buffer. The program's own name is argument 0. An argument may be any bytes.
pub fn argument(terminal: &Terminal, i: usize, buf: &mut [u8]) -> Option<usize>
    ensures { IfSome result (λ n. n ≤ length buf.new) }
{
    terminal.rt.arg(i, buf).ok()
}

// The same as a text of no bytes where there is none.
pub fn word(terminal: &Terminal, i: usize, buf: &mut [u8]) -> usize
    ensures { result ≤ length buf.new }
{
    argument(terminal, i, buf).unwrap_or(0)
}

// How many arguments there are, the program's own name among them.
pub fn arguments(terminal: &Terminal) -> usize {
    let mut none = [0u8; 0];
    for i in 0..usize::MAX {
        if let Err(FillError::NotPresent) = terminal.rt.arg(i, &mut none) {
            return i;
        }
    }
    usize::MAX
}
