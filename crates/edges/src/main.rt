// Runs the rules on their edges: four tables of cases, of the book's rules, of the scoring sums, of the texts of sharing lines, and of hours of
// ramping. They come from standard input, a case a line (the file `stdin` tells how to read them); each case states what the paper says. A case that came out
// otherwise is told by its line, and each table ends with how many cases it has and how many are wrong.
#![tactic(auto)]

mod books;
mod numbers;
mod ramps;
mod scores;
mod spelling;
mod tally;
mod texts;

ghost use Rattle.std.specs.Prelude.{◌≡◌, ◌≤◌, length};

use numbers::Numbers;
use say::Terminal;
use std::io::Read;
use std::rt::HostRuntime;
use tally::Tally;

// A heading starts with `=`, and its first number says whose cases follow.
fn is_heading(line: &[u8]) -> bool {
    line.starts_with(b"=")
}

// A line of numbers that stands in no table is wrong.
fn stray(terminal: &Terminal, tally: Tally, line: &[u8]) -> Tally {
    if Numbers::read(line).count == 0 {
        return tally.past();
    }
    tally.with(terminal, false)
}

fn with(terminal: &Terminal, tally: Tally, line: &[u8]) -> Tally {
    if is_heading(line) {
        return tally.headed(terminal, Numbers::read(line).value(0));
    }
    let table = tally.table;
    match table {
        tally::BOOKS => books::with(terminal, tally, line),
        tally::SCORES => scores::with(terminal, tally, line),
        tally::TEXTS => texts::with(terminal, tally, line),
        tally::HOURS => ramps::with(terminal, tally, line),
        _ => stray(terminal, tally, line),
    }
}

fn run(terminal: &Terminal, text: &[u8]) -> Tally {
    let mut tally = Tally::start();
    for line in text.split(|b| *b == b'\n') {
        tally = with(terminal, tally, line);
    }
    tally
}

// Room for the tables, some four times what they have.
fn room() -> [u8; 262144]
    ensures { 262144 ≡ length result }
{
    [0; 262144]
}

// Standard input, until the buffer is full, the input ends or a read fails: how many bytes it put at the start.
fn read_full(rt: HostRuntime, text: &mut [u8]) -> usize
    ensures { result ≤ length text.new }
{
    let mut done = 0;
    // Stays a while: each read takes as many bytes as there are.
    while done < text.len() {
        let Ok(n) = rt.stdin().read(&mut text[done..]) else {
            return done;
        };
        if n == 0 {
            return done;
        }
        done += n;
    }
    done
}

fn main(rt: HostRuntime) {
    let terminal = Terminal::new(rt);
    let mut text = room();
    let n = read_full(rt, &mut text);
    run(&terminal, &text[..n]).tell(&terminal);
    if n == text.len() {
        say::text(
            &terminal,
            b"wrong: the tables are longer than there is room for\n",
        );
    }
}
