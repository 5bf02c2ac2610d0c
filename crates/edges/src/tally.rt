// What came out of the tables' cases.
use say::Terminal;

// The tables, by the number in their heading.
pub const BOOKS: u64 = 1;

pub const SCORES: u64 = 2;

pub const TEXTS: u64 = 3;

pub const HOURS: u64 = 4;

// Which table is being read, how many of its cases were run, how many came out otherwise than their line says; and which line of the input is
// next, from 1 on.
#[derive(Clone, Copy)]
pub struct Tally {
    pub table: u64,
    run: u64,
    wrong: u64,
    line: u64,
}

// A number and the words behind it.
fn told(terminal: &Terminal, n: u64, words: &[u8]) {
    say::number(terminal, n);
    say::text(terminal, words);
}

fn tell_wrong(terminal: &Terminal, line: u64) {
    say::text(terminal, b"wrong: line ");
    told(terminal, line, b"\n");
}

fn tell_table(terminal: &Terminal, table: u64) {
    match table {
        BOOKS => say::text(terminal, b"the book's rules: "),
        SCORES => say::text(terminal, b"scoring sums: "),
        TEXTS => say::text(terminal, b"texts of sharing lines: "),
        HOURS => say::text(terminal, b"hours of ramping: "),
        _ => say::text(terminal, b"no table: "),
    }
}

impl Tally {
    pub fn start() -> Tally {
        Tally {
            table: 0,
            run: 0,
            wrong: 0,
            line: 1,
        }
    }

    // With a line that has no case.
    pub fn past(mut self) -> Tally {
        self.line = self.line.saturating_add(1);
        self
    }

    // With the case of the next line; one that came out otherwise is told.
    pub fn with(mut self, terminal: &Terminal, right: bool) -> Tally {
        self.run = self.run.saturating_add(1);
        if !right {
            self.wrong = self.wrong.saturating_add(1);
            tell_wrong(terminal, self.line);
        }
        self.past()
    }

    // With a heading: the table before it has ended.
    pub fn headed(mut self, terminal: &Terminal, table: u64) -> Tally {
        self.tell(terminal);
        self.table = table;
        self.run = 0;
        self.wrong = 0;
        self.past()
    }

    // Lines in front of the first heading are told only where they have cases.
    pub fn tell(self, terminal: &Terminal) {
        if (self.table == 0) & (self.run == 0) {
            return;
        }
        tell_table(terminal, self.table);
        told(terminal, self.run, b" cases, ");
        told(terminal, self.wrong, b" wrong\n");
    }
}
