// The commands, and how each is called. By this one table a command is known by its word, its usage is printed, its words are counted, and an argument is named.
ghost use Rattle.std.specs.Prelude.{◌≡◌, ◌≤◌, ◌==◌, count_by, length};

use crate::args::{first, is_word, is_word_at, with_word};
use crate::print;
use say::Terminal;

#[derive(Clone, Copy)]
pub enum Command {
    Check,
    Show,
    Calls,
    New,
    Enter,
    Revise,
    Withdraw,
    Cut,
    Join,
    Tabs,
    Find,
    Score,
    Reckon,
    Ramp,
    Month,
    Year,
    Drawer,
    Explain,
    Help,
    Version,
}

// The commands: those that `desk help` lists, in its order, then the others.
static COMMANDS: [Command; 20] = [
    Command::Check,
    Command::Show,
    Command::New,
    Command::Enter,
    Command::Revise,
    Command::Withdraw,
    Command::Join,
    Command::Find,
    Command::Score,
    Command::Reckon,
    Command::Ramp,
    Command::Month,
    Command::Year,
    Command::Drawer,
    Command::Explain,
    Command::Help,
    Command::Version,
    Command::Calls,
    Command::Cut,
    Command::Tabs,
];

// How many of them it lists.
const LISTED: usize = 15;

// How a command is called: its word, and behind it the names of its arguments. What stands in brackets may be left out; `..` behind a name says that there may be more of it.
fn usage_of(command: Command) -> &'static [u8] {
    match command {
        Command::Check => b"check BOOK",
        Command::Show => b"show BOOK",
        Command::Calls => b"calls BOOK MEMBER",
        Command::New => b"new OUT AREA YEAR MONTH",
        Command::Enter => b"enter OUT BOOK MEMBER CALL SERVICE START LENGTH A B C",
        Command::Revise => b"revise OUT BOOK MEMBER CALL REVISION SERVICE START LENGTH A B C",
        Command::Withdraw => b"withdraw OUT BOOK MEMBER CALL [REVISION]",
        Command::Cut => b"cut OUT BOOK MEMBER CALL AT NEW",
        Command::Join => b"join [-f] OUT BOOK..",
        Command::Tabs => b"tabs BOOK",
        Command::Find => b"find FIRST SECOND MEMBER CALL",
        Command::Score => b"score MEMBER KIND RATED BOOK SERIES",
        Command::Reckon => b"reckon MEMBER KIND RATED BOOK SERIES DAY",
        Command::Ramp => b"ramp MEMBER KIND RATED FILE",
        Command::Month => b"month STATEMENT PART REGISTER SERIES-FOLDER BOOK..",
        Command::Year => b"year STATEMENT..",
        Command::Drawer => b"drawer PART REGISTER SERIES-FOLDER BOOK..",
        Command::Explain => b"explain MEMBER REGISTER SERIES-FOLDER BOOK..",
        Command::Help => b"help [WORD]",
        Command::Version => b"--version",
    }
}

// The word that stands at a place of a usage.
fn word_from(usage: &[u8], at: usize) -> &[u8]
    requires { at ≤ length usage.now }
{
    let end = node::find(usage, at, usage.len(), b' ');
    &usage[at..end]
}

// Where the next word of a usage stands; the last one stays.
fn next_word(usage: &[u8], at: usize) -> usize
    requires { at ≤ length usage.now }
    ensures { result ≤ length usage.now }
{
    let end = node::find(usage, at, usage.len(), b' ');
    if end < usage.len() {
        return end + 1;
    }
    at
}

// Word k of a usage, the command's being 0; past its last word, that one.
fn word_at(usage: &[u8], k: usize) -> &[u8] {
    let mut at: usize = 0;
    for _ in 0..k {
        at = next_word(usage, at);
    }
    word_from(usage, at)
}

// A name up to its closing bracket or its dots.
fn cut(name: &[u8]) -> &[u8] {
    let close = node::find(name, 0, name.len(), b']');
    let end = node::find(name, 0, close, b'.');
    first(name, end)
}

// A name without its brackets and dots.
fn bare(name: &[u8]) -> &[u8] {
    match name {
        [b'[', ..] => cut(&name[1..]),
        _ => cut(name),
    }
}

// How often a byte stands in a usage.
fn count_of(usage: &[u8], b: u8) -> usize
    ensures { result ≡ count_by (λ x. x == b) usage.now }
{
    usage.iter().filter(|x| **x == b).count()
}

// The command that a word is.
pub fn command_of(word: &[u8]) -> Option<Command> {
    for command in &COMMANDS {
        if is_word(word, word_at(usage_of(*command), 0)) {
            return Some(*command);
        }
    }
    if is_word(word, b"--help") | is_word(word, b"-h") {
        return Some(Command::Help);
    }
    None
}

// A command's usage, on a line.
pub fn tell_usage(terminal: &Terminal, command: Command) {
    print::usage(terminal, usage_of(command));
}

// Those of all that are listed.
pub fn tell_usages(terminal: &Terminal) {
    for command in &COMMANDS[..LISTED] {
        tell_usage(terminal, *command);
    }
}

// How many words go behind a command's own: from so many to so many, or more.
#[derive(Clone, Copy)]
struct Span {
    least: usize,
    most: usize,
    more: bool,
}

fn span_of(usage: &[u8]) -> Span {
    let most = count_of(usage, b' ');
    let left_out = count_of(usage, b'[');
    let more = usage.contains(&b'.');
    let least = most.saturating_sub(left_out);
    Span { least, most, more }
}

// Whether a usage has as many words as are given; where not, it is printed, and one line has said how many it has.
fn takes_given(terminal: &Terminal, usage: &[u8], given: usize) -> bool {
    let t = span_of(usage);
    if (t.least <= given) & (t.more | (given <= t.most)) {
        return true;
    }
    print::usage(terminal, usage);
    print::takes(terminal, word_at(usage, 0), t.more, t.least, t.most, given);
    false
}

// The same of the running command.
pub fn is_called(terminal: &Terminal, command: Command) -> bool {
    let count = say::arguments(terminal);
    if count < 2 {
        return false;
    }
    takes_given(terminal, usage_of(command), count - 2)
}

// Which word of a command's usage argument i is: `-f` of a join is one only where it is given.
fn place_of(terminal: &Terminal, command: Command, i: usize) -> usize {
    if let Command::Join = command {
        if !is_word_at(terminal, 2, b"-f") {
            return i;
        }
    }
    i.saturating_sub(1)
}

// The name that argument i has in the usage of the running command; none where no such command runs.
pub fn name_of(terminal: &Terminal, i: usize) -> &'static [u8] {
    let Some(command) = with_word(terminal, 1, command_of) else {
        return b"";
    };
    bare(word_at(usage_of(command), place_of(terminal, command, i)))
}
