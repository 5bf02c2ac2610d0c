// The desk's day, on files: `desk help` says how.
#![tactic(auto)]

use clerk::args::{argument, first, is_word};
use clerk::print;
use clerk::usage::{Command, command_of, is_called, tell_usage, tell_usages};
use closing::list_drawer;
use ledger::books::{check_book, find_call, join_books, show_book};
use ledger::change::{enter, new_book, revise, withdraw};
use ledger::cut::cut_call;
use ledger::pages::{list_calls, make_tabs};
use monthly::ramping::ramp_member;
use monthly::settle::settle_month;
use monthly::why::explain_member;
use say::Terminal;
use std::rt::HostRuntime;
use tally::member::score_member;
use tally::minutes::reckon_member;
use yearly::tell_year;

fn main(rt: HostRuntime) {
    let terminal = Terminal::new(rt);
    let mut word = io::buffer();
    if say::arguments(&terminal) < 2 {
        help(&terminal);
        return;
    }
    let Some(n) = argument(&terminal, 1, &mut word) else {
        unknown(&terminal, b"");
        return;
    };
    run(&terminal, first(&word, n));
}

// What needs little stack, in two groups: the commands on books, with help and version; those on one member, and the year.
#[inline(never)]
fn on_books(terminal: &Terminal, command: Command) {
    match command {
        Command::Check => check_book(terminal),
        Command::Show => show_book(terminal),
        Command::Calls => list_calls(terminal),
        Command::New => new_book(terminal),
        Command::Enter => enter(terminal),
        Command::Revise => revise(terminal),
        Command::Withdraw => withdraw(terminal),
        Command::Cut => cut_call(terminal),
        Command::Join => join_books(terminal),
        Command::Tabs => make_tabs(terminal),
        Command::Find => find_call(terminal),
        Command::Help => help_with(terminal),
        Command::Version => tell_version(terminal),
        _ => {}
    }
}

#[inline(never)]
fn on_members(terminal: &Terminal, command: Command) {
    match command {
        Command::Score => score_member(terminal),
        Command::Reckon => reckon_member(terminal),
        Command::Ramp => ramp_member(terminal),
        Command::Year => tell_year(terminal),
        Command::Explain => explain_member(terminal),
        _ => {}
    }
}

// The command that a word is; `--help` is `help`. That is said by a call of itself for the stack's sake: into a function that calls itself the compiler takes no large frame of another,
// so that a command takes the stack that it needs, and not that of the month and the drawer (tests/program-stack).
#[inline(never)]
fn run(terminal: &Terminal, word: &[u8]) {
    if 2 < word.len() {
        if is_word(word, b"--help") {
            run(terminal, &word[2..]);
            return;
        }
    }
    let Some(command) = command_of(word) else {
        unknown(terminal, word);
        return;
    };
    if !is_called(terminal, command) {
        return;
    }
    match command {
        Command::Month => settle_month(terminal),
        Command::Drawer => list_drawer(terminal),
        _ => {
            on_books(terminal, command);
            on_members(terminal, command);
        }
    }
}

// What an argument may be besides a number.
fn tell_words(terminal: &Terminal) {
    say::text(
        terminal,
        b"SERVICE: 1 deep-peak, 2 reserve, 3 start-stop, 4 standby, 5 black-start, 6 agc-availability, 7 agc-contribution, 8 frequency-event, 9 avc, 10 stability-trip\n",
    );
    say::text(
        terminal,
        b"KIND: 1 coal, 2 gas, 3 hydro, 4 wind, 5 photovoltaic, 6 solar-thermal, 7 pumped-storage, 8 new-storage\n",
    );
    say::text(
        terminal,
        b"START: minutes, or day/hour:minute as 16/00:00. LENGTH: minutes, or 45h, 90m, 1h30m\n",
    );
}

#[inline(never)]
fn help(terminal: &Terminal) {
    tell_usages(terminal);
    tell_words(terminal);
    print::done(terminal);
}

// The usage of the command that argument 2 names, or of all.
fn help_with(terminal: &Terminal) {
    if say::arguments(terminal) < 3 {
        help(terminal);
        return;
    }
    let mut word = io::buffer();
    let Some(n) = argument(terminal, 2, &mut word) else {
        unknown(terminal, b"");
        return;
    };
    let Some(command) = command_of(first(&word, n)) else {
        unknown(terminal, first(&word, n));
        return;
    };
    tell_usage(terminal, command);
    print::done(terminal);
}

fn tell_version(terminal: &Terminal) {
    say::text(terminal, b"desk 1.0, for books of versions 1 and 2\n");
    print::done(terminal);
}

// A word that is no command.
#[inline(never)]
fn unknown(terminal: &Terminal, word: &[u8]) {
    tell_usages(terminal);
    print::failed(terminal, word, b"no such command");
}
