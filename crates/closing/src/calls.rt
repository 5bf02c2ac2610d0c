// The joined book's calls, by their keys: records that do not stand, contested calls, calls that scoring would refuse, calls of members without a line.
use crate::lines_of;
use book::{MOST_RECORDS, call_of, header_of};
use call::{CONTESTED, Call, WITHDRAWN};
use clerk::print;
use drawer::refused::{NextRefused, next_refused};
use month_files::places::register_at;
use notice::{Counted, no_line_for_text};
use pay::Member;
use register::Entry;
use say::Terminal;
use tables::roll::Register;
use tray::books::{Mark, lost_at};
use tray::keys::{tell_call, tell_standing};
use tray::marks::{is_marked, marks_of};
use tray::why::tell_key;

// Of each record of the joined book the number that scoring would refuse it with, or 0, and the record that it stands against.
#[derive(Clone, Copy)]
pub struct Refusals {
    pub numbers: [u32; MOST_RECORDS],
    pub against: [usize; MOST_RECORDS],
}

// What is to be told of one call.
#[derive(Clone, Copy)]
pub struct Findings {
    pub stale: bool,
    pub contested: bool,
    pub without: bool,
    pub number: u32,
    pub against: usize,
}

// Call i of a sound book, if it has as many.
fn call_in(b: &[u8], i: usize) -> Option<Call> {
    let o = header_of(b);
    if o.number != 0 {
        return None;
    }
    if i < o.calls {
        return Some(call_of(b, i));
    }
    None
}

// A member's records that scoring would refuse, in as many steps as a book may have records.
fn refuse_member(member: Member, joined: &[u8], refusals: &mut Refusals) {
    let mut next: usize = 0;
    for _ in 0..MOST_RECORDS {
        let NextRefused::Next(told) = next_refused(member, joined, next) else {
            return;
        };
        let at = told.place;
        if MOST_RECORDS <= at {
            return;
        }
        refusals.numbers[at] = told.number;
        refusals.against[at] = told.against;
        next = at + 1;
    }
}

// Those of all members.
fn refusals_of(entries: &[Entry], joined: &[u8]) -> Refusals {
    let mut refusals = Refusals {
        numbers: [0; MOST_RECORDS],
        against: [0; MOST_RECORDS],
    };
    for e in entries {
        refuse_member(e.member, joined, &mut refusals);
    }
    refusals
}

// The member of a call, if the register has a line for it.
fn member_of(register: &Register, x: Call) -> Option<Member> {
    lines_of(register)
        .iter()
        .map(|e| e.member)
        .find(|m| m.number == x.participant)
}

// Whether a live or contested call is of a member without a line, where there is a register.
fn is_without(register: &Register, x: Call) -> bool {
    if register.number != 0 {
        return false;
    }
    if x.state == WITHDRAWN {
        return false;
    }
    member_of(register, x).is_none()
}

// What is to be told of record j, which is x.
fn findings_of(
    register: &Register,
    marks: &[bool],
    refusals: &Refusals,
    j: usize,
    x: Call,
) -> Findings {
    Findings {
        stale: is_marked(marks, j),
        contested: x.state == CONTESTED,
        without: is_without(register, x),
        number: refusals.numbers.get(j).copied().unwrap_or(0),
        against: refusals.against.get(j).copied().unwrap_or(0),
    }
}

// The call itself, what stands first: where a book has another record, all of them and why; else a book that has it; or nothing, where nothing is to be told.
fn tell_head(
    terminal: &Terminal,
    from: usize,
    left: &mut [Mark],
    joined: &[u8],
    x: Call,
    f: Findings,
) {
    if f.stale {
        tell_key(terminal, from, left, joined, x);
        return;
    }
    if f.contested | f.without | (f.number != 0) {
        tell_call(terminal, b"stands", x);
        tell_standing(terminal, from, left, joined, x);
    }
}

fn list_contested(terminal: &Terminal, counted: &mut Counted) {
    say::text(
        terminal,
        b"scoring refuses it with 14: a higher revision or a withdrawal ends the contest\n",
    );
    counted.contested = counted.contested.saturating_add(1);
}

fn list_without(terminal: &Terminal, x: Call, counted: &mut Counted) {
    let mut name = io::buffer();
    let k = say::word(terminal, register_at(terminal), &mut name);
    let mut out = io::buffer();
    let n = no_line_for_text(x.participant, &mut out);
    print::note(terminal, &name[..k], &out[..n]);
    counted.unlisted = counted.unlisted.saturating_add(1);
}

// Of a call that is refused its member has a line.
fn list_closed(
    terminal: &Terminal,
    register: &Register,
    joined: &[u8],
    x: Call,
    counted: &mut Counted,
) {
    if let Some(m) = member_of(register, x) {
        print::not_open(terminal, x, m.kind, m.rated, header_of(joined).header);
        say::text(terminal, b"scoring refuses it with 12\n");
        counted.closed = counted.closed.saturating_add(1);
    }
}

// The call that a refused one stands against is in the book.
fn list_against(
    terminal: &Terminal,
    from: usize,
    left: &mut [Mark],
    joined: &[u8],
    at: usize,
    x: Call,
    counted: &mut Counted,
) {
    if let Some(y) = call_in(joined, at) {
        print::clash(terminal, x, y);
        say::text(
            terminal,
            b"scoring refuses it with 13, against this call:\n",
        );
        tell_standing(terminal, from, left, joined, y);
        counted.against = counted.against.saturating_add(1);
    }
}

// What is told of x, and counted. A call without a line is not scored, and so counts once where it is contested too.
fn list_found(
    terminal: &Terminal,
    from: usize,
    left: &mut [Mark],
    register: &Register,
    joined: &[u8],
    x: Call,
    f: Findings,
    counted: &mut Counted,
) {
    if f.stale {
        counted.stale = counted.stale.saturating_add(1);
    }
    if f.without {
        list_without(terminal, x, counted);
        return;
    }
    if f.contested {
        list_contested(terminal, counted);
        return;
    }
    match f.number {
        12 => list_closed(terminal, register, joined, x, counted),
        13 => list_against(terminal, from, left, joined, f.against, x, counted),
        _ => {}
    }
}

// Every call of the joined book, in the order of the keys; nothing more once a book is lost.
pub fn list_calls(
    terminal: &Terminal,
    from: usize,
    left: &mut [Mark],
    joined: &[u8],
    register: &Register,
    counted: &mut Counted,
) {
    let marks = marks_of(terminal, from, left, joined);
    let refusals = refusals_of(lines_of(register), joined);
    for j in 0..header_of(joined).calls {
        if lost_at(terminal, from, left).is_some() {
            return;
        }
        if let Some(x) = call_in(joined, j) {
            let f = findings_of(register, &marks, &refusals, j, x);
            tell_head(terminal, from, left, joined, x, f);
            list_found(terminal, from, left, register, joined, x, f, counted);
        }
    }
}
