// The joining sums: books of one record, all of one key.
use crate::scores::january;
use crate::tell;
use book::write::write_one;
use book::{call_of, header_of};
use call::service::START_STOP;
use call::{Call, LIVE};
use say::Terminal;

// A start-stop, live at a revision.
fn live(revision: u32, minutes: u16) -> Call {
    Call {
        participant: 1,
        service: START_STOP,
        state: LIVE,
        number: 9,
        revision,
        start: 0,
        length: minutes,
        a: 0,
        b: 0,
        c: 0,
    }
}

// A book joined with a book of one.
fn joined(before: &[u8], x: Call, out: &mut [u8]) {
    let mut b = [0u8; 48];
    write_one(january(), x, &mut b);
    join::join(before, &b, out);
}

// The only call of a book of one.
fn tell_only(terminal: &Terminal, name: &[u8], book: &[u8]) {
    let o = header_of(book);
    if o.number != 0 {
        return;
    }
    if 0 < o.calls {
        tell::record(terminal, name, call_of(book, 0));
    }
}

// The only call of a book of one that is joined with books of one in turn.
fn in_turn(terminal: &Terminal, name: &[u8], first: Call, others: &[Call]) {
    let mut book = [0u8; 48];
    write_one(january(), first, &mut book);
    for x in others {
        let mut out = [0u8; 48];
        joined(&book, *x, &mut out);
        book = out;
    }
    tell_only(terminal, name, &book);
}

pub fn all(terminal: &Terminal) {
    in_turn(
        terminal,
        b"withdrawn at 2 and live at 7",
        live(2, 300).withdrawn(),
        &[live(7, 300)],
    );
    in_turn(
        terminal,
        b"two unequal live at 3",
        live(3, 300),
        &[live(3, 240)],
    );
    in_turn(
        terminal,
        b"those two and a live at 4",
        live(3, 300),
        &[live(3, 240), live(4, 180)],
    );
}
