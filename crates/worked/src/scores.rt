// The scoring sums: member 1 in January 2026.
use crate::tell;
use book::Header;
use book::write::write_one;
use call::service::{BLACK_START, DEEP_PEAK, FREQUENCY_EVENT, RESERVE, START_STOP};
use call::{Call, LIVE};
use pay::Member;
use say::Terminal;
use score::score;
use units::Kw;

pub fn january() -> Header {
    Header {
        area: 1,
        year: 2026,
        month: 1,
    }
}

fn member(kind: u8, rated: Kw) -> Member {
    Member {
        number: 1,
        kind,
        rated,
    }
}

// A live call from the month's first midnight on.
fn live(number: u32, service: u8, minutes: u16, a: i32, b: u32) -> Call {
    Call {
        participant: 1,
        service,
        state: LIVE,
        number,
        revision: 1,
        start: 0,
        length: minutes,
        a,
        b,
        c: 0,
    }
}

// The score over a book of one record, the output the same all month.
fn one(terminal: &Terminal, name: &[u8], member: Member, output: Kw, x: Call) {
    let mut b = [0u8; 48];
    write_one(january(), x, &mut b);
    let series = [output.0; 2976];
    tell::score(terminal, name, score(member, &b, &series));
}

// The score over two books of one record, joined.
fn two(terminal: &Terminal, name: &[u8], member: Member, x: Call, y: Call) {
    let mut first = [0u8; 48];
    let mut second = [0u8; 48];
    let mut both = [0u8; 80];
    write_one(january(), x, &mut first);
    write_one(january(), y, &mut second);
    join::join(&first, &second, &mut both);
    let series = [0u32; 2976];
    tell::score(terminal, name, score(member, &both, &series));
}

pub fn windows(terminal: &Terminal) {
    let deep_peak = live(1, DEEP_PEAK, 15, 0, 0);
    one(
        terminal,
        b"coal 300001, deep peak at 150000",
        member(1, Kw(300_001)),
        Kw(150_000),
        deep_peak,
    );
    let coal = member(1, Kw(300_000));
    let reserve = live(1, RESERVE, 15, 300_000, 0);
    for (name, output) in [
        (b"coal 300000, reserve at 209999", Kw(209_999)),
        (b"coal 300000, reserve at 210000", Kw(210_000)),
        (b"coal 300000, reserve at 210001", Kw(210_001)),
    ] {
        one(terminal, name, coal, output, reserve);
    }
}

pub fn rates(terminal: &Terminal) {
    let coal = member(1, Kw(300_000));
    for (name, minutes) in [
        (b"coal 300000, start-stop 4320", 4_320),
        (b"coal 300000, start-stop 4321", 4_321),
    ] {
        one(
            terminal,
            name,
            coal,
            Kw(0),
            live(1, START_STOP, minutes, 0, 0),
        );
    }
    let black_start = live(1, BLACK_START, 0, 0, 0);
    for (name, rated) in [
        (b"hydro 3000000, black start", Kw(3_000_000)),
        (b"hydro 3000001, black start", Kw(3_000_001)),
    ] {
        one(terminal, name, member(3, rated), Kw(0), black_start);
    }
}

pub fn wind(terminal: &Terminal) {
    let wind = member(4, Kw(100_000));
    for (name, b) in [
        (b"wind 7999", 7_999),
        (b"wind 8000", 8_000),
        (b"wind 8999", 8_999),
        (b"wind 9000", 9_000),
    ] {
        one(
            terminal,
            name,
            wind,
            Kw(0),
            live(1, FREQUENCY_EVENT, 0, 0, b),
        );
    }
}

pub fn events(terminal: &Terminal) {
    let coal = member(1, Kw(100_000));
    two(
        terminal,
        b"events -500 and 300",
        coal,
        live(1, FREQUENCY_EVENT, 0, -500, 400),
        live(2, FREQUENCY_EVENT, 0, 300, 400),
    );
    one(
        terminal,
        b"event 500",
        coal,
        Kw(0),
        live(1, FREQUENCY_EVENT, 0, 500, 400),
    );
}
