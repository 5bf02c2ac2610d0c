// Grains to fen, and the sharing sums.
ghost use Rattle.std.specs.Prelude.{◌≤◌};

use say::Terminal;
use share::{Line, Shared, share};
use units::{Fen, Grains, Mwh, SignedFen, Thousandths};

pub fn grains(terminal: &Terminal, n: u64) {
    say::number(terminal, n);
    say::text(terminal, b" grains: ");
    let fen = Grains(n).to_fen();
    say::number(terminal, fen.0);
    say::text(terminal, b" fen\n");
}

fn line(number: u16, status: u8, energy: Mwh, compensation: Fen, assessment: Thousandths) -> Line {
    Line {
        number,
        status,
        energy,
        compensation,
        assessment,
        share: SignedFen(0),
        amount: SignedFen(0),
    }
}

fn tell_line(terminal: &Terminal, l: Line) {
    say::text(terminal, b"; ");
    say::number(terminal, l.number as u64);
    say::text(terminal, b" ");
    say::money(terminal, l.share);
    say::text(terminal, b" ");
    say::money(terminal, l.amount);
}

// What a sharing says besides its lines: a refusal's number and place, or R.
fn tell_head(terminal: &Terminal, name: &[u8], s: Shared) {
    say::text(terminal, name);
    if s.number != 0 {
        say::text(terminal, b": refused ");
        say::number(terminal, s.number as u64);
        say::text(terminal, b" ");
        say::number(terminal, s.place as u64);
    } else {
        say::text(terminal, b": total ");
        say::money(terminal, s.gap);
    }
}

fn tell_user(terminal: &Terminal, s: Shared) {
    if s.number == 0 {
        say::text(terminal, b"; user ");
        say::money(terminal, s.user);
    }
    say::text(terminal, b"\n");
}

// The sharing of so many lines, and none behind them counts, which are copies of the first: R, then number, share and amount of each, then the user's amount.
fn shared<const N: usize>(terminal: &Terminal, name: &[u8], part: u32, given: [Line; N])
    requires some { 1 ≤ N }
    requires few { N ≤ 64 }
{
    let mut lines = [given[0]; 64];
    lines[..N].copy_from_slice(&given);
    let s = share(part, lines, N);
    tell_head(terminal, name, s);
    if s.number == 0 {
        for l in &s.lines[..N] {
            tell_line(terminal, *l);
        }
    }
    tell_user(terminal, s);
}

// Compensation 100 fen, no assessment, three equal energies above zero at status 0.
pub fn three_equal(terminal: &Terminal) {
    shared(
        terminal,
        b"100 fen over three",
        10_000,
        [
            line(1, 0, Mwh(500), Fen(100), Thousandths(0)),
            line(2, 0, Mwh(500), Fen(0), Thousandths(0)),
            line(3, 0, Mwh(500), Fen(0), Thousandths(0)),
        ],
    );
}

// The lines that the program `statement` is shown with, with a part for the generators.
fn sample(terminal: &Terminal, name: &[u8], part: u32) {
    shared(
        terminal,
        name,
        part,
        [
            line(1, 0, Mwh(100), Fen(300_000), Thousandths(0)),
            line(2, 0, Mwh(200), Fen(0), Thousandths(1_000)),
            line(3, 2, Mwh(50), Fen(0), Thousandths(0)),
        ],
    );
}

pub fn statement(terminal: &Terminal) {
    sample(terminal, b"statement", 10_000);
}

// Part of the gap goes to consumers: the generators' R is cut toward zero, and 16 asks for it alone.
pub fn parts(terminal: &Terminal) {
    sample(terminal, b"statement, part 5000", 5_000);
    sample(terminal, b"statement, part 3333", 3_333);
    sample(terminal, b"statement, part 0", 0);
    sample(terminal, b"statement, part 10001", 10_001);
    shared(
        terminal,
        b"200001 fen, part 5000",
        5_000,
        [line(1, 0, Mwh(100), Fen(200_001), Thousandths(0))],
    );
    shared(
        terminal,
        b"9999 fen without energy, part 1",
        1,
        [line(1, 0, Mwh(0), Fen(9_999), Thousandths(0))],
    );
    shared(
        terminal,
        b"10000 fen without energy, part 1",
        1,
        [line(1, 0, Mwh(0), Fen(10_000), Thousandths(0))],
    );
}
