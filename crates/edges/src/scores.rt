// The table of the scoring sums, the paper's and for each service every kind and both sides of every threshold, against numbers worked out by
// hand: a register line, one mean output for all quarter hours of the series, one or two calls of January 2026, and the answer. The calls are
// written as a book and scored, and the score is held against the answer.
ghost use Rattle.std.specs.Prelude.{◌≤◌};

use crate::books::{call_from, january};
use crate::numbers::Numbers;
use crate::tally::Tally;
use book::write::put_header;
use book::{FIRST_VERSION, size_of};
use call::layout::put_call;
use pay::Member;
use say::Terminal;
use score::answer::Score;
use score::score;
use units::{Grains, Kw};

fn member_in(numbers: Numbers) -> Member {
    Member {
        number: numbers.half(0),
        kind: numbers.byte(1),
        rated: Kw(numbers.word(2)),
    }
}

fn book_in(numbers: Numbers) -> [u8; 80] {
    let mut b = [0u8; 80];
    put_header(&mut b, FIRST_VERSION, january(), numbers.half(5));
    put_call(&mut b, 16, call_from(numbers, 6));
    put_call(&mut b, 48, call_from(numbers, 16));
    b
}

// The score over the book, which ends before a call that the line has not.
fn scored(numbers: Numbers) -> Score {
    let b = book_in(numbers);
    let end = size_of(numbers.size(5, 2));
    let series = [numbers.word(3); 2976];
    let quarters = numbers.size(4, 2976);
    score(member_in(numbers), &b[0..end], &series[0..quarters])
}

fn tell(terminal: &Terminal, r: Score) {
    say::text(terminal, b"  came out:");
    for n in [r.number as u64, r.place as u64, r.grains.0, r.fen.0] {
        say::text(terminal, b" ");
        say::number(terminal, n);
    }
    say::text(terminal, b"\n");
}

// Whether the sum came out as its line says. A line with a number too few or too many counts as wrong.
fn is_right(numbers: Numbers, r: Score) -> bool {
    let answer = 6 + 10 * numbers.half(5) as usize;
    (numbers.count == answer + 4)
        & (r.number as u64 == numbers.value(answer))
        & (r.place as u64 == numbers.value(answer + 1))
        & (r.grains.0 == numbers.value(answer + 2))
        & (r.fen.0 == numbers.value(answer + 3))
}

fn with_score(terminal: &Terminal, tally: Tally, numbers: Numbers) -> Tally {
    let score = scored(numbers);
    let right = is_right(numbers, score);
    let next = tally.with(terminal, right);
    if !right {
        tell(terminal, score);
    }
    next
}

fn is_fen(numbers: Numbers, i: usize) -> bool
    requires { i ≤ 16 }
{
    let fen = Grains(numbers.value(i)).to_fen();
    fen.0 == numbers.value(i + 1)
}

// A line of four numbers is no score: grains and their fen, twice.
pub fn with(terminal: &Terminal, tally: Tally, line: &[u8]) -> Tally {
    let numbers = Numbers::read(line);
    let count = numbers.count;
    match count {
        0 => tally.past(),
        4 => tally.with(terminal, is_fen(numbers, 0) & is_fen(numbers, 2)),
        _ => with_score(terminal, tally, numbers),
    }
}
