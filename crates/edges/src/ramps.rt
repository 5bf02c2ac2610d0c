// The table of hours of ramping, against numbers worked out by hand: kind and rating of member 7, an hour's actions, and the answer.
use crate::numbers::Numbers;
use crate::tally::Tally;
use pay::Member;
use ramp::{Hour, ramping_bytes};
use say::Terminal;
use units::Kw;

// The byte of the hour at a place: the actions of the line, six numbers of four bytes each, again and again. Behind its first four numbers a line
// has at most 28.
fn byte_at(numbers: Numbers, at: usize) -> u8 {
    let own = 6 * numbers.size(3, 4);
    if own == 0 {
        return 0;
    }
    let bytes = numbers.word(4 + at / 4 % own % 28).to_le_bytes();
    bytes[at % 4]
}

fn fill(b: &mut [u8], numbers: Numbers) {
    for (i, byte) in b.iter_mut().enumerate() {
        *byte = byte_at(numbers, i);
    }
}

// The hour of as many bytes as the line says, at most 62 actions.
fn scored(numbers: Numbers) -> Hour {
    let mut b = [0u8; 1488];
    fill(&mut b, numbers);
    let end = numbers.size(2, 1488);
    let member = Member {
        number: 7,
        kind: numbers.byte(0),
        rated: Kw(numbers.word(1)),
    };
    ramping_bytes(member, &b[0..end])
}

// Whether the hour came out as its line says. A line with a number too few or too many counts as wrong.
fn is_right(numbers: Numbers, r: Hour) -> bool {
    let answer = 4 + 6 * numbers.size(3, 4);
    (numbers.count == answer + 3)
        & (r.number as u64 == numbers.value(answer))
        & (r.place as u64 == numbers.value(answer + 1))
        & (r.grains.0 == numbers.value(answer + 2))
}

pub fn with(terminal: &Terminal, tally: Tally, line: &[u8]) -> Tally {
    let numbers = Numbers::read(line);
    if numbers.count == 0 {
        return tally.past();
    }
    let hour = scored(numbers);
    tally.with(terminal, is_right(numbers, hour))
}
