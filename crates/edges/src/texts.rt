// The table of texts of sharing lines: each kind of case, what the crates that read and share do held against what the case's line says.
ghost use Rattle.std.specs.Prelude.{◌≤◌};

use crate::numbers::{Numbers, before};
use crate::spelling::spell;
use crate::tally::Tally;
use lines::{Reader, Taken};
use say::Terminal;
use share::array::blank_lines;
use share::lent::share_lines;
use share::{Line, Shared, share};

fn same(x: Taken, y: Taken) -> bool {
    (x.number == y.number)
        & (x.place == y.place)
        & (x.part == y.part)
        & (x.count == y.count)
        & (x.lines == y.lines)
}

// Whether the array form and the lent form share the first `count` lines alike. There is a blank line behind the 64, so that a count of one more can be lent, which both refuse. Lines that
// were read have no share and no amount yet: behind the count, and all of them on a refusal, they stay so where they are lent, and the array form clears its own. So all 64 are compared.
fn forms_agree(part: u32, lines: [Line; 64], count: usize) -> bool {
    let array = share(part, lines, count);
    let mut lent = [blank_lines()[0]; 65];
    lent[..64].copy_from_slice(&lines);
    let Some(front) = lent.get_mut(..count) else {
        return false;
    };
    let answer = share_lines(part, front);
    let told = (answer.number == array.number)
        & (answer.place == array.place)
        & (answer.gap == array.gap)
        & (answer.user == array.user);
    told & lent.iter().zip(&array.lines).all(|(a, b)| a == b)
}

// The same of the lines read, of all 64, and of one more than there can be: where fewer were read, both refuse. So do they with a part above
// the whole.
fn both_forms(t: Taken) -> bool {
    let lines = t.lines;
    let part = t.part;
    let agree = forms_agree(part, lines, t.count)
        & forms_agree(part, lines, 64)
        & forms_agree(part, lines, 65);
    agree & forms_agree(10_001, lines, t.count)
}

// The text read a byte at a time.
fn by_bytes(text: &[u8]) -> Taken {
    text.iter()
        .fold(Reader::start(), |reader, b| reader.step(*b))
        .finish()
}

// The text read in two parts.
fn in_halves(text: &[u8]) -> Taken {
    let (front, back) = text.split_at(text.len() / 2);
    Reader::start().feed(front).feed(back).finish()
}

// Whether a refusal's number and place, or zeros, are those that the case says.
fn told(numbers: Numbers, number: u32, place: usize) -> bool {
    (number as u64 == numbers.value(1)) & (place as u64 == numbers.value(2))
}

// 1 number place count | text: the text read whole, a byte at a time, and in two parts.
fn reading(numbers: Numbers, text: &[u8]) -> bool {
    let t = lines::read_text(text);
    let right = told(numbers, t.number, t.place)
        & (t.count as u64 == numbers.value(3))
        & (numbers.count == 4);
    right & same(t, by_bytes(text)) & same(t, in_halves(text))
}

// Whether each line has the share and the amount that the case says, or zeros where it says none.
fn parts_are(s: Shared, numbers: Numbers) -> bool {
    let mut all = true;
    for (i, l) in s.lines.iter().enumerate() {
        all &= le::bits64(l.share.0) == numbers.value(5 + 2 * i);
        all &= le::bits64(l.amount.0) == numbers.value(6 + 2 * i);
    }
    all
}

// 2 number place R user, share amount for each line | text: the sharing of the text, of thirteen lines at the most.
fn sharing(numbers: Numbers, text: &[u8]) -> bool {
    let t = lines::read_text(text);
    let count = t.count;
    let s = t.shared();
    let named = if s.number == 0 { count } else { 0 };
    if 13 < named {
        return false;
    }
    let right = told(numbers, s.number, s.place)
        & (le::bits64(s.gap.0) == numbers.value(3))
        & (le::bits64(s.user.0) == numbers.value(4));
    right & (numbers.count == 5 + 2 * named) & parts_are(s, numbers)
}

// 3 settled | text: whether the answer is known, whatever follows.
fn settling(numbers: Numbers, text: &[u8]) -> bool {
    let settled = Reader::start().feed(text).is_settled();
    (numbers.count == 2) & (u64::from(settled) == numbers.value(1))
}

// A kind of case that no line should have counts as wrong.
fn as_told(numbers: Numbers, text: &[u8]) -> bool {
    let kind = numbers.value(0);
    match kind {
        1 => reading(numbers, text),
        2 => sharing(numbers, text),
        3 => settling(numbers, text),
        _ => false,
    }
}

// Whether a case comes out as its line says, and its lines are shared alike in both forms.
fn is_right(numbers: Numbers, text: &[u8]) -> bool {
    as_told(numbers, text) & both_forms(lines::read_text(text))
}

// The same of the text that the line spells from a place on.
fn spelled_right(numbers: Numbers, line: &[u8], from: usize) -> bool {
    let mut text = [0u8; 4096];
    let n = spell(line, from, &mut text);
    is_right(numbers, &text[0..n])
}

// A case is its numbers, a `|`, and its text.
pub fn with(terminal: &Terminal, tally: Tally, line: &[u8]) -> Tally {
    let bar = before(line, b'|');
    let numbers = Numbers::read(&line[0..bar]);
    if numbers.count == 0 {
        return tally.past();
    }
    tally.with(terminal, spelled_right(numbers, line, bar + 1))
}
