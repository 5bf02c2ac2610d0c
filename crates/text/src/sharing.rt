// What `statement` prints: R, the lines and the user's amount, or a refusal.
ghost use Rattle.std.specs.Prelude.{[], ◌∷◌, ◌+◌, ◌*◌, ◌≤◌, length};
ghost use Rattle.io.specs.Counts.{IsPrefixLen};
ghost use Rattle.render.specs.Inner.{Puts};
ghost use Rattle.render.specs.Room.{Renders};
ghost use Rattle.form.specs.Form.{filled, most_of};
ghost use Rattle.text.specs.Forms.{refused_form};
ghost use Rattle.text.specs.Reading.{StatementFits};
ghost use Rattle.text.specs.Texts.{line_text, lines_text, accepted_text, statement_text, most_line, most_statement};

use crate::forms::{REFUSED, TOTAL, USER};
use form::{fen_bits, fill, say};
use render::{put_decimal, put_money, put_word};
use share::array::seen;
use share::{Line, Shared};

// The most bytes of a statement: 27 of R, 63 for each of 64 lines, and 26 of the user's amount.
const MOST_STATEMENT: usize = 4085;

// A line as its form says it, put piece by piece: there are up to 64 of them, and reading the form for each takes twice the instructions.
fn put_line(out: &mut [u8], at: usize, l: Line) -> usize
    requires { at + most_line ≤ length out.old }
    ensures { Puts most_line out.old at (line_text l) out.new result }
{
    let a = put_decimal(out, at, l.number as u64);
    let b = put_money(out, a, b" ", l.share);
    let c = put_money(out, b, b" ", l.amount);
    put_word(out, c, b"\n")
}

fn put_lines(out: &mut [u8], at: usize, lines: &[Line]) -> usize
    requires count_bound { length lines.now ≤ 64 }
    requires most_line_in_bounds { at + 64 * most_line ≤ length out.old }
    ensures { Puts (64 * most_line) out.old at (lines_text lines.now) out.new result }
{
    let mut next = at;
    for line in lines {
        next = put_line(out, next, *line);
    }
    next
}

// R, the first `count` lines, and the user's amount.
fn put_accepted(out: &mut [u8], s: Shared, count: usize) -> usize
    requires { most_statement ≤ length out.old }
    ensures { Puts most_statement out.old 0 (accepted_text s count) out.new result }
{
    let gap = fen_bits(s.gap);
    let user = fen_bits(s.user);
    let a = fill(out, 0, &TOTAL, &[gap]);
    let b = put_lines(out, a, &s.lines[..seen(count)]);
    fill(out, b, &USER, &[user])
}

// What sharing says of the first `count` lines. Its numbers fit their bits, so that the text reads back.
pub fn statement_text(s: Shared, count: usize, out: &mut [u8]) -> usize
    ensures renders { Renders most_statement (statement_text s count) out.old out.new result }
    ensures prefix_len { IsPrefixLen result out.new }
    ensures statement_fits { StatementFits s }
{
    if out.len() < MOST_STATEMENT {
        return 0;
    }
    if s.number == 0 {
        return put_accepted(out, s, count);
    }
    fill(out, 0, &REFUSED, &[s.number as u64, s.place as u64])
}

// A refusal's number and place.
pub fn refused_text(number: u32, place: usize, out: &mut [u8]) -> usize
    ensures renders { Renders (most_of refused_form) (filled refused_form (number ∷ place ∷ [])) out.old out.new result }
    ensures prefix_len { IsPrefixLen result out.new }
{
    say(&REFUSED, &[number as u64, place as u64], out)
}
