// What does not fit, in words, as bytes in a buffer that the caller lends.
ghost use Rattle.std.specs.Prelude.{◌++◌, ◌≡◌, ◌+◌, ◌≤◌, length, Err};
ghost use Rattle.render.specs.Decimal.{decimal};
ghost use Rattle.render.specs.Yuan.{yuan, signed_yuan, most_signed_yuan};
ghost use Rattle.render.specs.Inner.{Puts};
ghost use Rattle.fitting.specs.Told.{line_text, apart_text, not_shared_text, finding_text, most_line, most_apart, most_not_shared, most_finding};

use crate::Finding;
use render::yuan::{put_signed_yuan_field, put_yuan_field};
use render::{put_decimal, put_field, put_word};
use units::SignedFen;

// A line of the text, as people count it, from 1 on, and what is said of it.
// Stays two functions: intake has the same, and fitting and intake share no crate that tells lines; line_text stands in the specs of each.
pub fn put_line(out: &mut [u8], line: u64, why: &[u8]) -> usize
    requires { most_line + length why.now ≤ length out.old }
    ensures { Puts (most_line + length why.now) out.old 0 (line_text line why.now) out.new result }
{
    let a = put_word(out, 0, b"line ");
    let b = put_decimal(out, a, line.saturating_add(1));
    put_word(out, b, why)
}

// Stays two functions: this and those of fen and of signed amounts name their own words (decimal, yuan, signed_yuan) in a clause, and a trait over the three is longer than they are.
fn put_number_apart(out: &mut [u8], line: u64, name: &[u8], stands: u64, follows: u64) -> usize
    requires { most_apart + length name.now ≤ length out.old }
    ensures { Puts (most_apart + length name.now) out.old 0 (apart_text line name.now (decimal stands) (decimal follows)) out.new result }
{
    let a = put_line(out, line, b": ");
    let b = put_field(out, a, name, stands);
    put_field(out, b, b", and its numbers give ", follows)
}

fn put_fen_apart(out: &mut [u8], line: u64, name: &[u8], stands: u64, follows: u64) -> usize
    requires { most_apart + length name.now ≤ length out.old }
    ensures { Puts (most_apart + length name.now) out.old 0 (apart_text line name.now (yuan stands) (yuan follows)) out.new result }
{
    let a = put_line(out, line, b": ");
    let b = put_yuan_field(out, a, name, stands);
    put_yuan_field(out, b, b", and its numbers give ", follows)
}

// A name and an amount of money.
fn put_amount(out: &mut [u8], at: usize, name: &[u8], x: SignedFen) -> usize
    requires { at + length name.now + most_signed_yuan ≤ length out.old }
    ensures { Puts (length name.now + most_signed_yuan) out.old at (name.now ++ signed_yuan x.0) out.new result }
{
    put_signed_yuan_field(out, at, name, x.0)
}

fn put_signed_apart(
    out: &mut [u8],
    line: u64,
    name: &[u8],
    stands: SignedFen,
    follows: SignedFen,
) -> usize
    requires { most_apart + length name.now ≤ length out.old }
    ensures { Puts (most_apart + length name.now) out.old 0 (apart_text line name.now (signed_yuan stands.0) (signed_yuan follows.0)) out.new result }
{
    let a = put_line(out, line, b": ");
    let b = put_amount(out, a, name, stands);
    put_amount(out, b, b", and its numbers give ", follows)
}

fn put_not_shared(out: &mut [u8], number: u64, place: u64) -> usize
    requires { most_not_shared ≤ length out.old }
    ensures { Puts most_not_shared out.old 0 (not_shared_text number place) out.new result }
{
    let a = put_field(out, 0, b"sharing refuses its lines with ", number);
    put_field(out, a, b" at ", place)
}

// What does not fit.
fn put_misfit(out: &mut [u8], f: Finding) -> usize
    requires { most_finding ≤ length out.old }
    ensures { Puts most_finding out.old 0 (finding_text (Err f)) out.new result }
{
    match f {
        Finding::NotShared(number, place) => put_not_shared(out, number as u64, place as u64),
        Finding::Compensation(line, stands, follows) => put_fen_apart(
            out,
            line as u64,
            b"compensation ",
            stands.0,
            follows.0,
        ),
        Finding::Weight(line, stands, follows) => put_number_apart(
            out,
            line as u64,
            b"weight ",
            stands,
            follows,
        ),
        Finding::Share(line, stands, follows) => put_signed_apart(
            out,
            line as u64,
            b"share ",
            stands,
            follows,
        ),
        Finding::Uncollected(line, stands, follows) => put_fen_apart(
            out,
            line as u64,
            b"uncollected ",
            stands.0,
            follows.0,
        ),
        Finding::Given(line, stands, follows) => put_fen_apart(
            out,
            line as u64,
            b"given ",
            stands.0,
            follows.0,
        ),
        Finding::Amount(line, stands, follows) => put_signed_apart(
            out,
            line as u64,
            b"amount ",
            stands,
            follows,
        ),
        Finding::Total(line, stands, follows) => put_signed_apart(
            out,
            line as u64,
            b"total ",
            stands,
            follows,
        ),
        Finding::User(line, stands, follows) => put_signed_apart(
            out,
            line as u64,
            b"user ",
            stands,
            follows,
        ),
    }
}

// What does not fit; nothing where all fits.
pub fn put_finding(out: &mut [u8], f: Result<(), Finding>) -> usize
    requires { most_finding ≤ length out.old }
    ensures { Puts most_finding out.old 0 (finding_text f) out.new result }
{
    match f {
        Ok(()) => 0,
        Err(own) => put_misfit(out, own),
    }
}
