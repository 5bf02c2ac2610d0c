// Forms: a text with marks, put into a lent buffer with numbers and texts in their places.
//   %n a number   %i a signed number   %y yuan   %s signed yuan   %p points   %1 the one text   %2 the other
//   %v a service   %k a kind of plant   %m a month   %d a date   %t a time of the day   %l a length of time
//   [a|b] takes a number and shows a where it is not 0, and b where it is; [a] shows nothing where it is 0
//   %% %[ %| %] the sign itself
// Numbers are taken one after the other, by each mark of a small letter and each [, shown or not. One with a sign goes as its bits.
// A form is a constant: what comes from outside goes in as a text.
#![tactic(auto)]

ghost use Rattle.std.specs.Prelude.{◌≡◌, true, ◌+◌, ◌≤◌, length};
ghost use Rattle.io.specs.Counts.{IsPrefixLen};
ghost use Rattle.render.specs.Inner.{Puts};
ghost use Rattle.render.specs.Room.{Renders};
ghost use Rattle.form.specs.Form.{bits, flag, filled, filled_with, most_with, most_of};

use crate::room::has_room;
use crate::walk::{Far, put_on};
use le::bits64;
use units::{SignedFen, Wh};

mod mark;
mod room;
mod walk;

// The number by which money with a sign, or energy with one, goes into a form.
pub fn fen_bits(x: SignedFen) -> u64
    ensures { result ≡ bits x.0 }
{
    bits64(x.0)
}

// Stays two functions: the names are public, and each body is one call.
pub fn wh_bits(x: Wh) -> u64
    ensures { result ≡ bits x.0 }
{
    bits64(x.0)
}

// The number by which a signed number of 32 bits goes.
// Stays two functions: the names are public, and each body is one call.
pub fn signed_bits32(x: i32) -> u64
    ensures { result ≡ bits x }
{
    bits64(i64::from(x))
}

// The number by which a choice goes.
#[tactic(auto, unfolding(crate::specs::Form::flag))]
pub fn flag(chosen: bool) -> u64
    ensures { result ≡ flag chosen }
{
    u64::from(chosen)
}

// A form with two texts and numbers in it, from a place of a buffer on. Answers the place behind it.
pub fn fill_with(
    out: &mut [u8],
    at: usize,
    form: &[u8],
    values: &[u64],
    one: &[u8],
    other: &[u8],
) -> usize
    requires { at + most_with form.now (length one.now) (length other.now) ≤ length out.old }
    ensures { Puts (most_with form.now (length one.now) (length other.now)) out.old at
        (filled_with form.now one.now other.now values.now) out.new result }
{
    let mut far = Far {
        at,
        read: 0,
        taken: 0,
        on: true,
    };
    // Stays a while: each turn takes a run of plain bytes and the sign behind it, as long as they are.
    while far.read < form.len() {
        far = put_on(out, form, values, one, other, far);
    }
    far.at
}

// A form with numbers in it.
pub fn fill(out: &mut [u8], at: usize, form: &[u8], values: &[u64]) -> usize
    requires { at + most_of form.now ≤ length out.old }
    ensures { Puts (most_of form.now) out.old at (filled form.now values.now) out.new result }
{
    fill_with(out, at, form, values, b"", b"")
}

// A form with two texts and numbers in it, at the front of a buffer. Answers how long it is; or 0, and leaves the buffer alone, where that is
// shorter than the most bytes that such a text may have.
pub fn say_with(form: &[u8], values: &[u64], one: &[u8], other: &[u8], out: &mut [u8]) -> usize
    ensures renders { Renders (most_with form.now (length one.now) (length other.now))
        (filled_with form.now one.now other.now values.now) out.old out.new result }
    ensures prefix_len { IsPrefixLen result out.new }
{
    if has_room(out.len(), form, one.len(), other.len()) {
        return fill_with(out, 0, form, values, one, other);
    }
    0
}

// A form with numbers in it, at the front of a buffer.
pub fn say(form: &[u8], values: &[u64], out: &mut [u8]) -> usize
    ensures renders { Renders (most_of form.now) (filled form.now values.now) out.old out.new result }
    ensures prefix_len { IsPrefixLen result out.new }
{
    say_with(form, values, b"", b"", out)
}
