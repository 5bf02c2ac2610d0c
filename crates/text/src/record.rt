// What the desk prints of a call, a book's header, a member's tab and a member's score.
ghost use Rattle.std.specs.Prelude.{not, [], ◌∷◌};
ghost use Rattle.io.specs.Counts.{IsPrefixLen};
ghost use Rattle.render.specs.Room.{Renders};
ghost use Rattle.form.specs.Form.{flag, filled, most_of};
ghost use Rattle.text.specs.Forms.{call_form, call_values, header_form, book_form, book_values, tab_form, score_form};

use crate::forms::{BOOK, CALL, HEADER, SCORE, TAB};
use book::{Header, SECOND_VERSION};
use call::{CONTESTED, Call, LIVE};
use form::{flag, say, signed_bits32};
use units::{Fen, Grains};

// A call, on one line, and whether the first of two books has it, or the second.
fn say_call(first: u64, second: u64, x: Call, out: &mut [u8]) -> usize
    ensures renders { Renders (most_of call_form) (filled call_form (first ∷ second ∷ call_values x)) out.old out.new result }
    ensures prefix_len { IsPrefixLen result out.new }
{
    let live = flag(x.state == LIVE);
    let contested = flag(x.state == CONTESTED);
    let withdrawn = flag(CONTESTED < x.state);
    let start = x.start as u64;
    let length = x.length as u64;
    let a = signed_bits32(x.a);
    let values = [
        first,
        second,
        x.participant as u64,
        x.number as u64,
        x.revision as u64,
        live,
        x.service as u64,
        start,
        start,
        length,
        length,
        a,
        x.b as u64,
        x.c as u64,
        contested,
        withdrawn,
    ];
    say(&CALL, &values, out)
}

// A call, on one line.
pub fn call_text(x: Call, out: &mut [u8]) -> usize
    ensures renders { Renders (most_of call_form) (filled call_form (0 ∷ 0 ∷ call_values x)) out.old out.new result }
    ensures prefix_len { IsPrefixLen result out.new }
{
    say_call(0, 0, x, out)
}

// Which of two books has a call, and the call, on one line.
pub fn found_text(second: bool, x: Call, out: &mut [u8]) -> usize
    ensures renders { Renders (most_of call_form) (filled call_form (flag (not second) ∷ flag second ∷ call_values x)) out.old out.new result }
    ensures prefix_len { IsPrefixLen result out.new }
{
    say_call(flag(!second), flag(second), x, out)
}

// Whose month a book is of, and how many calls it has.
pub fn header_text(h: Header, calls: usize, out: &mut [u8]) -> usize
    ensures renders { Renders (most_of header_form) (filled header_form (h.area ∷ h.year ∷ h.month ∷ calls ∷ [])) out.old out.new result }
    ensures prefix_len { IsPrefixLen result out.new }
{
    say(
        &HEADER,
        &[h.area as u64, h.year as u64, h.month as u64, calls as u64],
        out,
    )
}

// The same of a book that is shown or written, with its version where that is the second.
pub fn book_text(version: u16, h: Header, calls: usize, out: &mut [u8]) -> usize
    ensures renders { Renders (most_of book_form) (filled book_form (book_values version h calls)) out.old out.new result }
    ensures prefix_len { IsPrefixLen result out.new }
{
    let second = flag(version == SECOND_VERSION);
    let values = [
        h.area as u64,
        h.year as u64,
        h.month as u64,
        calls as u64,
        second,
    ];
    say(&BOOK, &values, out)
}

// A member's tab: how many calls it has, and how many of them are live, contested and withdrawn.
pub fn tab_text(
    member: u16,
    calls: u16,
    live: u16,
    contested: u16,
    withdrawn: u16,
    out: &mut [u8],
) -> usize
    ensures renders { Renders (most_of tab_form) (filled tab_form (member ∷ calls ∷ live ∷ contested ∷ withdrawn ∷ [])) out.old out.new result }
    ensures prefix_len { IsPrefixLen result out.new }
{
    let values = [
        member as u64,
        calls as u64,
        live as u64,
        contested as u64,
        withdrawn as u64,
    ];
    say(&TAB, &values, out)
}

// A member's score.
pub fn score_text(grains: Grains, fen: Fen, out: &mut [u8]) -> usize
    ensures renders { Renders (most_of score_form) (filled score_form (grains.0 ∷ fen.0 ∷ [])) out.old out.new result }
    ensures prefix_len { IsPrefixLen result out.new }
{
    say(&SCORE, &[grains.0, fen.0], out)
}
