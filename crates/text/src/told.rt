// A refusal and what it is about; what failed, and why; an argument that is not taken; a remark; the turns of a join; a page and its book; how a command is called; that nothing was changed.
ghost use Rattle.std.specs.Prelude.{[], ◌∷◌, ◌≡◌, ◌+◌, ◌≤◌, length};
ghost use Rattle.io.specs.Counts.{IsPrefixLen};
ghost use Rattle.render.specs.Inner.{Puts};
ghost use Rattle.render.specs.Room.{Renders};
ghost use Rattle.form.specs.Form.{filled, filled_with, most_of, most_with};
ghost use Rattle.text.specs.Forms.{refused_about_form, failed_form, bad_argument_form, no_number_form, takes_form, takes_values, note_form};
ghost use Rattle.text.specs.Forms.{turns_form, unfit_form, removed_form, unplaced_form, usage_form, unchanged_form, not_higher_form};
ghost use Rattle.text.specs.Texts.{shown_byte, shown_name};

use crate::forms::{
    BAD_ARGUMENT, FAILED, NO_NUMBER, NOT_HIGHER, NOTE, REFUSED_ABOUT, REMOVED, TAKES, TURNS,
    UNCHANGED, UNFIT, UNPLACED, USAGE,
};
use form::{flag, say, say_with};

// A byte of a name as it is printed: a control character as `?`.
#[tactic(auto, unfolding(crate::specs::Texts::shown_byte))]
fn shown_byte(b: u8) -> u8
    ensures { result ≡ shown_byte b }
{
    if b.is_ascii_control() { b'?' } else { b }
}

fn put_shown(out: &mut [u8], name: &[u8]) -> usize
    requires { length name.now ≤ length out.old }
    ensures { Puts (length name.now) out.old 0 (shown_name name.now) out.new result }
{
    for (k, b) in name.iter().enumerate() {
        out[k] = shown_byte(*b);
    }
    name.len()
}

// A name as it is printed: no line feed in it begins a line of its own.
pub fn shown_text(name: &[u8], out: &mut [u8]) -> usize
    ensures renders { Renders (length name.now) (shown_name name.now) out.old out.new result }
    ensures prefix_len { IsPrefixLen result out.new }
{
    if out.len() < name.len() {
        return 0;
    }
    put_shown(out, name)
}

// A refusal, and what it is about.
pub fn refused_about_text(number: u32, place: usize, what: &[u8], out: &mut [u8]) -> usize
    ensures renders { Renders (most_with refused_about_form (length what.now) 0) (filled_with refused_about_form what.now [] (number ∷ place ∷ []))
        out.old out.new result }
    ensures prefix_len { IsPrefixLen result out.new }
{
    say_with(
        &REFUSED_ABOUT,
        &[number as u64, place as u64],
        what,
        b"",
        out,
    )
}

// What failed, and why.
pub fn failed_text(what: &[u8], why: &[u8], out: &mut [u8]) -> usize
    ensures renders { Renders (most_with failed_form (length what.now) (length why.now))
        (filled_with failed_form what.now why.now (length what.now ∷ [])) out.old out.new result }
    ensures prefix_len { IsPrefixLen result out.new }
{
    say_with(&FAILED, &[what.len() as u64], what, why, out)
}

// An argument that is not taken, by its name, and why.
pub fn bad_argument_text(i: usize, name: &[u8], why: &[u8], out: &mut [u8]) -> usize
    ensures renders { Renders (most_with bad_argument_form (length name.now) (length why.now))
        (filled_with bad_argument_form name.now why.now (i ∷ [])) out.old out.new result }
    ensures prefix_len { IsPrefixLen result out.new }
{
    say_with(&BAD_ARGUMENT, &[i as u64], name, why, out)
}

// An argument that is no number, or one too large.
pub fn no_number_text(i: usize, name: &[u8], most: u64, out: &mut [u8]) -> usize
    ensures renders { Renders (most_with no_number_form (length name.now) 0) (filled_with no_number_form name.now [] (i ∷ most ∷ []))
        out.old out.new result }
    ensures prefix_len { IsPrefixLen result out.new }
{
    say_with(&NO_NUMBER, &[i as u64, most], name, b"", out)
}

// A command that is given more or fewer words than it takes: so many, from so many on, or from so many to so many.
pub fn takes_text(
    name: &[u8],
    more: bool,
    least: usize,
    most: usize,
    given: usize,
    out: &mut [u8],
) -> usize
    ensures renders { Renders (most_with takes_form (length name.now) 0) (filled_with takes_form name.now [] (takes_values more least most given))
        out.old out.new result }
    ensures prefix_len { IsPrefixLen result out.new }
{
    let range = flag(!more & (least != most));
    let several = flag(!more & (least != most) | (least != 1));
    let more = flag(more);
    say_with(
        &TAKES,
        &[
            least as u64,
            range,
            most as u64,
            several,
            more,
            given as u64,
        ],
        name,
        b"",
        out,
    )
}

// A remark, and what it is about.
pub fn note_text(what: &[u8], why: &[u8], out: &mut [u8]) -> usize
    ensures renders { Renders (most_with note_form (length what.now) (length why.now))
        (filled_with note_form what.now why.now []) out.old out.new result }
    ensures prefix_len { IsPrefixLen result out.new }
{
    say_with(&NOTE, &[], what, why, out)
}

// The turns of a join, by the book that was joined in, or of all joins together.
pub fn turns_text(what: &[u8], turns: usize, out: &mut [u8]) -> usize
    ensures renders { Renders (most_with turns_form (length what.now) 0) (filled_with turns_form what.now [] (turns ∷ []))
        out.old out.new result }
    ensures prefix_len { IsPrefixLen result out.new }
{
    say_with(&TURNS, &[turns as u64], what, b"", out)
}

// A page of tabs that does not fit its book from a member on.
pub fn unfit_text(page: &[u8], book: &[u8], member: usize, out: &mut [u8]) -> usize
    ensures renders { Renders (most_with unfit_form (length page.now) (length book.now))
        (filled_with unfit_form page.now book.now (member ∷ [])) out.old out.new result }
    ensures prefix_len { IsPrefixLen result out.new }
{
    say_with(&UNFIT, &[member as u64], page, book, out)
}

// A page that is removed, where its book could not be replaced.
pub fn removed_text(page: &[u8], book: &[u8], out: &mut [u8]) -> usize
    ensures renders { Renders (most_with removed_form (length page.now) (length book.now))
        (filled_with removed_form page.now book.now []) out.old out.new result }
    ensures prefix_len { IsPrefixLen result out.new }
{
    say_with(&REMOVED, &[], page, book, out)
}

// A page that could not be put in place, where its book is written.
pub fn unplaced_text(page: &[u8], book: &[u8], out: &mut [u8]) -> usize
    ensures renders { Renders (most_with unplaced_form (length page.now) (length book.now))
        (filled_with unplaced_form page.now book.now []) out.old out.new result }
    ensures prefix_len { IsPrefixLen result out.new }
{
    say_with(&UNPLACED, &[], page, book, out)
}

// How a command is called.
pub fn usage_text(line: &[u8], out: &mut [u8]) -> usize
    ensures renders { Renders (most_with usage_form (length line.now) 0) (filled_with usage_form line.now [] [])
        out.old out.new result }
    ensures prefix_len { IsPrefixLen result out.new }
{
    say_with(&USAGE, &[], line, b"", out)
}

// That nothing was changed, and why.
pub fn unchanged_text(why: &[u8], out: &mut [u8]) -> usize
    ensures renders { Renders (most_with unchanged_form (length why.now) 0) (filled_with unchanged_form why.now [] [])
        out.old out.new result }
    ensures prefix_len { IsPrefixLen result out.new }
{
    say_with(&UNCHANGED, &[], why, b"", out)
}

// That nothing was changed, since a revision stands that is as high: the least that would do.
pub fn not_higher_text(stands: u32, out: &mut [u8]) -> usize
    ensures renders { Renders (most_of not_higher_form) (filled not_higher_form (stands ∷ (stands + 1) ∷ [])) out.old out.new result }
    ensures prefix_len { IsPrefixLen result out.new }
{
    say(&NOT_HIGHER, &[stands as u64, stands as u64 + 1], out)
}
