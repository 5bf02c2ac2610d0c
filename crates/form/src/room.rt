// Whether a buffer has room for a form.
ghost use Rattle.std.specs.Prelude.{◌≡◌, true, ◌+◌, ◌*◌, ◌≤◌, leb, length};
ghost use Rattle.form.specs.Form.{next_marked, most_shown, most_word_shown, most_byte, most_with};

use crate::walk::is_sign;

// The longest text that is looked at for ample room.
const LONG: usize = 65536;

// Whether there is room for whatever form of so many bytes: each byte stands for 21 bytes of numbers or for a text at most. Saves reckoning where
// buffers are large.
fn is_ample(room: usize, long: usize, a: usize, b: usize) -> bool
    ensures { result ≡ true → long * (21 + a + b) ≤ room }
{
    if LONG < a {
        return false;
    }
    if LONG < b {
        return false;
    }
    long <= room / (21 + a + b)
}

#[tactic(auto, unfolding(crate::specs::Form::most_word_shown))]
fn most_word_shown(c: u8) -> usize
    ensures { result ≡ most_word_shown c }
{
    match c {
        b'v' => 16,
        b'k' => 16,
        b'm' => 16,
        b'd' => 26,
        b't' => 5,
        b'l' => 42,
        _ => 1,
    }
}

#[tactic(auto, unfolding(crate::specs::Form::most_shown))]
fn most_shown(c: u8, a: usize, b: usize) -> usize
    ensures { result ≡ most_shown a b c }
{
    match c {
        b'1' => a,
        b'2' => b,
        b'n' => 20,
        b'i' => 20,
        b'y' => 23,
        b's' => 24,
        b'p' => 26,
        _ => most_word_shown(c),
    }
}

#[tactic(auto, unfolding(crate::specs::Form::most_byte))]
fn most_byte(marked: bool, c: u8, a: usize, b: usize) -> usize
    ensures { result ≡ most_byte a b marked c }
{
    if marked {
        return most_shown(c, a, b);
    }
    if is_sign(c) {
        return 0;
    }
    1
}

#[tactic(auto, unfolding(crate::specs::Form::next_marked))]
fn next_marked(marked: bool, c: u8) -> bool
    ensures { result ≡ next_marked marked c }
{
    !marked & (c == b'%')
}

// Whether so many bytes are room for the form, reckoned byte by byte.
fn is_enough(room: usize, form: &[u8], a: usize, b: usize) -> bool
    ensures { result ≡ leb (most_with form.now a b) room }
{
    let mut left = room;
    let mut marked = false;
    for c in form {
        let most = most_byte(marked, *c, a, b);
        if left < most {
            return false;
        }
        left -= most;
        marked = next_marked(marked, *c);
    }
    true
}

// Whether so many bytes are room for a form with texts of these lengths in it.
pub fn has_room(room: usize, form: &[u8], a: usize, b: usize) -> bool
    ensures { result ≡ leb (most_with form.now a b) room }
{
    if is_ample(room, form.len(), a, b) {
        return true;
    }
    is_enough(room, form, a, b)
}
