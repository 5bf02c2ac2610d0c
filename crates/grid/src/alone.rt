// A text of one number, with or without a sign, as an argument is.
ghost use Rattle.std.specs.Prelude.{◌≡◌};
ghost use Rattle.grid.specs.Alone.{told_of};
ghost use Rattle.grid.specs.Integer.{with_sign, integer_of};

use crate::cell::run_from;
use row::hold;

// The number that a text says.
pub fn number(text: &[u8]) -> Option<u64>
    ensures { result ≡ told_of text.now }
{
    let run = run_from(text, 0, 0);
    if (0 < run.end) & (run.end == text.len()) {
        return Some(hold(run.value));
    }
    None
}

// The number by its size and its sign, if it is not too large.
#[tactic(auto, unfolding(crate::specs::Integer::with_sign))]
fn with_sign(size: Option<u64>, below: bool) -> Option<i32>
    ensures { result ≡ with_sign size below }
{
    let above = i32::try_from(size?).ok()?;
    Some(if below { -above } else { above })
}

// The number that a text says, with or without a sign.
pub fn integer(text: &[u8]) -> Option<i32>
    ensures { result ≡ integer_of text.now }
{
    let n = text.len();
    if n == 0 {
        return None;
    }
    if text[0] == b'-' {
        return with_sign(number(&text[1..n]), true);
    }
    with_sign(number(text), false)
}
