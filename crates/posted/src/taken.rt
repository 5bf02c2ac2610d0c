// Numbers taken from the front of a text, each with what is behind it. What is told of them holds where the text has what the reader looks
// for; the reader then compares, so nothing more is asked.
ghost use Rattle.std.specs.Prelude.{◌≡◌, ◌≢◌, true, ◌++◌, ◌+◌, ◌*◌, ◌-◌, ◌^◌, ◌≤◌, ◌<◌, List, ℕ, ℤ, pos, negsuc, length, drop, MatchOption};
ghost use Rattle.row.specs.Numbers.{is_digit};
ghost use Rattle.posted.specs.Inner.{starts_minus, NumberIs, FieldIs, SignedIs, SignedFieldIs};

use row::is_digit;

fn digit_of(b: u8) -> u64
    requires { is_digit b ≡ true }
    ensures { (result ≡ b - 48) × (result ≤ 9) }
{
    u64::from(b - b'0')
}

// What digits are worth with one more behind them, if that is a number of 64 bits.
fn grown(v: u64, d: u64) -> u64
    ensures { v * 10 + d < 2 ^ 64 → result ≡ v * 10 + d }
{
    v.saturating_mul(10).saturating_add(d)
}

fn read_number(text: &[u8]) -> (u64, &[u8])
    ensures { NumberIs text.now result.0 result.1.now }
{
    let mut value = 0;
    for (i, b) in text.iter().enumerate() {
        if !is_digit(*b) {
            return (value, &text[i..]);
        }
        value = grown(value, digit_of(*b));
    }
    (value, &text[text.len()..])
}

// What is behind so many bytes.
fn behind(text: &[u8], k: usize) -> &[u8]
    ensures { result.now ≡ drop k text.now }
{
    if k <= text.len() {
        &text[k..]
    } else {
        &text[text.len()..]
    }
}

// The number behind a name, whose bytes are not looked at.
pub fn read_field<'a>(text: &'a [u8], name: &[u8]) -> (u64, &'a [u8])
    ensures { FieldIs (length name.now) text.now result.0 result.1.now }
{
    read_number(behind(text, name.len()))
}

fn positive(v: u64) -> i64
    ensures { v < 2 ^ 63 → result ≡ pos v }
{
    i64::try_from(v).unwrap_or(0)
}

fn negative(v: u64) -> i64
    ensures { 0 < v → v ≤ 2 ^ 63 → result ≡ negsuc (v - 1) }
{
    if v == 0 { 0 } else { !positive(v - 1) }
}

#[tactic(auto, unfolding(crate::specs::Inner::starts_minus))]
fn starts_minus(text: &[u8]) -> bool
    ensures { result ≡ starts_minus text.now }
{
    text.first() == Some(&b'-')
}

fn read_signed(text: &[u8]) -> (i64, &[u8])
    ensures { SignedIs text.now result.0 result.1.now }
{
    if starts_minus(text) {
        let (size, rest) = read_number(behind(text, 1));
        return (negative(size), rest);
    }
    let (size, rest) = read_number(text);
    (positive(size), rest)
}

// The signed number behind a name.
pub fn read_signed_field<'a>(text: &'a [u8], name: &[u8]) -> (i64, &'a [u8])
    ensures { SignedFieldIs (length name.now) text.now result.0 result.1.now }
{
    read_signed(behind(text, name.len()))
}

// What is behind a word, where a text begins with it.
#[tactic(auto, using(crate::proofs::Words::word_after))]
pub fn after<'a>(text: &'a [u8], word: &[u8]) -> Option<&'a [u8]>
    ensures { MatchOption result ((rest : List ℕ) → text.now ≢ word.now ++ rest) (λ rest. text.now ≡ word.now ++ rest.now) }
{
    text.strip_prefix(word)
}
