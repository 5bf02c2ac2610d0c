// The rule for one key: which of two records stands, each in the 32 bytes from a place on.
#![tactic(auto)]

ghost use Rattle.std.specs.Prelude.{◌≡◌, ◌+◌, ◌≤◌, eqb, length};
ghost use Rattle.le.specs.Le.{le_at};
ghost use Rattle.call.specs.Layout.{record_size, call_at};
ghost use Rattle.rule.specs.Standing.{same_call, decide};

use call::layout::{revision_at, state_at};
use call::{CONTESTED, WITHDRAWN};
use le::u64_at;

// What becomes of a key that both books have: the first book's record stands, or the second's, or neither,
// and the record is struck: contested at that revision.
#[derive(Clone, Copy)]
pub enum Decision {
    First,
    Second,
    Struck,
}

// Eight bytes of a record at once. A function of its own: the back end makes one load of it before it is set into a join's loop,
// and called straight, `u64_at` is put together there from the fields read before (512 equal keys: 6 in a hundred more instructions).
fn word_at(s: &[u8], at: usize) -> u64
    requires { at + 8 ≤ length s.now }
    ensures { result ≡ le_at s.now at 8 }
{
    u64_at(s, at)
}

fn same_word_at(first: &[u8], a: usize, second: &[u8], b: usize) -> bool
    requires a_in_bounds { a + 8 ≤ length first.now }
    requires b_in_bounds { b + 8 ≤ length second.now }
    ensures { result ≡ eqb (le_at first.now a 8) (le_at second.now b 8) }
{
    let x = word_at(first, a);
    let y = word_at(second, b);
    x == y
}

// Whether two records of one revision are equal: all their bytes but those of the revision, and the last four. Eight bytes at a
// time, since a join asks it of every key at one revision.
fn same_call_at(first: &[u8], a: usize, second: &[u8], b: usize) -> bool
    requires record_size_in_bounds { a + record_size ≤ length first.now }
    requires record_size_in_bounds_2 { b + record_size ≤ length second.now }
    requires a_value { (call_at first.now a).revision ≡ (call_at second.now b).revision }
    ensures { result ≡ same_call (call_at first.now a) (call_at second.now b) }
{
    if !same_word_at(first, a, second, b) {
        return false;
    }
    if !same_word_at(first, a + 12, second, b + 12) {
        return false;
    }
    same_word_at(first, a + 20, second, b + 20)
}

// Of two records of one key. A withdrawn one beats any other; then the higher revision stands. It reads only what it needs, and
// compares the records whole only at one revision.
pub fn decide_at(first: &[u8], a: usize, second: &[u8], b: usize) -> Decision
    requires record_size_in_bounds { a + record_size ≤ length first.now }
    requires record_size_in_bounds_2 { b + record_size ≤ length second.now }
    ensures { result ≡ decide (call_at first.now a) (call_at second.now b) }
{
    let x = state_at(first, a);
    let y = state_at(second, b);
    if (x == WITHDRAWN) & (y != WITHDRAWN) {
        return Decision::First;
    }
    if (x != WITHDRAWN) & (y == WITHDRAWN) {
        return Decision::Second;
    }
    let r = revision_at(first, a);
    let s = revision_at(second, b);
    if s < r {
        return Decision::First;
    }
    if r < s {
        return Decision::Second;
    }
    if x == CONTESTED {
        return Decision::First;
    }
    if same_call_at(first, a, second, b) {
        return Decision::First;
    }
    if y == CONTESTED {
        return Decision::Second;
    }
    Decision::Struck
}
