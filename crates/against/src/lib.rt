// Which earlier call stands against a call that scoring refuses with 13.
#![tactic(auto)]

ghost use Rattle.std.specs.Prelude.{◌≡◌, ◌<◌};
ghost use Rattle.book.specs.Book.{most_keys, HasRecord, record_at};
ghost use Rattle.against.specs.Against.{clash_with, clash_place};

use book::{MOST_RECORDS, place_of, record_at};
use call::RECORD_SIZE;
use score::refusal::clashes;

// The first record before record i that stands against it, or i.
fn clash_with(b: &[u8], i: usize) -> usize
    requires i_lt_most_keys { i < most_keys }
    requires has_record { HasRecord b.now i }
    ensures { result ≡ clash_with (record_at b.now) i }
{
    let x = record_at(b, i);
    for j in 0..i {
        if clashes(x.participant, x, record_at(b, j)) {
            return j;
        }
    }
    i
}

// The same of any bytes: i, where they have no record i.
pub fn clash_place(b: &[u8], i: usize) -> usize
    ensures { result ≡ clash_place b.now i }
{
    if MOST_RECORDS <= i {
        return i;
    }
    if b.len() < place_of(i) + RECORD_SIZE {
        return i;
    }
    clash_with(b, i)
}
