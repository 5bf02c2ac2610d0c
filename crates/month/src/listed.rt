// Calls of members that the register does not have.
ghost use Rattle.std.specs.Prelude.{◌≡◌, ◌≤◌, length};
ghost use Rattle.book.specs.Book.{size_of, calls_from};
ghost use Rattle.month.specs.Settling.{is_listed, is_unlisted, first_unlisted};

use book::record_at;
use call::{Call, WITHDRAWN};
use register::Entry;

// Whether a member has a line.
fn is_listed(entries: &[Entry], number: u16) -> bool
    ensures { result ≡ is_listed entries.now number }
{
    entries.iter().any(|e| e.member.number == number)
}

// Whether a call is a live or contested one of a member that has no line.
fn is_unlisted(entries: &[Entry], c: Call) -> bool
    ensures { result ≡ is_unlisted entries.now c }
{
    (c.state != WITHDRAWN) & !is_listed(entries, c.participant)
}

// The place of the first such call among the first n, or n.
pub fn first_unlisted(entries: &[Entry], book: &[u8], n: usize) -> usize
    requires { size_of n ≤ length book.now }
    ensures { result ≡ first_unlisted entries.now (calls_from book.now 0 n) }
{
    for i in 0..n {
        let c = record_at(book, i);
        if is_unlisted(entries, c) {
            return i;
        }
    }
    n
}
