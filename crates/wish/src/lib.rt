// What is asked of a call, what a book has of it, and whether that would change the book.
#![tactic(auto)]

ghost use Rattle.std.specs.Prelude.{◌≡◌};
ghost use Rattle.wish.specs.Wish.{old_in, verdict, over, higher};

use book::{call_of, check};
use call::{Call, WITHDRAWN};
use lookup::{index_of, key_of};

// A call is entered, revised or withdrawn.
#[derive(Clone, Copy)]
pub enum Wish {
    Enter,
    Revise,
    Withdraw,
}

// Why a wish does not change the book: the number is in use, this revision is as high, the call is withdrawn.
#[derive(Clone, Copy)]
pub enum Unchanged {
    InUse,
    NotHigher(u32),
    Withdrawn,
}

// What a book has for a member's call number; one that is not sound has nothing.
pub fn old_in(book: &[u8], member: u16, number: u32) -> Option<Call>
    ensures { result ≡ old_in book.now member number }
{
    let v = check(book);
    if v.number != 0 {
        return None;
    }
    let i = index_of(key_of(member, number), book)?;
    Some(call_of(book, i))
}

// Whether a wish for x changes the book, by what the book has; where not, why.
pub fn verdict_of(wish: Wish, x: Call, old: Option<Call>) -> Result<(), Unchanged>
    ensures { result ≡ verdict wish x old }
{
    match old {
        None => Ok(()),
        Some(y) => over(wish, x, y),
    }
}

fn over(wish: Wish, x: Call, y: Call) -> Result<(), Unchanged>
    ensures { result ≡ over wish x y }
{
    if y.state == WITHDRAWN {
        return Err(Unchanged::Withdrawn);
    }
    match wish {
        Wish::Enter => Err(Unchanged::InUse),
        Wish::Revise => higher(x, y),
        Wish::Withdraw => Ok(()),
    }
}

fn higher(x: Call, y: Call) -> Result<(), Unchanged>
    ensures { result ≡ higher x y }
{
    if y.revision < x.revision {
        return Ok(());
    }
    Err(Unchanged::NotHigher(y.revision))
}
