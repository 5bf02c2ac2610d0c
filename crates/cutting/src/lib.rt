// Cutting a window in two, so that nobody's pay changes: the two parts, or what stands in the way.
#![tactic(auto)]

ghost use Rattle.std.specs.Prelude.{◌≡◌, ◌+◌, ◌<◌};
ghost use Rattle.cutting.specs.Parts.{first_part_of, second_part_of};
ghost use Rattle.cutting.specs.Cutting.{is_window, is_inside, cut_window, cut_call, cutting};

use call::service::{DEEP_PEAK, RESERVE};
use call::{CONTESTED, Call, Content, LIVE, WITHDRAWN};
use units::calendar::MINUTES_PER_QUARTER;
use wish::old_in;

// What stands in the way of a cut, with the call that was to be cut, or, of a number in use, the call that has it.
#[derive(Clone, Copy)]
pub enum NotCut {
    NoCall,
    Withdrawn(Call),
    Contested(Call),
    NoWindow(Call),
    Highest(Call),
    NotInside(Call),
    InUse(Call),
}

// Above this there is no revision.
const HIGHEST: u32 = 0xffff_ffff;

// Deep peaking and reserve are paid by the quarter hour, so that a part of a window is one too.
fn is_window(x: Call) -> bool
    ensures { result ≡ is_window x }
{
    (x.service == DEEP_PEAK) | (x.service == RESERVE)
}

// The end is one of 32 bits, so that it does not wrap.
fn is_inside(x: Call, at: u16) -> bool
    ensures { result ≡ is_inside x at }
{
    let end = u32::from(x.start) + u32::from(x.length);
    (at % MINUTES_PER_QUARTER == 0) & (x.start < at) & (u32::from(at) < end)
}

// The part up to the minute, which keeps the number, and the part from there on, which is new.
fn in_two(x: Call, at: u16, new: u32) -> (Call, Call)
    requires revision_bound { x.revision + 1 < 4294967296 }
    requires start_lt_at { (x.start < at) × (at < x.start + x.length) }
    ensures { result ≡ (first_part_of x at, second_part_of x at new) }
{
    let before = at - x.start;
    let behind = x.length - before;
    let next = x.revision + 1;
    let first = x.revised(
        next,
        Content {
            service: x.service,
            start: x.start,
            length: before,
            a: x.a,
            b: 0,
            c: 0,
        },
    );
    let second = Call {
        participant: x.participant,
        service: x.service,
        state: LIVE,
        number: new,
        revision: 1,
        start: at,
        length: behind,
        a: x.a,
        b: 0,
        c: 0,
    };
    (first, second)
}

// Of a live window: its revision, the minute, and what the book has of the new number.
fn cut_window(x: Call, at: u16, new: u32, taken: Option<Call>) -> Result<(Call, Call), NotCut>
    ensures { result ≡ cut_window x at new taken }
{
    if HIGHEST <= x.revision {
        return Err(NotCut::Highest(x));
    }
    if !is_inside(x, at) {
        return Err(NotCut::NotInside(x));
    }
    match taken {
        None => Ok(in_two(x, at, new)),
        Some(y) => Err(NotCut::InUse(y)),
    }
}

// Of any call: first whether it is a live window.
fn cut_call(x: Call, at: u16, new: u32, taken: Option<Call>) -> Result<(Call, Call), NotCut>
    ensures { result ≡ cut_call x at new taken }
{
    if x.state == WITHDRAWN {
        return Err(NotCut::Withdrawn(x));
    }
    if x.state == CONTESTED {
        return Err(NotCut::Contested(x));
    }
    if !is_window(x) {
        return Err(NotCut::NoWindow(x));
    }
    cut_window(x, at, new, taken)
}

// What becomes of a member's call that is to be cut at a minute, the part from there on with a new number.
pub fn cut_of(
    book: &[u8],
    member: u16,
    number: u32,
    at: u16,
    new: u32,
) -> Result<(Call, Call), NotCut>
    ensures { result ≡ cutting book.now member number at new }
{
    match old_in(book, member, number) {
        None => Err(NotCut::NoCall),
        Some(x) => cut_call(x, at, new, old_in(book, member, new)),
    }
}
