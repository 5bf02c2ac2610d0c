// The page of tabs beside a book: made afresh, held against its book, and brought forward over a join.
#![tactic(auto)]

ghost use Rattle.std.specs.Prelude.{◌≡◌, ◌≤◌, length};
ghost use Rattle.book.specs.Book.{header_at, calls_of};
ghost use Rattle.pair.specs.Screening.{IsAccepted};
ghost use Rattle.tabs.specs.Tabs.{page_size, tab_of, first_unfit};
ghost use Rattle.tabs.specs.Outcome.{tabs_outcome, tabling, fitting, join_tabs_outcome, screen_tabs, joining_tabs};
ghost use Rattle.tabs.specs.Inner.{join_fitting};

use crate::forward::bring_forward;
use crate::page::{PAGE_SIZE, TAB_SIZE, tab_at, tab_place};
use crate::walk::{first_unfit, put_tabs};
use book::{Verdict, check, header_at, refused};
use call::MOST_PARTICIPANT;
use join::{Joined, join_refused, join_sound, overflow};
use pair::{both_sound, same_month};

pub mod counts;
pub mod forward;
pub mod page;
pub mod walk;

// A member's calls: the index of the first one, how many they are, and how many are live, contested and withdrawn.
#[derive(Clone, Copy, PartialEq, Eq)]
pub struct Tab {
    pub index: u16,
    pub count: u16,
    pub live: u16,
    pub contested: u16,
    pub withdrawn: u16,
}

// The page of any book afresh: refused by number and place, or the book's own page at the start of the lent one.
pub fn tabs(book: &[u8], page: &mut [u8]) -> Verdict
    ensures { tabs_outcome result page.new ≡ tabling book.now page.old }
{
    let v = check(book);
    if v.number != 0 {
        return v;
    }
    if page.len() < PAGE_SIZE {
        return refused(9, 0);
    }
    put_tabs(book, page);
    refused(0, 0)
}

// A member's tab as any page has it; zeros where there is no such member, or its bytes are not there.
pub fn tab_of(page: &[u8], member: u16) -> Tab
    ensures { result ≡ tab_of page.now member }
{
    let none = Tab {
        index: 0,
        count: 0,
        live: 0,
        contested: 0,
        withdrawn: 0,
    };
    if member < 1 {
        return none;
    }
    if MOST_PARTICIPANT < member {
        return none;
    }
    if page.len() < TAB_SIZE * (member as usize) {
        return none;
    }
    tab_at(page, tab_place(member))
}

// Whether any page fits any book: the book's refusals, or 10 at the lowest member at which it does not.
pub fn fitting(book: &[u8], given: &[u8]) -> Verdict
    ensures { result ≡ fitting book.now given.now }
{
    let v = check(book);
    if v.number != 0 {
        return v;
    }
    let lowest = first_unfit(given, book);
    if lowest != 0 {
        return refused(10, lowest);
    }
    refused(0, 0)
}

// The refusals that need no look at what the join gives: each book's, 10 at the lowest member at which the given page does not fit the first book, 7.
fn screen_tabs(first: &[u8], given: &[u8], second: &[u8]) -> Verdict
    ensures { result ≡ screen_tabs first.now given.now second.now }
{
    let v = both_sound(first, second);
    if v.number != 0 {
        return v;
    }
    let member = first_unfit(given, first);
    if member != 0 {
        return refused(10, member);
    }
    if !same_month(header_at(first), header_at(second)) {
        return refused(7, 0);
    }
    refused(0, 0)
}

// Sound books of one month and area, a page that fits the first and room for the new one: 8, 9, or the joined book and its page.
fn join_fitting(
    first: &[u8],
    given: &[u8],
    second: &[u8],
    out: &mut [u8],
    page: &mut [u8],
) -> Joined
    requires accepted { IsAccepted first.now }
    requires accepted_2 { IsAccepted second.now }
    requires first_value { header_at first.now ≡ header_at second.now }
    requires first_value_2 { first_unfit given.now (calls_of first.now) ≡ 0 }
    requires page_size_in_bounds { page_size ≤ length page.old }
    ensures { join_tabs_outcome result out.new page.new
        ≡ join_fitting first.now given.now second.now out.old page.old }
{
    let joined = join_sound(first, second, out);
    if joined.number != 0 {
        return joined;
    }
    bring_forward(first, given, second, page, joined.turns);
    joined
}

// Any two books joined into an output, and any page of the first brought forward into another: refused by number and place, or both at their start. Where the
// new page has no room the answer is 8 or 9, as of a book that has none.
pub fn join_tabs(
    first: &[u8],
    given: &[u8],
    second: &[u8],
    out: &mut [u8],
    page: &mut [u8],
) -> Joined
    ensures { join_tabs_outcome result out.new page.new
        ≡ joining_tabs first.now given.now second.now out.old page.old }
{
    let v = screen_tabs(first, given, second);
    if v.number != 0 {
        return join_refused(v);
    }
    if page.len() < PAGE_SIZE {
        return join_refused(overflow(first, second, 0));
    }
    join_fitting(first, given, second, out, page)
}
