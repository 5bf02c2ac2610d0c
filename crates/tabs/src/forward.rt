// A page brought forward over a join: from the given page and the incoming book, and at keys that both books have the first book's record and the one that stands.
ghost use Rattle.std.specs.Prelude.{◌≡◌, true, is_ok, ◌+◌, ◌*◌, ◌<◌, ◌≤◌, length, drop};
ghost use Rattle.le.specs.Le.{Stores};
ghost use Rattle.call.specs.Key.{call_key};
ghost use Rattle.call.specs.Revising.{live};
ghost use Rattle.call.specs.Layout.{record_size, call_at};
ghost use Rattle.call.specs.Services.{most_participant};
ghost use Rattle.book.specs.Book.{header_at, calls_of, most_keys};
ghost use Rattle.pair.specs.Screening.{IsAccepted};
ghost use Rattle.join.specs.Joining.{keys_of_both};
ghost use Rattle.tabs.specs.Tabs.{page_size, first_unfit};
ghost use Rattle.tabs.specs.Outcome.{forward_page};
ghost use Rattle.tabs.specs.Inner.{is_at, RunTo, RunOn, found_at, FoundIn, Meeting, Passed, Facing, lost, gained, Able, Recounted, Midway, CountsOf, Forwarded};

use crate::counts::{add_one, copy_page, move_one, set_tabs};
use crate::page::{count_on, index_on};
use crate::walk::is_of;
use book::HEADER_SIZE;
use call::layout::{call_number_at, participant_at, state_at};
use call::{CONTESTED, LIVE, RECORD_SIZE};
use rule::{Decision, decide_at};

// Where a member's records lie in a book: from a place up to an end.
#[derive(Clone, Copy)]
pub struct Run {
    pub at: usize,
    pub end: usize,
}

// As a page has it, so that no record of another member is read.
fn run_on(given: &[u8], member: u16) -> Run
    requires le_member { 1 ≤ member }
    requires member_le_most_participant { member ≤ most_participant }
    requires page_size_in_bounds { page_size ≤ length given.now }
    ensures { RunOn given.now member result }
{
    let at = HEADER_SIZE + RECORD_SIZE * (index_on(given, member) as usize);
    let end = at + RECORD_SIZE * (count_on(given, member) as usize);
    Run { at, end }
}

// The place of the first record of a member's, up to an end, whose key is not below an incoming one's: Ok where it has that key, Err where it has not.
// Of one member only the call's number is compared.
fn find_from(first: &[u8], from: usize, end: usize, second: &[u8], b: usize) -> Result<usize, usize>
    requires run_to { RunTo first.now (call_at second.now b).participant from end }
    requires record_size_in_bounds { b + record_size ≤ length second.now }
    ensures { FoundIn first.now from end (call_at second.now b) (found_at result) (is_ok result) }
{
    let number = call_number_at(second, b);
    let mut at = from;
    // Stays a while: a step is a record's 32 bytes.
    while at < end {
        let own = call_number_at(first, at);
        if number <= own {
            return if own == number { Ok(at) } else { Err(at) };
        }
        at += RECORD_SIZE;
    }
    Err(at)
}

// Two live records of one key: a live one stands, unless they are struck.
fn count_live(first: &[u8], a: usize, second: &[u8], b: usize, member: u16, page: &mut [u8])
    requires facing { Facing first.now a second.now b }
    requires b_value { is_at first.now a (call_key (call_at second.now b)) ≡ true }
    requires member_value { member ≡ (call_at second.now b).participant }
    requires able { Able page.old (lost (calls_of first.now) (call_at second.now b)) }
    requires a_value { (call_at first.now a).state ≡ live }
    requires b_value_2 { (call_at second.now b).state ≡ live }
    ensures { Recounted page.old
        (lost (calls_of first.now) (call_at second.now b))
        (gained (calls_of first.now) (call_at second.now b))
        page.new }
{
    match decide_at(first, a, second, b) {
        Decision::First => {}
        Decision::Second => {}
        Decision::Struck => move_one(page, member, LIVE, CONTESTED),
    }
}

// Two records of one key of which not both are live.
fn count_other(first: &[u8], a: usize, second: &[u8], b: usize, member: u16, page: &mut [u8])
    requires facing { Facing first.now a second.now b }
    requires b_value { is_at first.now a (call_key (call_at second.now b)) ≡ true }
    requires member_value { member ≡ (call_at second.now b).participant }
    requires able { Able page.old (lost (calls_of first.now) (call_at second.now b)) }
    ensures { Recounted page.old
        (lost (calls_of first.now) (call_at second.now b))
        (gained (calls_of first.now) (call_at second.now b))
        page.new }
{
    match decide_at(first, a, second, b) {
        Decision::First => {}
        Decision::Second => move_one(page, member, state_at(first, a), state_at(second, b)),
        Decision::Struck => move_one(page, member, state_at(first, a), CONTESTED),
    }
}

// An incoming record of a key that the first book has: the state of its record is taken away, and that of the one that stands is added.
fn count_known(first: &[u8], a: usize, second: &[u8], b: usize, member: u16, page: &mut [u8])
    requires facing { Facing first.now a second.now b }
    requires b_value { is_at first.now a (call_key (call_at second.now b)) ≡ true }
    requires member_value { member ≡ (call_at second.now b).participant }
    requires able { Able page.old (lost (calls_of first.now) (call_at second.now b)) }
    ensures { Recounted page.old
        (lost (calls_of first.now) (call_at second.now b))
        (gained (calls_of first.now) (call_at second.now b))
        page.new }
{
    let x = state_at(first, a);
    let y = state_at(second, b);
    if (x == LIVE) & (y == LIVE) {
        count_live(first, a, second, b, member, page);
        return;
    }
    count_other(first, a, second, b, member, page);
}

// An incoming record of a member, against the first book's of that member from a place on; of a key that is not there its own state is added. Answers with the place
// from which on higher keys lie.
fn count_one(
    first: &[u8],
    from: usize,
    end: usize,
    second: &[u8],
    b: usize,
    member: u16,
    page: &mut [u8],
) -> usize
    requires meeting { Meeting first.now from end second.now b member }
    requires able { Able page.old (lost (calls_of first.now) (call_at second.now b)) }
    ensures passed { Passed first.now from end (call_at second.now b) result }
    ensures recounted { Recounted page.old
        (lost (calls_of first.now) (call_at second.now b))
        (gained (calls_of first.now) (call_at second.now b))
        page.new }
{
    match find_from(first, from, end, second, b) {
        Ok(at) => {
            count_known(first, at, second, b, member, page);
            at + RECORD_SIZE
        }
        Err(at) => {
            add_one(page, member, state_at(second, b));
            at
        }
    }
}

// The incoming records of one member, from the first of them on, against the first book's of that member. Answers with the place behind them.
fn count_member(first: &[u8], given: &[u8], second: &[u8], from: usize, page: &mut [u8]) -> usize
    requires accepted { IsAccepted first.now }
    requires first_value { first_unfit given.now (calls_of first.now) ≡ 0 }
    requires midway { Midway first.now second.now from page.old }
    requires from_in_bounds { from < length second.now }
    ensures midway_2 { Midway first.now second.now result page.new }
    ensures lower_bound { from < result }
    ensures page_unchanged { drop page_size page.new ≡ drop page_size page.old }
    ensures page_len_unchanged { length page.new ≡ length page.old }
{
    let member = participant_at(second, from);
    let run = run_on(given, member);
    let end = run.end;
    let mut a = run.at;
    let mut b = from;
    // Stays a while: a step is a record's 32 bytes.
    while is_of(second, b, member) {
        a = count_one(first, a, end, second, b, member, page);
        b += RECORD_SIZE;
    }
    b
}

// The counts brought forward, in one pass over the incoming book, member by member: keys rise.
fn count_in(first: &[u8], given: &[u8], second: &[u8], page: &mut [u8])
    requires accepted { IsAccepted first.now }
    requires accepted_2 { IsAccepted second.now }
    requires first_value { first_unfit given.now (calls_of first.now) ≡ 0 }
    requires counts_of { CountsOf page.old (calls_of first.now) }
    ensures { Forwarded page.old (calls_of first.now) (calls_of second.now) page.new }
{
    let mut b = HEADER_SIZE;
    // Stays a while: a step is a member's records.
    while b < second.len() {
        b = count_member(first, given, second, b, page);
    }
}

// The joined book's page, of so many calls in all, from the first book's own.
pub fn bring_forward(first: &[u8], given: &[u8], second: &[u8], page: &mut [u8], all: usize)
    requires accepted { IsAccepted first.now }
    requires accepted_2 { IsAccepted second.now }
    requires first_value { header_at first.now ≡ header_at second.now }
    requires first_value_2 { first_unfit given.now (calls_of first.now) ≡ 0 }
    requires page_size_in_bounds { page_size ≤ length page.old }
    requires all_value { all ≡ keys_of_both first.now second.now }
    requires all_le_most_keys { all ≤ most_keys }
    ensures { Stores page.old 0
        (forward_page first.now given.now second.now) page.new }
{
    copy_page(given, page);
    count_in(first, given, second, page);
    set_tabs(page, all as u16);
}
