// A book read member by member: keys rise, so that a member's calls lie together.
ghost use Rattle.std.specs.Prelude.{◌≡◌, ℕ, ◌+◌, ◌*◌, ◌<◌, ◌≤◌, eqb, length};
ghost use Rattle.le.specs.Le.{Stores};
ghost use Rattle.call.specs.Layout.{record_size};
ghost use Rattle.book.specs.Book.{calls_of};
ghost use Rattle.pair.specs.Screening.{IsAccepted};
ghost use Rattle.join.specs.Steps.{ReadTo, left_from};
ghost use Rattle.tabs.specs.Tabs.{page_size, own_of, tabs_of, own_page, fits_at, first_unfit};
ghost use Rattle.tabs.specs.Inner.{Coming, UpTo, is_of, tallied, tally_more, Roomy, Stretch, live_pair, LiveTo, Spare, others_more, OthersIn, TallyOf, index_for};

use crate::Tab;
use crate::page::{TAB_SIZE, count_on, put_tab, same_tab, tab_at, tab_place};
use book::{HEADER_SIZE, count_at};
use call::layout::{participant_at, state_at};
use call::{CONTESTED, LIVE, MOST_PARTICIPANT, RECORD_SIZE, WITHDRAWN};

// A member's calls by their states.
#[derive(Clone, Copy)]
pub struct Tally {
    pub live: u16,
    pub contested: u16,
    pub withdrawn: u16,
}

impl Tally {
    // One call more, in a state.
    fn more(self, state: u8) -> Tally
        requires roomy { Roomy self }
        requires state_bound { state ≤ 2 }
        ensures { result ≡ tally_more self state }
    {
        let mut live = self.live;
        let mut contested = self.contested;
        let mut withdrawn = self.withdrawn;
        if state == LIVE {
            live += 1;
        } else if state == CONTESTED {
            contested += 1;
        } else {
            withdrawn += 1;
        }
        Tally {
            live,
            contested,
            withdrawn,
        }
    }
}

// The calls that are not live.
// Stays two functions: a `Tally` would count the live ones too, which a page that is held against its book does not need.
#[derive(Clone, Copy)]
pub struct Others {
    pub contested: u16,
    pub withdrawn: u16,
}

impl Others {
    // One call more, in a state.
    fn more(self, state: u8) -> Others
        requires { Spare self }
        ensures { result ≡ others_more self state }
    {
        if state == CONTESTED {
            return Others {
                contested: self.contested + 1,
                withdrawn: self.withdrawn,
            };
        }
        if state == WITHDRAWN {
            return Others {
                contested: self.contested,
                withdrawn: self.withdrawn + 1,
            };
        }
        self
    }
}

// A member's index, by the count of its calls: where its first call stands, or of a member that has none the count of all calls.
pub fn index_for(count: u16, first: u16, all: u16) -> u16
    ensures { result ≡ index_for count first all }
{
    if count == 0 {
        return all;
    }
    first
}

// Whether the next record of a book is there, and is a member's.
pub fn is_of(b: &[u8], at: usize, member: u16) -> bool
    requires { ReadTo b.now at }
    ensures { result ≡ is_of b.now at member }
{
    if at < b.len() {
        return participant_at(b, at) == member;
    }
    false
}

// The calls of a member, which lie from a place on where it has any, by their states.
fn tally_from(b: &[u8], at: usize, member: u16) -> Tally
    requires { Coming b.now member at }
    ensures { result ≡ tallied (own_of member (left_from b.now at)) }
{
    let mut t = Tally {
        live: 0,
        contested: 0,
        withdrawn: 0,
    };
    let mut a = at;
    // Stays a while: a step is a record's 32 bytes.
    while is_of(b, a, member) {
        t = t.more(state_at(b, a));
        a += RECORD_SIZE;
    }
    t
}

// The tab of a member, from the place behind the calls of the members below it.
fn tab_from(b: &[u8], at: usize, member: u16) -> Tab
    requires { UpTo b.now member at }
    ensures { result ≡ tabs_of (calls_of b.now) member }
{
    let t = tally_from(b, at, member);
    let count = t.live + t.contested + t.withdrawn;
    let first = ((at - HEADER_SIZE) / RECORD_SIZE) as u16;
    let all = count_at(b) as u16;
    let index = index_for(count, first, all);
    Tab {
        index,
        count,
        live: t.live,
        contested: t.contested,
        withdrawn: t.withdrawn,
    }
}

// Whether a member has so many calls, from a place on: the last of them is its own, and none of its own follows. Keys rise, so no other is looked at.
fn has_run(b: &[u8], at: usize, member: u16, count: u16) -> bool
    requires { Coming b.now member at }
    ensures { result ≡ eqb count (length (own_of member (left_from b.now at))) }
{
    let end = at + RECORD_SIZE * (count as usize);
    if b.len() < end {
        return false;
    }
    if is_of(b, end, member) {
        return false;
    }
    if count == 0 {
        return true;
    }
    participant_at(b, end - RECORD_SIZE) == member
}

// Whether the next two records lie before an end, and both are live.
fn live_pair(b: &[u8], at: usize, end: usize) -> bool
    requires { Stretch b.now at end }
    ensures { result ≡ live_pair b.now at end }
{
    if at + RECORD_SIZE < end {
        let x = state_at(b, at);
        let y = state_at(b, at + RECORD_SIZE);
        return (x == LIVE) & (y == LIVE);
    }
    false
}

// From a place on, past pairs of live records up to an end: most are live, and no more is asked of them.
fn live_from(b: &[u8], at: usize, end: usize) -> usize
    requires { Stretch b.now at end }
    ensures { LiveTo b.now at end result }
{
    let mut a = at;
    // Stays a while: a step is two records, as long as both are live.
    while live_pair(b, a, end) {
        a += 2 * RECORD_SIZE;
    }
    a
}

// The records from a place up to an end that are contested, and that are withdrawn.
fn others_from(b: &[u8], at: usize, end: usize) -> Others
    requires { Stretch b.now at end }
    ensures { OthersIn b.now at end result }
{
    let mut t = Others {
        contested: 0,
        withdrawn: 0,
    };
    let mut a = at;
    // Stays a while: a step is a record's 32 bytes.
    while a < end {
        t = t.more(state_at(b, a));
        a += RECORD_SIZE;
    }
    t
}

// So many records from a place on, by their states: what is neither contested nor withdrawn is live.
fn tally_run(b: &[u8], at: usize, count: u16) -> Tally
    requires { Stretch b.now at (at + record_size * count) }
    ensures { TallyOf b.now at count result }
{
    let end = at + RECORD_SIZE * (count as usize);
    let a = live_from(b, at, end);
    let t = others_from(b, a, end);
    Tally {
        live: count - (t.contested + t.withdrawn),
        contested: t.contested,
        withdrawn: t.withdrawn,
    }
}

// Whether a page fits a book at a member, from the place behind the calls of the members below it.
fn fits_from(page: &[u8], b: &[u8], at: usize, member: u16) -> bool
    requires le_member { 1 ≤ member }
    requires up_to { UpTo b.now member at }
    ensures { result ≡ fits_at page.now (calls_of b.now) member }
{
    let p = tab_place(member);
    if page.len() < p + TAB_SIZE {
        return false;
    }
    let given = tab_at(page, p);
    if !has_run(b, at, member, given.count) {
        return false;
    }
    let t = tally_run(b, at, given.count);
    let first = ((at - HEADER_SIZE) / RECORD_SIZE) as u16;
    let all = count_at(b) as u16;
    let index = index_for(given.count, first, all);
    let own = Tab {
        index,
        count: given.count,
        live: t.live,
        contested: t.contested,
        withdrawn: t.withdrawn,
    };
    same_tab(given, own)
}

// The lowest member at which a page does not fit a book, or 0: one pass over the book, member by member.
pub fn first_unfit(page: &[u8], b: &[u8]) -> usize
    requires { IsAccepted b.now }
    ensures { result ≡ first_unfit page.now (calls_of b.now) }
{
    let mut at = HEADER_SIZE;
    for member in 1..=MOST_PARTICIPANT {
        if !fits_from(page, b, at, member) {
            return member as usize;
        }
        at += RECORD_SIZE * (count_on(page, member) as usize);
    }
    0
}

// A book's own page, member by member.
pub fn put_tabs(b: &[u8], page: &mut [u8])
    requires accepted { IsAccepted b.now }
    requires page_size_in_bounds { page_size ≤ length page.old }
    ensures { Stores page.old 0 (own_page (calls_of b.now)) page.new }
{
    let mut at = HEADER_SIZE;
    for member in 1..=MOST_PARTICIPANT {
        let t = tab_from(b, at, member);
        put_tab(page, tab_place(member), t);
        at += RECORD_SIZE * (t.count as usize);
    }
}
