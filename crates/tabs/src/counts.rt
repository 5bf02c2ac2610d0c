// The counts of a page: one more, one less, and the tabs that they give.
ghost use Rattle.std.specs.Prelude.{◌≡◌, ◌+◌, ◌<◌, ◌≤◌, length, take};
ghost use Rattle.le.specs.Le.{Stores};
ghost use Rattle.call.specs.Services.{most_participant};
ghost use Rattle.tabs.specs.Tabs.{tab_place, page_size, tab_bytes, page_bytes, tabs_on};
ghost use Rattle.tabs.specs.Forward.{sum_to};
ghost use Rattle.tabs.specs.Inner.{state_place, Counted, count_on, hit, nowhere, Recounted, retab, states_on, retabs};

use crate::Tab;
use crate::page::{PAGE_SIZE, put_tab, tab_at, tab_place};
use crate::walk::index_for;
use call::MOST_PARTICIPANT;
use le::{put_u16, put_u64, u16_at, u64_at};

// The given page's bytes, eight at a time: the counts of a member that is not named stay as they are given.
// Stays by hand: `copy_from_slice` of so many bytes asks for memmove, which a host in C need not have; the library asks for memset alone.
pub fn copy_page(given: &[u8], page: &mut [u8])
    requires page_size_in_bounds { page_size ≤ length given.now }
    requires page_size_in_bounds_2 { page_size ≤ length page.old }
    ensures { Stores page.old 0 (take page_size given.now) page.new }
{
    for word in 0..PAGE_SIZE / 8 {
        put_u64(page, 8 * word, u64_at(given, 8 * word));
    }
}

// Where the count of a member's calls in a state lies.
fn state_place(member: u16, state: u8) -> usize
    requires { Counted member state }
    ensures { result ≡ state_place member state }
{
    let at = tab_place(member);
    at + (4 + 2 * (state as usize))
}

pub fn add_one(page: &mut [u8], member: u16, state: u8)
    requires page_size_in_bounds { page_size ≤ length page.old }
    requires counted { Counted member state }
    requires state_bound { count_on page.old member state < 65535 }
    ensures { Recounted page.old nowhere (hit member state) page.new }
{
    let at = state_place(member, state);
    let n = u16_at(page, at);
    put_u16(page, at, n + 1);
}

fn take_one(page: &mut [u8], member: u16, state: u8)
    requires page_size_in_bounds { page_size ≤ length page.old }
    requires counted { Counted member state }
    requires bound { 1 ≤ count_on page.old member state }
    ensures { Recounted page.old (hit member state) nowhere page.new }
{
    let at = state_place(member, state);
    let n = u16_at(page, at);
    put_u16(page, at, n - 1);
}

// A call of a member that was in one state is in another.
pub fn move_one(page: &mut [u8], member: u16, from: u8, to: u8)
    requires page_size_in_bounds { page_size ≤ length page.old }
    requires counted { Counted member from }
    requires counted_2 { Counted member to }
    requires bound { 1 ≤ count_on page.old member from }
    requires to_bound { count_on page.old member to < 65535 }
    ensures { Recounted page.old (hit member from) (hit member to) page.new }
{
    if from != to {
        take_one(page, member, from);
        add_one(page, member, to);
    }
}

// A member's tab by its three counts. Answers with the calls of the members up to it.
fn set_tab(page: &mut [u8], member: u16, below: u16, all: u16) -> u16
    requires page_size_in_bounds { page_size ≤ length page.old }
    requires counted { Counted member 0 }
    requires member_bound { below + states_on page.old member < 65536 }
    ensures value { result ≡ below + states_on page.old member }
    ensures stores { Stores page.old (tab_place member)
        (tab_bytes (retab below all (tabs_on page.old member))) page.new }
{
    let at = tab_place(member);
    let t = tab_at(page, at);
    let count = t.live + t.contested + t.withdrawn;
    let index = index_for(count, below, all);
    let tab = Tab {
        index,
        count,
        live: t.live,
        contested: t.contested,
        withdrawn: t.withdrawn,
    };
    put_tab(page, at, tab);
    below + count
}

// Each member's tab by the counts, in one pass: a member's calls stand behind those of the members below it.
pub fn set_tabs(page: &mut [u8], all: u16)
    requires page_size_in_bounds { page_size ≤ length page.old }
    requires most_participant_bound { sum_to (states_on page.old) most_participant < 65536 }
    ensures { Stores page.old 0 (page_bytes (retabs page.old all)) page.new }
{
    let mut below: u16 = 0;
    for member in 1..=MOST_PARTICIPANT {
        below = set_tab(page, member, below, all);
    }
}
