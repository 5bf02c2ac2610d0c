// The bytes of a page: ten for each member's tab, member 1 first.
ghost use Rattle.std.specs.Prelude.{◌≡◌, ◌+◌, ◌*◌, ◌≤◌, length};
ghost use Rattle.le.specs.Le.{Stores};
ghost use Rattle.tabs.specs.Tabs.{tab_size, tab_place, tab_at, tab_bytes, tabs_on, same_tab};

use crate::Tab;
use le::{put_u16, u16_at};

// The bytes of a tab, and of a page.
pub const TAB_SIZE: usize = 10;

pub const PAGE_SIZE: usize = 640;

// Where a member's tab lies.
pub fn tab_place(member: u16) -> usize
    requires { 1 ≤ member }
    ensures { result ≡ tab_place member }
{
    TAB_SIZE * ((member as usize) - 1)
}

pub fn tab_at(page: &[u8], at: usize) -> Tab
    requires { at + tab_size ≤ length page.now }
    ensures { result ≡ tab_at page.now at }
{
    let index = u16_at(page, at);
    let count = u16_at(page, at + 2);
    let live = u16_at(page, at + 4);
    let contested = u16_at(page, at + 6);
    let withdrawn = u16_at(page, at + 8);
    Tab {
        index,
        count,
        live,
        contested,
        withdrawn,
    }
}

// A member's index, and the count of its calls, as a page has them.
pub fn index_on(page: &[u8], member: u16) -> u16
    requires le_member { 1 ≤ member }
    requires member_in_bounds { tab_size * member ≤ length page.now }
    ensures { result ≡ (tabs_on page.now member).index }
{
    tab_at(page, tab_place(member)).index
}

pub fn count_on(page: &[u8], member: u16) -> u16
    requires le_member { 1 ≤ member }
    requires member_in_bounds { tab_size * member ≤ length page.now }
    ensures { result ≡ (tabs_on page.now member).count }
{
    tab_at(page, tab_place(member)).count
}

pub fn put_tab(page: &mut [u8], at: usize, t: Tab)
    requires { at + tab_size ≤ length page.old }
    ensures { Stores page.old at (tab_bytes t) page.new }
{
    put_u16(page, at, t.index);
    put_u16(page, at + 2, t.count);
    put_u16(page, at + 4, t.live);
    put_u16(page, at + 6, t.contested);
    put_u16(page, at + 8, t.withdrawn);
}

pub fn same_tab(t: Tab, u: Tab) -> bool
    ensures { result ≡ same_tab t u }
{
    t == u
}
