// The month of one service, minute by minute.
ghost use Rattle.std.specs.Prelude.{◌≡◌, ◌*◌, ◌≤◌, length};
ghost use Rattle.units.specs.Month.{most_minutes};
ghost use Rattle.book.specs.Book.{most_keys, size_of, record_at, calls_from};
ghost use Rattle.pay.specs.Member.{most_rated};
ghost use Rattle.pay.specs.Sum.{total};
ghost use Rattle.reckon.specs.Reckoning.{windows_of, output_at, minute_at};
ghost use Rattle.reckon.specs.Inner.{Placed, calls_at, most_minute};

use crate::minute::window_minute;
use crate::windows::{first_over, windows_of};
use pay::Member;
use units::{Grains, Kw};

// The output of a minute, which is its quarter hour's, and 0 where the series has none.
pub fn output_at(series: &[u32], minute: u32) -> Kw
    ensures { result.0 ≡ output_at series.now minute }
{
    Kw(series.get((minute / 15) as usize).copied().unwrap_or(0))
}

// What a minute pays: by the first of the windows at these places that covers it, or nothing.
pub fn minute_at(member: Member, b: &[u8], places: &[usize], series: &[u32], minute: u32) -> Grains
    requires rated_le_most_rated { member.rated.0 ≤ most_rated }
    requires placed { Placed b.now places.now }
    ensures { (result.0 ≡ minute_at member series.now (calls_at b.now places.now) minute) × (result.0 ≤ most_minute) }
{
    match first_over(b, places, minute) {
        Some(x) => window_minute(member, x, output_at(series, minute)),
        None => Grains(0),
    }
}

// So many minutes of the month, from its first on.
fn minutes_walked(
    member: Member,
    b: &[u8],
    places: &[usize],
    series: &[u32],
    minutes: u32,
) -> Grains
    requires rated_le_most_rated { member.rated.0 ≤ most_rated }
    requires placed { Placed b.now places.now }
    requires minutes_le_most_minutes { minutes ≤ most_minutes }
    ensures { (result.0 ≡ total (minute_at member series.now (calls_at b.now places.now)) 0 minutes) × (result.0 ≤ minutes * most_minute) }
{
    let mut sum: u64 = 0;
    for minute in 0..minutes {
        let pay = minute_at(member, b, places, series, minute);
        sum += pay.0;
    }
    Grains(sum)
}

// The month of a service: the member's windows among the first n records, then the walk.
// Stays by hand: n is a number of records, no length of the bytes, which begin with the header.
pub fn walked(
    member: Member,
    service: u8,
    b: &[u8],
    n: usize,
    series: &[u32],
    minutes: u32,
) -> Grains
    requires rated_le_most_rated { member.rated.0 ≤ most_rated }
    requires n_in_bounds { size_of n ≤ length b.now }
    requires n_le_most_keys { n ≤ most_keys }
    requires minutes_le_most_minutes { minutes ≤ most_minutes }
    ensures { (result.0 ≡ total (minute_at member series.now (windows_of member service (calls_from b.now 0 n))) 0 minutes) × (result.0 ≤ minutes * most_minute) }
{
    let windows = windows_of(member, service, b, n);
    minutes_walked(member, b, &windows.at[..windows.count], series, minutes)
}
