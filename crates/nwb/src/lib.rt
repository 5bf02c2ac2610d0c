// The plants' C library: the functions of include/nwb.h, each thin over the proved operation that it is named after.
// The number is returned; every other answer goes through a cell, which is always written.
#![tactic(auto)]

ghost use Rattle.std.specs.Prelude.{◌≡◌, [], ◌∷◌};
ghost use Rattle.book.specs.Check.{check};
ghost use Rattle.book.specs.Write.{writing};
ghost use Rattle.join.specs.Joining.{joining};
ghost use Rattle.lookup.specs.Lookup.{which};
ghost use Rattle.ramp.specs.Bytes.{ramping_bytes};
ghost use Rattle.score.specs.Scoring.{scoring};
ghost use Rattle.tabs.specs.Outcome.{tabling, joining_tabs};
ghost use Rattle.units.specs.Money.{grains_to_fen};
ghost use Rattle.nwb.specs.Told.{given_header, given_member, given_call, ToldCheck, ToldWrite, ToldJoin, ToldTabs, ToldJoinTabs, ToldFind, ToldScore, ToldRamp, ToldShare};

use book::write::{write_none, write_one};
use book::{Header, place_of};
use call::Call;
use lookup::Place;
use pay::Member;
use units::{Grains, Kw};

#[unsafe(no_mangle)]
pub extern "C" fn nwb_check(b: &[u8], place: &mut u64) -> u32
    ensures { ToldCheck (check b.now) result place.new }
{
    let v = book::check(b);
    *place = v.place as u64;
    v.number
}

#[unsafe(no_mangle)]
pub extern "C" fn nwb_none(
    area: u8,
    year: u16,
    month: u8,
    out: &mut [u8],
    place: &mut u64,
    length: &mut u64,
) -> u32
    ensures { ToldWrite (writing (given_header area year month) [] out.old)
        result place.new length.new out.new }
{
    let w = write_none(Header { area, year, month }, out);
    *place = w.place as u64;
    *length = w.length as u64;
    w.number
}

#[unsafe(no_mangle)]
pub extern "C" fn nwb_one(
    area: u8,
    year: u16,
    month: u8,
    participant: u16,
    service: u8,
    state: u8,
    number: u32,
    revision: u32,
    start: u16,
    minutes: u16,
    a: i32,
    b: u32,
    c: u32,
    out: &mut [u8],
    place: &mut u64,
    length: &mut u64,
) -> u32
    ensures { ToldWrite
        (writing (given_header area year month) (given_call participant service state number revision start minutes a b c ∷ []) out.old)
        result place.new length.new out.new }
{
    let x = Call {
        participant,
        service,
        state,
        number,
        revision,
        start,
        length: minutes,
        a,
        b,
        c,
    };
    let one = write_one(Header { area, year, month }, x, out);
    *place = one.place as u64;
    *length = one.length as u64;
    one.number
}

#[unsafe(no_mangle)]
pub extern "C" fn nwb_join(
    first: &[u8],
    second: &[u8],
    out: &mut [u8],
    place: &mut u64,
    length: &mut u64,
    turns: &mut u64,
) -> u32
    ensures { ToldJoin (joining first.now second.now out.old)
        result place.new length.new turns.new out.new }
{
    let joined = join::join(first, second, out);
    *place = joined.place as u64;
    *length = joined.length as u64;
    *turns = joined.turns as u64;
    joined.number
}

#[unsafe(no_mangle)]
pub extern "C" fn nwb_tabs(book: &[u8], tabs: &mut [u8], place: &mut u64) -> u32
    ensures { ToldTabs (tabling book.now tabs.old) result place.new tabs.new }
{
    let made = tabs::tabs(book, tabs);
    *place = made.place as u64;
    made.number
}

#[unsafe(no_mangle)]
pub extern "C" fn nwb_join_tabs(
    first: &[u8],
    tabs: &[u8],
    second: &[u8],
    out: &mut [u8],
    page: &mut [u8],
    place: &mut u64,
    length: &mut u64,
    turns: &mut u64,
) -> u32
    ensures { ToldJoinTabs
        (joining_tabs first.now tabs.now second.now out.old page.old)
        result place.new length.new turns.new out.new page.new }
{
    let both = tabs::join_tabs(first, tabs, second, out, page);
    *place = both.place as u64;
    *length = both.length as u64;
    *turns = both.turns as u64;
    both.number
}

#[unsafe(no_mangle)]
pub extern "C" fn nwb_find(
    first: &[u8],
    second: &[u8],
    participant: u16,
    number: u32,
    offset: &mut u64,
) -> u32
    ensures { ToldFind (which first.now second.now participant number) result offset.new }
{
    match lookup::which(first, second, participant, number) {
        Place::Nowhere => {
            *offset = 0;
            0
        }
        Place::InFirst(i) => {
            *offset = place_of(i) as u64;
            1
        }
        Place::InSecond(j) => {
            *offset = place_of(j) as u64;
            2
        }
    }
}

#[unsafe(no_mangle)]
pub extern "C" fn nwb_score(
    participant: u16,
    kind: u8,
    rated: u32,
    b: &[u8],
    series: &[u32],
    place: &mut u64,
    grains: &mut u64,
    fen: &mut u64,
) -> u32
    ensures { ToldScore (scoring (given_member participant kind rated) b.now series.now)
        result place.new grains.new fen.new }
{
    let m = Member {
        number: participant,
        kind,
        rated: Kw(rated),
    };
    let s = score::score(m, b, series);
    *place = s.place as u64;
    *grains = s.grains.0;
    *fen = s.fen.0;
    s.number
}

#[unsafe(no_mangle)]
pub extern "C" fn nwb_ramp(
    participant: u16,
    kind: u8,
    rated: u32,
    actions: &[u8],
    place: &mut u64,
    grains: &mut u64,
) -> u32
    ensures { ToldRamp (ramping_bytes (given_member participant kind rated) actions.now)
        result place.new grains.new }
{
    let m = Member {
        number: participant,
        kind,
        rated: Kw(rated),
    };
    let hour = ramp::ramping_bytes(m, actions);
    *place = hour.place as u64;
    *grains = hour.grains.0;
    hour.number
}

#[unsafe(no_mangle)]
pub extern "C" fn nwb_fen(grains: u64) -> u64
    ensures { result ≡ grains_to_fen grains }
{
    Grains(grains).to_fen().0
}

#[unsafe(no_mangle)]
pub extern "C" fn nwb_share(
    part: u32,
    lines: &[u8],
    out: &mut [u8],
    place: &mut u64,
    gap: &mut i64,
) -> u32
    ensures { ToldShare part lines.now out.old out.new result place.new gap.new }
{
    let shared = share_bytes::share_bytes(part, lines, out);
    *place = shared.place as u64;
    *gap = shared.gap.0;
    shared.number
}
