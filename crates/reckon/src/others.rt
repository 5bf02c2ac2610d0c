// The services that have no windows, which go the first way.
ghost use Rattle.std.specs.Prelude.{◌≡◌, true, ℕ, ◌*◌, ◌<◌, ◌≤◌, length};
ghost use Rattle.units.specs.Month.{minutes_per_quarter};
ghost use Rattle.call.specs.Limits.{call_is_sound};
ghost use Rattle.book.specs.Book.{most_keys, HasRecord, size_of, record_at};
ghost use Rattle.score.specs.Scoring.{is_own_live};
ghost use Rattle.score.specs.Inner.{Small, RecordIsSound};
ghost use Rattle.reckon.specs.Inner.{OtherTurned, OthersEarned};

use crate::windows::is_own_live;
use book::record_at;
use call::Call;
use call::service::{DEEP_PEAK, RESERVE};
use pay::Member;
use pay::event::{added, event_wh};
use pay::live::{is_by_energy, live_pay};
use units::{Grains, Wh};

// What a record gives, or many: grains and energy.
#[derive(Clone, Copy)]
pub struct Other {
    pub grains: Grains,
    pub wh: Wh,
}

// A live call of the member: an event that gives energy, a window, which gives nothing here, or what is paid by its rate.
fn other_live(member: Member, series: &[u32], x: Call) -> Other
    requires small { Small member series.now }
    requires x_value { call_is_sound (minutes_per_quarter * length series.now) x ≡ true }
    requires x_value_2 { is_own_live member x ≡ true }
    ensures { OtherTurned member x result.grains.0 result.wh.0 }
{
    if is_by_energy(member, x) {
        let wh = event_wh(x.a, x.b, x.c);
        return Other {
            grains: Grains(0),
            wh,
        };
    }
    let service = x.service;
    let grains = match service {
        DEEP_PEAK | RESERVE => Grains(0),
        _ => live_pay(member, series, x),
    };
    Other { grains, wh: Wh(0) }
}

// Record i.
fn other_at(member: Member, b: &[u8], series: &[u32], i: usize) -> Other
    requires small { Small member series.now }
    requires has_record { HasRecord b.now i }
    requires record_is_sound { RecordIsSound b.now series.now i }
    ensures { OtherTurned member (record_at b.now i) result.grains.0 result.wh.0 }
{
    let x = record_at(b, i);
    if is_own_live(member, x) {
        return other_live(member, series, x);
    }
    Other {
        grains: Grains(0),
        wh: Wh(0),
    }
}

// The first n records together.
// Stays by hand: n is a number of records, no length of the bytes, which begin with the header.
pub fn others_earned(member: Member, b: &[u8], series: &[u32], n: usize) -> Other
    requires small { Small member series.now }
    requires n_in_bounds { size_of n ≤ length b.now }
    requires n_le_most_keys { n ≤ most_keys }
    requires by_index { (i : ℕ) → i < n → RecordIsSound b.now series.now i }
    ensures { OthersEarned member (record_at b.now) n result.grains.0 result.wh.0 }
{
    let mut grains: u64 = 0;
    let mut wh = Wh(0);
    for i in 0..n {
        let other = other_at(member, b, series, i);
        grains += other.grains.0;
        wh = added(wh, other.wh);
    }
    Other {
        grains: Grains(grains),
        wh,
    }
}
