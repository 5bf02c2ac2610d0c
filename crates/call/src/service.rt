// What a sound record is: the paper's table of services.
ghost use Rattle.std.specs.Prelude.{◌≡◌};
ghost use Rattle.call.specs.Limits.{row, limits_allow, call_is_sound};
ghost use Rattle.call.specs.Inner.{within};

use crate::{Call, LIVE, MOST_PARTICIPANT, WITHDRAWN};
use units::calendar::MINUTES_PER_QUARTER;

// The services, by their numbers in the paper.
pub const DEEP_PEAK: u8 = 1;

pub const RESERVE: u8 = 2;

pub const START_STOP: u8 = 3;

pub const STANDBY: u8 = 4;

pub const BLACK_START: u8 = 5;

pub const AGC_AVAILABILITY: u8 = 6;

pub const AGC_CONTRIBUTION: u8 = 7;

pub const FREQUENCY_EVENT: u8 = 8;

pub const AVC: u8 = 9;

pub const STABILITY_TRIP: u8 = 10;

// A rate in hundredths of a percent is at most 100%.
pub const MOST_RATE: u32 = 10_000;

// A reserve window calls for at most so many kW.
pub const MOST_CALLED: i32 = 4_000_000;

// A frequency event moves at most so many Wh, up or down.
pub const MOST_MOVED: u32 = 1_000_000_000;

pub const LEAST_MOVED: i32 = -1_000_000_000;

// Any start or length: a field of 16 bits holds no more.
pub const ANY_MINUTES: u16 = 65535;

// What a service asks of start, length, a, b and c.
#[derive(Clone, Copy)]
pub struct Limits {
    pub quarters: bool,
    pub latest: u16,
    pub shortest: u16,
    pub longest: u16,
    pub low: i32,
    pub high: i32,
    pub b: u32,
    pub c: u32,
}

fn row(
    quarters: bool,
    latest: u16,
    shortest: u16,
    longest: u16,
    low: i32,
    high: i32,
    b: u32,
    c: u32,
) -> Limits
    ensures { result ≡ row quarters latest shortest longest low high b c }
{
    Limits {
        quarters,
        latest,
        shortest,
        longest,
        low,
        high,
        b,
        c,
    }
}

impl Limits {
    // Only a service by quarters divides.
    fn allow(self, x: Call) -> bool
        ensures { result ≡ limits_allow self x }
    {
        if self.quarters & (x.start % MINUTES_PER_QUARTER != 0) {
            return false;
        }
        (!self.quarters | (x.length % MINUTES_PER_QUARTER == 0))
            & (x.start <= self.latest)
            & (self.shortest <= x.length)
            & (x.length <= self.longest)
            & (self.low <= x.a)
            & (x.a <= self.high)
            & (x.b <= self.b)
            & (x.c <= self.c)
    }
}

// One row a service. Service 0, of a contested or withdrawn record, has all zeros; past 10 no length will do.
// A row is held against the call where it stands, so that a record meets only the tests that its service has.
fn within(service: u8, start: u16, minutes: u16, a: i32, b: u32, c: u32) -> bool
    ensures { result ≡ within service start minutes a b c }
{
    let x = Call {
        participant: 0,
        service: 0,
        state: 0,
        number: 0,
        revision: 0,
        start,
        length: minutes,
        a,
        b,
        c,
    };
    match service {
        0 => row(false, 0, 0, 0, 0, 0, 0, 0).allow(x),
        DEEP_PEAK => row(
            true,
            ANY_MINUTES,
            MINUTES_PER_QUARTER,
            ANY_MINUTES,
            0,
            0,
            0,
            0,
        )
        .allow(x),
        RESERVE => row(
            true,
            ANY_MINUTES,
            MINUTES_PER_QUARTER,
            ANY_MINUTES,
            0,
            MOST_CALLED,
            0,
            0,
        )
        .allow(x),
        START_STOP => row(false, ANY_MINUTES, 1, ANY_MINUTES, 0, 0, 0, 0).allow(x),
        STANDBY => row(false, ANY_MINUTES, 1, ANY_MINUTES, 0, 0, 0, 0).allow(x),
        BLACK_START => row(false, 0, 0, 0, 0, 0, 0, 0).allow(x),
        AGC_AVAILABILITY => row(false, 0, 0, 0, 0, 0, MOST_RATE, 0).allow(x),
        AGC_CONTRIBUTION => row(false, 0, 0, 0, 0, 0, MOST_RATE, 0).allow(x),
        FREQUENCY_EVENT => row(
            false,
            ANY_MINUTES,
            0,
            ANY_MINUTES,
            LEAST_MOVED,
            MOST_MOVED as i32,
            MOST_MOVED,
            1,
        )
        .allow(x),
        AVC => row(false, 0, 0, ANY_MINUTES, 0, 0, MOST_RATE, MOST_RATE).allow(x),
        STABILITY_TRIP => row(false, ANY_MINUTES, 0, 0, 0, 0, 0, 0).allow(x),
        _ => row(false, 0, 1, 0, 0, 0, 0, 0).allow(x),
    }
}

impl Call {
    // Whether the record is sound in a month of so many minutes. The sum is one of 32 bits, so that it does not wrap.
    // The table is asked in two places: asked in one, the test grows too large for the compiler to set into a check's loop.
    pub fn is_sound(self, minutes: u32) -> bool
        ensures { result ≡ call_is_sound minutes self }
    {
        let end = self.start as u32 + self.length as u32;
        let framed = (1 <= self.participant)
            & (self.participant <= MOST_PARTICIPANT)
            & (1 <= self.revision)
            & (end <= minutes);
        if !framed {
            return false;
        }
        if self.state == LIVE {
            if self.service == 0 {
                return false;
            }
            return within(
                self.service,
                self.start,
                self.length,
                self.a,
                self.b,
                self.c,
            );
        }
        let struck = (self.state <= WITHDRAWN) & (self.service == 0);
        struck & within(0, self.start, self.length, self.a, self.b, self.c)
    }
}
