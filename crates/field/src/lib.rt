// Which field of a record is bad, where a book or a call is refused by 5: the first whose condition fails, the fields before it taken as given.
#![tactic(auto)]

ghost use Rattle.std.specs.Prelude.{◌≡◌};
ghost use Rattle.call.specs.Limits.{limits_of};
ghost use Rattle.field.specs.Field.{service_fits, start_fits, length_fits, a_fits, bad_field};
ghost use Rattle.field.specs.Record.{bad_record};
ghost use Rattle.field.specs.Inner.{bad_term};

use book::{MOST_RECORDS, header_at, place_of, record_at};
use call::layout::reserved_at;
use call::service::{
    AGC_AVAILABILITY, AGC_CONTRIBUTION, ANY_MINUTES, AVC, BLACK_START, DEEP_PEAK, FREQUENCY_EVENT,
    LEAST_MOVED, Limits, MOST_CALLED, MOST_MOVED, MOST_RATE, RESERVE, STABILITY_TRIP, STANDBY,
    START_STOP,
};
use call::{Call, LIVE, MOST_PARTICIPANT, RECORD_SIZE, WITHDRAWN};
use units::calendar::{MINUTES_PER_QUARTER, minutes_of};

// The fields in the order in which they are asked: the record's, but the state before the service, which depends on it.
#[derive(Clone, Copy)]
pub enum Field {
    Participant,
    State,
    Service,
    Revision,
    Start,
    Length,
    A,
    B,
    C,
    Reserved,
}

// A record as it stands, and its bad field, where it has one.
#[derive(Clone, Copy)]
pub struct BadRecord {
    pub call: Call,
    pub field: Option<Field>,
}

// Limits that leave a field nothing but 0.
const NOTHING: Limits = Limits {
    quarters: false,
    latest: 0,
    shortest: 0,
    longest: 0,
    low: 0,
    high: 0,
    b: 0,
    c: 0,
};

// The row of a service as numbers.
pub fn limits_of(service: u8) -> Limits
    ensures { result ≡ limits_of service }
{
    let any = ANY_MINUTES;
    let by_minutes = Limits {
        latest: any,
        shortest: 1,
        longest: any,
        ..NOTHING
    };
    let by_rate = Limits {
        b: MOST_RATE,
        ..NOTHING
    };
    match service {
        0 => NOTHING,
        DEEP_PEAK => Limits {
            quarters: true,
            latest: any,
            shortest: MINUTES_PER_QUARTER,
            longest: any,
            ..NOTHING
        },
        RESERVE => Limits {
            quarters: true,
            latest: any,
            shortest: MINUTES_PER_QUARTER,
            longest: any,
            high: MOST_CALLED,
            ..NOTHING
        },
        START_STOP => by_minutes,
        STANDBY => by_minutes,
        BLACK_START => NOTHING,
        AGC_AVAILABILITY => by_rate,
        AGC_CONTRIBUTION => by_rate,
        FREQUENCY_EVENT => Limits {
            latest: any,
            longest: any,
            low: LEAST_MOVED,
            high: MOST_MOVED as i32,
            b: MOST_MOVED,
            c: 1,
            ..NOTHING
        },
        AVC => Limits {
            longest: any,
            b: MOST_RATE,
            c: MOST_RATE,
            ..NOTHING
        },
        STABILITY_TRIP => Limits {
            latest: any,
            ..NOTHING
        },
        _ => Limits {
            shortest: 1,
            ..NOTHING
        },
    }
}

fn service_fits(x: Call) -> bool
    ensures { result ≡ service_fits x }
{
    if x.state == LIVE {
        return (1 <= x.service) & (x.service <= STABILITY_TRIP);
    }
    x.service == 0
}

fn start_fits(l: Limits, x: Call) -> bool
    ensures { result ≡ start_fits l x }
{
    (!l.quarters | (x.start % MINUTES_PER_QUARTER == 0)) & (x.start <= l.latest)
}

// The sum is one of 32 bits, so that it does not wrap.
fn length_fits(l: Limits, minutes: u32, x: Call) -> bool
    ensures { result ≡ length_fits l minutes x }
{
    let end = u32::from(x.start) + u32::from(x.length);
    (!l.quarters | (x.length % MINUTES_PER_QUARTER == 0))
        & (l.shortest <= x.length)
        & (x.length <= l.longest)
        & (end <= minutes)
}

fn a_fits(l: Limits, x: Call) -> bool
    ensures { result ≡ a_fits l x }
{
    (l.low <= x.a) & (x.a <= l.high)
}

// The bad field among those that the service asks for, and the four last bytes.
fn bad_term(minutes: u32, x: Call, reserved: u32) -> Option<Field>
    ensures { result ≡ bad_term minutes x reserved }
{
    let l = limits_of(x.service);
    if !start_fits(l, x) {
        return Some(Field::Start);
    }
    if !length_fits(l, minutes, x) {
        return Some(Field::Length);
    }
    if !a_fits(l, x) {
        return Some(Field::A);
    }
    if l.b < x.b {
        return Some(Field::B);
    }
    if l.c < x.c {
        return Some(Field::C);
    }
    if reserved != 0 {
        return Some(Field::Reserved);
    }
    None
}

// The bad field of a record with these four last bytes, in a month of so many minutes, or none.
pub fn bad_field(minutes: u32, x: Call, reserved: u32) -> Option<Field>
    ensures { result ≡ bad_field minutes x reserved }
{
    let member = (1 <= x.participant) & (x.participant <= MOST_PARTICIPANT);
    if !member {
        return Some(Field::Participant);
    }
    if WITHDRAWN < x.state {
        return Some(Field::State);
    }
    if !service_fits(x) {
        return Some(Field::Service);
    }
    if x.revision < 1 {
        return Some(Field::Revision);
    }
    bad_term(minutes, x, reserved)
}

// Record i of a book, and its bad field; none where the bytes have no such record.
pub fn bad_record(b: &[u8], i: usize) -> Option<BadRecord>
    ensures { result ≡ bad_record b.now i }
{
    if MOST_RECORDS <= i {
        return None;
    }
    let at = place_of(i);
    if b.len() < at + RECORD_SIZE {
        return None;
    }
    let h = header_at(b);
    let call = record_at(b, i);
    let reserved = reserved_at(b, at);
    let field = bad_field(minutes_of(h.year, h.month), call, reserved);
    Some(BadRecord { call, field })
}
