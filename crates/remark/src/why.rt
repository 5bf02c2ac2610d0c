// What is wrong with a field of a call.
ghost use Rattle.std.specs.Prelude.{◌≡◌};
ghost use Rattle.call.specs.Limits.{limits_of};
ghost use Rattle.remark.specs.Remarks.{or_unnamed, length_why, row, bad_a, bad_by};

use call::service::{Limits, STABILITY_TRIP};
use call::{Call, LIVE, MOST_PARTICIPANT, WITHDRAWN};
use field::{Field, limits_of};
use form::signed_bits32;
use units::calendar::MINUTES_PER_QUARTER;

// What may be wrong: nothing, as 0; the last four bytes, which no field has; and what is told of a field, in the form's order.
pub const LAST_FOUR: u8 = 1;

pub const OUTSIDE: u8 = 2;

pub const ABOVE: u8 = 3;

pub const BELOW: u8 = 4;

pub const UNEVEN: u8 = 5;

pub const BEYOND: u8 = 6;

pub const UNNAMED: u8 = 7;

pub const NOT_LIVE: u8 = 8;

// A field's number as it goes into the form, the least and the most that it may be, and what is wrong with it.
// Stays a number: the form has a flag for each thing that may be wrong, and the definitions set it by one comparison; of an enum each flag would be a definition of eight cases.
#[derive(Clone, Copy)]
pub struct Bad {
    pub number: u64,
    pub least: u64,
    pub most: u64,
    pub why: u8,
}

// What is wrong where a call may have the field, or else that it may not.
#[tactic(auto, unfolding(crate::specs::Remarks::or_unnamed))]
fn or_unnamed(may: bool, why: u8, x: Call) -> u8
    ensures { result ≡ or_unnamed may why x }
{
    if may {
        return why;
    }
    if x.state == LIVE {
        return UNNAMED;
    }
    NOT_LIVE
}

// What is wrong with a length that is not too long for the service.
#[tactic(auto, unfolding(crate::specs::Remarks::length_why))]
fn length_why(l: Limits, x: Call) -> u8
    ensures { result ≡ length_why l x }
{
    if l.quarters & (x.length % MINUTES_PER_QUARTER != 0) {
        return UNEVEN;
    }
    if x.length < l.shortest {
        return BELOW;
    }
    BEYOND
}

fn row(number: u64, least: u64, most: u64, why: u8) -> Bad
    ensures { result ≡ row number least most why }
{
    Bad {
        number,
        least,
        most,
        why,
    }
}

// The one field with a sign.
#[tactic(auto, unfolding(crate::specs::Remarks::bad_a))]
fn bad_a(l: Limits, x: Call) -> Bad
    ensures { result ≡ bad_a l x }
{
    let number = signed_bits32(x.a);
    let least = signed_bits32(l.low);
    let most = signed_bits32(l.high);
    row(number, least, most, or_unnamed(0 < l.high, OUTSIDE, x))
}

// Field by field; nothing is wrong where there is no field.
#[tactic(auto, unfolding(crate::specs::Remarks::bad_by))]
pub fn bad_of(f: Option<Field>, x: Call) -> Bad
    ensures { result ≡ bad_by (limits_of x.service) f x }
{
    let l = limits_of(x.service);
    match f {
        None => row(0, 0, 0, 0),
        Some(Field::Participant) => row(x.participant as u64, 1, MOST_PARTICIPANT as u64, OUTSIDE),
        Some(Field::State) => row(x.state as u64, 0, WITHDRAWN as u64, OUTSIDE),
        Some(Field::Service) => row(
            x.service as u64,
            1,
            STABILITY_TRIP as u64,
            or_unnamed(x.state == LIVE, OUTSIDE, x),
        ),
        Some(Field::Revision) => row(x.revision as u64, 1, 0, BELOW),
        Some(Field::Start) => row(x.start as u64, 0, 0, or_unnamed(l.quarters, UNEVEN, x)),
        Some(Field::Length) => row(
            x.length as u64,
            l.shortest as u64,
            0,
            or_unnamed(x.length <= l.longest, length_why(l, x), x),
        ),
        Some(Field::A) => bad_a(l, x),
        Some(Field::B) => row(x.b as u64, 0, l.b as u64, or_unnamed(l.b != 0, ABOVE, x)),
        Some(Field::C) => row(x.c as u64, 0, l.c as u64, or_unnamed(l.c != 0, ABOVE, x)),
        Some(Field::Reserved) => row(0, 0, 0, LAST_FOUR),
    }
}
