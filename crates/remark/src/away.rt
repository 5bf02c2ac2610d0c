// A call that scoring turns away: not open to the kind (12), against an earlier call (13), contested (14). And a minute at which a window is not cut.
ghost use Rattle.std.specs.Prelude.{◌≡◌};
ghost use Rattle.io.specs.Counts.{IsPrefixLen};
ghost use Rattle.render.specs.Room.{Renders};
ghost use Rattle.form.specs.Form.{most_of};
ghost use Rattle.remark.specs.Forms.{not_open_form, clash_form, contested_form, not_inside_form};
ghost use Rattle.remark.specs.Remarks.{not_open_values, not_open_text, clash_text, contested_text, not_inside_text};

use crate::forms::{CLASH, CONTESTED, NOT_INSIDE, NOT_OPEN};
use book::Header;
use call::Call;
use call::service::{
    AGC_AVAILABILITY, BLACK_START, DEEP_PEAK, FREQUENCY_EVENT, RESERVE, STANDBY, START_STOP,
};
use form::{flag, say, signed_bits32};
use pay::kind::{COAL, GAS, HYDRO};
use units::Kw;

// Beside the call, the plant and the month: which fields are told, and what is open instead.
#[tactic(auto, unfolding(crate::specs::Remarks::not_open_values, crate::specs::Remarks::wanted_values))]
fn not_open_values(x: Call, kind: u8, rated: Kw, h: Header) -> [u64; 18]
    ensures { result ≡ not_open_values x kind rated.0 h }
{
    let window = x.service == RESERVE;
    let event = flag(x.service == FREQUENCY_EVENT);
    let told = flag(window | (x.service == FREQUENCY_EVENT));
    let a = signed_bits32(x.a);
    let coal = flag((x.service == DEEP_PEAK) | (x.service == STANDBY));
    let three = flag((x.service == START_STOP) | (window & ((kind < COAL) | (HYDRO < kind))));
    let rating = flag(window & (kind == COAL));
    let none = flag(window & ((kind == GAS) | (kind == HYDRO)));
    let bought = flag(x.service == BLACK_START);
    let most = flag(x.service == AGC_AVAILABILITY);
    [
        x.number as u64,
        x.service as u64,
        told,
        a,
        event,
        x.b as u64,
        kind as u64,
        rated.0 as u64,
        h.month as u64,
        h.year as u64,
        coal,
        three,
        rating,
        none,
        kind as u64,
        bought,
        most,
        event,
    ]
}

// That a call's service, or its fields, are not open to a plant in a month.
pub fn not_open_text(x: Call, kind: u8, rated: Kw, h: Header, out: &mut [u8]) -> usize
    ensures renders { Renders (most_of not_open_form) (not_open_text x kind rated.0 h) out.old out.new result }
    ensures prefix_len { IsPrefixLen result out.new }
{
    let values = not_open_values(x, kind, rated, h);
    say(&NOT_OPEN, &values, out)
}

// That an earlier call, y, stands against a call.
pub fn clash_text(x: Call, y: Call, out: &mut [u8]) -> usize
    ensures renders { Renders (most_of clash_form) (clash_text x y) out.old out.new result }
    ensures prefix_len { IsPrefixLen result out.new }
{
    let overlaps = flag(x.service <= STANDBY);
    let beside = y.number as u64;
    say(
        &CLASH,
        &[
            x.number as u64,
            overlaps,
            beside,
            y.start as u64,
            y.length as u64,
            x.service as u64,
            beside,
        ],
        out,
    )
}

// That a call is contested.
pub fn contested_text(x: Call, out: &mut [u8]) -> usize
    ensures renders { Renders (most_of contested_form) (contested_text x) out.old out.new result }
    ensures prefix_len { IsPrefixLen result out.new }
{
    say(&CONTESTED, &[x.number as u64], out)
}

// That a minute is no quarter hour inside a window, and where that runs.
pub fn not_inside_text(x: Call, out: &mut [u8]) -> usize
    ensures renders { Renders (most_of not_inside_form) (not_inside_text x) out.old out.new result }
    ensures prefix_len { IsPrefixLen result out.new }
{
    say(&NOT_INSIDE, &[x.start as u64, x.length as u64], out)
}
