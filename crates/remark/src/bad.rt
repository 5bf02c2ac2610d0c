// A bad field of a call, a number outside its limits, a record of a file, in words.
ghost use Rattle.std.specs.Prelude.{◌≡◌, length};
ghost use Rattle.io.specs.Counts.{IsPrefixLen};
ghost use Rattle.render.specs.Room.{Renders};
ghost use Rattle.form.specs.Form.{most_with};
ghost use Rattle.remark.specs.Forms.{field_form, outside_form};
ghost use Rattle.remark.specs.Remarks.{field_name, bad_values, field_text, outside_text, record_text, most_record};

use crate::forms::{FIELD, OUTSIDE, RECORD};
use crate::why;
use crate::why::{Bad, bad_of};
use call::Call;
use field::Field;
use form::{flag, say_with};

// A field's name; the last four bytes have none, and where there is no field there is none.
#[tactic(auto, unfolding(crate::specs::Remarks::field_name))]
fn name_of(f: Option<Field>) -> &'static [u8]
    ensures { result.now ≡ field_name f }
{
    match f {
        None => b"",
        Some(Field::Participant) => b"MEMBER",
        Some(Field::State) => b"STATE",
        Some(Field::Service) => b"SERVICE",
        Some(Field::Revision) => b"REVISION",
        Some(Field::Start) => b"START",
        Some(Field::Length) => b"LENGTH",
        Some(Field::A) => b"A",
        Some(Field::B) => b"B",
        Some(Field::C) => b"C",
        Some(Field::Reserved) => b"",
    }
}

// In the order of the form: whether a field is told, its number, and each case with its numbers.
#[tactic(auto, unfolding(crate::specs::Remarks::bad_values))]
fn bad_values(b: Bad, x: Call) -> [u64; 16]
    ensures { result ≡ bad_values b x }
{
    [
        flag(why::LAST_FOUR < b.why),
        b.number,
        flag(b.why == why::OUTSIDE),
        b.least,
        b.most,
        flag(b.why == why::ABOVE),
        b.most,
        flag(b.why == why::BELOW),
        b.least,
        flag(b.why == why::UNEVEN),
        flag(b.why == why::BEYOND),
        x.start as u64,
        flag(b.why == why::UNNAMED),
        x.service as u64,
        flag(b.why == why::NOT_LIVE),
        flag(b.why == why::LAST_FOUR),
    ]
}

// A bad field, what it has and what it should have; nothing where there is none.
pub fn field_text(f: Option<Field>, x: Call, out: &mut [u8]) -> usize
    ensures renders { Renders (most_with field_form (length (field_name f)) 0) (field_text f x) out.old out.new result }
    ensures prefix_len { IsPrefixLen result out.new }
{
    let values = bad_values(bad_of(f, x), x);
    say_with(&FIELD, &values, name_of(f), b"", out)
}

// A number by its name, and the limits outside of which it stands.
pub fn outside_text(name: &[u8], n: u64, low: u64, high: u64, out: &mut [u8]) -> usize
    ensures renders { Renders (most_with outside_form (length name.now) 0) (outside_text name.now n low high) out.old out.new result }
    ensures prefix_len { IsPrefixLen result out.new }
{
    say_with(&OUTSIDE, &[n, low, high], name, b"", out)
}

// The n-th record of a file, counted from 1, and what is wrong with it.
pub fn record_text(what: &[u8], n: usize, why: &[u8], out: &mut [u8]) -> usize
    ensures renders { Renders (most_record what.now why.now) (record_text what.now n why.now) out.old out.new result }
    ensures prefix_len { IsPrefixLen result out.new }
{
    say_with(&RECORD, &[n as u64], what, why, out)
}
