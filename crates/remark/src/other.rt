// A book of another month or area than those before it.
ghost use Rattle.std.specs.Prelude.{length};
ghost use Rattle.io.specs.Counts.{IsPrefixLen};
ghost use Rattle.render.specs.Room.{Renders};
ghost use Rattle.form.specs.Form.{most_with};
ghost use Rattle.remark.specs.Forms.{other_month_form};
ghost use Rattle.remark.specs.Remarks.{other_month_text};

use crate::forms::OTHER_MONTH;
use book::Header;
use form::say_with;

// Of which month and area a book is, and of which those before it.
pub fn other_month_text(what: &[u8], h: Header, before: Header, out: &mut [u8]) -> usize
    ensures renders { Renders (most_with other_month_form (length what.now) 0) (other_month_text what.now h before) out.old out.new result }
    ensures prefix_len { IsPrefixLen result out.new }
{
    say_with(
        &OTHER_MONTH,
        &[
            h.month as u64,
            h.year as u64,
            h.area as u64,
            before.month as u64,
            before.year as u64,
            before.area as u64,
        ],
        what,
        b"",
        out,
    )
}
