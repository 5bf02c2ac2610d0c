// What people read of ramping hours.
ghost use Rattle.io.specs.Counts.{IsPrefixLen};
ghost use Rattle.render.specs.Room.{Renders};
ghost use Rattle.form.specs.Form.{most_of};
ghost use Rattle.report.specs.Forms.{hour_form, hour_text, hours_form, hours_text};

use crate::forms::{HOUR, HOURS};
use form::say;
use units::Grains;

// An hour: how many actions it has, and what it pays.
pub fn hour_text(hour: u16, actions: u16, grains: Grains, out: &mut [u8]) -> usize
    ensures renders { Renders (most_of hour_form) (hour_text hour actions grains.0) out.old out.new result }
    ensures prefix_len { IsPrefixLen result out.new }
{
    say(&HOUR, &[hour as u64, actions as u64, grains.0], out)
}

// The hours: how many there are, and what they pay together.
pub fn hours_text(hours: u16, grains: Grains, out: &mut [u8]) -> usize
    ensures renders { Renders (most_of hours_form) (hours_text hours grains.0) out.old out.new result }
    ensures prefix_len { IsPrefixLen result out.new }
{
    say(&HOURS, &[hours as u64, grains.0], out)
}
