// What people read of a member's score, part by part.
ghost use Rattle.io.specs.Counts.{IsPrefixLen};
ghost use Rattle.render.specs.Room.{Renders};
ghost use Rattle.form.specs.Form.{most_of};
ghost use Rattle.report.specs.Forms.{part_form, part_text, energy_form, energy_text, explained_form, explained_text};

use crate::forms::{ENERGY, EXPLAINED, PART};
use form::{say, wh_bits};
use units::{Grains, Wh};

// What a call was paid by, and its grains.
pub fn part_text(quarters: u32, rate: u64, wh: Wh, grains: Grains, out: &mut [u8]) -> usize
    ensures renders { Renders (most_of part_form) (part_text quarters rate wh.0 grains.0) out.old out.new result }
    ensures prefix_len { IsPrefixLen result out.new }
{
    let q = quarters as u64;
    let w = wh_bits(wh);
    say(&PART, &[q, q, rate, rate, w, w, grains.0], out)
}

// The month's energy.
pub fn energy_text(wh: Wh, energy: Grains, out: &mut [u8]) -> usize
    ensures renders { Renders (most_of energy_form) (energy_text wh.0 energy.0) out.old out.new result }
    ensures prefix_len { IsPrefixLen result out.new }
{
    let w = wh_bits(wh);
    say(&ENERGY, &[w, w, energy.0], out)
}

// What the ramping hours add, and all the grains.
pub fn explained_text(hours: u16, added: Grains, grains: Grains, out: &mut [u8]) -> usize
    ensures renders { Renders (most_of explained_form) (explained_text hours added.0 grains.0) out.old out.new result }
    ensures prefix_len { IsPrefixLen result out.new }
{
    let h = hours as u64;
    let fen = grains.to_fen();
    say(&EXPLAINED, &[h, h, added.0, grains.0, fen.0, fen.0], out)
}
