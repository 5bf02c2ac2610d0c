// What the desk prints of one run of a day, and of the month behind the runs: lines in a buffer that the caller lends. Each function answers how long its
// text is; 0, and the buffer is left alone, where that is shorter than the most bytes that such a text may have.
#![tactic(auto)]

ghost use Rattle.io.specs.Counts.{IsPrefixLen};
ghost use Rattle.render.specs.Room.{Renders};
ghost use Rattle.form.specs.Form.{most_of};
ghost use Rattle.daily.specs.Forms.{run_form, run_text, month_form, month_text};

use crate::forms::{MONTH, RUN};
use day_runs::runs::DayRun;
use form::say;
use units::{Fen, Grains};

mod forms;

// A run, on one line.
pub fn run_text(r: DayRun, out: &mut [u8]) -> usize
    ensures renders { Renders (most_of run_form) (run_text r) out.old out.new result }
    ensures prefix_len { IsPrefixLen result out.new }
{
    say(
        &RUN,
        &[
            r.from as u64,
            r.upto as u64,
            r.call as u64,
            r.service as u64,
            r.output.0 as u64,
            r.minute.0,
            r.sum.0,
        ],
        out,
    )
}

// What the month pays: its grains, in points too, and its fen, in yuan too, a line each.
pub fn month_text(grains: Grains, fen: Fen, out: &mut [u8]) -> usize
    ensures renders { Renders (most_of month_form) (month_text grains.0 fen.0) out.old out.new result }
    ensures prefix_len { IsPrefixLen result out.new }
{
    say(&MONTH, &[grains.0, fen.0, fen.0, fen.0], out)
}
