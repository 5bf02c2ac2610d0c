// The series of mean outputs: refusal 11.
ghost use Rattle.std.specs.Prelude.{◌≡◌, false, length};
ghost use Rattle.score.specs.Series.{first_too_much, series_fault};

use book::{Verdict, refused};

// The largest output, in kW.
pub const MOST_OUTPUT: u32 = 5_000_000;

// The place of a series that has not the month's length.
const LENGTH_PLACE: usize = 65535;

// Whether any value is above the limit. For speed it looks at all of them, several at a time: a series is mostly good.
fn any_too_much(series: &[u32]) -> bool
    ensures { result ≡ false → first_too_much series.now ≡ length series.now }
{
    let mut any = false;
    for output in series {
        any |= MOST_OUTPUT < *output;
    }
    any
}

// The lowest index of a value above the limit, or the length.
fn first_too_much(series: &[u32]) -> usize
    ensures { result ≡ first_too_much series.now }
{
    for (i, output) in series.iter().enumerate() {
        if MOST_OUTPUT < *output {
            return i;
        }
    }
    series.len()
}

// 11, the length, then the lowest bad index; or zeros.
pub fn series_fault(series: &[u32], quarters: usize) -> Verdict
    ensures { result ≡ series_fault series.now quarters }
{
    if series.len() != quarters {
        return refused(11, LENGTH_PLACE);
    }
    if !any_too_much(series) {
        return refused(0, 0);
    }
    let at = first_too_much(series);
    if at < series.len() {
        return refused(11, at);
    }
    refused(0, 0)
}
