// A series of outputs, from a file.
ghost use Rattle.std.specs.Prelude.{◌≡◌, length};
ghost use Rattle.tally.specs.Room.{series_room, ReadsWithin};

use clerk::args::first;
use clerk::load::load_or;
use say::Terminal;
use tables::series::read_series;

// The quarter hours of 31 days, and one place more, so that a series that is too long shows.
pub const SERIES_ROOM: usize = 31 * 24 * 4 + 1;

// Room for one series. The callers are handed it, since a walk over a function that writes such an array out is dear.
pub fn series_room() -> [u32; SERIES_ROOM]
    ensures { series_room ≡ length result }
{
    [0; SERIES_ROOM]
}

// The values of a file's lines in the first places of `out`, as many as there is room for: how many these are. Where the file cannot be read, one line has said why, of a run that ends
// by it, or of one that goes on.
pub fn read_or(terminal: &Terminal, path: &[u8], goes_on: bool, out: &mut [u32]) -> Option<usize>
    ensures { ReadsWithin (length out.old) result }
{
    let mut text = io::large_buffer();
    let n = load_or(terminal, path, goes_on, &mut text)?;
    Some(read_series(first(&text, n), out))
}

// The same in a run that ends where the file cannot be read.
pub fn read_file(terminal: &Terminal, path: &[u8], out: &mut [u32]) -> Option<usize>
    ensures { ReadsWithin (length out.old) result }
{
    read_or(terminal, path, false, out)
}

// So many values from a place on, as far as there are any.
pub fn part(series: &[u32], at: usize, n: usize) -> &[u32] {
    let rest = &series[at.min(series.len())..];
    &rest[..n.min(rest.len())]
}
