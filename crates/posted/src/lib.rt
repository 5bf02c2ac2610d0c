// The month's statement as a file: its text, and the reader of it.
#![tactic(auto)]

ghost use Rattle.std.specs.Prelude.{◌≡◌};
ghost use Rattle.io.specs.Counts.{IsPrefixLen};
ghost use Rattle.render.specs.Room.{Renders};
ghost use Rattle.posted.specs.Posted.{is_settled, most_posted, posted_text};
ghost use Rattle.posted.specs.Reading.{ReadPosted};

use month::{Fault, Statement};
use share::array::seen;

mod line;
mod put;
mod taken;

use line::{read_head, read_members, read_sum};
use put::put_posted;

// The most bytes: 132 of the first line, 27 of R, 26 of the user's amount, and 320 for each of 64 members.
pub const MOST_POSTED: usize = 20665;

#[tactic(auto, unfolding(crate::specs::Posted::is_settled))]
fn is_settled(fault: Fault) -> bool
    ensures { result ≡ is_settled fault }
{
    matches!(fault, Fault::NoFault)
}

// The statement as a text; none of a month that was not settled.
pub fn posted_text(s: Statement, out: &mut [u8]) -> usize
    ensures renders { Renders most_posted (posted_text s) out.old out.new result }
    ensures prefix_len { IsPrefixLen result out.new }
{
    if out.len() < MOST_POSTED {
        return 0;
    }
    if !is_settled(s.fault) {
        return 0;
    }
    let rows = &s.rows[..seen(s.count)];
    put_posted(out, s.header, s.calls, s.part, rows, s.gap, s.user)
}

// A text as the statement that it is the very text of, or the first line, counted from 0, that is none of a statement.
pub fn read_posted(text: &[u8]) -> Result<Statement, usize>
    ensures { ReadPosted text.now result }
{
    let Some((head, rest)) = read_head(text) else {
        return Err(0);
    };
    let (members, rest) = read_members(rest);
    let rows = members.rows;
    let count = members.count;
    let Some((gap, rest)) = read_sum(rest, b"total ") else {
        return Err(count + 1);
    };
    let Some((user, rest)) = read_sum(rest, b"user ") else {
        return Err(count + 2);
    };
    if !rest.is_empty() {
        return Err(count + 3);
    }
    Ok(Statement {
        calls: head.calls,
        gap,
        user,
        count,
        rows,
        fault: Fault::NoFault,
        part: head.part,
        header: head.header,
    })
}
