// What is told of the drawer, as bytes in a buffer that the caller lends. Each function answers how long its text is. It answers 0, and
// leaves the buffer alone, where that is shorter than the most bytes its text may have.
#![tactic(auto)]

ghost use Rattle.std.specs.Prelude.{[], ◌∷◌, ◌≡◌, eqb};
ghost use Rattle.io.specs.Counts.{IsPrefixLen};
ghost use Rattle.render.specs.Room.{Renders};
ghost use Rattle.call.specs.Revising.{live, withdrawn};
ghost use Rattle.form.specs.Form.{flag, filled, most_of};
ghost use Rattle.notice.specs.Forms.{Tells, beaten_form, revised_form, over_form, field_flags, differing_form, differing_values, refused_with_form, no_line_for_form};
ghost use Rattle.notice.specs.Forms.{counted_form, counted_values, unsettled_form};

use call::{LIVE, WITHDRAWN};
use drawer::apart::Field;
use form::{flag, say, say_with};
use forms::{BEATEN, COUNTED, DIFFERING, NO_LINE_FOR, OVER, REFUSED_WITH, REVISED, UNSETTLED};
use le::bits64;

mod forms;

// The highest revision that a record holds.
const HIGHEST_REVISION: u32 = 0xffff_ffff;

// How many of each: records that do not stand; calls that are contested, closed to the member's kind, or against another; calls of members
// without a line; bad lines of the register; series, ramping files and books that are not taken; books that add nothing; the part; sharing's
// refusals.
#[derive(Clone, Copy)]
pub struct Counted {
    pub stale: usize,
    pub contested: usize,
    pub closed: usize,
    pub against: usize,
    pub unlisted: usize,
    pub register: usize,
    pub series: usize,
    pub ramping: usize,
    pub books: usize,
    pub spare: usize,
    pub part: usize,
    pub sharing: usize,
}

// A record that stands, withdrawn or contested, and a book that has the call live or contested all the same.
pub fn beaten_text(
    stands: u8,
    holder: &[u8],
    r: u32,
    file: &[u8],
    state: u8,
    s: u32,
    out: &mut [u8],
) -> usize
    ensures tells { Tells beaten_form holder.now file.now (flag (eqb stands withdrawn) ∷ r ∷ flag (eqb state live) ∷ s ∷ []) out.old out.new result }
    ensures prefix_len { IsPrefixLen result out.new }
{
    let gone = flag(stands == WITHDRAWN);
    let open = flag(state == LIVE);
    let values = [gone, r as u64, open, s as u64];
    say_with(&BEATEN, &values, holder, file, out)
}

// A revision in one book over that in another.
pub fn revised_text(holder: &[u8], r: u32, file: &[u8], s: u32, out: &mut [u8]) -> usize
    ensures tells { Tells revised_form holder.now file.now (r ∷ s ∷ []) out.old out.new result }
    ensures prefix_len { IsPrefixLen result out.new }
{
    say_with(&REVISED, &[r as u64, s as u64], holder, file, out)
}

// A revision in which books contradict each other, so that none of them has what stands, over that in another book.
pub fn over_text(r: u32, file: &[u8], s: u32, out: &mut [u8]) -> usize
    ensures tells { Tells over_form file.now [] (r ∷ s ∷ []) out.old out.new result }
    ensures prefix_len { IsPrefixLen result out.new }
{
    say_with(&OVER, &[r as u64, s as u64], file, b"", out)
}

// A field, by which of the words of the form is shown.
fn field_flags(f: Option<Field>) -> [u64; 7]
    ensures { result ≡ field_flags f }
{
    match f {
        Some(Field::Service) => [1, 0, 0, 0, 0, 0, 0],
        Some(Field::Start) => [0, 1, 0, 0, 0, 0, 0],
        Some(Field::Length) => [0, 0, 1, 0, 0, 0, 0],
        Some(Field::A) => [0, 0, 0, 1, 0, 0, 0],
        Some(Field::B) => [0, 0, 0, 0, 1, 0, 0],
        Some(Field::C) => [0, 0, 0, 0, 0, 1, 0],
        None => [0, 0, 0, 0, 0, 0, 1],
    }
}

// Two books that contradict each other at one revision: in what, and which revision decides it, where there is a higher one.
pub fn differing_text(
    r: u32,
    one: &[u8],
    other: &[u8],
    f: Option<Field>,
    x: i64,
    y: i64,
    out: &mut [u8],
) -> usize
    ensures tells { Tells differing_form one.now other.now (differing_values r f x y) out.old out.new result }
    ensures prefix_len { IsPrefixLen result out.new }
{
    let w = field_flags(f);
    let a = bits64(x);
    let b = bits64(y);
    let higher = flag(r < HIGHEST_REVISION);
    let n = r as u64;
    let values = [
        n,
        w[0],
        w[1],
        w[2],
        w[3],
        w[4],
        w[5],
        w[6],
        a,
        b,
        higher,
        n + 1,
    ];
    say_with(&DIFFERING, &values, one, other, out)
}

// That a file is refused, and where.
pub fn refused_with_text(number: u32, place: usize, out: &mut [u8]) -> usize
    ensures renders { Renders (most_of refused_with_form) (filled refused_with_form (number ∷ place ∷ [])) out.old out.new result }
    ensures prefix_len { IsPrefixLen result out.new }
{
    say(&REFUSED_WITH, &[number as u64, place as u64], out)
}

// What a register lacks.
pub fn no_line_for_text(member: u16, out: &mut [u8]) -> usize
    ensures renders { Renders (most_of no_line_for_form) (filled no_line_for_form (member ∷ [])) out.old out.new result }
    ensures prefix_len { IsPrefixLen result out.new }
{
    say(&NO_LINE_FOR, &[member as u64], out)
}

// How many of each are listed.
pub fn counted_text(c: Counted, out: &mut [u8]) -> usize
    ensures renders { Renders (most_of counted_form) (filled counted_form (counted_values c)) out.old out.new result }
    ensures prefix_len { IsPrefixLen result out.new }
{
    let values = [
        c.stale as u64,
        c.contested as u64,
        c.closed as u64,
        c.against as u64,
        c.unlisted as u64,
        c.register as u64,
        c.series as u64,
        c.ramping as u64,
        c.books as u64,
        c.spare as u64,
        c.part as u64,
        c.sharing as u64,
    ];
    say(&COUNTED, &values, out)
}

// The last line where the month would not be settled: how many faults there are.
pub fn unsettled_text(n: usize, out: &mut [u8]) -> usize
    ensures renders { Renders (most_of unsettled_form) (filled unsettled_form (n ∷ [])) out.old out.new result }
    ensures prefix_len { IsPrefixLen result out.new }
{
    say(&UNSETTLED, &[n as u64], out)
}
