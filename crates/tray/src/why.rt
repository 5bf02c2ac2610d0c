// Why a book's record of a key does not stand, in words.
use crate::books::{Mark, lost_at};
use crate::keys::{Own, holder_of, own_of, tell_call, tell_call_of};
use call::{Call, LIVE};
use clerk::args::first;
use clerk::shelf::note_at;
use drawer::apart::{Field, apart_in};
use drawer::stale::Why;
use notice::{beaten_text, differing_text, over_text, revised_text};
use say::Terminal;
use text::told::shown_text;

fn is_apart(x: Call, y: Call) -> bool {
    apart_in(x, y).is_some()
}

// Whether the book that argument i names has a record that contradicts c.
fn contradicts(
    terminal: &Terminal,
    i: usize,
    left: &mut [Mark],
    joined: &[u8],
    x: Call,
    c: Call,
) -> bool {
    match own_of(terminal, i, left, joined, x) {
        None | Some(Own::Standing(_)) => false,
        Some(Own::Other(d, _)) => (d.revision == c.revision) & (d.state == LIVE) & is_apart(d, c),
    }
}

// The first book before argument `until` that does, if one does.
fn rival_of(
    terminal: &Terminal,
    from: usize,
    until: usize,
    left: &mut [Mark],
    joined: &[u8],
    x: Call,
    c: Call,
) -> Option<usize> {
    (from..until).find(|i| contradicts(terminal, *i, left, joined, x, c))
}

// What a call has in a field.
fn value_of(f: Option<Field>, x: Call) -> i64 {
    match f {
        Some(Field::Service) => i64::from(x.service),
        Some(Field::Start) => i64::from(x.start),
        Some(Field::Length) => i64::from(x.length),
        Some(Field::A) => i64::from(x.a),
        Some(Field::B) => i64::from(x.b),
        Some(Field::C) => i64::from(x.c),
        None => 0,
    }
}

// The name that argument i gives a book, without control characters.
fn name_into(terminal: &Terminal, i: usize, out: &mut [u8]) -> usize {
    let mut name = io::buffer();
    let n = say::word(terminal, i, &mut name);
    shown_text(&name[..n], out)
}

// Words of two books, by their names: that of argument h, and that of argument i.
fn tell_of_two<F: FnOnce(&[u8], &[u8], &mut [u8]) -> usize>(
    terminal: &Terminal,
    h: usize,
    i: usize,
    words: F,
)
    requires { F.IsAlwaysCallable words }
{
    let mut one = io::buffer();
    let k = name_into(terminal, h, &mut one);
    let mut other = io::buffer();
    let l = name_into(terminal, i, &mut other);
    let mut out = io::large_buffer();
    let n = words(first(&one, k), first(&other, l), &mut out);
    say::text(terminal, first(&out, n));
}

// The book of argument h has x, which stands, withdrawn or contested; the book of argument i has c.
fn tell_beaten(terminal: &Terminal, h: usize, x: Call, i: usize, c: Call) {
    tell_of_two(terminal, h, i, |holder, file, out| {
        beaten_text(x.state, holder, x.revision, file, c.state, c.revision, out)
    });
}

// The same of a higher revision.
fn tell_revised(terminal: &Terminal, h: usize, x: Call, i: usize, c: Call) {
    tell_of_two(terminal, h, i, |holder, file, out| {
        revised_text(holder, x.revision, file, c.revision, out)
    });
}

// No book has x, which is contested at a higher revision than c, which the book of argument i has.
fn tell_over(terminal: &Terminal, x: Call, i: usize, c: Call) {
    let mut name = io::buffer();
    let k = name_into(terminal, i, &mut name);
    let mut out = io::large_buffer();
    let n = over_text(x.revision, first(&name, k), c.revision, &mut out);
    say::text(terminal, &out[..n]);
}

// The book of argument h has d, and the book of argument i has c, which contradicts it.
fn tell_differing(terminal: &Terminal, h: usize, d: Call, i: usize, c: Call) {
    let f = apart_in(d, c);
    let x = value_of(f, d);
    let y = value_of(f, c);
    tell_of_two(terminal, h, i, |one, other, out| {
        differing_text(c.revision, one, other, f, x, y, out)
    });
}

// The rival of c, which contradicts it: the book of argument r.
fn tell_rival(
    terminal: &Terminal,
    r: usize,
    left: &mut [Mark],
    joined: &[u8],
    x: Call,
    i: usize,
    c: Call,
) {
    if let Some(Own::Other(d, _)) = own_of(terminal, r, left, joined, x) {
        tell_differing(terminal, r, d, i, c);
    }
}

// c, which the book of argument i has, is contested at its revision: in the book that holds x, or, where no book has it so, by one before it that contradicts it.
fn tell_contested(
    terminal: &Terminal,
    from: usize,
    left: &mut [Mark],
    joined: &[u8],
    x: Call,
    holder: Option<usize>,
    i: usize,
    c: Call,
) {
    if let Some(h) = holder {
        tell_beaten(terminal, h, x, i, c);
        return;
    }
    let rival = rival_of(terminal, from, i, left, joined, x, c);
    if lost_at(terminal, from, left).is_some() {
        return;
    }
    if let Some(r) = rival {
        tell_rival(terminal, r, left, joined, x, i, c);
    }
}

// c, which the book of argument i has, is of a lower revision than x, which a book holds, or none.
fn tell_lower(terminal: &Terminal, x: Call, holder: Option<usize>, i: usize, c: Call) {
    match holder {
        Some(h) => tell_revised(terminal, h, x, i, c),
        None => tell_over(terminal, x, i, c),
    }
}

// Why c, which the book of argument i has, does not stand. A withdrawal that stands is in a book; where that has changed meanwhile, the program's own name is told, and the last line says so.
fn tell_why(
    terminal: &Terminal,
    from: usize,
    left: &mut [Mark],
    joined: &[u8],
    x: Call,
    holder: Option<usize>,
    i: usize,
    c: Call,
    why: Why,
) {
    match why {
        Why::Withdrawn => tell_beaten(terminal, holder.unwrap_or(0), x, i, c),
        Why::Higher => tell_lower(terminal, x, holder, i, c),
        Why::Contested => tell_contested(terminal, from, left, joined, x, holder, i, c),
        Why::Other => note_at(terminal, i, b"has changed while it was read"),
    }
}

// What the book that argument i names has, and why that does not stand, if it does not.
fn tell_book(
    terminal: &Terminal,
    from: usize,
    left: &mut [Mark],
    joined: &[u8],
    x: Call,
    holder: Option<usize>,
    i: usize,
) {
    match own_of(terminal, i, left, joined, x) {
        None => {}
        Some(Own::Standing(c)) => tell_call_of(terminal, i, c),
        Some(Own::Other(c, why)) => {
            tell_call_of(terminal, i, c);
            tell_why(terminal, from, left, joined, x, holder, i, c, why);
        }
    }
}

// The key of x, which stands: what stands, what each book has, and why that does not stand; no more once a book is lost.
pub fn tell_key(terminal: &Terminal, from: usize, left: &mut [Mark], joined: &[u8], x: Call) {
    tell_call(terminal, b"stands", x);
    let holder = holder_of(terminal, from, left, joined, x);
    if lost_at(terminal, from, left).is_some() {
        return;
    }
    for i in from..say::arguments(terminal) {
        tell_book(terminal, from, left, joined, x, holder, i);
    }
}
