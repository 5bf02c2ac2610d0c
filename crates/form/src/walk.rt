// A form put piece by piece: a run of plain bytes, which is copied at once, and the sign behind it.
ghost use Rattle.std.specs.Prelude.{◌≡◌, true, false, ◌||◌, List, ℕ, ◌+◌, ◌-◌, ◌≤◌, ◌<◌, length, get_or};
ghost use Rattle.form.specs.Form.{is_number, is_sign, next_on, taken_by};
ghost use Rattle.form.specs.Inner.{Plain, Stops, room_left, Walks};

use crate::mark::put_shown;
use render::put_word;

// How far a form is put: the place behind what is put, how many of the form's bytes and of the numbers are used up, and whether bytes are shown
// here.
// Stays a flag: whether bytes are shown goes with a place of the form, and the numbers beside it stand either way.
#[derive(Clone, Copy)]
pub struct Far {
    pub at: usize,
    pub read: usize,
    pub taken: usize,
    pub on: bool,
}

#[tactic(auto, unfolding(crate::specs::Form::is_number))]
fn is_number(c: u8) -> bool
    ensures { result ≡ is_number c }
{
    c.is_ascii_lowercase()
}

#[tactic(auto, unfolding(crate::specs::Form::is_sign))]
pub fn is_sign(c: u8) -> bool
    ensures { result ≡ is_sign c }
{
    (c == b'%') | (c == b'[') | (c == b'|') | (c == b']')
}

// Whether a sign is among four bytes: one test of all of them where the machine has it.
fn sign_in_four(form: &[u8], i: usize) -> bool
    requires { i + 4 ≤ length form.now }
    ensures { result ≡ (is_sign (get_or form.now i 0) || is_sign (get_or form.now (i + 1) 0)
        || is_sign (get_or form.now (i + 2) 0) || is_sign (get_or form.now (i + 3) 0)) }
{
    is_sign(form[i]) | is_sign(form[i + 1]) | is_sign(form[i + 2]) | is_sign(form[i + 3])
}

// Behind plain bytes, four at a time.
fn past_fours(form: &[u8], from: usize) -> usize
    requires { from ≤ length form.now }
    ensures { Plain form.now from result }
{
    let mut i = from;
    // Stays a while: it goes four bytes at a time.
    while 4 <= form.len() - i {
        if sign_in_four(form, i) {
            return i;
        }
        i += 4;
    }
    i
}

// Behind plain bytes, up to a sign or the end.
fn past_ones(form: &[u8], from: usize) -> usize
    requires { from ≤ length form.now }
    ensures plain { Plain form.now from result }
    ensures stops { Stops form.now result }
{
    for i in from..form.len() {
        if is_sign(form[i]) {
            return i;
        }
    }
    form.len()
}

// Where the run of plain bytes from a place on ends.
fn run_end(form: &[u8], from: usize) -> usize
    requires { from ≤ length form.now }
    ensures plain { Plain form.now from result }
    ensures stops { Stops form.now result }
{
    let i = past_fours(form, from);
    past_ones(form, i)
}

fn value_at(values: &[u64], i: usize) -> u64
    ensures { result ≡ get_or values.now i 0 }
{
    values.get(i).copied().unwrap_or(0)
}

// Whether bytes are shown behind a sign.
#[tactic(auto, unfolding(crate::specs::Form::next_on))]
fn next_on(on: bool, c: u8, v: u64) -> bool
    ensures { result ≡ next_on on false c v }
{
    match c {
        b'[' => v != 0,
        b'|' => !on,
        b']' => true,
        _ => on,
    }
}

// How many numbers a sign takes.
#[tactic(auto, unfolding(crate::specs::Form::taken_by))]
fn taken_by_sign(c: u8) -> usize
    ensures value { result ≡ taken_by false c }
    ensures upper_bound { result ≤ 1 }
{
    usize::from(c == b'[')
}

// How many numbers the mark with such a letter takes.
#[tactic(auto, unfolding(crate::specs::Form::taken_by))]
fn taken_by_mark(c: u8) -> usize
    ensures value { result ≡ taken_by true c }
    ensures upper_bound { result ≤ 1 }
{
    usize::from(is_number(c))
}

// A mark, its `%` at a place of a form: shown, or passed over where bytes are not shown.
fn put_mark(out: &mut [u8], form: &[u8], values: &[u64], one: &[u8], other: &[u8], far: Far) -> Far
    requires read_in_bounds { far.read < length form.now }
    requires read_value { get_or form.now far.read 0 ≡ 37 }
    requires taken_le_read { far.taken ≤ far.read }
    requires read_in_bounds_2 { far.at + room_left one.now other.now form.now far.read ≤ length out.old }
    ensures walks { Walks one.now other.now form.now values.now out.old far out.new result }
    ensures read_lt_read { far.read < result.read }
{
    let k = far.read + 1;
    if k == form.len() {
        return Far { read: k, ..far };
    }
    let c = form[k];
    let taken = far.taken + taken_by_mark(c);
    if !far.on {
        return Far {
            read: k + 1,
            taken,
            ..far
        };
    }
    let v = value_at(values, far.taken);
    let at = put_shown(out, far.at, c, v, one, other);
    Far {
        at,
        read: k + 1,
        taken,
        on: true,
    }
}

// The sign at a place of a form.
fn put_sign(out: &mut [u8], form: &[u8], values: &[u64], one: &[u8], other: &[u8], far: Far) -> Far
    requires read_in_bounds { far.read ≤ length form.now }
    requires stops { Stops form.now far.read }
    requires taken_le_read { far.taken ≤ far.read }
    requires read_in_bounds_2 { far.at + room_left one.now other.now form.now far.read ≤ length out.old }
    ensures walks { Walks one.now other.now form.now values.now out.old far out.new result }
    ensures read_le_read { far.read ≤ result.read }
    ensures read_lt_read { far.read < length form.now → far.read < result.read }
{
    if far.read == form.len() {
        return far;
    }
    let c = form[far.read];
    if c == b'%' {
        return put_mark(out, form, values, one, other, far);
    }
    let v = value_at(values, far.taken);
    Far {
        at: far.at,
        read: far.read + 1,
        taken: far.taken + taken_by_sign(c),
        on: next_on(far.on, c, v),
    }
}

// A run of plain bytes: copied at once where bytes are shown, else passed over at once.
fn put_run(out: &mut [u8], form: &[u8], far: Far, to: usize) -> Far
    requires plain { Plain form.now far.read to }
    requires taken_le_read { far.taken ≤ far.read }
    requires room { far.at + (to - far.read) ≤ length out.old }
    ensures by_index { (one other vs : List ℕ) → Walks one other form.now vs out.old far out.new result }
    ensures read { result.read ≡ to }
{
    if !far.on {
        return Far { read: to, ..far };
    }
    let at = put_word(out, far.at, &form[far.read..to]);
    Far {
        at,
        read: to,
        taken: far.taken,
        on: true,
    }
}

// One piece more: a run of plain bytes, and the sign behind it.
pub fn put_on(
    out: &mut [u8],
    form: &[u8],
    values: &[u64],
    one: &[u8],
    other: &[u8],
    far: Far,
) -> Far
    requires read_in_bounds { far.read < length form.now }
    requires taken_le_read { far.taken ≤ far.read }
    requires read_in_bounds_2 { far.at + room_left one.now other.now form.now far.read ≤ length out.old }
    ensures walks { Walks one.now other.now form.now values.now out.old far out.new result }
    ensures read_lt_read { far.read < result.read }
{
    let to = run_end(form, far.read);
    let here = put_run(out, form, far, to);
    put_sign(out, form, values, one, other, here)
}
