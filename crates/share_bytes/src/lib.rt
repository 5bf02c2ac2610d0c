// Sharing over bytes, 24 a line in, 16 a line out and the user's 16 behind them, as include/nwb.h has them. The lines are read where they lie, as
// often as they are needed: no copy of them is made.
#![tactic(auto)]

ghost use Rattle.std.specs.Prelude.{◌≡◌, [], ◌∷◌, ◌++◌, ℕ, ◌+◌, ◌*◌, ◌^◌, ◌<◌, ◌≤◌, length, get_or, replicate};
ghost use Rattle.le.specs.Le.{Stores};
ghost use Rattle.apportion.specs.Apportion.{total, apportion};
ghost use Rattle.share.specs.Sharing.{compensated, assessed, weights_of, parts_by, sharing_refused, most_number, most_compensation, most_part};
ghost use Rattle.share.specs.Forms.{answer_of};
ghost use Rattle.share.specs.Limits.{LinesWithin};
ghost use Rattle.share.specs.Inner.{GapIs};
ghost use Rattle.share_bytes.specs.Bytes.{line_size, fields_at, reserved_zero, bytes_are_sound, first_bad_bytes};
ghost use Rattle.share_bytes.specs.Bytes.{part_size, part_bytes, parts_bytes, user_part, BytesShared};
ghost use Rattle.share_bytes.specs.Inner.{spelt_lines, BytesSettled};

use share::array::{refused, seen};
use share::limits::{MOST_COMPENSATION, MOST_PART, PART_PLACE};
use share::settle::{Gap, Totals, finish, gap_of, line_is_sound, weight_of};
use share::{Answer, Line};
use units::{Fen, Mwh, SignedFen, Thousandths};

pub const LINE_SIZE: usize = 24;

pub const PART_SIZE: usize = 16;

fn reserved_zero(s: &[u8], at: usize) -> bool
    requires { at + line_size ≤ length s.now }
    ensures { result ≡ reserved_zero s.now at }
{
    let four = le::u32_at(s, at + 20);
    if four != 0 {
        return false;
    }
    le::u8_at(s, at + 3) == 0
}

fn fields_at(s: &[u8], at: usize) -> Line
    requires { at + line_size ≤ length s.now }
    ensures { result ≡ fields_at s.now at }
{
    let number = le::u16_at(s, at);
    let status = le::u8_at(s, at + 2);
    let energy = le::u32_at(s, at + 4);
    let compensation = le::u64_at(s, at + 8);
    let assessment = le::u32_at(s, at + 16);
    Line {
        number,
        status,
        energy: Mwh(energy),
        compensation: Fen(compensation),
        assessment: Thousandths(assessment),
        share: SignedFen(0),
        amount: SignedFen(0),
    }
}

// Whether the line at a place is sound after the number `before`.
fn bytes_are_sound(s: &[u8], at: usize, before: u16) -> bool
    requires { at + line_size ≤ length s.now }
    ensures { result ≡ bytes_are_sound before s.now at }
{
    if !reserved_zero(s, at) {
        return false;
    }
    let l = fields_at(s, at);
    line_is_sound(l, before)
}

// The place of the first of `count` lines that is not sound, or count.
fn first_bad_bytes(s: &[u8], count: usize) -> usize
    requires { line_size * count ≤ length s.now }
    ensures { result ≡ first_bad_bytes 0 s.now 0 count }
{
    let mut before: u16 = 0;
    for i in 0..count {
        let at = LINE_SIZE * i;
        if !bytes_are_sound(s, at, before) {
            return i;
        }
        let l = fields_at(s, at);
        before = l.number;
    }
    count
}

// C and A in one pass.
// Stays two functions: share adds up lines of a slice, and no copy of the lines is made here.
fn sums_at(s: &[u8], count: usize) -> Totals
    requires count_in_bounds { line_size * count ≤ length s.now }
    requires count_bound { compensated (spelt_lines s.now count) < 2 ^ 63 }
    requires count_bound_2 { assessed (spelt_lines s.now count) < 2 ^ 63 }
    ensures compensated_value { result.compensated.0 ≡ compensated (spelt_lines s.now count) }
    ensures assessed_value { result.assessed.0 ≡ assessed (spelt_lines s.now count) }
{
    let mut c: u64 = 0;
    let mut a: u64 = 0;
    for i in 0..count {
        let l = fields_at(s, LINE_SIZE * i);
        let fen = l.assessment.to_fen();
        c += l.compensation.0;
        a += fen.0;
    }
    Totals {
        compensated: Fen(c),
        assessed: Fen(a),
    }
}

// The weights of as many lines as there is room for.
fn weights_into(s: &[u8], negative: bool, weights: &mut [u64])
    requires weights_in_bounds { line_size * length weights.old ≤ length s.now }
    requires lines_within { LinesWithin (spelt_lines s.now (length weights.old)) }
    ensures { weights.new ≡ weights_of negative (spelt_lines s.now (length weights.old)) }
{
    for i in 0..weights.len() {
        let l = fields_at(s, LINE_SIZE * i);
        weights[i] = weight_of(l, negative);
    }
}

// The shares of an amount by weights, into a room of zeros.
fn shares_into(amount: Fen, weights: &[u64], shares: &mut [u64])
    requires weights_len_bound { length weights.now ≤ most_number }
    requires amount_bound { amount.0 < 2 ^ 63 }
    requires weights_bound { total weights.now < 2 ^ 62 }
    requires weights_nonzero { 0 < amount.0 → 0 < total weights.now }
    requires shares_value { shares.old ≡ replicate (length weights.now) 0 }
    ensures { shares.new ≡ apportion amount.0 weights.now }
{
    let mut rests = [0u64; 64];
    let n = amount.0;
    let count = weights.len();
    if 0 < n {
        apportion::apportion_into(n, weights, shares, &mut rests[..count]);
    }
}

fn write_part(share: SignedFen, amount: SignedFen, out: &mut [u8], at: usize)
    requires { at + part_size ≤ length out.old }
    ensures { Stores out.old at (part_bytes (record { share = share.0; amount = amount.0 })) out.new }
{
    le::put_i64(out, at, share.0);
    le::put_i64(out, at + 8, amount.0);
}

// The share and the amount of each line, straight to its place.
fn write_parts(s: &[u8], shares: &[u64], negative: bool, out: &mut [u8])
    requires shares_in_bounds { line_size * length shares.now ≤ length s.now }
    requires lines_within { LinesWithin (spelt_lines s.now (length shares.now)) }
    requires shares_in_bounds_2 { part_size * length shares.now ≤ length out.old }
    requires by_index { (k : ℕ) → get_or shares.now k 0 ≤ most_compensation }
    ensures { Stores out.old 0
        (parts_bytes (parts_by negative (spelt_lines s.now (length shares.now)) shares.now))
        out.new }
{
    for i in 0..shares.len() {
        let l = fields_at(s, LINE_SIZE * i);
        let done = finish(l, Fen(shares[i]), negative);
        let share = done.share;
        let amount = done.amount;
        write_part(share, amount, out, PART_SIZE * i);
    }
}

fn accepted(gap: SignedFen, user: SignedFen) -> Answer
    ensures { result ≡ record { number = 0; place = 0; gap = gap; user = user } }
{
    Answer {
        number: 0,
        place: 0,
        gap,
        user,
    }
}

// What each line gets of an amount by its weight, to its place, and the user's amount twice behind them.
fn write_shared(
    s: &[u8],
    weights: &[u64],
    amount: Fen,
    negative: bool,
    user: SignedFen,
    out: &mut [u8],
)
    requires weights_len_bound { length weights.now ≤ most_number }
    requires weights_in_bounds { line_size * length weights.now ≤ length s.now }
    requires lines_within { LinesWithin (spelt_lines s.now (length weights.now)) }
    requires part_size_in_bounds { part_size * length weights.now + part_size ≤ length out.old }
    requires amount_le_most_compensation { amount.0 ≤ most_compensation }
    requires weights_bound { total weights.now < 2 ^ 62 }
    requires weights_nonzero { 0 < amount.0 → 0 < total weights.now }
    ensures { Stores out.old 0
        (parts_bytes (parts_by negative (spelt_lines s.now (length weights.now)) (apportion amount.0 weights.now)
        ++ (user_part user.0 ∷ [])))
        out.new }
{
    let mut shares = [0u64; 64];
    let count = weights.len();
    shares_into(amount, weights, &mut shares[..count]);
    write_parts(s, &shares[..count], negative, out);
    write_part(user, user, out, PART_SIZE * count);
}

// 16, 9, or the sharing of the generators' R.
fn share_gap(s: &[u8], count: usize, g: Gap, out: &mut [u8]) -> Answer
    requires count_le_most_number { count ≤ most_number }
    requires count_in_bounds { line_size * count ≤ length s.now }
    requires lines_within { LinesWithin (spelt_lines s.now count) }
    requires count_bound { compensated (spelt_lines s.now count) ≤ most_compensation }
    requires amount_le_most_compensation { g.amount.0 ≤ most_compensation }
    ensures { (part : ℕ) → GapIs part (spelt_lines s.now count) g.amount.0 g.negative g.whole.0 g.user.0
        → BytesSettled part (spelt_lines s.now count) out.old out.new result }
{
    let mut ws = [0u64; 64];
    weights_into(s, g.negative, &mut ws[..count]);
    let amount = g.amount;
    let all = apportion::total(&ws[..count]);
    if (0 < amount.0) & (all == 0) {
        return refused(16, 0);
    }
    if out.len() < PART_SIZE * count + PART_SIZE {
        return refused(9, 0);
    }
    let user = g.user;
    write_shared(s, &ws[..count], amount, g.negative, user, out);
    let whole = g.whole;
    accepted(whole, user)
}

// 15, 16, 9, or the sharing, where the part and every line are sound.
// Stays two functions: share settles lines of a slice, and no copy of the lines is made here.
fn settle_bytes(part: u32, s: &[u8], count: usize, out: &mut [u8]) -> Answer
    requires part_le_most_part { part ≤ most_part }
    requires count_le_most_number { count ≤ most_number }
    requires count_in_bounds { line_size * count ≤ length s.now }
    requires lines_within { LinesWithin (spelt_lines s.now count) }
    ensures { BytesSettled part (spelt_lines s.now count) out.old out.new result }
{
    let t = sums_at(s, count);
    if MOST_COMPENSATION < t.compensated.0 {
        return refused(15, 0);
    }
    share_gap(s, count, gap_of(part, t), out)
}

// The sharing of the lines in `input`, what each gets and the user's amount to the front of `out`; `part` is the generators', in hundredths of a
// percent.
pub fn share_bytes(part: u32, input: &[u8], out: &mut [u8]) -> Answer
    ensures { BytesShared part input.now out.old out.new result }
{
    if input.len() % LINE_SIZE != 0 {
        return refused(1, 0);
    }
    if MOST_PART < part {
        return refused(10, PART_PLACE);
    }
    let count = input.len() / LINE_SIZE;
    let bad = first_bad_bytes(input, seen(count));
    if bad < count {
        return refused(10, bad);
    }
    settle_bytes(part, input, count, out)
}
