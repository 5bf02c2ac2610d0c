// Sharing, step by step: the part, the lines in turn, the sums, the weights, the shares, the lines filled in.
ghost use Rattle.std.specs.Prelude.{◌≡◌, List, ℕ, ◌+◌, ◌*◌, ◌/◌, ◌^◌, ◌<◌, ◌≤◌, ltb, length, get_or, take, pos, nat_abs, ◌-ℤ◌};
ghost use Rattle.apportion.specs.Apportion.{total, apportion};
ghost use Rattle.share.specs.declared.Line.{Line};
ghost use Rattle.share.specs.Sharing.{factor_of, weight_of, weights_of, compensated, assessed, part_of, parts_by};
ghost use Rattle.share.specs.Sharing.{line_is_sound, first_bad_line, sharing_refused, settled, sharing, signed, most_number, most_energy, most_compensation, most_part};
ghost use Rattle.share.specs.Forms.{filled, fill_in, clear, refuse};
ghost use Rattle.share.specs.Limits.{LineWithin, LinesWithin};
ghost use Rattle.share.specs.Inner.{GapIs, Carries};

use crate::limits::{MOST_COMPENSATION, MOST_PART, PART_PLACE, numbers_are_sound};
use crate::{Line, Shared};
use units::{Fen, SignedFen};

// C and A.
#[derive(Clone, Copy)]
pub struct Totals {
    pub compensated: Fen,
    pub assessed: Fen,
}

// R: the generators' of it without its sign, the whole, the user's amount, and whether it is below zero.
#[derive(Clone, Copy)]
pub struct Gap {
    pub amount: Fen,
    pub whole: SignedFen,
    pub user: SignedFen,
    pub negative: bool,
}

// What each line carries, without its sign.
#[derive(Clone, Copy)]
pub struct FenEach(pub [u64; 64]);

// What sharing says before it is filled in: a refusal's number and place, or zeros; R, the user's amount, whether R is below zero, and what each
// line carries of it.
#[derive(Clone, Copy)]
pub struct Carried {
    pub number: u32,
    pub place: usize,
    pub gap: SignedFen,
    pub user: SignedFen,
    pub negative: bool,
    pub shares: FenEach,
}

// The factor of a status; `negative` says that A < C, so that R is below zero.
fn factor_of(negative: bool, status: u8) -> u64
    ensures value { result ≡ factor_of negative status }
    ensures upper_bound { result ≤ 12 }
{
    if status == 0 {
        10
    } else if status == 1 {
        5
    } else if negative {
        12
    } else {
        10
    }
}

pub fn weight_of(l: Line, negative: bool) -> u64
    requires { l.energy.0 ≤ most_energy }
    ensures { result ≡ weight_of negative l }
{
    (l.energy.0 as u64) * factor_of(negative, l.status)
}

// Whether a line is sound after the number `before`.
pub fn line_is_sound(l: Line, before: u16) -> bool
    ensures { result ≡ line_is_sound before l }
{
    numbers_are_sound(
        before as u64,
        l.number as u64,
        l.status as u64,
        l.energy.0 as u64,
        l.compensation.0,
        l.assessment.0 as u64,
    )
}

// The place of the first line that is not sound, or their number.
pub fn first_bad_line(lines: &[Line]) -> usize
    ensures { result ≡ first_bad_line 0 lines.now }
{
    let mut before: u16 = 0;
    for (i, l) in lines.iter().enumerate() {
        if !line_is_sound(*l, before) {
            return i;
        }
        before = l.number;
    }
    lines.len()
}

// C and A in one pass.
fn sums(lines: &[Line]) -> Totals
    requires lines_bound { compensated lines.now < 2 ^ 63 }
    requires lines_bound_2 { assessed lines.now < 2 ^ 63 }
    ensures compensated_value { result.compensated.0 ≡ compensated lines.now }
    ensures assessed_value { result.assessed.0 ≡ assessed lines.now }
{
    let mut c: u64 = 0;
    let mut a: u64 = 0;
    for line in lines {
        let fen = line.assessment.to_fen();
        c += line.compensation.0;
        a += fen.0;
    }
    Totals {
        compensated: Fen(c),
        assessed: Fen(a),
    }
}

// The weights of the lines, in front.
fn weights_of(lines: &[Line], negative: bool) -> [u64; 64]
    requires few { length lines.now ≤ most_number }
    requires lines_within { LinesWithin lines.now }
    ensures { take (length lines.now) result ≡ weights_of negative lines.now }
{
    let mut ws = [0u64; 64];
    for (i, l) in lines.iter().enumerate() {
        ws[i] = weight_of(*l, negative);
    }
    ws
}

// The difference of two amounts, with its sign.
fn difference(a: Fen, b: Fen) -> SignedFen
    requires a_bound { a.0 < 2 ^ 63 }
    requires b_bound { b.0 < 2 ^ 63 }
    ensures { result.0 ≡ pos a.0 -ℤ pos b.0 }
{
    SignedFen((a.0 as i64) - (b.0 as i64))
}

// How far apart two amounts are.
fn apart(a: u64, b: u64) -> Fen
    ensures { result.0 ≡ nat_abs (pos a -ℤ pos b) }
{
    Fen(a.abs_diff(b))
}

// A line with a share and an amount.
pub fn filled(l: Line, share: SignedFen, amount: SignedFen) -> Line
    ensures { result ≡ filled l (record { share = share.0; amount = amount.0 }) }
{
    Line { share, amount, ..l }
}

// A line with its share, with the sign put on, and its amount.
pub fn finish(l: Line, s: Fen, negative: bool) -> Line
    requires line_within { LineWithin l }
    requires s_le_most_compensation { s.0 ≤ most_compensation }
    ensures { result ≡ filled l (part_of negative l s.0) }
{
    let c = l.compensation.0;
    let n = s.0;
    let f = l.assessment.to_fen();
    if negative {
        filled(l, difference(Fen(0), s), difference(Fen(c), Fen(f.0 + n)))
    } else {
        filled(l, difference(s, Fen(0)), difference(Fen(c + n), f))
    }
}

// The lines with share and amount 0.
pub fn clear(mut lines: [Line; 64]) -> [Line; 64]
    ensures { result ≡ clear lines }
{
    for line in lines.iter_mut() {
        *line = filled(*line, SignedFen(0), SignedFen(0));
    }
    lines
}

// The lines with their shares filled in.
pub fn fill_in(lines: &mut [Line], shares: FenEach, negative: bool)
    requires few { length lines.old ≤ most_number }
    requires lines_within { LinesWithin lines.old }
    requires by_index { (k : ℕ) → k < length lines.old → get_or shares.0 k 0 ≤ most_compensation }
    ensures { lines.new ≡ fill_in (parts_by negative lines.old (take (length lines.old) shares.0)) lines.old }
{
    let ss = shares.0;
    for i in 0..lines.len() {
        lines[i] = finish(lines[i], Fen(ss[i]), negative);
    }
}

// The shares of an amount by the weights, in front.
fn shares_of(amount: Fen, weights: &[u64]) -> FenEach
    requires few { length weights.now ≤ most_number }
    requires amount_bound { amount.0 < 2 ^ 63 }
    requires weights_bound { total weights.now < 2 ^ 62 }
    requires nonzero { 0 < amount.0 → 0 < total weights.now }
    ensures { take (length weights.now) result.0 ≡ apportion amount.0 weights.now }
{
    let mut ss = [0u64; 64];
    let mut rs = [0u64; 64];
    let n = amount.0;
    let count = weights.len();
    if 0 < n {
        apportion::apportion_into(n, weights, &mut ss[..count], &mut rs[..count]);
    }
    FenEach(ss)
}

pub fn refuse(number: u32, place: usize, lines: [Line; 64]) -> Shared
    ensures { result ≡ refuse number place lines }
{
    Shared {
        number,
        place,
        gap: SignedFen(0),
        user: SignedFen(0),
        lines: clear(lines),
    }
}

fn refusal(number: u32, place: usize) -> Carried
    requires { 0 < number }
    ensures { (lines : List Line) → Carries lines (sharing_refused number place) result }
{
    Carried {
        number,
        place,
        gap: SignedFen(0),
        user: SignedFen(0),
        negative: false,
        shares: FenEach([0; 64]),
    }
}

// 16, or what each line carries of the generators' R.
fn carry(lines: &[Line], g: Gap) -> Carried
    requires few { length lines.now ≤ most_number }
    requires lines_within { LinesWithin lines.now }
    requires lines_bound { compensated lines.now ≤ most_compensation }
    requires amount_le_most_compensation { g.amount.0 ≤ most_compensation }
    ensures { (part : ℕ) → GapIs part lines.now g.amount.0 g.negative g.whole.0 g.user.0
        → Carries lines.now (settled part lines.now) result }
{
    let ws = weights_of(lines, g.negative);
    let count = lines.len();
    let all = apportion::total(&ws[..count]);
    let amount = g.amount;
    if 0 < amount.0 {
        if all == 0 {
            return refusal(16, 0);
        }
    }
    let shares = shares_of(amount, &ws[..count]);
    let gap = g.whole;
    let user = g.user;
    Carried {
        number: 0,
        place: 0,
        gap,
        user,
        negative: g.negative,
        shares,
    }
}

// Over 10,000, cut toward zero.
fn cut(fen: u64) -> Fen
    ensures { result.0 ≡ fen / most_part }
{
    Fen(fen / (MOST_PART as u64))
}

// The generators' of an amount: times the part, over 10,000, cut.
fn generators_of(part: u32, whole: Fen) -> Fen
    requires part_le_most_part { part ≤ most_part }
    requires whole_le_most_compensation { whole.0 ≤ most_compensation }
    ensures result_value { result.0 ≡ whole.0 * part / most_part }
    ensures result_le_whole { result.0 ≤ whole.0 }
{
    cut(whole.0 * (part as u64))
}

// An amount with the sign of R.
fn signed(negative: bool, amount: Fen) -> SignedFen
    requires { amount.0 < 2 ^ 63 }
    ensures { result.0 ≡ signed negative amount.0 }
{
    if negative {
        difference(Fen(0), amount)
    } else {
        difference(amount, Fen(0))
    }
}

// R of C and A, and the generators' and the user's of it.
pub fn gap_of(part: u32, s: Totals) -> Gap
    requires part_le_most_part { part ≤ most_part }
    requires compensated_le_most_compensation { s.compensated.0 ≤ most_compensation }
    requires assessed_le_most_compensation { s.assessed.0 ≤ most_compensation }
    ensures amount_value { result.amount.0 ≡ nat_abs (pos s.assessed.0 -ℤ pos s.compensated.0) * part / most_part }
    ensures negative_value { result.negative ≡ ltb s.assessed.0 s.compensated.0 }
    ensures whole_value { result.whole.0 ≡ pos s.assessed.0 -ℤ pos s.compensated.0 }
    ensures user_value { result.user.0 ≡ result.whole.0 -ℤ signed result.negative result.amount.0 }
    ensures amount_le_most_compensation { result.amount.0 ≤ most_compensation }
{
    let c = s.compensated.0;
    let a = s.assessed.0;
    let all = apart(a, c);
    let whole = difference(Fen(a), Fen(c));
    let amount = generators_of(part, all);
    let negative = a < c;
    let owed = all.0;
    let borne = amount.0;
    let user = signed(negative, Fen(owed - borne));
    Gap {
        amount,
        whole,
        user,
        negative,
    }
}

// 15, 16, or the sharing.
fn settle(part: u32, lines: &[Line]) -> Carried
    requires part_le_most_part { part ≤ most_part }
    requires few { length lines.now ≤ most_number }
    requires lines_within { LinesWithin lines.now }
    ensures { Carries lines.now (settled part lines.now) result }
{
    let s = sums(lines);
    if MOST_COMPENSATION < s.compensated.0 {
        return refusal(15, 0);
    }
    carry(lines, gap_of(part, s))
}

// 10 at 65, 10, 15, 16, or the sharing.
pub fn outcome(part: u32, lines: &[Line]) -> Carried
    ensures { Carries lines.now (sharing part lines.now) result }
{
    if MOST_PART < part {
        return refusal(10, PART_PLACE);
    }
    let bad = first_bad_line(lines);
    if bad < lines.len() {
        return refusal(10, bad);
    }
    settle(part, lines)
}
