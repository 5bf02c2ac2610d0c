// The second sharing: what is not collected of each line, and what each line gives up of it.
ghost use Rattle.std.specs.Prelude.{◌≡◌, ◌<◌, ◌≤◌, ◌^◌, nat_abs, length, take};
ghost use Rattle.apportion.specs.Apportion.{total, apportion};
ghost use Rattle.share.specs.Sharing.{most_number};
ghost use Rattle.ceiling.specs.Ceiling.{paid, beyond, positive, positives, uncollected_of, ceiled_part, ceiled_by};
ghost use Rattle.ceiling.specs.Forms.{ceiled_line, ceiled_lines};
ghost use Rattle.ceiling.specs.Inner.{part_in, parts_in, AmountsWithin, EachWithin, Small, most_amount, SecondShared};

use crate::{Limit, LimitedLine};
use share::array::refused;
use share::settle::filled;
use share::{Answer, Line};
use units::{Fen, SignedFen};

// What a member with such an amount pays.
#[tactic(auto, unfolding(crate::specs::Ceiling::paid))]
fn paid(amount: SignedFen) -> u64
    ensures { result ≡ paid amount.0 }
{
    if amount.0 < 0 {
        amount.0.unsigned_abs()
    } else {
        0
    }
}

// What of it lies beyond the limit.
fn beyond(l: Limit, amount: SignedFen) -> u64
    ensures { result ≡ beyond l amount.0 }
{
    let p = paid(amount);
    if l.none {
        return 0;
    }
    p.saturating_sub(l.fen.0)
}

// What a member with such an amount gets.
#[tactic(auto, unfolding(crate::specs::Ceiling::positive))]
fn positive(amount: SignedFen) -> u64
    ensures { result ≡ positive amount.0 }
{
    if 0 < amount.0 { amount.0 as u64 } else { 0 }
}

// What is not collected of each line, in front.
fn uncollected_of(lines: &[LimitedLine], shared: &[Line]) -> [u64; 64]
    requires few { length lines.now ≤ most_number }
    requires each_shared { length shared.now ≡ length lines.now }
    ensures { take (length lines.now) result ≡ uncollected_of lines.now (parts_in shared.now) }
{
    let mut us = [0u64; 64];
    for i in 0..lines.len() {
        us[i] = beyond(lines[i].limit, shared[i].amount);
    }
    us
}

// The positive amounts of the lines, in front.
fn positives(shared: &[Line]) -> [u64; 64]
    requires { length shared.now ≤ most_number }
    ensures { take (length shared.now) result ≡ positives (parts_in shared.now) }
{
    let mut ps = [0u64; 64];
    for (i, s) in shared.iter().enumerate() {
        ps[i] = positive(s.amount);
    }
    ps
}

// What each line gives up of the sum, in front.
fn given_up(sum: u64, ps: &[u64]) -> [u64; 64]
    requires few { length ps.now ≤ most_number }
    requires sum_bound { sum ≤ total ps.now }
    requires ps_bound { total ps.now < 2 ^ 62 }
    ensures { take (length ps.now) result ≡ apportion sum ps.now }
{
    let mut gs = [0u64; 64];
    let mut rs = [0u64; 64];
    let count = ps.len();
    if 0 < sum {
        apportion::apportion_into(sum, ps, &mut gs[..count], &mut rs[..count]);
    }
    gs
}

// A line with what it gets; `s` is the line of the first sharing.
fn ceiled_line(l: LimitedLine, s: Line, u: u64, g: u64) -> LimitedLine
    requires amount_bound { nat_abs s.amount.0 < 2 ^ 60 }
    requires u_bound { u < 2 ^ 60 }
    requires g_bound { g < 2 ^ 60 }
    ensures { result ≡ ceiled_line l (ceiled_part (part_in s) u g) }
{
    let amount = s.amount.0 + (u as i64) - (g as i64);
    let share = s.share;
    let line = filled(l.line, share, SignedFen(amount));
    let limit = l.limit;
    LimitedLine {
        line,
        limit,
        uncollected: Fen(u),
        given: Fen(g),
    }
}

// The lines with what they get.
fn ceiled_lines(lines: &mut [LimitedLine], shared: &[Line], us: &[u64], gs: &[u64])
    requires each_shared { length shared.now ≡ length lines.old }
    requires each_uncollected { length us.now ≡ length lines.old }
    requires each_given { length gs.now ≡ length lines.old }
    requires amounts_within { AmountsWithin shared.now (length lines.old) }
    requires each_within { EachWithin us.now (length lines.old) }
    requires each_within_2 { EachWithin gs.now (length lines.old) }
    ensures { lines.new ≡ ceiled_lines (ceiled_by (parts_in shared.now) us.now gs.now) lines.old }
{
    for i in 0..lines.len() {
        lines[i] = ceiled_line(lines[i], shared[i], us[i], gs[i]);
    }
}

// The second sharing, behind a first that was accepted: 17, or the lines filled in.
pub fn second_sharing(lines: &mut [LimitedLine], shared: &[Line], first: Answer) -> Answer
    requires few { length lines.old ≤ most_number }
    requires each_shared { length shared.now ≡ length lines.old }
    requires small { Small most_amount (parts_in shared.now) }
    ensures { SecondShared lines.old (parts_in shared.now) first lines.new result }
{
    let count = lines.len();
    let us = uncollected_of(lines, shared);
    let ps = positives(shared);
    let sum = apportion::total(&us[..count]);
    let most = apportion::total(&ps[..count]);
    if most < sum {
        return refused(17, 0);
    }
    let gs = given_up(sum, &ps[..count]);
    ceiled_lines(lines, shared, &us[..count], &gs[..count]);
    first
}
