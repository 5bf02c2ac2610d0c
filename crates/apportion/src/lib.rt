// The largest remainder rule: an amount shared by weights, exact to the unit. It knows nothing of what is shared.
#![tactic(auto)]

mod bar;
mod ties;

ghost use Rattle.std.specs.Prelude.{◌≡◌, ◌^◌, ◌<◌, length};
ghost use Rattle.apportion.specs.Apportion.{total, rounded_down, remainders, apportion};
ghost use Rattle.apportion.specs.Giving.{largest_at, give_out, CanShare, RoomForEach, CanGive, NoneAbove};
ghost use Rattle.apportion.specs.Ties.{UnitsGiven};

use crate::bar::{bar_for, count_above, give_above};
use crate::ties::{count_equal, give_equal};
use product::product_over;

// The sum of the numbers.
#[tactic(auto, using(crate::proofs::Loops::total_sum))]
pub fn total(xs: &[u64]) -> u64
    requires { total xs.now < 2 ^ 64 }
    ensures { result ≡ total xs.now }
{
    xs.iter().sum()
}

// The place of the largest number, the lowest where several are as large.
fn largest_at(xs: &[u64]) -> usize
    requires { 0 < length xs.now }
    ensures value { result ≡ largest_at xs.now }
    ensures upper_bound { result < length xs.now }
{
    let mut best: usize = 0;
    for i in 1..xs.len() {
        if xs[best] < xs[i] {
            best = i;
        }
    }
    best
}

// Each weight's share rounded down, and its remainder.
fn split(amount: u64, all: u64, weights: &[u64], shares: &mut [u64], rests: &mut [u64])
    requires can_share { CanShare amount all }
    requires room_for_each { RoomForEach weights.now shares.old rests.old }
    requires none_above { NoneAbove all weights.now }
    ensures shares_after { shares.new ≡ rounded_down amount all weights.now }
    ensures rests_after { rests.new ≡ remainders amount all weights.now }
{
    for i in 0..weights.len() {
        let p = product_over(amount, weights[i], all);
        shares[i] = p.q;
        rests[i] = p.r;
    }
}

// One unit to the first of the largest remainders, which counts as 0 from then on, and to those as large behind it; how many are left.
fn give_most(left: u64, rests: &mut [u64], shares: &mut [u64]) -> u64
    requires left_nonzero { 0 < left }
    requires can_give { CanGive left rests.old shares.old }
    ensures upper_bound { result < left }
    ensures units_given { UnitsGiven left rests.old shares.old result rests.new shares.new }
{
    let b = largest_at(rests);
    let most = rests[b];
    rests[b] = 0;
    shares[b] += 1;
    give_equal(left - 1, most, rests, shares)
}

// One unit each to the largest remainders, `left` of them; a remainder that has been served counts as 0.
fn give_out(left: u64, rests: &mut [u64], shares: &mut [u64])
    requires { CanGive left rests.old shares.old }
    ensures { shares.new ≡ give_out left rests.old shares.old }
{
    let mut k = left;
    // Stays a while: each turn gives as many units as there are equal remainders.
    while 0 < k {
        k = give_most(k, rests, shares);
    }
}

// The same, in few passes: at once to the remainders above a bar, in turn what is left then.
fn give_by_bar(left: u64, all: u64, rests: &mut [u64], shares: &mut [u64])
    requires can_give { CanGive left rests.old shares.old }
    requires all_bound { all < 2 ^ 63 }
    requires none_above { NoneAbove all rests.old }
    ensures { shares.new ≡ give_out left rests.old shares.old }
{
    let bar = bar_for(left, all, rests);
    let served = count_above(bar, rests);
    give_above(bar, rests, shares);
    give_out(left - served, rests, shares);
}

// The same: where the largest remainders are as many as the units left, these are served in one pass.
#[tactic(auto, using(crate::proofs::InTurn::largest_most))]
fn give_left(left: u64, all: u64, rests: &mut [u64], shares: &mut [u64])
    requires can_give { CanGive left rests.old shares.old }
    requires all_bound { all < 2 ^ 63 }
    requires none_above { NoneAbove all rests.old }
    ensures { shares.new ≡ give_out left rests.old shares.old }
{
    let b = largest_at(rests);
    let most = rests[b];
    if left <= count_equal(most, rests) {
        let k = give_equal(left, most, rests, shares);
        give_out(k, rests, shares);
    } else {
        give_by_bar(left, all, rests, shares);
    }
}

// The amount shared by the weights, into `shares`; `rests` is room to work in.
pub fn apportion_into(amount: u64, weights: &[u64], shares: &mut [u64], rests: &mut [u64])
    requires can_share { CanShare amount (total weights.now) }
    requires room_for_each { RoomForEach weights.now shares.old rests.old }
    ensures { shares.new ≡ apportion amount weights.now }
{
    let all = total(weights);
    split(amount, all, weights, shares, rests);
    let left = amount - total(shares);
    give_left(left, all, rests, shares);
}
