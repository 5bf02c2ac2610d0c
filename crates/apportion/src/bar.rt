// Most of the units left are given at once, to every remainder above a bar.
ghost use Rattle.std.specs.Prelude.{◌≡◌, ℕ, ◌+◌, ◌^◌, ◌<◌, ◌≤◌, length, get_or};
ghost use Rattle.apportion.specs.Apportion.{total};
ghost use Rattle.apportion.specs.Giving.{NoneAbove};
ghost use Rattle.apportion.specs.Bar.{one_above, unless_served, count_above, strike_above, give_above};

// By a sum and a shift: the machine has no quick test of two 64-bit numbers at a time.
fn one_above(bar: u64, r: u64) -> u64
    requires bar_bound { bar < 2 ^ 63 }
    requires r_bound { r < 2 ^ 63 }
    ensures { result ≡ one_above bar r }
{
    (r + (9223372036854775807 - bar)) / 9223372036854775808
}

fn unless_served(bar: u64, r: u64) -> u64
    ensures { result ≡ unless_served bar r }
{
    if bar < r { 0 } else { r }
}

// How many remainders are above the bar.
#[tactic(auto, using(crate::proofs::Turns::above_step, crate::proofs::Turns::above_le))]
pub fn count_above(bar: u64, rests: &[u64]) -> u64
    requires bar_bound { bar < 2 ^ 63 }
    requires by_index { (k : ℕ) → get_or rests.now k 0 < 2 ^ 63 }
    ensures { result ≡ count_above bar rests.now }
{
    let mut n: u64 = 0;
    for r in rests {
        n += one_above(bar, *r);
    }
    n
}

// A bar, at most `all`, that no more than `left` remainders are above: by halving, until it is exactly so many, or to a thousandth of
// `all`; few remainders are nearer to each other than that, if they are not equal.
#[tactic(auto, using(crate::proofs::Turns::above_none))]
pub fn bar_for(left: u64, all: u64, rests: &[u64]) -> u64
    requires all_bound { all < 2 ^ 63 }
    requires none_above { NoneAbove all rests.now }
    ensures upper_bound { result ≤ all }
    ensures rests_bound { count_above result rests.now ≤ left }
{
    let mut low: u64 = 0;
    let mut bar = all;
    let fine = all / 1024;
    // Stays a while: each turn halves what is between `low` and `bar`.
    while low + fine < bar {
        let middle = low + (bar - low) / 2;
        let n = count_above(middle, rests);
        if n == left {
            return middle;
        }
        if left < n {
            low = middle + 1;
        } else {
            bar = middle;
        }
    }
    bar
}

// One unit each to the remainders above the bar; they count as 0 from then on.
pub fn give_above(bar: u64, rests: &mut [u64], shares: &mut [u64])
    requires shares_len { length shares.old ≡ length rests.old }
    requires rests_bound { total shares.old + count_above bar rests.old < 2 ^ 64 }
    requires bar_bound { bar < 2 ^ 63 }
    requires by_index { (k : ℕ) → get_or rests.old k 0 < 2 ^ 63 }
    ensures shares_after { shares.new ≡ give_above bar rests.old shares.old }
    ensures rests_after { rests.new ≡ strike_above bar rests.old }
{
    for i in 0..rests.len() {
        let r = rests[i];
        shares[i] += one_above(bar, r);
        rests[i] = unless_served(bar, r);
    }
}
