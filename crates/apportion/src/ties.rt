// Remainders that are equally large get their units in one pass, the lower number first.
ghost use Rattle.std.specs.Prelude.{◌≡◌, cond, ◌+◌, ◌^◌, ◌<◌, ◌≤◌, eqb, length};
ghost use Rattle.apportion.specs.Apportion.{total};
ghost use Rattle.apportion.specs.Giving.{NoneAbove};
ghost use Rattle.apportion.specs.Ties.{UnitsGiven, UnitInTurn};

// 1 where the remainder gets a unit, else 0.
fn one_in_turn(left: u64, most: u64, r: u64) -> u64
    ensures { UnitInTurn left most r result }
{
    if left == 0 {
        return 0;
    }
    if most == 0 {
        return 0;
    }
    if r == most { 1 } else { 0 }
}

fn unless_one(x: u64, r: u64) -> u64
    ensures { result ≡ cond (eqb x 0) r 0 }
{
    if x == 0 { r } else { 0 }
}

// A unit each to the remainders that are as large as `most`, which none exceeds, while units are left; how many are left then.
pub fn give_equal(left: u64, most: u64, rests: &mut [u64], shares: &mut [u64]) -> u64
    requires shares_len { length shares.old ≡ length rests.old }
    requires left_bound { total shares.old + left < 2 ^ 64 }
    requires none_above { NoneAbove most rests.old }
    ensures { UnitsGiven left rests.old shares.old result rests.new shares.new }
{
    let mut k = left;
    for i in 0..rests.len() {
        if k == 0 {
            break;
        }
        let r = rests[i];
        let x = one_in_turn(k, most, r);
        rests[i] = unless_one(x, r);
        shares[i] += x;
        k -= x;
    }
    k
}

// How many remainders are as large as `most`: it decides on a way of giving, and either way gives the same, so that nothing is said of it.
pub fn count_equal(most: u64, rests: &[u64]) -> u64 {
    // For speed: the machine tests two at a time here, which it does not where a filter counts.
    let mut n: u64 = 0;
    for r in rests {
        if *r == most {
            n += 1;
        }
    }
    n
}
