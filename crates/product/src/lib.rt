// A product divided, where the product may be too large for 64 bits. It knows nothing of what is multiplied.
#![tactic(auto)]

ghost use Rattle.std.specs.Prelude.{◌≡◌, ◌+◌, ◌*◌, ◌^◌, ◌<◌, ◌≤◌};
ghost use Rattle.product.specs.Product.{Parts};
ghost use Rattle.product.specs.Inner.{whole, Goes, Went};

// Quotient and remainder.
#[derive(Clone, Copy)]
pub struct Quot {
    pub q: u64,
    pub r: u64,
}

// The parts of a sum, from the parts of what is added.
fn plus(a: Quot, b: Quot, all: u64) -> Quot
    requires r_lt_all { (a.r < all) × (a.q < 2 ^ 63) }
    requires r_lt_all_2 { (b.r < all) × (b.q < 2 ^ 63) }
    requires all_bound { all < 2 ^ 62 }
    ensures { Parts (whole all a + whole all b) all result.q result.r }
{
    let q = a.q + b.q;
    let r = a.r + b.r;
    if all <= r {
        Quot {
            q: q + 1,
            r: r - all,
        }
    } else {
        Quot { q, r }
    }
}

// A product on its way: what is done, and `left` times `step` to come.
#[derive(Clone, Copy)]
struct Going {
    left: u64,
    step: Quot,
    done: Quot,
}

// One halving of what is left, where there is any.
fn next(g: Going, all: u64) -> Going
    requires goes { Goes all g }
    requires all_bound { all < 2 ^ 62 }
    ensures { Went all g result }
{
    let before = g.step;
    let done = g.done;
    let left = g.left / 2;
    let step = plus(before, before, all);
    if g.left % 2 == 0 {
        return Going { left, step, done };
    }
    let more = plus(done, before, all);
    Going {
        left,
        step,
        done: more,
    }
}

// n times w over all, by halving n: no number on the way is above twice `all` or above twice n.
// Stays by hand: 128 bits are divided by `__udivti3`, and the C library asks for no function but memcpy, memmove, memset and memcmp (tests/archive).
fn mul_div(n: u64, w: u64, all: u64) -> Quot
    requires n_bound { n < 2 ^ 63 }
    requires all_nonzero { 0 < all }
    requires w_le_all { w ≤ all }
    requires all_bound { all < 2 ^ 62 }
    ensures { Parts (n * w) all result.q result.r }
{
    let mut g = Going {
        left: n,
        step: Quot {
            q: w / all,
            r: w % all,
        },
        done: Quot { q: 0, r: 0 },
    };
    // Stays a while: each turn halves what is left.
    while 0 < g.left {
        g = next(g, all);
    }
    g.done
}

// The same: at once where the product fits 64 bits, as it does for every amount in fen up to 10^11.
pub fn product_over(n: u64, w: u64, all: u64) -> Quot
    requires n_bound { n < 2 ^ 63 }
    requires all_nonzero { 0 < all }
    requires w_le_all { w ≤ all }
    requires all_bound { all < 2 ^ 62 }
    ensures { Parts (n * w) all result.q result.r }
{
    match n.checked_mul(w) {
        Some(product) => Quot {
            q: product / all,
            r: product % all,
        },
        None => mul_div(n, w, all),
    }
}
