// What the hours come to: how many have an action, and their grains together.
ghost use Rattle.std.specs.Prelude.{◌≡◌, ◌==◌, not, count_by};
ghost use Rattle.hours.specs.Hours.{grains_sum};

use units::Grains;

// How many hours have an action.
pub fn hours_with(actions: &[u8]) -> usize
    ensures { result ≡ count_by (λ n. not (n == 0)) actions.now }
{
    actions.iter().filter(|n| **n != 0).count()
}

// The grains of the hours together.
pub fn grains_sum(grains: &[Grains]) -> Grains
    ensures { result.0 ≡ grains_sum grains.now }
{
    let mut sum = Grains(0);
    for hour in grains {
        sum = sum.plus(*hour);
    }
    sum
}
