// What a sharing line may hold: its five numbers are judged here, however they were read.
ghost use Rattle.std.specs.Prelude.{◌≡◌};
ghost use Rattle.share.specs.Sharing.{numbers_are_sound};

pub const MOST_NUMBER: u64 = 64;

pub const MOST_STATUS: u64 = 2;

pub const MOST_ENERGY: u64 = 5_000_000;

pub const MOST_COMPENSATION: u64 = 100_000_000_000;

pub const MOST_ASSESSMENT: u64 = 10_000_000;

// The generator part, in hundredths of a percent, and the place at which one above is refused.
pub const MOST_PART: u32 = 10_000;

pub const PART_PLACE: usize = 65;

// Whether the numbers of a line are sound after the number `before`.
pub fn numbers_are_sound(
    before: u64,
    number: u64,
    status: u64,
    energy: u64,
    compensation: u64,
    assessment: u64,
) -> bool
    ensures { result ≡ numbers_are_sound before number status energy compensation assessment }
{
    (before < number)
        & (number <= MOST_NUMBER)
        & (status <= MOST_STATUS)
        & (energy <= MOST_ENERGY)
        & (compensation <= MOST_COMPENSATION)
        & (assessment <= MOST_ASSESSMENT)
}
