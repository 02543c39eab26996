// The numbers of a drill.
ghost use Rattle.std.specs.Prelude.{◌≡◌, ◌<◌};
ghost use Rattle.random_games.specs.Generator.{next, place_of};

// The generator of the C standard's example of `rand`.
const MULTIPLIER: u64 = 1_103_515_245;

const INCREMENT: u64 = 12_345;

/// Each number is below this one.
pub const MODULUS: u32 = 2_147_483_648;

// The low 16 bits of a number are left out of a place.
const LOW_PART: u32 = 65_536;

/// The number after another.
pub fn next(seed: u32) -> u32
    ensures { result ≡ next seed }
{
    ((u64::from(seed) * MULTIPLIER + INCREMENT) % u64::from(MODULUS)) as u32
}

/// A place among so many, from 0.
pub fn place_of(seed: u32, count: usize) -> usize
    requires { 0 < count }
    ensures value { result ≡ place_of seed count }
    ensures within { result < count }
{
    (seed / LOW_PART) as usize % count
}
