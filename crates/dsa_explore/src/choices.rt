//! The choices of a walk.

ghost use Rattle.std.specs.Prelude.{◌≡◌, ◌<◌, ◌%◌};
ghost use Rattle.rand_xoshiro.specs.SplitMix64.{mix_u64};
ghost use Rattle.dsa_explore.specs.Sampling.{walk_state};

use rand_core::SeedableRng;
use rand_core::utils::NextWord;
use rand_xoshiro::SplitMix64;

/// The generator of the walk with this number.
pub fn choices_of(seed: u64, number: u32) -> SplitMix64
    ensures { result ≡ walk_state seed number }
{
    let mut by_seed = SplitMix64::seed_from_u64(seed);
    let place = by_seed.next_word().wrapping_add(u64::from(number));
    let mut by_place = SplitMix64::seed_from_u64(place);
    SplitMix64::seed_from_u64(by_place.next_word())
}

/// The next choice among so many.
pub fn choose(choices: &mut SplitMix64, among: usize) -> usize
    requires { 0 < among }
    ensures choice { result ≡ (mix_u64 choices.old).0 % among }
    ensures below { result < among }
    ensures next { choices.new ≡ (mix_u64 choices.old).1 }
{
    (choices.next_word() % (among as u64)) as usize
}
