// What an auction's phase keeps.
ghost use Rattle.std.specs.Prelude.{◌≡◌, ◌-◌, ◌≤◌, Some, false, length, slice_index_or, IsSome, IfSome};
ghost use Rattle.vk_keeper.specs.Auctions.{challenge_of, seed_of};
ghost use Rattle.vk_job.specs.Published.{kept_bit};

use vk_keeper::Phase;

/// The seed. The phase has one.
pub fn seed_in(phase: &Phase) -> [u8; 32]
    requires { IsSome (seed_of phase.now) }
    ensures { seed_of phase.now ≡ Some result }
{
    match phase {
        Phase::Taking => unreachable!(),
        Phase::Proved { seed } => *seed,
        Phase::Answered { seed, .. } => *seed,
    }
}

/// The bit of the lane, counted from 1, in the challenge that was answered. The phase has one.
pub fn bit_in(phase: &Phase, lane: u32) -> bool
    requires answered { IsSome (challenge_of phase.now) }
    requires some { 1 ≤ lane }
    requires last { IfSome (challenge_of phase.now) (λ challenge. lane ≤ length challenge.bits) }
    ensures { result ≡ kept_bit phase.now lane }
{
    match phase {
        Phase::Taking | Phase::Proved { .. } => unreachable!(),
        Phase::Answered { challenge, .. } => challenge.bits.as_slice()[lane as usize - 1],
    }
}
