// The challenge that the shares of a coin are together.
ghost use Rattle.std.specs.Prelude.{◌≡◌, ◌↔◌, ℕ, Ok, Err, Some, None, IfOk};
ghost use Rattle.vk_reply.specs.Values.{IsChallenge};
ghost use Rattle.vk_coin.specs.Bits.{joint_of};
ghost use Rattle.vk_coin.specs.Coins.{IsCoin, OpensParts, joint_challenge, shown_bits, unmet_part};

use crate::bits::{HasBits, joint_bits};
use crate::coin::Coin;
use crate::commitment::share_commit;
use crate::share::Share;
use std::alloc::Global;
use vk_reply::Challenge;
use vk_residue::NoMemory;
use vk_seq::Seq;

/// Why there is no joint challenge.
#[derive(Clone, Copy, Debug, PartialEq, Eq)]
pub enum JointErr {
    /// The share of that auditor, counted from 1, doesn't open its part. It is the first such.
    Part { auditor: u16 },
    /// Want of memory.
    NoMemory,
}

impl From<NoMemory> for JointErr {
    ghost use Rattle.std.specs.Prelude.{◌≡◌};
    ghost use Rattle.vk_coin.specs.declared.joining.JointErr.TheVariants.{NoMemory as MemoryRefused};

    fn from(_refused: NoMemory) -> JointErr {
        JointErr::NoMemory
    }

    ghost from_gives = { λ _ e. e ≡ MemoryRefused };
}

/// The challenge that the shares of a coin are together: in each lane the exclusive or of their
/// bits. `Part` comes exactly where a share doesn't open its auditor's part, and takes no memory.
pub fn joint(alloc: Global, coin: &Coin) -> Result<Challenge, JointErr>
    requires { IsCoin coin.now }
    ensures joined { IfOk result (λ challenge. challenge ≡ joint_challenge coin.now) }
    ensures opened { IfOk result (λ _. unmet_part coin.now ≡ None) }
    ensures part { (auditor : ℕ) → (result ≡ Err (JointErr.Part auditor))
        ↔ (unmet_part coin.now ≡ Some auditor) }
    ensures right { IfOk result IsChallenge }
{
    if let Some(auditor) = unmet_part(coin) {
        return Err(JointErr::Part { auditor });
    }
    let bits = shown_bits(alloc, coin)?;
    Ok(Challenge {
        bits: Seq::from_vec(bits),
    })
}

/// The first auditor whose share doesn't open its part.
#[tactic(auto, unfolding(crate::specs::Coins::unmet_part))]
fn unmet_part(coin: &Coin) -> Option<u16>
    requires { IsCoin coin.now }
    ensures { result ≡ unmet_part coin.now }
{
    for (index, part) in coin.parts.as_slice().iter().enumerate() {
        let share = &coin.shares.as_slice()[index];
        if share_commit(share) != *part {
            return Some(index as u16 + 1);
        }
    }
    None
}

impl HasBits for Share {
    ghost bits_of = { λ share. share.bits };

    fn bits(&self) -> &[bool] {
        self.bits.as_slice()
    }
}

/// The exclusive or of the bits of all shares.
fn shown_bits(alloc: Global, coin: &Coin) -> Result<Vec<bool>, NoMemory>
    requires { IsCoin coin.now }
    ensures { IfOk result (λ bits. bits.items ≡ joint_of (shown_bits coin.now)) }
{
    let shares = coin.shares.as_slice();
    let bits = joint_bits(alloc, shares[0].bits.as_slice(), &shares[1..])?;
    Ok(bits)
}
