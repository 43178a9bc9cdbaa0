//! The exclusive or of lists of bits, and the one that an auditor needs for the bits that it wants.

ghost use Rattle.std.specs.Prelude.{◌≡◌, ◌<◌, ◌↔◌, ◌∷◌, ◌++◌, Bool, List, length, map, IfOk};
ghost use Rattle.vk_coin.specs.Bits.{HaveBits, bits_at, joint_of, own_bits_of, xor_of};

use std::alloc::Global;
use vk_reply::Challenge;
use vk_residue::NoMemory;

/// What has a list of bits: a challenge, and what an auditor shows.
pub(crate) trait HasBits {
    /// The bits.
    ghost bits_of: { Self → List Bool };

    /// The bits, that of lane 1 first.
    fn bits(&self) -> &[bool]
        ensures { result.now ≡ bits_of self.now };
}

impl HasBits for Challenge {
    ghost bits_of = { λ challenge. challenge.bits };

    fn bits(&self) -> &[bool] {
        self.bits.as_slice()
    }
}

/// The bits with which an auditor makes the joint ones those that are wanted, where the others' are
/// these: the exclusive or of all. With no others they are the wanted ones. Errs for want of memory
/// alone.
pub fn own_bits(
    alloc: Global,
    wanted: &Challenge,
    others: &[Challenge],
) -> Result<Vec<bool>, NoMemory>
    requires { HaveBits (length wanted.now.bits) (map (λ other. other.bits) others.now) }
    ensures { IfOk result (λ bits.
        bits.items ≡ own_bits_of wanted.now.bits (map (λ other. other.bits) others.now)) }
{
    let bits = joint_bits(alloc, wanted.bits.as_slice(), others)?;
    Ok(bits)
}

/// The joint bits of a list and of those of the others, which have as many bits each. Errs for want
/// of memory alone.
#[tactic(auto, unfolding(crate::specs::Bits::joint_of))]
pub(crate) fn joint_bits<B: HasBits>(
    alloc: Global,
    first: &[bool],
    others: &[B],
) -> Result<Vec<bool>, NoMemory>
    requires { HaveBits (length first.now) (map B.bits_of others.now) }
    ensures { IfOk result (λ bits. bits.items ≡ joint_of (first.now ∷ map B.bits_of others.now)) }
{
    let mut joint = Vec::new(alloc);
    for place in 0..first.len() {
        joint.push(joint_bit(first, others, place))?;
    }
    Ok(joint)
}

/// The exclusive or of the bits in a place.
fn joint_bit<B: HasBits>(first: &[bool], others: &[B], place: usize) -> bool
    requires inside { place < length first.now }
    requires equal { HaveBits (length first.now) (map B.bits_of others.now) }
    ensures { result ≡ xor_of (bits_at place (first.now ∷ map B.bits_of others.now)) }
{
    let mut joint = first[place];
    for other in others {
        joint = joint != other.bits()[place];
    }
    joint
}

/// Whatever bits the others give, with exactly one own list of bits, at whatever place among
/// theirs, the joint bits are those that are wanted: with the exclusive or of the wanted bits and
/// all the others'.
pub fn one_own_list_makes_the_joint_bits_wanted()
    ensures one { (before after : List (List Bool)) (own wanted : List Bool)
        → length own ≡ length wanted → HaveBits (length wanted) (before ++ after)
        → (joint_of (before ++ own ∷ after) ≡ wanted)
        ↔ (own ≡ own_bits_of wanted (before ++ after)) }
    ensures as_many { (wanted : List Bool) (others : List (List Bool))
        → length (own_bits_of wanted others) ≡ length wanted }
{}
