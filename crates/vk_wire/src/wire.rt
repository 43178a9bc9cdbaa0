// The parts of a wire.

use vk_commit::{Opening, Place};
use vk_digests::TwoDigests;
use vk_plan::WireKind;
use vk_residue::Residue;

/// The commitments to the two entries of a wire.
#[derive(Clone, Copy, Debug, PartialEq, Eq)]
pub struct WireCom {
    pub first: [u8; 32],
    pub second: [u8; 32],
}

impl TwoDigests for WireCom {
    ghost use Rattle.vk_wire.specs.Coms.{com_by};

    ghost made = { com_by };

    ghost first_of = { λ digests. digests.first };

    ghost second_of = { λ digests. digests.second };

    fn of_two(first: [u8; 32], second: [u8; 32]) -> WireCom {
        WireCom { first, second }
    }

    fn first(&self) -> &[u8; 32] {
        &self.first
    }

    fn second(&self) -> &[u8; 32] {
        &self.second
    }
}

/// The secret choices behind a wire: its mask, whether the entries of a pair are exchanged, and the
/// keys of the two commitments.
#[derive(Clone, Copy, Debug, PartialEq, Eq)]
pub struct WireTape {
    pub mask: Residue,
    pub swap: bool,
    pub first_key: [u8; 32],
    pub second_key: [u8; 32],
}

/// A wire that an honest prover makes: its kind, the place of its first commitment, its value, and
/// the secret choices behind it.
#[derive(Clone, Copy, Debug)]
pub struct HonestWire {
    pub kind: WireKind,
    pub place: Place,
    pub value: Residue,
    pub tape: WireTape,
}

/// What is shown of a wire for a challenge bit.
#[derive(Clone, Copy, Debug, PartialEq, Eq)]
pub enum Shown {
    /// The half of a split value that the bit names.
    Half(Opening),
    /// Both entries of a pair, for bit 0.
    Whole(Opening, Opening),
    /// The entry of a pair that is spent on the proof, for bit 1.
    Spent { second: bool, opening: Opening },
}

/// The digests that the openings of a shown wire make, of the first entry that it opens and of the
/// last. A wire that opens one entry has its digest twice.
#[derive(Clone, Copy, Debug, PartialEq, Eq)]
pub struct Opened {
    pub first: [u8; 32],
    pub last: [u8; 32],
}

/// Why a shown wire reads nothing.
#[derive(Clone, Copy, Debug, PartialEq, Eq)]
pub enum WireFault {
    /// It isn't of the form for its kind and bit.
    Form,
    /// An opening doesn't open its digest.
    Digest { second: bool },
    /// Neither entry of a pair is the other plus the weight.
    NotASet,
}
