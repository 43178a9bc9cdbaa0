ghost use Rattle.std.specs.Prelude.{◌≡◌};
ghost use Rattle.vk_wire.specs.Values.{IsTape};
ghost use Rattle.vk_seal.specs.Values.{IsXTape, wire_tape};

use vk_residue::Residue;
use vk_seq::Seq;
use vk_wire::{WireCom, WireTape};

/// How a bid is split in one lane: the first half, and the keys of the two commitments.
#[derive(Clone, Copy, Debug)]
pub struct XTape {
    pub mask: Residue,
    pub first_key: [u8; 32],
    pub second_key: [u8; 32],
}

impl XTape {
    /// The tape as that of a wire, which is split and so never swaps.
    pub fn wire(&self) -> WireTape
        ensures value { result ≡ wire_tape self.now }
        ensures right { IsXTape self.now → IsTape result }
    {
        WireTape {
            mask: self.mask,
            swap: false,
            first_key: self.first_key,
            second_key: self.second_key,
        }
    }
}

/// What a bidder keeps: the seat is at least 1, the bid below 2^40, and there are 1 to 64 lanes.
#[derive(Debug, Drop)]
pub struct Secret {
    pub auction: [u8; 16],
    pub seat: u16,
    pub bid: u64,
    pub lanes: Seq<XTape>,
}

/// What a bidder hands in: the two commitments of each of 1 to 64 lanes. The seat is at least 1.
#[derive(Debug, Drop)]
pub struct Seal {
    pub auction: [u8; 16],
    pub seat: u16,
    pub lanes: Seq<WireCom>,
}
