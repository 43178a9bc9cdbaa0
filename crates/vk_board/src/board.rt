// The parts of a board.

use vk_residue::Residue;
use vk_seq::Seq;
use vk_wire::WireCom;

/// What a board says of its auction as a whole.
#[derive(Clone, Copy, Debug, PartialEq, Eq)]
pub struct Head {
    pub auction: [u8; 16],
    /// 1, or 2 where the board names a reserve.
    pub version: u32,
    /// A bid is below 2^width. 1 to 40.
    pub width: u32,
    /// 1 to 64.
    pub lanes: u32,
    /// How many seals are on the board, 1 to 64.
    pub seals: u32,
    /// The least price at which the seller sells; 0 with version 1.
    pub reserve: u64,
    /// The seat that won, at least 1. None where nothing is sold, which is of version 2 alone.
    pub winner: Option<u16>,
    pub price: u64,
}

/// A seal as it stands on a board: its seat, at least 1, and its two commitments in each lane.
#[derive(Debug, Drop)]
pub struct SealLines {
    pub seat: u16,
    pub coms: Seq<WireCom>,
}

/// What a board publishes of one lane: the two commitments to each wire after the inputs, and the
/// posted number of each row.
#[derive(Debug, Drop)]
pub struct LaneLines {
    pub coms: Seq<WireCom>,
    pub posted: Seq<Residue>,
}
