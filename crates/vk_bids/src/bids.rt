// The bids that two replies open.

use vk_commit::Opening;
use vk_residue::Residue;
use vk_seq::Seq;

/// The bid of a seal in a lane, from a reply for bit 0 and a reply for bit 1.
#[derive(Clone, Copy, Debug, PartialEq, Eq)]
pub struct OpenedBid {
    /// The seal's seat, at least 1.
    pub seat: u16,
    /// The sum of the two halves modulo 2^61 - 1.
    pub bid: Residue,
    /// The first half, opened for bit 0.
    pub first: Opening,
    /// The second half, opened for bit 1.
    pub second: Opening,
}

/// The bids of a lane, one for each seal in the order of the board.
#[derive(Debug, Drop)]
pub struct LaneBids {
    /// The lane's number, counted from 1.
    pub number: u32,
    pub bids: Seq<OpenedBid>,
}
