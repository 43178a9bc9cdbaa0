// Where a commitment stands, and what opens it.

use vk_residue::Residue;

/// The place of one commitment in an auction.
///
/// Seat 0 is the auctioneer's, and bidders have the seats from 1 on. Lanes count from 1 and slots
/// from 0.
#[derive(Clone, Copy, Debug, PartialEq, Eq)]
pub struct Place {
    pub auction: [u8; 16],
    pub seat: u16,
    pub lane: u16,
    pub slot: u32,
}

/// The key and the value that open a commitment.
#[derive(Clone, Copy, Debug, PartialEq, Eq)]
pub struct Opening {
    pub key: [u8; 32],
    pub value: Residue,
}
