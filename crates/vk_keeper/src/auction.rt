use vk_reply::Challenge;
use vk_seal::{Seal, Secret};
use vk_seq::Seq;

/// How far an auction has come.
#[derive(Debug, Drop)]
pub enum Phase {
    /// Seals are taken.
    Taking,
    /// No more seals are taken, and the board was made with what is drawn from this seed.
    Proved {
        seed: [u8; 32],
    },
    /// The same, and this is the one challenge that was answered. It has a bit for each lane.
    Answered {
        seed: [u8; 32],
        challenge: Challenge,
    },
}

/// A seal that was handed in, and the secret that it is the seal of.
#[derive(Debug, Drop)]
pub struct SealRow {
    pub seal: Seal,
    pub secret: Secret,
}

/// What a house keeps of one auction.
#[derive(Debug, Drop)]
pub struct Auction {
    pub id: [u8; 16],
    /// That of its board. 1 or 2.
    pub version: u32,
    /// Each bid is below 2^width. 1 to 40.
    pub width: u32,
    /// 1 to 64.
    pub lanes: u32,
    /// Nothing is sold for less. Below 2^width, and 0 in version 1, which names none.
    pub reserve: u64,
    pub phase: Phase,
    /// At most 64, in the order in which they were handed in. Their seats differ, and there is one
    /// at least once the auction is proved.
    pub seals: Seq<SealRow>,
}

/// What a house kept of one auction before auctions had a version and a reserve.
#[derive(Debug, Drop)]
pub struct FirstAuction {
    pub id: [u8; 16],
    /// Each bid is below 2^width. 1 to 40.
    pub width: u32,
    /// 1 to 64.
    pub lanes: u32,
    pub phase: Phase,
    /// At most 64, in the order in which they were handed in. Their seats differ, and there is one
    /// at least once the auction is proved.
    pub seals: Seq<SealRow>,
}
