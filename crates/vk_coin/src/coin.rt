use crate::share::Share;
use vk_seq::Seq;

/// A joint challenge as it was fixed: the parts by which auditors committed to their shares, and
/// then the shares.
#[derive(Debug, Drop)]
pub struct Coin {
    pub auction: [u8; 16],
    /// How many bits each share has, 1 to 64.
    pub bits: u32,
    /// The commitment of each auditor to a share, 1 to 16 of them. That of auditor 1 is the first.
    pub parts: Seq<[u8; 32]>,
    /// The share that each auditor shows.
    pub shares: Seq<Share>,
}
