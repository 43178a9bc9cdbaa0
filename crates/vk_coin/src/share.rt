ghost use Rattle.std.specs.Prelude.{◌≡◌, length};
ghost use Rattle.vk_residue.specs.Limits.{IsLaneCount};
ghost use Rattle.vk_commit.specs.Values.{AreBytes};
ghost use Rattle.vk_coin.specs.Shares.{IsAuditor, IsShare};

use vk_seq::Seq;

/// What an auditor brings to a joint challenge. The auditor commits to it before the others show
/// theirs.
#[derive(Debug, Drop)]
pub struct Share {
    pub auction: [u8; 16],
    /// 1 to 16.
    pub auditor: u16,
    /// 1 to 64 bits, that of lane 1 first.
    pub bits: Seq<bool>,
    pub key: [u8; 32],
}

/// The share of these: its id and its key have as many bytes as their types say.
pub(crate) fn share_from(auction: &[u8; 16], auditor: u16, bits: Seq<bool>, key: &[u8; 32]) -> Share
    ensures value { result ≡ record {
      auction = auction.now;
      auditor = auditor;
      bits = bits;
      key = key.now;
    } }
    ensures right { IsAuditor auditor → IsLaneCount (length bits) → IsShare result }
    ensures key { AreBytes 32 key.now }
{
    let _id = auction.as_slice();
    let _key = key.as_slice();
    Share {
        auction: *auction,
        auditor,
        bits,
        key: *key,
    }
}
