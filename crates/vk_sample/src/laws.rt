//! What holds of the sample of every number.

ghost use Rattle.vk_sample.specs.Laws.{SampleIsAccepted, HasLines, IsAuctionOf, OfEachSample, SampleOpensAll};

/// A law: of every number none of whose seeds is dry, the auction is one that is proved, with the
/// seats and the bids of the sample. Its board has 104908 lines, and each reply 100963.
pub fn a_sample_is_an_auction()
    ensures auction { OfEachSample IsAuctionOf }
    ensures lines { OfEachSample HasLines }
{}

/// A law: of every such number, what is written is the board of the honest prover of that auction
/// and its replies to both challenges. Both are accepted. Read back from modelled files, they open
/// bids in all 40 lanes, of all 20 seals the same.
pub fn a_sample_is_accepted_and_opened()
    ensures accepted { OfEachSample SampleIsAccepted }
    ensures opened { OfEachSample SampleOpensAll }
{}
