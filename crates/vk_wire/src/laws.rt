// What holds of every wire.
ghost use Rattle.vk_wire.specs.Laws.{AtMostOneHalf, MadeComsAre, MadeWiresRead, ReadingComputes};

/// For one kind, place, commitments, shown wire and bit at most one half is read.
pub fn at_most_one_half_is_read()
    ensures { AtMostOneHalf }
{}

/// What an honest wire commits to and shows reads the mask for bit 0, and for bit 1 the value less
/// the mask.
pub fn made_wires_read_their_halves()
    ensures { MadeWiresRead }
{}

/// What an honest wire commits to are two digests of 32 bytes.
pub fn made_wires_have_digests()
    ensures { MadeComsAre }
{}

/// What definitions compute of a shown wire is the half that it gives, or its fault.
#[tactic(auto, using(crate::proofs::Readings::half_is_computed, crate::proofs::Readings::fault_is_computed))]
pub fn readings_compute()
    ensures { ReadingComputes }
{}
