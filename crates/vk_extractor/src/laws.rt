// The laws of extraction.
ghost use Rattle.vk_extractor.specs.Laws.{ClashIsFirst, ClashesOpen, ExtractedHold};

/// Of any plan and lane: the sums of halves that were accepted for bit 0 and for bit 1 hold for the
/// plan, unless an entry was spent with another value than it was opened whole with.
pub fn extracted_values_hold()
    ensures { ExtractedHold }
{}

/// Of any plan and lane: the clash of what was accepted for bit 0 and for bit 1 is two openings of
/// one entry of the lane, with different values.
pub fn clashes_are_two_openings()
    ensures { ClashesOpen }
{}

/// Of any lane: the clash is that of the first wire whose spent entry has another value for bit 1
/// than for bit 0, and there is none exactly where every spent entry has the value that it has
/// opened whole.
pub fn clashes_are_first()
    ensures { ClashIsFirst }
{}
