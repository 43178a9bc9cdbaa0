//! What two replies to a board come to.

ghost use Rattle.vk_judge.specs.Common.{AcceptedGive, AreOfHeld, FindsByBoth, OnlyAcceptedGive, file_coming};
ghost use Rattle.vk_verifier.specs.Refusals.{board_form};
ghost use Rattle.vk_verifier.specs.Verdicts.{board_front_at};

/// A law: what is found of two replies to a board is what the verdicts on them come to. What named
/// files give and come to is what their bytes do.
pub fn a_finding_is_by_both_verdicts()
    ensures found { FindsByBoth board_front_at }
    ensures files { AreOfHeld (file_coming board_front_at) }
{}

/// A law: two accepted replies give the lanes 1, 2, .. of the board whose text the file is, each
/// with what the replies show of it, and what is found is by their challenges.
pub fn accepted_replies_give_their_values()
    ensures { AcceptedGive board_form }
{}

/// A law: two replies are found to be accepted only where each of them is.
pub fn only_accepted_replies_are_found_to_be()
    ensures { OnlyAcceptedGive board_form }
{}
