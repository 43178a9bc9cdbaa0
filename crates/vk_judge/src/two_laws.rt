//! What two replies come to behind a front, of any statement.

ghost use Rattle.vk_lines.specs.Lines.{Rest};
ghost use Rattle.vk_judge.specs.FileForms.{FindsByBoth};
ghost use Rattle.vk_judge.specs.HeldFiles.{AreOfHeld};
ghost use Rattle.vk_judge.specs.Opened.{Front};
ghost use Rattle.vk_judge.specs.TwoLaw.{FindsByJudging};
ghost use Rattle.vk_judge.specs.TwoValues.{AcceptedBehindGive, OnlyAcceptedBehind};

/// A law of every statement: what is found of two replies behind a front is what judging each to
/// its end comes to.
pub fn a_finding_is_by_judging_both()
    ensures { FindsByJudging }
{}

/// A law of every statement: two replies that are accepted behind a front give the lanes 1, 2, ..
/// of the file, each with what the replies show of it, and what is found is by their challenges.
pub fn replies_accepted_behind_a_front_give_their_values()
    ensures { AcceptedBehindGive }
{}

/// A law of every statement: two replies are found to be accepted behind a front only where each of
/// them is.
pub fn only_replies_accepted_behind_a_front_are_found_to_be()
    ensures { OnlyAcceptedBehind }
{}

/// A law of files of every form: what is found of two replies is what judging each of them comes
/// to.
pub fn a_finding_is_by_both_replies<H, R>()
    ensures { (front : Front H R) → FindsByBoth front }
{}

/// A law: what five named files come to, begun one after another, is what their bytes do, where all
/// are held and none has more than 2^30.
pub fn named_files_come_to_what_their_bytes_do<X>()
    ensures { (whole : Rest → Rest → Rest → Rest → Rest → X) → AreOfHeld whole }
{}
