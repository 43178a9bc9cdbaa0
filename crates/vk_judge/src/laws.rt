//! What is judged behind a front, of any statement.

ghost use Rattle.vk_judge.specs.Refusals.{BehindIsExact};

/// A law of every statement and every front: what is judged behind it is passed exactly where the
/// files are the texts of such and the reply is accepted, and refused with a fault exactly where
/// that fault holds.
pub fn what_is_judged_behind_a_front_is_exact()
    ensures { BehindIsExact }
{}
