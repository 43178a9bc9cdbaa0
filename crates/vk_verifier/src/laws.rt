//! What a verdict on a board means.

ghost use Rattle.vk_verifier.specs.Acceptance.{AcceptedExactly};
ghost use Rattle.vk_verifier.specs.Refusals.{VerdictsAreExact};

/// A law: a board, a challenge and a reply have no fault exactly where they are the texts of such,
/// and the reply is accepted.
pub fn a_verdict_accepts_what_is_accepted()
    ensures { AcceptedExactly }
{}

/// A law: each verdict is given exactly where it holds: a file's fault line by its table, the
/// price, the winner, the numbers of lanes, or the first fault of a lane, and all that is read
/// before it is right and accepted.
pub fn verdicts_are_given_exactly_where_they_hold()
    ensures { VerdictsAreExact }
{}
