//! What holds of every honest proof, and of the board and the replies of every auction that is
//! proved.

ghost use Rattle.std.specs.Prelude.{◌≡◌, ◌+◌, ◌==◌, ℕ, List, length};
ghost use Rattle.std.specs.List.{slice_split};
ghost use Rattle.vk_reply.specs.declared.challenge.Challenge.{Challenge};
ghost use Rattle.vk_reply.specs.Values.{IsChallenge};
ghost use Rattle.vk_reply.specs.Texts.{challenge_text};
ghost use Rattle.vk_job.specs.Jobs.{numbers_in};
ghost use Rattle.vk_job.specs.Published.{board_of, reply_of};
ghost use Rattle.vk_job.specs.Laws.{WhereProved};
ghost use Rattle.vk_honest.specs.Answers.{AnswersAreAccepted, ProofsAreAccepted, WhereChallenged};
ghost use Rattle.vk_honest.specs.Extracted.{BidsAreEqual, RepliesGiveBids, TurnedOpenAll};
ghost use Rattle.vk_honest.specs.Sizes.{IsShort, board_lines, line_count, reply_lines};

/// A law: of every honest proof whose rows are sealed, for any circuit, the reply to any challenge
/// with a bit for each of its lanes is accepted behind any front, of which its statement is.
pub fn an_honest_proof_is_accepted()
    ensures { ProofsAreAccepted }
{}

/// A law: of every auction that is proved, of either version, sold or not, the reply to any
/// challenge with a bit for each of its lanes is accepted with its board. So there is no challenge
/// that an honest auctioneer can't answer.
pub fn an_honest_answer_is_accepted()
    ensures { AnswersAreAccepted }
{}

/// A law: of every auction that is proved, the replies to two challenges that differ give bids and
/// no clash: in each lane whose bits differ, of each seal the bid that was sealed, opened by its
/// secret's halves.
///
/// So the bids of a seal are equal in all of these lanes. Where each bit of a challenge is turned
/// in the other, they are all lanes of the auction.
pub fn honest_replies_give_the_bids()
    ensures given { RepliesGiveBids }
    ensures equal { BidsAreEqual }
    ensures turned { TurnedOpenAll }
{}

/// A law: of every auction that is proved, the board has at most 2^30 bytes, and so have any
/// challenge and the reply to it. So none of these files is too long to be read.
pub fn honest_files_are_short()
    ensures boards { WhereProved (λ auction. IsShort (board_of auction)) }
    ensures challenges { (challenge : Challenge) → IsChallenge challenge
        → IsShort (challenge_text challenge) }
    ensures replies { WhereChallenged (λ auction challenge. IsShort (reply_of auction challenge)) }
{}

/// A law: of every auction that is proved, how many lines the board has, and how many the reply to
/// any challenge: by the numbers that the board publishes and the number of lanes.
///
/// Lines are counted as fault lines are: of the pieces between line feeds the last is no line.
pub fn honest_files_have_so_many_lines()
    ensures boards { WhereProved (λ auction. line_count (board_of auction)
        ≡ board_lines (numbers_in auction) auction.lanes) }
    ensures replies { WhereChallenged (λ auction challenge. line_count (reply_of auction challenge)
        ≡ reply_lines (numbers_in auction) auction.lanes) }
    ensures pieces { (text : List ℕ)
        → length (slice_split (λ byte. byte == 10) text) ≡ line_count text + 1 }
{}
