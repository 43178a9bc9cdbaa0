//! What holds of all runs on one keeper, and of what the house answers.

ghost use Rattle.std.specs.Prelude.{◌≡◌, ℕ, List};
ghost use Rattle.vk_keeper.specs.Ledgers.{IsLedger, Ledger};
ghost use Rattle.vk_ceremony.specs.Acts.{HouseAct};
ghost use Rattle.vk_verifier.specs.Acceptance.{Accepts};
ghost use Rattle.vk_app.specs.Accepted.{ChallengesAreAnswered, DerivedAreAnswered, LeftRepliesAreAccepted, RepliesAreAccepted};
ghost use Rattle.vk_app.specs.Auctions.{Answers, AreRuns, IsActOf, Proves, Run};

/// A law of every list of runs on one keeper, whatever their words and their statuses and whatever
/// becomes of the files between them. All that was answered for one auction, by a command or in a
/// ceremony, had the same challenge, and was the same reply. All boards of it that were left by a
/// `prove` are one. And with that board every such reply is accepted. So it is of a command that was
/// stopped when the house had kept it: its file holds such a board or reply, or its first bytes, or
/// is as before.
///
/// The first ledger is one (`Keeper::get` and `put` say so of theirs), and each run hands that on.
pub fn every_answer_of_an_auction_is_the_same()
    ensures answers { (runs : List Run) (old new : Ledger) (one other : HouseAct)
        (id given shown next_given next_shown : List ℕ)
        → IsLedger old → AreRuns runs old new → IsActOf runs one → IsActOf runs other
        → Answers one id given shown → Answers other id next_given next_shown → (given ≡ next_given)
        × (shown ≡ next_shown) }
    ensures boards { (runs : List Run) (old new : Ledger) (one other : HouseAct)
        (id published next_published : List ℕ)
        → IsLedger old → AreRuns runs old new → IsActOf runs one → IsActOf runs other
        → Proves one id published → Proves other id next_published → published ≡ next_published }
    ensures accepted { (runs : List Run) (old new : Ledger) (one other : HouseAct)
        (id published given shown : List ℕ)
        → IsLedger old → AreRuns runs old new → IsActOf runs one → IsActOf runs other
        → Proves one id published → Answers other id given shown → Accepts published given shown }
{}

/// A law: what `answer` writes is accepted with the board of the ledger's auction and the challenge
/// of the file; and where the keeper isn't modelled, with the board of the auction whose reply is
/// left. And every challenge with a bit for each lane is answered, so there is none that the
/// auctioneer can't answer: so is the one that its board's bytes give.
pub fn what_is_answered_is_accepted()
    ensures accepted { RepliesAreAccepted }
    ensures left { LeftRepliesAreAccepted }
    ensures answered { ChallengesAreAnswered }
    ensures derived { DerivedAreAnswered }
{}
