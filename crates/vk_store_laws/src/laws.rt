//! What holds of all stores.

ghost use Rattle.std.specs.Prelude.{◌≡◌, ◌⊎◌, true, false, ℕ, pos, List, [], ◌∷◌, Option, Result, IfSome, OnOk};
ghost use Rattle.std.specs.FinMap.{empty, get, insert};
ghost use Rattle.sqlite.specs.Effect.{Database};
ghost use Rattle.sqlite.specs.Held.{Held, state};
ghost use Rattle.sqlite.specs.State.{HasCleanDisk};
ghost use Rattle.sqlite.specs.Tree.{Trees};
ghost use Rattle.sqlite.specs.declared.types.Value.{Value};
ghost use Rattle.sqlite.specs.declared.types.Value.TheVariants.{Int};
ghost use Rattle.vk_io.specs.declared.errors.OutsideErr.{OutsideErr};
ghost use Rattle.vk_commit.specs.Values.{AreBytes};
ghost use Rattle.vk_reply.specs.declared.challenge.Challenge.{Challenge};
ghost use Rattle.vk_reply.specs.Texts.{challenge_text};
ghost use Rattle.vk_verifier.specs.Acceptance.{Accepts};
ghost use Rattle.vk_job.specs.Published.{board_of, reply_of};
ghost use Rattle.vk_house.specs.Once.{KeepsAnswers};
ghost use Rattle.vk_keeper.specs.Common.{FirstLedger, IsAuction, Ledger, challenge_of, lifted_ledger};
ghost use Rattle.vk_keeper.specs.declared.auction.Auction.{Auction};
ghost use Rattle.vk_keeper_sql.specs.Opening.{MakesTables, Prepares};
ghost use Rattle.vk_keeper_sql.specs.Reading.{FailsToRead, Finds, FindsNothing, ShowsNeither};
ghost use Rattle.vk_keeper_sql.specs.Transactions.{CommitsAtOnce};
ghost use Rattle.vk_keeper_sql.specs.Unopened.{IsRefusedFor};
ghost use Rattle.vk_keeper_sql.specs.Writing.{Keeps};
ghost use Rattle.vk_keeper_sql.specs.declared.errors.OpenErr.{OpenErr};
ghost use Rattle.vk_store_laws.specs.Former.{IsFirstStore, TellsFirst};
ghost use Rattle.vk_store_laws.specs.Holding.{IsStore, Stands};
ghost use Rattle.vk_store_laws.specs.Refused.{IsOfConnection};
ghost use Rattle.vk_store_laws.specs.Runs.{Act, AllSpare, HasFound, LeadOn, Runs, Tells};
ghost use Rattle.vk_store_laws.specs.Serving.{Answers, Proves, Served, Serves, StepOn};
ghost use Rattle.vk_store_laws.specs.Tables.{no_schema};
ghost use Rattle.vk_store_laws.specs.Telling.{TablesTell};

use sqlite::Alter;

/// A law: the rows of an id are those of one auction at most.
pub fn what_stands_under_an_id_is_one_auction()
    ensures { (trees : Trees) (a : Auction) (b : Auction) → IsAuction a → IsAuction b → a.id ≡ b.id
        → Stands trees a → Stands trees b → a ≡ b }
{}

/// A law: what a keeper finds in a store that tells a ledger is what the ledger has.
pub fn what_is_answered_is_what_the_ledger_has<S: Alter>()
    ensures { (old : Held S) (id : List ℕ) (found : Option Auction) (ledger : Ledger)
        → AreBytes 16 id
        → IsStore (state S.Store old).now → TablesTell (state S.Store old).now.trees ledger
        → IfSome found (λ auction. auction.id ≡ id) → IfSome found IsAuction
        → Finds S.Store id old found → found ≡ get ledger id }
{}

/// A law: in a store that tells a ledger no answer is refused for the rows: they show what the
/// ledger has. So what a keeper refuses there, and not for want of memory, is a query that was
/// refused.
pub fn the_rows_show_what_the_ledger_has<S: Alter>()
    ensures rows { (old : Held S) (id : List ℕ) (ledger : Ledger) → AreBytes 16 id
        → IsStore (state S.Store old).now → TablesTell (state S.Store old).now.trees ledger
        → ¬ ShowsNeither S.Store id old }
    ensures refused { (old : Held S) (id : List ℕ) (ledger : Ledger) → AreBytes 16 id
        → Tells S.Store old ledger → FindsNothing S.Store id old
        → FailsToRead S.Store id (record old { in_transaction = true }) }
{}

/// A law: what is made of a store that tells a ledger by keeping an auction is a store that tells
/// the ledger with the auction.
pub fn what_is_kept_is_in_the_ledger<S: Alter>()
    ensures { (old : Held S) (auction : Auction) (whole : Database) (ledger : Ledger)
        → IsAuction auction
        → IsStore (state S.Store old).now → TablesTell (state S.Store old).now.trees ledger
        → Keeps S.Store auction old whole
        → IsStore whole × TablesTell whole.trees (insert ledger auction.id auction) }
{}

/// A law: what is made of an empty store as it is opened is a store that tells the ledger without
/// auctions, and whatever a crash leaves of it tells that too, if what a crash could leave before
/// did.
pub fn a_new_store_tells_no_auction<S: Alter>()
    ensures made { (old : Held S) (new : Held S) → (state S.Store old).now.schema ≡ no_schema
        → MakesTables S.Store old new
        → IsStore (state S.Store new).now × TablesTell (state S.Store new).now.trees empty }
    ensures crash { (old : Held S) (new : Held S) (result : Result Unit OpenErr)
        → (state S.Store old).now.schema ≡ no_schema
        → ((trees : Trees) → (state S.Store old).may_leave trees → TablesTell trees empty)
        → CommitsAtOnce (Prepares S.Store old) (state S.Store old) (state S.Store new) result
        → HasCleanDisk (state S.Store new)
        → ((trees : Trees) → (state S.Store new).may_leave trees → TablesTell trees empty)
        × OnOk result (TablesTell (state S.Store new).committed.trees empty) }
{}

/// A law: tables without rows tell the ledger without auctions.
pub fn an_empty_store_tells_no_auction()
    ensures { (trees : Trees) → trees 1 ≡ [] → trees 3 ≡ [] → trees 6 ≡ []
        → TablesTell trees empty }
{}

/// A law: keeping an auction in a store that tells a ledger, a crash at any moment leaves what
/// tells that ledger or the one with the auction, if what a crash could leave before told it; and
/// where the call was not refused the store tells the one with the auction.
pub fn a_crash_leaves_the_ledger_of_before_or_after<S: Alter>()
    ensures { (old : Held S) (new : Held S) (auction : Auction) (ledger : Ledger)
        (result : Result Unit OutsideErr)
        → IsAuction auction → IsStore (state S.Store old).now
        → TablesTell (state S.Store old).now.trees ledger
        → ((trees : Trees) → (state S.Store old).may_leave trees → TablesTell trees ledger)
        → CommitsAtOnce (Keeps S.Store auction old) (state S.Store old) (state S.Store new) result
        → HasCleanDisk (state S.Store new)
        → ((trees : Trees) → (state S.Store new).may_leave trees → TablesTell trees ledger
        ⊎ TablesTell trees (insert ledger auction.id auction))
        × OnOk result (TablesTell (state S.Store new).committed.trees
        (insert ledger auction.id auction)) }
{}

/// A law: a store with the tables of the number 1 that told a ledger is, once it was prepared, a
/// store that tells the ledger lifted. A crash at any moment leaves what tells the one or the
/// other, if what a crash could leave before told the first; and where the opening was not refused
/// the store tells the second.
pub fn a_store_from_before_tells_its_ledger_lifted<S: Alter>()
    ensures lifted { (old : Held S) (whole : Database) (firsts : FirstLedger)
        → IsFirstStore (state S.Store old).now → TellsFirst (state S.Store old).now.trees firsts
        → Prepares S.Store old whole
        → IsStore whole × TablesTell whole.trees (lifted_ledger firsts) }
    ensures crash { (old : Held S) (new : Held S) (firsts : FirstLedger)
        (result : Result Unit OpenErr)
        → IsFirstStore (state S.Store old).now → TellsFirst (state S.Store old).now.trees firsts
        → ((trees : Trees) → (state S.Store old).may_leave trees → TellsFirst trees firsts)
        → CommitsAtOnce (Prepares S.Store old) (state S.Store old) (state S.Store new) result
        → HasCleanDisk (state S.Store new)
        → ((trees : Trees) → (state S.Store new).may_leave trees → TellsFirst trees firsts
        ⊎ TablesTell trees (lifted_ledger firsts))
        × OnOk result (TablesTell (state S.Store new).committed.trees (lifted_ledger firsts)) }
{}

/// A law: a store without tables, and one with those of the number 1 or 2, where the one row of
/// `about` has that number, isn't refused for its tables nor for its number, whatever ledger it
/// tells: outside of a transaction its connection alone refuses it.
pub fn a_sound_store_is_refused_by_its_connection_alone<S: Alter>()
    ensures unmade { (old : Held S) (new : Held S) (refusal : OpenErr)
        → old.in_transaction ≡ false → (state S.Store old).now.schema ≡ no_schema
        → IsRefusedFor S.Store old new refusal → IsOfConnection S.Store refusal }
    ensures former { (old : Held S) (new : Held S) (refusal : OpenErr) (rowid : Value)
        → old.in_transaction ≡ false → IsFirstStore (state S.Store old).now
        → (state S.Store old).now.trees 0 ≡ (rowid ∷ Int (pos 1) ∷ []) ∷ []
        → IsRefusedFor S.Store old new refusal → IsOfConnection S.Store refusal }
    ensures own { (old : Held S) (new : Held S) (refusal : OpenErr) (rowid : Value)
        → old.in_transaction ≡ false → IsStore (state S.Store old).now
        → (state S.Store old).now.trees 0 ≡ (rowid ∷ Int (pos 2) ∷ []) ∷ []
        → IsRefusedFor S.Store old new refusal → IsOfConnection S.Store refusal }
{}

/// A law: a store that told a ledger tells it once it was opened again, and whatever a crash leaves
/// of it does so, if what a crash could leave before did.
pub fn a_store_that_is_opened_again_tells_its_ledger<S: Alter>()
    ensures same { (old : Held S) (whole : Database) → IsStore (state S.Store old).now
        → Prepares S.Store old whole
        → whole ≡ (state S.Store old).now }
    ensures crash { (old : Held S) (new : Held S) (ledger : Ledger) (result : Result Unit OpenErr)
        → IsStore (state S.Store old).now → TablesTell (state S.Store old).now.trees ledger
        → ((trees : Trees) → (state S.Store old).may_leave trees → TablesTell trees ledger)
        → CommitsAtOnce (Prepares S.Store old) (state S.Store old) (state S.Store new) result
        → HasCleanDisk (state S.Store new)
        → ((trees : Trees) → (state S.Store new).may_leave trees → TablesTell trees ledger)
        × OnOk result (TablesTell (state S.Store new).committed.trees ledger) }
{}

/// A law: behind any list of calls, crashes and openings a store that told a ledger tells the one
/// that the list leads to: what was found is what the ledger had, what was kept is in it, and of
/// what was stopped nothing is in it, or all. Where a crash left tables, they are read back as they
/// were made.
pub fn a_store_tells_the_ledger_of_its_calls<S: Alter>()
    ensures begun { (old : Held S) (new : Held S) → (state S.Store old).now.schema ≡ no_schema
        → HasCleanDisk (state S.Store new)
        → CommitsAtOnce {E = OpenErr} (Prepares S.Store old) (state S.Store old)
        (state S.Store new) (Ok tt)
        → Tells S.Store new empty }
    ensures run { (acts : List Act) (old : Held S) (new : Held S) (ledger : Ledger)
        → Runs S.Store acts old new → Tells S.Store old ledger
        → (after : Ledger) × LeadOn acts ledger after × Tells S.Store new after }
{}

/// A law: an auction whose challenge is answered is the one that is found under its id behind any
/// list of calls, crashes and openings, where no call is asked to put another one in its place.
pub fn what_is_answered_is_found_for_ever<S: Alter>()
    ensures { (acts : List Act) (old : Held S) (new : Held S) (last : Held S) (ledger : Ledger)
        (id : List ℕ) (held : Auction) (challenge : Challenge) (answer : Option Auction)
        → Tells S.Store old ledger → get ledger id ≡ Some held
        → challenge_of held.phase ≡ Some challenge
        → AllSpare acts ledger → Runs S.Store acts old new → HasFound S.Store id answer new last
        → answer ≡ Some held }
{}

/// A law: whatever a house is asked over a store, with crashes and openings between and within, all
/// answers of one auction that were done are one, in challenge and reply; all its boards are one;
/// and with this each reply is accepted. The ledger goes as the house's steps do. Of a command that
/// was stopped nothing is kept, or what its step keeps.
///
/// What a command asks of its keeper is said by `IsMade`: it finds what stands under its id, and
/// keeps what the step on that keeps anew.
pub fn all_answers_from_a_store_are_one<S: Alter>()
    ensures steps { (all : List Served) (old : Held S) (new : Held S) (ledger : Ledger)
        → Serves S.Store all old new → Tells S.Store old ledger
        → (after : Ledger) × StepOn all ledger after × KeepsAnswers ledger after
        × Tells S.Store new after }
    ensures answers { (all : List Served) (old : Held S) (new : Held S) (ledger : Ledger)
        (id : List ℕ) (one : Challenge) (other : Challenge) (first : Auction) (second : Auction)
        → Serves S.Store all old new → Tells S.Store old ledger
        → Answers all id one first → Answers all id other second
        → (one ≡ other) × (first ≡ second) }
    ensures boards { (all : List Served) (old : Held S) (new : Held S) (ledger : Ledger)
        (id : List ℕ) (first : Auction) (second : Auction)
        → Serves S.Store all old new → Tells S.Store old ledger
        → Proves all id first → Proves all id second → board_of first ≡ board_of second }
    ensures accepted { (all : List Served) (old : Held S) (new : Held S) (ledger : Ledger)
        (id : List ℕ) (challenge : Challenge) (first : Auction) (second : Auction)
        → Serves S.Store all old new → Tells S.Store old ledger
        → Proves all id first → Answers all id challenge second
        → Accepts (board_of first) (challenge_text challenge) (reply_of second challenge) }
{}
