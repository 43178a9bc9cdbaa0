//! What holds of every house, whatever it is asked, by whom and in which order.

ghost use Rattle.std.specs.Prelude.{◌≡◌, ◌≢◌, ℕ, List, map, All};
ghost use Rattle.std.specs.FinMap.{empty, get};
ghost use Rattle.vk_reply.specs.declared.challenge.Challenge.{Challenge};
ghost use Rattle.vk_keeper.specs.declared.auction.FirstAuction.{FirstAuction};
ghost use Rattle.vk_keeper.specs.Common.{FirstLedger, IsLedger, Ledger, lifted, lifted_ledger};
ghost use Rattle.vk_job.specs.Jobs.{proof_with};
ghost use Rattle.vk_job.specs.Published.{board_of, reply_of};
ghost use Rattle.vk_house.specs.declared.errors.HouseErr.TheVariants.{DrySeed};
ghost use Rattle.vk_house.specs.Commands.{HouseCommand, Answer, id_of, IsHouseCommand, NamesNoReserve};
ghost use Rattle.vk_house.specs.Former.{first_house_steps, first_proof, first_board, first_reply, lifted_reply};
ghost use Rattle.vk_house.specs.Replies.{HouseReply, Refused};
ghost use Rattle.vk_house.specs.Steps.{house_step, house_steps, HouseCall};
ghost use Rattle.vk_house.specs.Runs.{Event, HouseRun, events_of, alone};
ghost use Rattle.vk_house.specs.Once.{KeepsAnswers, IsAnswered, SeedsGiveTapes};

/// A law of one command: its reply and what stands under its id afterwards depend on what stood
/// under that id alone, and all other ids stay.
pub fn a_command_looks_at_its_own_auction_alone()
    ensures reply { (one other : Ledger) (command : HouseCommand)
        → get one (id_of command) ≡ get other (id_of command)
        → (house_step one command).0 ≡ (house_step other command).0 }
    ensures value { (one other : Ledger) (command : HouseCommand)
        → get one (id_of command) ≡ get other (id_of command)
        → get (house_step one command).1 (id_of command)
        ≡ get (house_step other command).1 (id_of command) }
    ensures others { (old new : Ledger) (command : HouseCommand) (reply : HouseReply) (id : List ℕ)
        → HouseCall old command reply new
        → id ≢ id_of command → get new id ≡ get old id }
{}

/// A law of every list of calls: those that speak of one auction are calls one after another by
/// themselves, whatever calls of other auctions come between. They begin with the ledger that holds
/// what stood under its id alone, and end with the one that holds what stands there alone.
pub fn each_auction_has_a_run_of_its_own()
    ensures { (events : List Event) (old new : Ledger) (id : List ℕ) → HouseRun events old new
        → HouseRun (events_of id events) (alone id old) (alone id new) }
{}

/// A law of every list of calls: an auction that is answered stays as it is, and one that is proved
/// keeps its terms, its seals and its seed. So all challenges that were answered for one auction
/// are one.
pub fn an_auction_is_answered_once()
    ensures call { (old new : Ledger) (command : HouseCommand) (reply : HouseReply)
        → HouseCall old command reply new
        → KeepsAnswers old new }
    ensures run { (events : List Event) (old new : Ledger) → HouseRun events old new
        → KeepsAnswers old new }
    ensures same { (ledger : Ledger) → KeepsAnswers ledger ledger }
    ensures further { (old between new : Ledger) → KeepsAnswers old between
        → KeepsAnswers between new → KeepsAnswers old new }
    ensures once { (events : List Event) (old new : Ledger) (id : List ℕ) (first second : Challenge)
        → HouseRun events old new
        → IsAnswered id events first → IsAnswered id events second → first ≡ second }
{}

/// A law: a house that began with no auction keeps no seed that is dry, and so never answers a
/// challenge with `DrySeed`.
pub fn kept_seeds_are_not_dry()
    ensures none { SeedsGiveTapes empty }
    ensures call { (old new : Ledger) (command : HouseCommand) (reply : HouseReply)
        → HouseCall old command reply new
        → SeedsGiveTapes old → SeedsGiveTapes new }
    ensures answer { (old new : Ledger) (id : List ℕ) (challenge : Challenge) (lane wire : ℕ)
        → SeedsGiveTapes old
        → HouseCall old (Answer id challenge) (Refused (DrySeed lane wire)) new → ⊥ }
{}

/// A law of auctions that were kept before they had a version and a reserve: lifted, they go on as
/// before. Whatever is asked then, if it names no reserve, is replied to as it was, and leaves the
/// ledger that it left, lifted. What boards and replies are made from is the same too, and so are
/// the files of its board and of its replies, byte for byte.
pub fn a_lifted_ledger_goes_on_as_before()
    ensures replies { (commands : List HouseCommand) (firsts : FirstLedger)
        → All NamesNoReserve commands
        → (house_steps (lifted_ledger firsts) commands).0
        ≡ map lifted_reply (first_house_steps firsts commands).0 }
    ensures ledger { (commands : List HouseCommand) (firsts : FirstLedger)
        → All NamesNoReserve commands
        → (house_steps (lifted_ledger firsts) commands).1
        ≡ lifted_ledger (first_house_steps firsts commands).1 }
    ensures proof { (first : FirstAuction) (seed : List ℕ)
        → proof_with (lifted first) seed ≡ first_proof first seed }
    ensures board { (first : FirstAuction) → board_of (lifted first) ≡ first_board first }
    ensures shown { (first : FirstAuction) (challenge : Challenge)
        → reply_of (lifted first) challenge ≡ first_reply first challenge }
{}

/// A law: a ledger stays one, whatever the house is asked.
pub fn a_ledger_stays_one()
    ensures none { IsLedger empty }
    ensures call { (old new : Ledger) (command : HouseCommand) (reply : HouseReply)
        → HouseCall old command reply new
        → IsHouseCommand command → IsLedger old → IsLedger new }
{}
