// What holds of every proof, of every auction, and of every one that is proved.
ghost use Rattle.std.specs.Prelude.{◌≡◌, ◌≤◌, ◌↔◌, ℕ, List, Some, None, length};
ghost use Rattle.std.specs.List.{concat};
ghost use Rattle.vk_plan.specs.Plans.{IsPlan, Holds};
ghost use Rattle.vk_board.specs.Values.{IsHead, AreSeals};
ghost use Rattle.vk_reply.specs.declared.challenge.Challenge.{Challenge};
ghost use Rattle.vk_vickrey.specs.Outcomes.{IsVickreyOutcome};
ghost use Rattle.vk_vickrey.specs.Sales.{IsSale};
ghost use Rattle.vk_vickrey.specs.declared.sales.Sale.{Sale};
ghost use Rattle.vk_vickrey.specs.declared.sales.Sale.TheVariants.{Sold as SoldTo};
ghost use Rattle.vk_vickrey.specs.VickreyPlans.{honest_values, vickrey_plan};
ghost use Rattle.vk_keeper.specs.declared.auction.Auction.{Auction};
ghost use Rattle.vk_job.specs.Outcome.{outcome_of, sale_of};
ghost use Rattle.vk_job.specs.Proofs.{Dry, IsFirstDryIn, IsProof, ProofValue, TapeSource, file_of, file_pieces, first_dry_in, reply_in, reply_pieces_in};
ghost use Rattle.vk_job.specs.Jobs.{IsFirstDry, bids_of, dry_in, plan_of, proof_of, sale_in, values_of};
ghost use Rattle.vk_job.specs.Published.{board_of, board_pieces, head_of, published, reply_of, reply_pieces};
ghost use Rattle.vk_job.specs.Laws.{HasLaneLines, HasReplies, HasShown, HasTapes, HasTapesOfPlan, OfFirst, OfProofs, WhereProved};

/// Of any bids, of which there is one at least: their outcome is the one by maxima, and there is no
/// other.
pub fn outcomes_are_by_maxima()
    ensures outcome { (bids : List ℕ) → 1 ≤ length bids
        → IsVickreyOutcome bids (outcome_of bids).position (outcome_of bids).price }
    ensures no_other { (bids : List ℕ) (winner price : ℕ) → IsVickreyOutcome bids winner price
        → (winner ≡ (outcome_of bids).position) × (price ≡ (outcome_of bids).price) }
{}

/// Of any bids and reserve, where there is one bid at least: their sale is the one by maxima, and
/// there is no other. Without a reserve it is their outcome.
pub fn sales_are_by_maxima()
    ensures sale { (bids : List ℕ) (reserve : ℕ) → 1 ≤ length bids
        → IsSale bids reserve (sale_of bids reserve) }
    ensures no_other { (bids : List ℕ) (reserve : ℕ) (sale : Sale) → 1 ≤ length bids
        → IsSale bids reserve sale → sale ≡ sale_of bids reserve }
    ensures first { (bids : List ℕ)
        → sale_of bids 0 ≡ SoldTo (outcome_of bids).position (outcome_of bids).price }
{}

/// Whatever the tapes come from, so of any auction and seed too: the wire that is told to be dry is
/// the first, and none is told exactly where every lane has a tape.
pub fn dry_wires_are_first()
    ensures first { (source : TapeSource) (dry : Dry) → (first_dry_in source ≡ Some dry)
        ↔ IsFirstDryIn source dry }
    ensures none { (source : TapeSource) → (first_dry_in source ≡ None) ↔ HasTapes source }
    ensures in_auction { (auction : Auction) (seed : List ℕ) (dry : Dry)
        → (dry_in auction seed ≡ Some dry) ↔ IsFirstDry auction seed dry }
{}

/// Of any auction of version 1, which has no reserve: its circuit and the values are those of the
/// outcome of the bids.
pub fn first_auctions_keep_their_circuit()
    ensures plan { OfFirst (λ auction. plan_of auction
        ≡ vickrey_plan (length auction.seals) auction.width (outcome_of (bids_of auction)).position
        (outcome_of (bids_of auction)).price) }
    ensures values { OfFirst (λ auction. values_of auction
        ≡ honest_values (length auction.seals) auction.width (outcome_of (bids_of auction)).position
        (outcome_of (bids_of auction)).price (bids_of auction)) }
{}

/// Of any auction that is proved: its plan shows the sale of the bids, the values hold for it, and
/// it gives a proof. The tape of each lane of any proof is one for the plan.
pub fn proved_auctions_hold()
    ensures sale { WhereProved
        (λ auction. IsSale (bids_of auction) auction.reserve (sale_in auction)) }
    ensures plan { WhereProved (λ auction. IsPlan (plan_of auction)) }
    ensures values { WhereProved (λ auction. Holds (plan_of auction) (values_of auction)) }
    ensures proof { WhereProved (λ auction. IsProof (proof_of auction)) }
    ensures tapes { OfProofs HasTapesOfPlan }
    ensures auction_tapes { WhereProved (λ auction. HasTapesOfPlan (proof_of auction)) }
{}

/// Of any auction that is proved: what is published of it is a board of its version. Of any proof,
/// so of that of such an auction too: what is published of its lanes has the plan's wires and rows,
/// and what is shown is a reply.
pub fn published_boards_are_of_their_form()
    ensures version { (auction : Auction) → (head_of auction).version ≡ auction.version }
    ensures head { WhereProved (λ auction. IsHead (head_of auction)) }
    ensures seals { WhereProved (λ auction. AreSeals (head_of auction) (published auction).seals) }
    ensures count { (auction : Auction) → length (published auction).lanes ≡ auction.lanes }
    ensures lanes { OfProofs HasLaneLines }
    ensures shown { OfProofs HasShown }
    ensures replies { OfProofs HasReplies }
    ensures auction_lanes { WhereProved (λ auction. HasLaneLines (proof_of auction)) }
    ensures auction_shown { WhereProved (λ auction. HasShown (proof_of auction)) }
    ensures auction_replies { WhereProved (λ auction. HasReplies (proof_of auction)) }
{}

/// Of any proof and text of a head, and of any auction: the pieces of its file, and of its reply to
/// a challenge, are one after another the text.
pub fn pieces_are_texts()
    ensures file { (head : List ℕ) (proof : ProofValue)
        → concat (file_pieces head proof) ≡ file_of head proof }
    ensures shown { (proof : ProofValue) (challenge : Challenge)
        → concat (reply_pieces_in proof challenge.bits) ≡ reply_in proof challenge.bits }
    ensures board { (auction : Auction) → concat (board_pieces auction) ≡ board_of auction }
    ensures reply { (auction : Auction) (challenge : Challenge)
        → concat (reply_pieces auction challenge) ≡ reply_of auction challenge }
{}
