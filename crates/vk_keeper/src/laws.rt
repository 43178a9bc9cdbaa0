//! What holds of all auctions and ledgers.

ghost use Rattle.std.specs.Prelude.{◌≡◌, ◌↔◌, ◌+◌, ◌-◌, ◌<◌, ◌≤◌, ◌^◌, ◌⊎◌, ℕ, List, [], ◌∷◌, length, map, None, option_map};
ghost use Rattle.std.specs.FinMap.{get, insert};
ghost use Rattle.vk_seal.specs.Values.{IsSeal, IsSecret};
ghost use Rattle.vk_keeper.specs.Auctions.{IsAuction};
ghost use Rattle.vk_keeper.specs.First.{FirstLedger, first_ledger_in, lifted, lifted_ledger};
ghost use Rattle.vk_keeper.specs.Joining.{join_refusal, with_last};
ghost use Rattle.vk_keeper.specs.Kept.{ledger_in};
ghost use Rattle.vk_keeper.specs.Ledgers.{Ledger, IsLedger};
ghost use Rattle.vk_keeper.specs.Turns.{Call, Get, Put, Turns, GetsOnce, turns_after_all};
ghost use Rattle.vk_keeper.specs.declared.auction.FirstAuction.{FirstAuction};
ghost use Rattle.vk_keeper.specs.declared.auction.SealRow.{SealRow};
ghost use Rattle.vk_keeper.specs.declared.auction.Auction.{Auction};

/// A law: an auction stays one with a seal and its secret that aren't refused.
pub fn what_may_join_makes_an_auction()
    ensures { (auction : Auction) (row : SealRow) → IsAuction auction → IsSeal row.seal
        → IsSecret row.secret
        → join_refusal auction row.seal row.secret ≡ None → IsAuction (with_last auction row) }
{}

/// A law: a ledger stays one where an auction is put under its id.
pub fn a_ledger_with_an_auction_is_a_ledger()
    ensures { (kept : Ledger) (auction : Auction) → IsLedger kept → IsAuction auction
        → IsLedger (insert kept auction.id auction) }
{}

/// A law: a ledger lifted has under each id what stood there, lifted. It is what the auctions make
/// once each is lifted.
pub fn a_lifted_ledger_has_each_auction_lifted()
    ensures each { (firsts : FirstLedger) (id : List ℕ)
        → get (lifted_ledger firsts) id ≡ option_map lifted (get firsts id) }
    ensures whole { (firsts : List FirstAuction)
        → ledger_in (map lifted firsts) ≡ lifted_ledger (first_ledger_in firsts) }
{}

/// A law: below the greatest u64, `GetsOnce` is said of one `get`, alone or with one `put` after
/// it, and of no other calls.
pub fn one_get_and_then_at_most_one_put()
    ensures { (old : Turns) (calls : List Call) → old.last_get ≤ old.calls
        → old.calls + length calls < 2 ^ 64 - 1
        → GetsOnce old (turns_after_all calls old)
        ↔ ((calls ≡ Get ∷ []) ⊎ (calls ≡ Get ∷ Put ∷ [])) }
{}
