ghost use Rattle.std.specs.Prelude.{◌≡◌, ◌≢◌, ◌++◌, [], ◌∷◌, All, AllPairs, IfSome, IfOk, IfErr, OnOk, OnErr};
ghost use Rattle.std.specs.Prelude as list;
ghost use Rattle.std.specs.FinMap as map;
ghost use Rattle.vk_io.specs.Faults.{CountsCall, fails_too};
ghost use Rattle.vk_keeper.specs.Auctions.{IsAuction};
ghost use Rattle.vk_keeper.specs.First.{IsFirstAuction, lifted};
ghost use Rattle.vk_keeper.specs.Kept.{AreKept, ledger_in};
ghost use Rattle.vk_keeper.specs.Ledgers.{IsLedger};
ghost use Rattle.vk_keeper.specs.Turns.{AfterGet, AfterPut};

use crate::auction::{Auction, FirstAuction};
use crate::keeper::Keeper;
use crate::kept::{copy_of, keep};
use crate::lifting::lifted_each;
use crate::turns::TurnCount;
use std::alloc::Global;
use std::marker::Model;
use vk_io::{CallCount, OutsideErr};
use vk_residue::NoMemory;

/// A keeper in memory, which is modelled. The calls of the trait are counted from 1 over its
/// life, and those that [`MemKeeper::fail_at`] named fail and change no auction.
#[derive(Drop)]
pub struct MemKeeper {
    auctions: Vec<Auction>,
    calls: CallCount,
    turns: TurnCount,
    alloc: Global,
}

impl Model for MemKeeper {
    ghost use Rattle.vk_keeper.specs.Memory.{MemoryLedger, ledger_code};

    ghost Value = { MemoryLedger };

    ghost coded = { ledger_code };

    ghost use Rattle.vk_keeper.specs.Kept.{AreKept, ledger_in};

    ghost view = { λ k. record {
      ledger = ledger_in k.auctions.items;
      calls = k.calls;
      turns = k.turns;
    } };

    ghost invariant = { λ k. AreKept k.auctions.items };
}

impl MemKeeper {
    /// No auctions, and no call that is to fail. What is kept later is made with this allocator.
    #[tactic(auto, unfolding(crate::specs::Kept::ledger_in))]
    pub fn new(alloc: Global) -> MemKeeper
        ensures { result ≡ record {
          ledger = map.empty;
          calls = record { made = 0; failing = []; faults = 0 };
          turns = record { calls = 0; last_get = 0 };
        } }
    {
        MemKeeper::holding(alloc, Vec::new(alloc))
    }

    /// These auctions, each lifted, and no call that is to fail. Errs for want of memory alone.
    pub fn lifted(alloc: Global, firsts: Vec<FirstAuction>) -> Result<MemKeeper, NoMemory>
        requires each { All IsFirstAuction firsts.items }
        requires ids { AllPairs (λ earlier later. earlier ≢ later)
            (list.map (λ first. first.id) firsts.items) }
        ensures { IfOk result (λ keeper. keeper ≡ record {
          ledger = ledger_in (list.map lifted firsts.items);
          calls = record { made = 0; failing = []; faults = 0 };
          turns = record { calls = 0; last_get = 0 };
        }) }
    {
        let auctions = lifted_each(alloc, firsts)?;
        Ok(MemKeeper::holding(alloc, auctions))
    }

    /// These auctions, with no call made yet.
    fn holding(alloc: Global, auctions: Vec<Auction>) -> MemKeeper
        requires { AreKept auctions.items }
        ensures { result ≡ record {
          ledger = ledger_in auctions.items;
          calls = record { made = 0; failing = []; faults = 0 };
          turns = record { calls = 0; last_get = 0 };
        } }
    {
        MemKeeper {
            auctions,
            calls: CallCount::new(alloc),
            turns: TurnCount::new(),
            alloc,
        }
    }

    /// Has the call of that number fail, counted from 1 over the keeper's life. Errs for want of
    /// memory alone, and then nothing changed.
    pub fn fail_at(&mut self, call: u64) -> Result<(), NoMemory>
        ensures named { OnOk result
            (self.new ≡ record self.old { calls = fails_too call self.old.calls }) }
        ensures refused { OnErr result (self.new ≡ self.old) }
    {
        self.calls.name(call)
    }

    /// Counts one call of the trait. Errs where it is one that is to fail, and changes no auction.
    fn begin(&mut self) -> Result<(), OutsideErr>
        ensures outside { IfErr result (λ refusal. refusal ≡ OutsideErr.Failed) }
        ensures ledger { IsLedger self.old.ledger }
        ensures counted { CountsCall result self.old.calls self.new.calls }
        ensures same { self.new ≡ record self.old { calls = self.new.calls } }
    {
        self.calls.begin()
    }
}

impl Keeper for MemKeeper {
    ghost use Rattle.std.specs.Prelude.{Some};

    ghost ledger = { λ k. Some k.ledger };

    ghost faults = { λ k. k.calls.faults };

    ghost turns = { λ k. k.turns };

    /// The auction of that id by the ledger, or an error.
    ghost get_gives = { λ old id answer _. IfOk answer (λ found. found ≡ map.get old.ledger id) };

    fn get(&mut self, id: &[u8; 16]) -> Result<Option<Auction>, OutsideErr>
        ensures answer { IfOk result (λ found. found ≡ map.get self.old.ledger id.now) }
        ensures id { IfOk result (λ found. IfSome found (λ auction. auction.id ≡ id.now)) }
        ensures right { IfOk result (λ found. IfSome found IsAuction) }
        ensures ledger { IsLedger self.old.ledger }
        ensures kept { self.new.ledger ≡ self.old.ledger }
        ensures counted { CountsCall result self.old.calls self.new.calls }
        ensures turn { AfterGet self.old.turns self.new.turns }
    {
        self.turns.count_get();
        self.begin()?;
        let found = copy_of(self.alloc, &self.auctions, id)?;
        Ok(found)
    }

    fn put(&mut self, auction: Auction) -> Result<(), OutsideErr>
        requires { IsAuction auction }
        ensures ledger { IsLedger self.old.ledger }
        ensures put { OnOk result
            (self.new.ledger ≡ map.insert self.old.ledger auction.id auction) }
        ensures refused { OnErr result (self.new.ledger ≡ self.old.ledger) }
        ensures counted { CountsCall result self.old.calls self.new.calls }
        ensures turn { AfterPut self.old.turns self.new.turns }
    {
        self.turns.count_put();
        self.begin()?;
        keep(&mut self.auctions, auction)?;
        Ok(())
    }
}
