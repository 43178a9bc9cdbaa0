//! What a run of the page works on beside a `SureShelf`: a house and a text in memory, of which no
//! call fails. Their counts of faults stay 0, so no run over them ends with the status of a
//! failure.

ghost use Rattle.std.specs.Prelude.{◌≡◌, [], IfOk};
ghost use Rattle.std.specs.FinMap as map;

use std::alloc::Global;
use std::marker::Model;
use vk_io::{MemSink, OutsideErr, Sink};
use vk_keeper::{Auction, Keeper, MemKeeper};

/// Auctions in memory. No call fails, but for want of memory.
#[derive(Drop)]
pub struct SureKeeper {
    auctions: MemKeeper,
}

impl Model for SureKeeper {
    ghost use Rattle.std.specs.Prelude.{◌≡◌, []};
    ghost use Rattle.vk_keeper.specs.Memory.{MemoryLedger, ledger_code};

    ghost Value = { MemoryLedger };

    ghost coded = { ledger_code };

    ghost view = { λ k. k.auctions };

    ghost invariant = { λ k. k.auctions.calls.failing ≡ [] };
}

impl SureKeeper {
    /// No auctions. What is kept later is made with this allocator.
    pub fn new(alloc: Global) -> SureKeeper
        ensures { result.ledger ≡ map.empty }
    {
        SureKeeper {
            auctions: MemKeeper::new(alloc),
        }
    }
}

impl Keeper for SureKeeper {
    ghost use Rattle.std.specs.Prelude.{Some};

    ghost ledger = { λ k. Some k.ledger };

    ghost faults = { λ _. 0 };

    ghost turns = { λ k. k.turns };

    /// The auction of that id by the ledger, or an error.
    ghost get_gives = { λ old id answer _. IfOk answer (λ found. found ≡ map.get old.ledger id) };

    fn get(&mut self, id: &[u8; 16]) -> Result<Option<Auction>, OutsideErr> {
        self.auctions.get(id)
    }

    fn put(&mut self, auction: Auction) -> Result<(), OutsideErr> {
        self.auctions.put(auction)
    }
}

/// The text that is printed. No call fails, but for want of memory.
#[derive(Drop)]
pub struct SureSink {
    text: MemSink,
}

impl Model for SureSink {
    ghost use Rattle.std.specs.Prelude.{◌≡◌, []};
    ghost use Rattle.vk_io.specs.Memory.{MemoryBytes};

    ghost Value = { MemoryBytes };

    ghost view = { λ s. s.text };

    ghost invariant = { λ s. s.text.calls.failing ≡ [] };
}

impl SureSink {
    /// No text yet.
    pub fn new(alloc: Global) -> SureSink
        ensures { result.taken ≡ [] }
    {
        SureSink {
            text: MemSink::new(alloc),
        }
    }

    /// The bytes taken so far.
    pub fn bytes(&self) -> &[u8]
        ensures { result.now ≡ self.now.taken }
    {
        self.text.bytes()
    }
}

impl Sink for SureSink {
    ghost use Rattle.std.specs.Prelude.{Some};

    ghost taken = { λ s. Some s.taken };

    ghost faults = { λ _. 0 };

    ghost wants = { λ s. s.wants };

    fn put(&mut self, piece: &[u8]) -> Result<(), OutsideErr> {
        self.text.put(piece)
    }
}
