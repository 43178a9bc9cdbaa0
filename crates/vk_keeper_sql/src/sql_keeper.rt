//! A keeper over an SQLite store.

ghost use Rattle.std.specs.Prelude.{◌≡◌, Err, IfErr, IfOk, IfSome, IsErrOf, IsTrue, MatchResult};
ghost use Rattle.sqlite.specs.Held.{state};
ghost use Rattle.sqlite.specs.State.{HasCleanDisk};
ghost use Rattle.vk_io.specs.Faults.{Causes};
ghost use Rattle.vk_keeper.specs.Common.{AfterGet, AfterPut, IsAuction};
ghost use Rattle.vk_keeper_sql.specs.Opening.{Prepares};
ghost use Rattle.vk_keeper_sql.specs.Reading.{Finds, FindsNothing};
ghost use Rattle.vk_keeper_sql.specs.Transactions.{ChangesNothing, CommitsNothing, CommitsAtOnce};
ghost use Rattle.vk_keeper_sql.specs.declared.errors.OpenErr.{OpenErr as Refusal};
ghost use Rattle.vk_keeper_sql.specs.Unkept.{IsUnkeptFor};
ghost use Rattle.vk_keeper_sql.specs.Unopened.{IsRefusedFor};
ghost use Rattle.vk_keeper_sql.specs.Writing.{Keeps};

use crate::errors::OpenErr;
use crate::finding::find;
use crate::keeping::replace;
use crate::tables::prepare;
use sqlite::{Alter, Connection};
use std::alloc::Global;
use vk_io::OutsideErr;
use vk_keeper::{Auction, Keeper, TurnCount};

/// A keeper over the connection to an SQLite store. Its ledger isn't modelled. A statement that is
/// refused, and rows that aren't an auction, raise its count of faults.
#[derive(Drop)]
pub struct SqlKeeper<S: Alter> {
    connection: Connection<S>,
    faults: u64,
    turns: TurnCount,
    alloc: Global,
}

impl<S: Alter> SqlKeeper<S> {
    /// A keeper over this store, with no faults yet, which makes what it answers with this
    /// allocator. A store without tables gets them, and one of the version before gets what it
    /// lacks, in one transaction. Refused, the connection comes back.
    pub fn over(
        alloc: Global,
        mut connection: Connection<S>,
    ) -> Result<SqlKeeper<S>, (OpenErr, Connection<S>)>
        ensures crash { MatchResult result
            (λ keeper. CommitsAtOnce {E = Refusal} (Prepares S.Store connection)
            (state S.Store connection) (state S.Store keeper.connection) (Ok tt))
            (λ refused. CommitsAtOnce (Prepares S.Store connection) (state S.Store connection)
            (state S.Store refused.1) (Err refused.0)) }
        ensures causes { IfErr result (λ refused. HasCleanDisk (state S.Store refused.1)
            → IsRefusedFor S.Store connection refused.1 refused.0) }
        ensures inside { IsTrue connection.in_transaction
            → result ≡ Err (OpenErr.Refused, connection) }
    {
        match prepare(&mut connection) {
            Ok(()) => Ok(SqlKeeper {
                connection,
                faults: 0,
                turns: TurnCount::new(),
                alloc,
            }),
            Err(refusal) => Err((refusal, connection)),
        }
    }

    /// Hands the connection back.
    pub fn close(self) -> Connection<S>
        ensures { result ≡ self.connection }
    {
        let SqlKeeper {
            connection,
            faults: _,
            turns: _,
            alloc: _,
        } = self;
        connection
    }
}

/// Counts the answer where it is a fault, and hands it on.
fn hand_on<T>(faults: &mut u64, answer: Result<T, OutsideErr>) -> Result<T, OutsideErr>
    ensures same { result ≡ answer }
    ensures causes { Causes OutsideErr.Failed result faults.old faults.new }
{
    if matches!(answer, Err(OutsideErr::Failed)) {
        *faults = faults.saturating_add(1);
    }
    answer
}

impl<S: Alter> Keeper for SqlKeeper<S> {
    ghost use Rattle.std.specs.Prelude.{None};

    ghost ledger = { λ _. None };

    ghost faults = { λ keeper. keeper.faults };

    ghost turns = { λ keeper. keeper.turns };

    /// What stands in the store, or an error, where the disk is clean.
    ghost get_gives = { λ old id answer new. HasCleanDisk (state S.Store new.connection)
        → IfOk answer (Finds S.Store id old.connection) };

    fn get(&mut self, id: &[u8; 16]) -> Result<Option<Auction>, OutsideErr>
        ensures id { IfOk result (λ found. IfSome found (λ auction. auction.id ≡ id.now)) }
        ensures right { IfOk result (λ found. IfSome found IsAuction) }
        ensures shown { HasCleanDisk (state S.Store self.new.connection)
            → IfOk result (Finds S.Store id.now self.old.connection) }
        ensures refused { HasCleanDisk (state S.Store self.new.connection)
            → IsErrOf result OutsideErr.Failed → FindsNothing S.Store id.now self.old.connection }
        ensures crash { CommitsNothing (state S.Store self.old.connection)
            (state S.Store self.new.connection) }
        ensures kept { HasCleanDisk (state S.Store self.new.connection)
            → ChangesNothing (state S.Store self.old.connection)
            (state S.Store self.new.connection) }
        ensures turn { AfterGet self.old.turns self.new.turns }
        ensures causes { Causes OutsideErr.Failed result self.old.faults self.new.faults }
    {
        self.turns.count_get();
        let found = find(self.alloc, &mut self.connection, id);
        hand_on(&mut self.faults, found)
    }

    fn put(&mut self, auction: Auction) -> Result<(), OutsideErr>
        requires { IsAuction auction }
        ensures crash { CommitsAtOnce (Keeps S.Store auction self.old.connection)
            (state S.Store self.old.connection) (state S.Store self.new.connection) result }
        ensures refused { HasCleanDisk (state S.Store self.new.connection) → IfErr result
            (IsUnkeptFor S.Store auction self.old.connection self.new.connection) }
        ensures turn { AfterPut self.old.turns self.new.turns }
        ensures causes { Causes OutsideErr.Failed result self.old.faults self.new.faults }
    {
        self.turns.count_put();
        let kept = replace(self.alloc, &mut self.connection, &auction);
        hand_on(&mut self.faults, kept)
    }
}
