//! The keeper of a house that is opened no sooner than it is asked.

ghost use Rattle.std.specs.Prelude.{◌≡◌, ◌⊎◌, None, Some, Err, IfOk, IfSome, IsSome, IsTrue, OnErr, OnOk};
ghost use Rattle.std.specs.FinMap as map;
ghost use Rattle.vk_io.specs.Faults.{Causes};
ghost use Rattle.vk_io.specs.Files.{Modelled};
ghost use Rattle.vk_keeper.specs.Common.{AfterGet, AfterPut, IsAuction, IsLedger, Keeps};
ghost use Rattle.vk_program.specs.Houses.{CausesUnopened, OpenOrNone, told_by};

use crate::house::{HousePlace, Unopened};
use vk_io::OutsideErr;
use vk_keeper::{Auction, Keeper, TurnCount};

/// The keeper of a house, which is opened where the keeper is asked for the first time, and
/// something is kept in it or is to be: so what only asks leaves no store. Its auctions are those
/// of the keeper that is open, or else of the house.
pub struct LateKeeper<H: HousePlace> {
    house: H,
    kept: Option<H::Kept>,
    refusal: Option<Unopened>,
    /// Whether a call was answered by the house not being made, and nothing was kept since.
    was_unmade: bool,
    turns: TurnCount,
}

impl<H: HousePlace> LateKeeper<H> {
    /// The keeper of that house, which is not opened yet.
    pub fn over(house: H) -> LateKeeper<H>
        ensures house { result.house ≡ house }
        ensures kept { result.kept ≡ None }
        ensures refusal { result.refusal ≡ None }
    {
        LateKeeper {
            house,
            kept: None,
            refusal: None,
            was_unmade: false,
            turns: TurnCount::new(),
        }
    }

    /// Why the house was not opened, if it was refused.
    pub fn refusal(&self) -> Option<Unopened>
        ensures { result ≡ self.now.refusal }
    {
        self.refusal
    }

    /// Opens the house, where it isn't open.
    fn open(&mut self) -> Result<(), Unopened>
        ensures open { IfOk result (λ _. IsSome self.new.kept) }
        ensures right { OnErr result (IfSome (told_by H.Kept.ledger (H.ledger self.old.house)
            self.old.kept) IsLedger) }
        ensures ledger { told_by H.Kept.ledger (H.ledger self.new.house) self.new.kept
            ≡ told_by H.Kept.ledger (H.ledger self.old.house) self.old.kept }
        ensures causes { CausesUnopened result (H.faults self.old.house) (H.faults self.new.house) }
        ensures turns { self.new.turns ≡ self.old.turns }
        ensures noted { self.new.was_unmade ≡ self.old.was_unmade }
    {
        if self.kept.is_some() {
            return Ok(());
        }
        match self.house.open() {
            Ok(kept) => {
                self.take_in(kept);
                Ok(())
            }
            Err(refusal) => {
                self.refusal = Some(refusal);
                Err(refusal)
            }
        }
    }

    /// Puts what was opened into its place, in which nothing stands.
    fn take_in(&mut self, kept: H::Kept)
        requires { self.old.kept ≡ None }
        ensures kept { self.new.kept ≡ Some kept }
        ensures house { self.new.house ≡ self.old.house }
        ensures turns { self.new.turns ≡ self.old.turns }
        ensures noted { self.new.was_unmade ≡ self.old.was_unmade }
    {
        if let Some(other) = self.kept.replace(kept) {
            let _ = self.house.close(other);
        }
    }

    /// Opens the house, where something is kept in it already, and answers whether it is open.
    pub fn open_made(&mut self) -> Result<bool, Unopened>
        ensures open { OpenOrNone result self.new.kept
            (told_by H.Kept.ledger (H.ledger self.old.house) self.old.kept) }
        ensures ledger { told_by H.Kept.ledger (H.ledger self.new.house) self.new.kept
            ≡ told_by H.Kept.ledger (H.ledger self.old.house) self.old.kept }
        ensures unmade { H.unmade self.old.house → self.old.kept ≡ None
            → H.unmade self.new.house × (self.new.kept ≡ None) }
        ensures causes { CausesUnopened result (H.faults self.old.house) (H.faults self.new.house) }
        ensures turns { self.new.turns ≡ self.old.turns }
        ensures noted { self.new.was_unmade ≡ self.old.was_unmade }
    {
        if self.kept.is_some() {
            return Ok(true);
        }
        match self.house.is_made() {
            Ok(true) => {
                self.open()?;
                Ok(true)
            }
            Ok(false) => Ok(false),
            Err(refusal) => {
                self.refusal = Some(refusal);
                Err(refusal)
            }
        }
    }

    /// Counts the answer where it is a fault, and hands it on.
    fn hand_on<T>(&mut self, answer: Result<T, OutsideErr>) -> Result<T, OutsideErr>
        ensures same { result ≡ answer }
        ensures kept { self.new.kept ≡ self.old.kept }
        ensures ledger { H.ledger self.new.house ≡ H.ledger self.old.house }
        ensures causes { Causes OutsideErr.Failed result (H.faults self.old.house)
            (H.faults self.new.house) }
        ensures turns { self.new.turns ≡ self.old.turns }
        ensures noted { self.new.was_unmade ≡ self.old.was_unmade }
        ensures refusal { self.new.refusal ≡ self.old.refusal }
    {
        if matches!(answer, Err(OutsideErr::Failed)) {
            self.house.count_fault();
        }
        answer
    }

    /// The auction of that id, by the keeper that is open.
    fn ask(&mut self, id: &[u8; 16]) -> Result<Option<Auction>, OutsideErr>
        requires { IsSome self.old.kept }
        ensures open { IsSome self.new.kept }
        ensures ledger { IfSome (told_by H.Kept.ledger (H.ledger self.old.house) self.old.kept)
            IsLedger }
        ensures answer { IfSome (told_by H.Kept.ledger (H.ledger self.old.house) self.old.kept)
            (λ ledger. IfOk result (λ found. found ≡ map.get ledger id.now)) }
        ensures right { IfOk result (λ found. IfSome found IsAuction) }
        ensures id { IfOk result (λ found. IfSome found (λ auction. auction.id ≡ id.now)) }
        ensures kept { told_by H.Kept.ledger (H.ledger self.new.house) self.new.kept
            ≡ told_by H.Kept.ledger (H.ledger self.old.house) self.old.kept }
        ensures causes { Causes OutsideErr.Failed result (H.faults self.old.house)
            (H.faults self.new.house) }
        ensures turns { self.new.turns ≡ self.old.turns }
        ensures noted { self.new.was_unmade ≡ self.old.was_unmade }
        ensures refusal { self.new.refusal ≡ self.old.refusal }
    {
        let found = found_in(&mut self.kept, id);
        self.hand_on(found)
    }

    /// Errs where an auction of that id is kept by now: another program announced it after this one
    /// was told that there is none, and what it keeps isn't to be lost.
    #[tactic(auto, using(crate::proofs::Meanwhile::none_there, crate::proofs::Meanwhile::some_there))]
    fn refuse_known(&mut self, id: &[u8; 16]) -> Result<(), OutsideErr>
        requires { IsSome self.old.kept }
        ensures ledger { IfSome (told_by H.Kept.ledger (H.ledger self.old.house) self.old.kept)
            IsLedger }
        ensures open { IsSome self.new.kept }
        ensures kept { told_by H.Kept.ledger (H.ledger self.new.house) self.new.kept
            ≡ told_by H.Kept.ledger (H.ledger self.old.house) self.old.kept }
        ensures causes { Causes OutsideErr.Failed result (H.faults self.old.house)
            (H.faults self.new.house) }
        ensures fresh { OnOk result (IfSome
            (told_by H.Kept.ledger (H.ledger self.old.house) self.old.kept)
            (λ ledger. map.get ledger id.now ≡ None)) }
        ensures meanwhile { (self.new.refusal ≡ self.old.refusal)
            ⊎ ((self.new.refusal ≡ Some Unopened.Meanwhile) × (result ≡ Err OutsideErr.Failed)
            × IfSome (told_by H.Kept.ledger (H.ledger self.old.house) self.old.kept)
            (λ ledger. IsSome (map.get ledger id.now))) }
        ensures turns { self.new.turns ≡ self.old.turns }
    {
        if self.ask(id)?.is_some() {
            self.refusal = Some(Unopened::Meanwhile);
            return self.hand_on(Err(OutsideErr::Failed));
        }
        Ok(())
    }

    /// Closes what was opened, and gives the house back.
    pub fn close(self) -> (H, Result<(), OutsideErr>)
        ensures ledger { H.ledger result.0 ≡ told_by H.Kept.ledger (H.ledger self.house) self.kept }
        ensures causes { Causes OutsideErr.Failed result.1 (H.faults self.house)
            (H.faults result.0) }
    {
        let LateKeeper {
            mut house,
            kept,
            refusal: _,
            was_unmade: _,
            turns: _,
        } = self;
        match kept {
            Some(kept) => {
                let closed = house.close(kept);
                (house, closed)
            }
            None => (house, Ok(())),
        }
    }
}

impl<H: HousePlace> Drop for LateKeeper<H> {
    fn drop(self) {
        let (_house, _closed) = self.close();
    }
}

/// The auction of that id, by what was opened.
fn found_in<K: Keeper>(kept: &mut Option<K>, id: &[u8; 16]) -> Result<Option<Auction>, OutsideErr>
    requires { IsSome kept.old }
    ensures answer { IfSome (told_by K.ledger None kept.old)
        (λ ledger. IfOk result (λ found. found ≡ map.get ledger id.now)) }
    ensures id { IfOk result (λ found. IfSome found (λ auction. auction.id ≡ id.now)) }
    ensures right { IfOk result (λ found. IfSome found IsAuction) }
    ensures ledger { IfSome (told_by K.ledger None kept.old) IsLedger }
    ensures open { IsSome kept.new }
    ensures kept { told_by K.ledger None kept.new ≡ told_by K.ledger None kept.old }
{
    match kept {
        Some(keeper) => keeper.get(id),
        None => unreachable!(),
    }
}

/// Keeps the auction, by what was opened.
fn put_into<K: Keeper>(kept: &mut Option<K>, auction: Auction) -> Result<(), OutsideErr>
    requires right { IsAuction auction }
    requires open { IsSome kept.old }
    ensures ledger { IfSome (told_by K.ledger None kept.old) IsLedger }
    ensures put { Modelled (Keeps auction result) (told_by K.ledger None kept.old)
        (told_by K.ledger None kept.new) }
    ensures open { IsSome kept.new }
{
    match kept {
        Some(keeper) => keeper.put(auction),
        None => unreachable!(),
    }
}

impl<H: HousePlace> Keeper for LateKeeper<H> {
    ghost ledger = { λ keeper. told_by H.Kept.ledger (H.ledger keeper.house) keeper.kept };

    ghost faults = { λ keeper. H.faults keeper.house };

    ghost turns = { λ keeper. keeper.turns };

    /// The auction of that id by the ledger that is told of, where one is, or an error.
    ghost get_gives = { λ old id answer _.
        IfSome (told_by H.Kept.ledger (H.ledger old.house) old.kept)
        (λ ledger. IfOk answer (λ found. found ≡ map.get ledger id)) };

    /// In a house that isn't made nothing is found, and nothing is made.
    #[tactic(auto, using(crate::proofs::Nothing::nothing_found, crate::proofs::Nothing::nothing_kept))]
    fn get(&mut self, id: &[u8; 16]) -> Result<Option<Auction>, OutsideErr>
        ensures answer { IfSome (told_by H.Kept.ledger (H.ledger self.old.house) self.old.kept)
            (λ ledger. IfOk result (λ found. found ≡ map.get ledger id.now)) }
        ensures id { IfOk result (λ found. IfSome found (λ auction. auction.id ≡ id.now)) }
        ensures right { IfOk result (λ found. IfSome found IsAuction) }
        ensures ledger { IfSome (told_by H.Kept.ledger (H.ledger self.old.house) self.old.kept)
            IsLedger }
        ensures kept { told_by H.Kept.ledger (H.ledger self.new.house) self.new.kept
            ≡ told_by H.Kept.ledger (H.ledger self.old.house) self.old.kept }
        ensures turn { AfterGet self.old.turns self.new.turns }
        ensures unmade { H.unmade self.old.house → self.old.kept ≡ None
            → H.unmade self.new.house × (self.new.kept ≡ None) }
        ensures unopened { IfOk result (λ found. self.new.kept ≡ None
            → (found ≡ None) × IsTrue self.new.was_unmade) }
        ensures noted { IsTrue self.old.was_unmade → IsTrue self.new.was_unmade }
        ensures causes { Causes OutsideErr.Failed result (H.faults self.old.house)
            (H.faults self.new.house) }
    {
        self.turns.count_get();
        match self.open_made() {
            Ok(true) => self.ask(id),
            Ok(false) => {
                self.was_unmade = true;
                Ok(None)
            }
            Err(refusal) => Err(refusal.outside()),
        }
    }

    /// In a house that was not made when this one asked, an auction that another program announced
    /// since then stays.
    #[tactic(auto, using(crate::proofs::Meanwhile::done_with))]
    fn put(&mut self, auction: Auction) -> Result<(), OutsideErr>
        requires { IsAuction auction }
        ensures ledger { IfSome (told_by H.Kept.ledger (H.ledger self.old.house) self.old.kept)
            IsLedger }
        ensures put { Modelled (Keeps auction result)
            (told_by H.Kept.ledger (H.ledger self.old.house) self.old.kept)
            (told_by H.Kept.ledger (H.ledger self.new.house) self.new.kept) }
        ensures fresh { IsTrue self.old.was_unmade → OnOk result (IfSome
            (told_by H.Kept.ledger (H.ledger self.old.house) self.old.kept)
            (λ ledger. map.get ledger auction.id ≡ None)) }
        ensures turn { AfterPut self.old.turns self.new.turns }
        ensures causes { Causes OutsideErr.Failed result (H.faults self.old.house)
            (H.faults self.new.house) }
    {
        self.turns.count_put();
        if let Err(refusal) = self.open() {
            return Err(refusal.outside());
        }
        if self.was_unmade {
            self.refuse_known(&auction.id)?;
            self.was_unmade = false;
        }
        let kept = put_into(&mut self.kept, auction);
        self.hand_on(kept)
    }
}
