// A keeper that is lent.
use vk_io::OutsideErr;
use vk_keeper::{Auction, Keeper};

/// A keeper that another place holds, and gives up there. What a house works on has to be one that
/// may be dropped, and that a store of files may be is dear to prove: of this nothing is dropped.
pub struct Lent<'a, K: Keeper> {
    keeper: &'a mut K,
}

impl<'a, K: Keeper> Lent<'a, K> {
    /// The keeper of that place.
    pub fn of(keeper: &'a mut K) -> Lent<'a, K> {
        Lent { keeper }
    }
}

impl<K: Keeper> Drop for Lent<'_, K> {
    fn drop(self) {
        let Lent { keeper: _keeper } = self;
    }
}

impl<K: Keeper> Keeper for Lent<'_, K> {
    ghost ledger = { λ lent. K.ledger lent.keeper.now };

    ghost faults = { λ lent. K.faults lent.keeper.now };

    ghost turns = { λ lent. K.turns lent.keeper.now };

    ghost get_gives = { λ old id answer new.
        K.get_gives old.keeper.now id answer new.keeper.now };

    fn get(&mut self, id: &[u8; 16]) -> Result<Option<Auction>, OutsideErr> {
        let found = self.keeper.get(id);
        found
    }

    fn put(&mut self, auction: Auction) -> Result<(), OutsideErr> {
        let kept = self.keeper.put(auction);
        kept
    }
}
