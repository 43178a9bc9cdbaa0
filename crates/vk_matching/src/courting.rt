// Deferred acceptance: men enter one after another and ask, and each woman holds the best of those
// who asked her. Persons count from 0 here.
ghost use Rattle.std.specs.Prelude.{◌+◌, ◌*◌, ◌<◌, ◌≤◌, ◌≡◌};

use std::alloc::Global;
use vk_residue::NoMemory;

/// Who asked and who is held, among so many men and as many women.
#[derive(Drop)]
pub(crate) struct Courtship {
    size: usize,
    /// The men who have entered are those before this one.
    entered: usize,
    /// Whether a man asked a woman: man by man.
    asked: Vec<bool>,
    /// Whom each woman holds.
    holders: Vec<Option<usize>>,
}

/// Where what one person says of another stands, person by person.
fn place(size: usize, person: usize, other: usize) -> usize
    requires few { size ≤ 16 }
    requires is_person { person < size }
    requires is_other { other < size }
    ensures place { result ≡ person * size + other }
    ensures inside { result < size * size }
{
    person * size + other
}

impl Courtship {
    ghost use Rattle.std.specs.Prelude.{ℕ, ◌+◌, ◌*◌, ◌<◌, ◌≤◌, ◌≡◌, ◌↔◌, Some, None, List, length, slice_index, slice_index_or, IfOk, IsTrue};
    ghost use Rattle.vk_matching.specs.Courting.{AreHeld, AreListsIn, AreWives, HoldsAsGood, IsChoice, IsCourtship, court_in, held_by, unasked};

    /// Nobody has entered, and nobody has asked.
    pub(crate) fn new(alloc: Global, size: usize) -> Result<Courtship, NoMemory>
        requires few { size ≤ 16 }
        ensures size { IfOk result (λ made. made.size ≡ size) }
        ensures courting { IfOk result (λ made. (ranks : List ℕ) → length ranks ≡ 2 * size * size
            → IsCourtship ranks made None) }
    {
        Ok(Courtship {
            size,
            entered: 0,
            asked: vec![in alloc; false; size * size]?,
            holders: vec![in alloc; None; size]?,
        })
    }

    /// All men enter and ask, until each is held.
    pub(crate) fn settle(&mut self, ranks: &[u64])
        requires courting { IsCourtship ranks.now self.old None }
        ensures courting { IsCourtship ranks.now self.new None }
        ensures all { self.new.entered ≡ self.new.size }
        ensures size { self.new.size ≡ self.old.size }
    {
        while self.entered < self.size {
            self.admit(ranks);
        }
    }

    /// One more man enters, and men ask until nobody is without a woman.
    fn admit(&mut self, ranks: &[u64])
        requires courting { IsCourtship ranks.now self.old None }
        requires not_all { self.old.entered < self.old.size }
        ensures courting { IsCourtship ranks.now self.new None }
        ensures entered { self.new.entered ≡ self.old.entered + 1 }
        ensures size { self.new.size ≡ self.old.size }
    {
        let mut suitor = Some(self.entered);
        self.entered += 1;
        while let Some(man) = suitor {
            suitor = self.ask(ranks, man);
        }
    }

    /// The man asks the best woman whom he hasn't asked, and she holds the better of two men: who
    /// is without a woman then, if anybody is.
    fn ask(&mut self, ranks: &[u64], suitor: usize) -> Option<usize>
        requires courting { IsCourtship ranks.now self.old (Some suitor) }
        ensures courting { IsCourtship ranks.now self.new result }
        ensures fewer { unasked self.new.asked.items + 1 ≡ unasked self.old.asked.items }
        ensures entered { self.new.entered ≡ self.old.entered }
        ensures size { self.new.size ≡ self.old.size }
    {
        let woman = self.choice(ranks, suitor).unwrap();
        let question = place(self.size, suitor, woman);
        self.asked[question] = true;
        if self.holds_as_good(ranks, woman, suitor) {
            return Some(suitor);
        }
        let before = self.holders[woman];
        self.holders[woman] = Some(suitor);
        before
    }

    /// The first of the women whom the man ranks best of those whom he hasn't asked; none where he
    /// has asked all.
    fn choice(&self, ranks: &[u64], man: usize) -> Option<usize>
        requires lists { AreListsIn ranks.now self.now }
        requires is_man { man < self.now.size }
        ensures { IsChoice (court_in ranks.now self.now) man self.now.size result }
    {
        let mut choice = None;
        for woman in 0..self.size {
            let question = place(self.size, man, woman);
            if !self.asked[question] && self.is_better(ranks, man, woman, choice) {
                choice = Some(woman);
            }
        }
        choice
    }

    /// The man ranks the woman better than the other one, if there is one.
    fn is_better(&self, ranks: &[u64], man: usize, woman: usize, other: Option<usize>) -> bool
        requires lists { AreListsIn ranks.now self.now }
        requires is_man { man < self.now.size }
        requires is_woman { woman < self.now.size }
        requires is_other { (best : ℕ) → other ≡ Some best → best < self.now.size }
        ensures { IsTrue result ↔ ((best : ℕ) → other ≡ Some best
            → (court_in ranks.now self.now).his_rank man woman
            < (court_in ranks.now self.now).his_rank man best) }
    {
        match other {
            Some(other) => self.his_rank(ranks, man, woman) < self.his_rank(ranks, man, other),
            None => true,
        }
    }

    /// The woman holds one whom she ranks no worse than this man.
    fn holds_as_good(&self, ranks: &[u64], woman: usize, man: usize) -> bool
        requires lists { AreListsIn ranks.now self.now }
        requires is_woman { woman < self.now.size }
        requires is_man { man < self.now.size }
        requires are_men { (holder : ℕ) → held_by self.now.holders.items woman ≡ Some holder
            → holder < self.now.size }
        ensures { IsTrue result ↔ HoldsAsGood (court_in ranks.now self.now) woman man }
    {
        match self.holders[woman] {
            Some(holder) => self.her_rank(ranks, woman, holder) <= self.her_rank(ranks, woman, man),
            None => false,
        }
    }

    /// How the man ranks the woman.
    fn his_rank(&self, ranks: &[u64], man: usize, woman: usize) -> u64
        requires lists { AreListsIn ranks.now self.now }
        requires is_man { man < self.now.size }
        requires is_woman { woman < self.now.size }
        ensures { result ≡ (court_in ranks.now self.now).his_rank man woman }
    {
        ranks[place(self.size, man, woman)]
    }

    /// How the woman ranks the man.
    fn her_rank(&self, ranks: &[u64], woman: usize, man: usize) -> u64
        requires lists { AreListsIn ranks.now self.now }
        requires is_woman { woman < self.now.size }
        requires is_man { man < self.now.size }
        ensures { result ≡ (court_in ranks.now self.now).her_rank woman man }
    {
        ranks[self.size * self.size + place(self.size, woman, man)]
    }

    /// For each man who is held, the woman who holds him, counted from 1.
    pub(crate) fn matching(&self, alloc: Global) -> Result<Vec<u32>, NoMemory>
        requires few { self.now.size ≤ 16 }
        requires one_holder_each { length self.now.holders.items ≡ self.now.size }
        requires are_held { AreHeld self.now.size (held_by self.now.holders.items) self.now.size }
        ensures { IfOk result (λ matching. AreWives self.now.size (held_by self.now.holders.items)
            self.now.size
            matching.items) }
    {
        let mut matching = vec![in alloc; 0u32; self.size]?;
        for woman in 0..self.size {
            if let Some(man) = self.holders[woman] {
                matching[man] = woman as u32 + 1;
            }
        }
        Ok(matching)
    }
}
