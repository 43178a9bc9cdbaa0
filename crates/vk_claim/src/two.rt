// Two replies to a claim file, side by side.
ghost use Rattle.std.specs.Prelude.{◌≡◌, IfOk, IfSome};
ghost use Rattle.vk_judge.specs.Opened.{GivesBegun, GivesFinding, GivesNext, HasOpened, IsCheckedOver, checked_base};
ghost use Rattle.vk_claim.specs.Two.{IsClaimBase, as_claim_finding, claim_finding, two_claims_on};

use crate::circuits::Circuits;
use crate::claim::{ClaimRefusal, read_claim};
use crate::front::ClaimHead;
use crate::verdict::ClaimVerdict;
use std::alloc::Global;
use std::marker::Model;
use vk_io::Shelf;
use vk_judge::{Checker, Finding, NextLane, Refusal, TwoReplies, VErr};
use vk_plan::Plan;

/// What two replies to a claim file come to.
pub type ClaimFinding = Finding<ClaimVerdict>;

/// Reads a claim file, a challenge and the reply to it, and another challenge and the reply to
/// that, lane by lane, as TwoChecker reads a board.
#[derive(Drop)]
pub struct ClaimChecker {
    checker: Checker<ClaimHead, ClaimRefusal>,
}

impl Model for ClaimChecker {
    ghost use Rattle.vk_judge.specs.Opened.{Checked};
    ghost use Rattle.vk_claim.specs.declared.claim.ClaimRefusal.{ClaimRefusal};
    ghost use Rattle.vk_claim.specs.declared.front.ClaimHead.{ClaimHead};

    ghost Value = { Checked ClaimHead ClaimRefusal };

    ghost view = { λ c. c.checker };
}

impl ClaimChecker {
    /// Begins the files, and reads the claim file before its first lane, both challenges and the
    /// heads of both replies. Errs where a file is missing or longer than 2^30 bytes, and names the
    /// first that is, in the order of the names; where the shelf fails; and for want of memory.
    #[tactic(auto, using(crate::proofs::Named::two_begun, crate::proofs::Opening::claim_known))]
    pub fn start<S: Shelf, Q: Circuits>(
        alloc: Global,
        shelf: &mut S,
        circuits: &Q,
        board: &str,
        challenge1: &str,
        reply1: &str,
        challenge2: &str,
        reply2: &str,
    ) -> Result<Self, VErr>
        ensures begun { GivesBegun S.held S.Shelf.faults
            (λ files. two_claims_on (Q.admitted circuits.now) files board.now challenge1.now
            reply1.now challenge2.now reply2.now) result shelf.old shelf.new }
        ensures claim { IfOk result
            (λ checker. IfSome (checked_base checker) (IsClaimBase (Q.admitted circuits.now))) }
    {
        let names = TwoReplies {
            file: board,
            challenge1,
            reply1,
            challenge2,
            reply2,
        };
        let mut two = names.begin(alloc, shelf)?;
        let opened = read_claim(alloc, shelf, circuits, &mut two.readers.pair.file)?;
        let checker = Checker::begin(alloc, shelf, opened, two)?;
        Ok(ClaimChecker { checker })
    }

    /// Gives the next lane, where both replies are accepted so far, and none where every lane was
    /// given or one of the replies has its fault in the lane or before it. What they come to is
    /// known then.
    pub fn next_lane<S: Shelf>(self, alloc: Global, shelf: &mut S) -> NextLane<Self>
        ensures next { GivesNext S.held S.Shelf.faults self result shelf.old shelf.new }
    {
        let ClaimChecker { checker } = self;
        let (checker, lane) = checker.next_lane(alloc, shelf)?;
        Ok((ClaimChecker { checker }, lane))
    }

    /// What both replies come to. Both are accepted only where every lane was given.
    pub fn finding(&self) -> ClaimFinding
        requires { IsCheckedOver self.now }
        ensures found { GivesFinding (claim_finding self.now) self.now result }
    {
        as_claim_finding(self.checker.finding())
    }

    /// The circuit of the claim, to which the lanes are held.
    pub fn plan(&self) -> &Plan
        requires { HasOpened self.now }
        ensures { IfSome (checked_base self.now)
            (λ known. known.base.statement.plan ≡ result.now) }
    {
        self.checker.plan()
    }

    /// The head of the claim file.
    pub fn head(&self) -> &ClaimHead
        requires { HasOpened self.now }
        ensures { IfSome (checked_base self.now) (λ known. known.head ≡ result.now) }
    {
        self.checker.head()
    }
}

/// What is found, as it is told of a claim file.
fn as_claim_finding(finding: Finding<Refusal<ClaimRefusal>>) -> ClaimFinding
    ensures { result ≡ as_claim_finding finding }
{
    let found = finding.told();
    found
}
