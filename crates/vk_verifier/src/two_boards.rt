// Two replies to a board, side by side.
ghost use Rattle.std.specs.Prelude.{◌≡◌, IfSome, IfOk};
ghost use Rattle.vk_judge.specs.Opened.{GivesBegun, GivesFinding, GivesNext, HasOpened, IsCheckedOver, checked_base, opened_in};
ghost use Rattle.vk_verifier.specs.Verdicts.{board_front, plan_of};
ghost use Rattle.vk_verifier.specs.TwoBoards.{IsOfBoard, as_two, board_finding, two_named, two_on};

use crate::answers::{BoardRefusal, TwoVerdict};
use crate::boards::{PlacedHead, open_board};
use std::alloc::Global;
use std::marker::Model;
use vk_board::Head;
use vk_io::Shelf;
use vk_judge::{Checker, Finding, NextLane, Refusal, TwoReplies, VErr};
use vk_plan::Plan;

/// Reads the lanes of a board beside two replies.
pub type BoardChecker = Checker<PlacedHead, BoardRefusal>;

/// Begins the named files, and reads the board before its first lane, both challenges and the heads
/// of both replies. Errs where a file is missing or longer than 2^30 bytes, and names the first
/// that is, in the order of the names; where the shelf fails; and for want of memory.
#[tactic(auto, using(crate::proofs::Named::two_begun, crate::proofs::Named::board_known))]
pub fn begin_board<S: Shelf>(
    alloc: Global,
    shelf: &mut S,
    names: &TwoReplies<'_>,
) -> Result<BoardChecker, VErr>
    ensures begun { GivesBegun S.held S.Shelf.faults (λ files. two_named files names.now) result
        shelf.old shelf.new }
    ensures right { IfOk result (λ checker. IsOfBoard (checked_base checker)) }
{
    let mut two = names.begin(alloc, shelf)?;
    let opened = open_board(alloc, shelf, &mut two.readers.pair.file)?;
    let checker = Checker::begin(alloc, shelf, opened, two)?;
    Ok(checker)
}

/// Reads a board, a challenge and the reply to it, and another challenge and the reply to that,
/// lane by lane. A lane is given where both replies are accepted so far. Once no lane is given any
/// more, it tells what the replies come to.
#[derive(Drop)]
pub struct TwoChecker {
    checker: BoardChecker,
}

impl Model for TwoChecker {
    ghost use Rattle.vk_verifier.specs.TwoBoards.{BoardChecked, IsBoardChecked};

    ghost Value = { BoardChecked };

    ghost view = { λ c. c.checker };

    ghost invariant = { λ c. IsBoardChecked c.checker };
}

impl TwoChecker {
    /// Begins the files, and reads the board before its first lane, both challenges and the heads
    /// of both replies. Errs where a file is missing or longer than 2^30 bytes, and names the first
    /// that is, in the order of the names; where the shelf fails; and for want of memory.
    pub fn start<S: Shelf>(
        alloc: Global,
        shelf: &mut S,
        board: &str,
        challenge1: &str,
        reply1: &str,
        challenge2: &str,
        reply2: &str,
    ) -> Result<TwoChecker, VErr>
        ensures begun { GivesBegun S.held S.Shelf.faults
            (λ files. two_on files board.now challenge1.now reply1.now challenge2.now reply2.now)
            result shelf.old shelf.new }
    {
        let names = TwoReplies {
            file: board,
            challenge1,
            reply1,
            challenge2,
            reply2,
        };
        let checker = begin_board(alloc, shelf, &names)?;
        Ok(TwoChecker { checker })
    }

    /// Gives the next lane, or none, as `Checker::next_lane` does.
    pub fn next_lane<S: Shelf>(self, alloc: Global, shelf: &mut S) -> NextLane<Self>
        ensures next { GivesNext S.held S.Shelf.faults self result shelf.old shelf.new }
    {
        let TwoChecker { checker } = self;
        let (checker, lane) = checker.next_lane(alloc, shelf)?;
        Ok((TwoChecker { checker }, lane))
    }

    /// What both replies come to. Both are accepted only where every lane was given.
    #[tactic(auto, using(crate::proofs::Named::found_accepted))]
    pub fn finding(&self) -> TwoVerdict
        requires { IsCheckedOver self.now }
        ensures found { GivesFinding (board_finding self.now) self.now result }
    {
        let finding = self.checker.finding();
        as_two(finding)
    }

    /// The circuit of the board, to which its lanes are held.
    pub fn plan(&self) -> &Plan
        requires { HasOpened self.now }
        ensures { IfSome (checked_base self.now)
            (λ known. plan_of (board_front (opened_in known)) ≡ result.now) }
    {
        self.checker.plan()
    }

    /// The head of the board.
    pub fn head(&self) -> Head
        requires { HasOpened self.now }
        ensures { IfSome (checked_base self.now) (λ known. known.head.head ≡ result) }
    {
        self.checker.head().head
    }
}

/// What is found, as the verdict on a board.
fn as_two(finding: Finding<Refusal<BoardRefusal>>) -> TwoVerdict
    ensures { result ≡ as_two finding }
{
    let found = finding.told();
    found
}
