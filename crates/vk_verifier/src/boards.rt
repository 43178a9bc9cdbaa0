// The verdict on a board, a challenge and a reply, as whole files.
ghost use Rattle.std.specs.Prelude.{◌≡◌, ℕ, Result, Ok, IfSome, IfOk, IsErrOf};
ghost use Rattle.vk_judge.specs.Common.{Causes, Gives, Judges, MemoryWasWanting, OnlyReads, Rest, and_rest, rest_of, unread_file};
ghost use Rattle.vk_board.specs.Fronts.{FrontFault, IsFront, fault_of};
ghost use Rattle.vk_verifier.specs.Answers.{front_answer};
ghost use Rattle.vk_verifier.specs.Verdicts.{IsBoard, board_front_at, in_front, opened_board, plan_of, verdict_on};

use crate::answers::{BoardRefusal, BoardVerdict, verdict_by};
use std::alloc::Global;
use vk_board::{Front, FrontErr, Head, read_front};
use vk_io::{OutsideErr, Shelf};
use vk_judge::{
    Fault, Halt, OneReply, Opened, Part, Refusal, Statement, VErr, judge_file, refusal_as_value,
};
use vk_lines::{Lines, ReadErr};
use vk_plan::{Circuit, Plan};
use vk_residue::NoMemory;
use vk_vickrey::{BoardPlan, Sale};

/// The head of a board, and the place of the winner's seal, from 1, where something is sold.
#[derive(Clone, Copy, Debug)]
pub struct PlacedHead {
    pub head: Head,
    pub position: Option<u32>,
}

/// What was read of a board before its first lane. A fault of it is a refusal.
fn in_front<X>(read: Result<X, FrontErr>) -> Result<X, Halt<Refusal<BoardRefusal>>>
    ensures exact { result ≡ front_answer read }
    ensures judged { (rest : Rest) (expected : Result (X × Rest) FrontFault)
        → Gives fault_of (λ x. (x, rest)) read expected
        → Judges (λ x. (x, rest)) result (in_front expected) }
    ensures value { IfOk result (λ x. read ≡ Ok x) }
    ensures causes { (before : ℕ) (after : ℕ)
        → Causes (FrontErr.Unread ReadErr.Failed) read before after
        → Causes Halt.Failed result before after }
{
    match read {
        Ok(value) => Ok(value),
        Err(FrontErr::Unread(ReadErr::Malformed { line })) => {
            let part = Part::Board;
            Err(Halt::Refused(Refusal::Fault(Fault::Malformed { part, line })))
        }
        Err(FrontErr::Unread(ReadErr::Failed)) => Err(Halt::Failed),
        Err(FrontErr::Unread(ReadErr::NoMemory)) => Err(Halt::NoMemory),
        Err(FrontErr::Price) => Err(Halt::Refused(Refusal::Front(BoardRefusal::Price))),
        Err(FrontErr::Winner) => Err(Halt::Refused(Refusal::Front(BoardRefusal::Winner))),
    }
}

/// The circuit that the board's lanes are held to.
#[tactic(auto, using(crate::proofs::Fronts::front_case))]
fn plan_of(alloc: Global, front: &Front) -> Result<Plan, NoMemory>
    requires { IsFront front.now }
    ensures { IfOk result (λ plan. plan ≡ plan_of front.now) }
{
    let head = &front.head;
    let sale = Sale::at(front.position, head.price);
    match BoardPlan::of(head.version, head.seals, head.width, head.reserve, sale) {
        None => unreachable!(),
        Some(circuit) => {
            let plan = circuit.plan(alloc)?;
            Ok(plan)
        }
    }
}

/// The board with this front: its head, and what its lanes are to show.
#[tactic(auto, using(crate::proofs::Plans::statement_right))]
fn opened_board(alloc: Global, front: Front) -> Result<Opened<PlacedHead>, NoMemory>
    requires { IsFront front }
    ensures value { IfOk result (λ opened. opened ≡ opened_board front) }
    ensures right { IfOk result IsBoard }
{
    let plan = plan_of(alloc, &front)?;
    let Front {
        head,
        seals,
        position,
    } = front;
    let statement = Statement::of(alloc, head.auction, head.lanes, seals, plan)?;
    let head = PlacedHead { head, position };
    Ok(Opened { head, statement })
}

/// Reads a board before its first lane. It is refused where a line isn't what its place demands,
/// and then for its price and its winner.
#[tactic(auto, unfolding(crate::specs::Verdicts::board_front_at), using(vk_judge::specs::Wanting::memory_was_wanting))]
pub fn open_board<S: Shelf>(
    alloc: Global,
    shelf: &mut S,
    lines: &mut Lines,
) -> Result<Result<Opened<PlacedHead>, Refusal<BoardRefusal>>, OutsideErr>
    ensures modelled { IfSome (S.held shelf.old) (λ files. IfOk result (λ opened.
        board_front_at (rest_of lines.old files) ≡ and_rest opened (rest_of lines.new files))) }
    ensures right { IfOk result (λ opened. IfOk opened IsBoard) }
    ensures wanting { IsErrOf result OutsideErr.NoMemory → MemoryWasWanting }
    ensures shelf { OnlyReads S.held S.Shelf.faults OutsideErr.Failed result shelf.old shelf.new }
{
    let read = in_front(read_front(alloc, shelf, lines));
    match refusal_as_value(read)? {
        Err(refusal) => Ok(Err(refusal)),
        Ok(front) => {
            let opened = opened_board(alloc, front)?;
            Ok(Ok(opened))
        }
    }
}

/// The verdict on the named files: the first fault in the order of the head and the seals of the
/// board, the price, the winner, the challenge, the head of the reply, the numbers of lanes, then
/// lane by lane the lines of the board, those of the reply, the wires and the rows, and then the
/// ends of both files.
///
/// Errs where a file is missing or longer than 2^30 bytes, and names the first that is; where the
/// shelf fails; and for want of memory.
#[tactic(auto, using(crate::proofs::Named::verdict_begun))]
pub fn verdict<S: Shelf>(
    alloc: Global,
    shelf: &mut S,
    board: &str,
    challenge: &str,
    reply: &str,
) -> Result<BoardVerdict, VErr>
    ensures modelled { IfSome (S.held shelf.old) (λ files.
        Gives unread_file (λ verdict. verdict) result
        (verdict_on files board.now challenge.now reply.now)) }
    ensures shelf { OnlyReads S.held S.Shelf.faults VErr.Failed result shelf.old shelf.new }
{
    let names = OneReply {
        file: board,
        challenge,
        reply,
    };
    let mut attempt = names.begin(alloc, shelf)?;
    let opened = open_board(alloc, shelf, &mut attempt.pair.file)?;
    let judged = judge_file(alloc, shelf, opened, &mut attempt)?;
    Ok(verdict_by(judged))
}
