// What is judged and extracted of sum files.
ghost use Rattle.std.specs.Prelude.{◌≡◌, IfOk, IfSome};
ghost use Rattle.std.specs.FinMap as map;
ghost use Rattle.vk_judge.specs.Common.{Gives, JudgesOn, OnlyReads, and_rest, rest_of, unread_file};
ghost use Rattle.vk_board.specs.Values.{AreSealsOf};
ghost use Rattle.vk_form_tests.specs.Forms.{IsSumHead};
ghost use Rattle.vk_form_tests.specs.Judging.{Begins, IsSum, OpensSums, opened_at, opened_sum, sum_extraction_on, sum_front_at, sum_judged_on};

use crate::circuit::SumPlan;
use crate::form::SumHead;
use std::alloc::Global;
use vk_bids::{FileExtraction, extract_file};
use vk_board::{SealLines, read_seal_lines};
use vk_io::{OutsideErr, Shelf};
use vk_judge::{
    Fault, Halt, OneReply, Opened, Part, Refusal, Statement, TwoReplies, VErr, in_part, judge_file,
    refusal_as_value,
};
use vk_lines::Lines;
use vk_plan::Circuit;
use vk_residue::NoMemory;
use vk_seq::Seq;

/// Reads the head and the seals of a sum file.
#[tactic(auto, unfolding(crate::specs::Judging::opened_at))]
fn read_sum<S: Shelf>(
    alloc: Global,
    shelf: &mut S,
    lines: &mut Lines,
) -> Result<Opened<SumHead>, Halt<Fault>>
    ensures modelled { JudgesOn (S.held shelf.old) (rest_of lines.new) result
        (λ files. opened_at (rest_of lines.old files)) }
    ensures right { IfOk result (IsSum IsSumHead) }
    ensures shelf { OnlyReads S.held S.Shelf.faults Halt.Failed result shelf.old shelf.new }
{
    let head = in_part(Part::Board, SumHead::read(shelf, lines))?;
    let seals = in_part(Part::Board, read_seal_lines(alloc, shelf, lines, 3, 2))?;
    let opened = opened_sum(alloc, head, seals)?;
    Ok(opened)
}

/// A file with this head and these seals.
#[tactic(auto, using(crate::proofs::Opening::statement_right))]
fn opened_sum(
    alloc: Global,
    head: SumHead,
    seals: Seq<SealLines>,
) -> Result<Opened<SumHead>, NoMemory>
    requires head { IsSumHead head }
    requires seals { AreSealsOf 3 2 seals }
    ensures value { IfOk result (λ opened. opened ≡ opened_sum head seals) }
    ensures right { IfOk result (IsSum IsSumHead) }
{
    let circuit = SumPlan { total: head.total };
    let plan = circuit.plan(alloc)?;
    let statement = Statement::of(alloc, head.auction, 2, seals, plan)?;
    Ok(Opened { head, statement })
}

/// Reads a sum file before its first lane. It is refused for its lines alone.
pub fn open<S: Shelf>(
    alloc: Global,
    shelf: &mut S,
    lines: &mut Lines,
) -> Result<Result<Opened<SumHead>, Refusal<()>>, OutsideErr>
    ensures modelled { IfSome (S.held shelf.old) (λ files. IfOk result (λ opened.
        sum_front_at (rest_of lines.old files) ≡ and_rest opened (rest_of lines.new files))) }
    ensures right { IfOk result (λ opened. IfOk opened (IsSum IsSumHead)) }
    ensures shelf { OnlyReads S.held S.Shelf.faults OutsideErr.Failed result shelf.old shelf.new }
{
    match refusal_as_value(read_sum(alloc, shelf, lines))? {
        Err(fault) => Ok(Err(Refusal::Fault(fault))),
        Ok(opened) => Ok(Ok(opened)),
    }
}

/// Why a sum file, a challenge or a reply is refused, if one is.
///
/// Errs where a file is missing or longer than 2^30 bytes, and names the first that is; where the
/// shelf fails; and for want of memory.
#[tactic(auto, using(crate::proofs::Opening::sum_begun))]
pub fn judge<S: Shelf>(
    alloc: Global,
    shelf: &mut S,
    names: &OneReply<'_>,
) -> Result<Result<(), Refusal<()>>, VErr>
    ensures modelled { IfSome (S.held shelf.old) (λ files.
        Gives unread_file (λ judged. judged) result
        (sum_judged_on files names.now.file.now names.now.challenge.now names.now.reply.now)) }
    ensures shelf { OnlyReads S.held S.Shelf.faults VErr.Failed result shelf.old shelf.new }
{
    let mut attempt = names.begin(alloc, shelf)?;
    let opened = open(alloc, shelf, &mut attempt.pair.file)?;
    let judged = judge_file(alloc, shelf, opened, &mut attempt)?;
    Ok(judged)
}

/// What the replies to two challenges come to: of each lane whose bits differ three numbers, which
/// come to the file's total; or a commitment that was opened with two values; or the first fault.
///
/// Errs where a file is missing or longer than 2^30 bytes, and names the first that is, in the
/// order of the names; where the shelf fails; and for want of memory.
#[tactic(auto, using(crate::proofs::Opening::sum_extraction_begun, crate::proofs::Opening::sums_opened))]
pub fn extract<S: Shelf>(
    alloc: Global,
    shelf: &mut S,
    names: &TwoReplies<'_>,
) -> Result<FileExtraction<SumHead, ()>, VErr>
    ensures modelled { IfSome (S.held shelf.old) (λ files. Gives unread_file (λ found. found) result
        (sum_extraction_on files names.now.file.now names.now.challenge1.now names.now.reply1.now
        names.now.challenge2.now names.now.reply2.now)) }
    ensures opens { IfOk result (OpensSums IsSumHead) }
    ensures of_file { IfSome (S.held shelf.old)
        (λ files. IfSome (map.get files names.now.file.now) (λ file.
        IfOk result (OpensSums (Begins file)))) }
    ensures shelf { OnlyReads S.held S.Shelf.faults VErr.Failed result shelf.old shelf.new }
{
    let mut two = names.begin(alloc, shelf)?;
    let opened = open(alloc, shelf, &mut two.readers.pair.file)?;
    let found = extract_file(alloc, shelf, opened, two)?;
    Ok(found)
}
