// What is judged behind a front.
ghost use Rattle.std.specs.Prelude.{◌≡◌, length, OnOk, IfSome, IfOk, IfErr};
ghost use Rattle.vk_lines.specs.Lines.{OnlyReads, rest_of};
ghost use Rattle.vk_judge.specs.declared.answers.Fault.{Fault};
ghost use Rattle.vk_judge.specs.Behind.{Judges, JudgesOn, counted, ends_judged};
ghost use Rattle.vk_judge.specs.Parts.{AreLeft, attempt_at, behind_in_parts, rest_left};
ghost use Rattle.vk_judge.specs.Begun.{of_begun};

use crate::answers::{Fault, Part};
use crate::halt::{Halt, in_part};
use crate::lane::judge_lane;
use crate::stage::{Attempt, FileAndReply, LanesLeft};
use crate::statement::Statement;
use std::alloc::Global;
use vk_io::Shelf;
use vk_lines::Lines;
use vk_reply::{Challenge, read_challenge, read_reply_head};
use vk_seq::Seq;

/// Whether the challenge's bits and the reply's lanes are as many as these.
fn count(lanes: u32, challenge: &Challenge, replies: u32) -> Result<(), Halt<Fault>>
    ensures judged { Judges (λ done. done) result (counted lanes challenge.now replies) }
    ensures bits { OnOk result (length challenge.now.bits ≡ lanes) }
    ensures exact { IfErr result (λ halt. halt ≡ Halt.Refused Fault.Lanes) }
{
    if challenge.bits.len() == lanes as usize && replies == lanes {
        Ok(())
    } else {
        Err(Halt::Refused(Fault::Lanes))
    }
}

/// Reads a challenge and the head of the reply to it: the bits, one for each of so many lanes.
#[tactic(auto, unfolding(crate::specs::Parts::attempt_at))]
pub fn read_attempt<S: Shelf>(
    alloc: Global,
    shelf: &mut S,
    lanes: u32,
    challenge: &mut Lines,
    reply: &mut Lines,
) -> Result<Seq<bool>, Halt<Fault>>
    ensures modelled { JudgesOn (S.held shelf.old) (rest_of reply.new) result
        (λ files. attempt_at lanes (rest_of challenge.old files) (rest_of reply.old files)) }
    ensures bits { IfOk result (λ bits. length bits ≡ lanes) }
    ensures shelf { OnlyReads S.held S.Shelf.faults Halt.Failed result shelf.old shelf.new }
{
    let challenge = in_part(Part::Challenge, read_challenge(alloc, shelf, challenge))?;
    let replies = in_part(Part::Reply, read_reply_head(shelf, reply))?;
    count(lanes, &challenge, replies)?;
    let Challenge { bits } = challenge;
    Ok(bits)
}

/// Judges each lane that is left for its bit of the challenge, and then the ends of the file and
/// the reply.
pub fn judge_rest<S: Shelf>(
    alloc: Global,
    shelf: &mut S,
    left: LanesLeft<'_>,
    pair: &mut FileAndReply,
) -> Result<(), Halt<Fault>>
    requires { AreLeft left }
    ensures modelled { IfSome (S.held shelf.old) (λ files. Judges (λ done. done) result
        (rest_left left.entry (rest_of pair.old.file files) (rest_of pair.old.reply files))) }
    ensures shelf { OnlyReads S.held S.Shelf.faults Halt.Failed result shelf.old shelf.new }
{
    let LanesLeft {
        statement,
        judged,
        bits,
    } = left;
    let lanes = statement.lanes();
    for index in judged..lanes {
        let bit = bits[index as usize];
        judge_lane(alloc, shelf, statement, index + 1, bit, pair)?;
    }
    let done = read_ends(shelf, pair);
    done
}

/// Judges all that stands behind a front of which this is the statement.
#[tactic(auto, unfolding(crate::specs::Parts::behind_in_parts))]
pub fn judge_behind<S: Shelf>(
    alloc: Global,
    shelf: &mut S,
    statement: &Statement,
    attempt: &mut Attempt,
) -> Result<(), Halt<Fault>>
    ensures modelled { IfSome (S.held shelf.old) (λ files. Judges (λ done. done) result
        (of_begun (behind_in_parts statement.now) attempt.old files)) }
    ensures shelf { OnlyReads S.held S.Shelf.faults Halt.Failed result shelf.old shelf.new }
{
    let lanes = statement.lanes();
    let challenge = &mut attempt.challenge;
    let reply = &mut attempt.pair.reply;
    let bits = read_attempt(alloc, shelf, lanes, challenge, reply)?;
    let left = LanesLeft {
        statement,
        judged: 0,
        bits: bits.as_slice(),
    };
    judge_rest(alloc, shelf, left, &mut attempt.pair)?;
    Ok(())
}

/// Reads the end of the file and then that of the reply.
#[tactic(auto, unfolding(crate::specs::Behind::ends_judged))]
pub fn read_ends<S: Shelf>(shelf: &mut S, pair: &mut FileAndReply) -> Result<(), Halt<Fault>>
    ensures modelled { IfSome (S.held shelf.old) (λ files.
        Judges (λ done. done) result
        (ends_judged (rest_of pair.old.file files) (rest_of pair.old.reply files))) }
    ensures shelf { OnlyReads S.held S.Shelf.faults Halt.Failed result shelf.old shelf.new }
{
    in_part(Part::Board, pair.file.read_end(shelf))?;
    in_part(Part::Reply, pair.reply.read_end(shelf))?;
    Ok(())
}
