// The verdict on a claim file, a challenge and a reply, as whole files.
ghost use Rattle.std.specs.Prelude.{◌≡◌, IfSome};
ghost use Rattle.vk_judge.specs.Common.{Gives, OnlyReads, unread_file};
ghost use Rattle.vk_claim.specs.Verdicts.{claim_judged_named, claim_verdict_on, refused_verdict, verdict_by};

use crate::circuits::Circuits;
use crate::claim::{ClaimRefusal, read_claim};
use std::alloc::Global;
use vk_io::Shelf;
use vk_judge::{Fault, OneReply, Part, Refusal, VErr, judge_file};
use vk_wire::WireFault;

/// The first fault of a claim file, a challenge and a reply, or that there is none.
#[derive(Clone, Copy, Debug, PartialEq, Eq)]
pub enum ClaimVerdict {
    Accepted,
    /// The public part is not admitted.
    Public,
    /// The file is not of its form. The line, counted from 1, is the first that isn't what its
    /// place demands.
    Malformed {
        part: Part,
        line: u64,
    },
    /// In the lane, counted from 1, every wire reads its half, and the row, counted from 0, is the
    /// first that these don't meet.
    Row {
        lane: u32,
        row: u32,
    },
    /// In the lane, counted from 1, the wire, counted from 0, is the first that reads nothing.
    Wire {
        lane: u32,
        wire: u32,
        fault: WireFault,
    },
    /// The challenge's bits, or the reply's lanes, aren't as many as the claim file's lanes.
    Lanes,
}

impl From<Refusal<ClaimRefusal>> for ClaimVerdict {
    ghost from_gives = { λ refusal verdict. verdict ≡ refused_verdict refusal };

    fn from(refusal: Refusal<ClaimRefusal>) -> ClaimVerdict {
        match refusal {
            Refusal::Front(ClaimRefusal::Public) => ClaimVerdict::Public,
            Refusal::Fault(Fault::Malformed { part, line }) => {
                ClaimVerdict::Malformed { part, line }
            }
            Refusal::Fault(Fault::Lanes) => ClaimVerdict::Lanes,
            Refusal::Fault(Fault::Wire { lane, wire, fault }) => {
                ClaimVerdict::Wire { lane, wire, fault }
            }
            Refusal::Fault(Fault::Row { lane, row }) => ClaimVerdict::Row { lane, row },
        }
    }
}

/// The verdict on the named files, for these circuits: the first fault in the order of the lines of
/// the claim file before its first lane, the public part, the challenge, the head of the reply, the
/// numbers of lanes, then lane by lane the lines of the claim file, those of the reply, the wires
/// and the rows, and then the ends of both files.
///
/// Errs where a file is missing or longer than 2^30 bytes, and names the first that is; where the
/// shelf fails; and for want of memory.
#[tactic(auto, using(crate::proofs::Named::verdict_judged))]
pub fn claim_verdict<S: Shelf, Q: Circuits>(
    alloc: Global,
    shelf: &mut S,
    circuits: &Q,
    board: &str,
    challenge: &str,
    reply: &str,
) -> Result<ClaimVerdict, VErr>
    ensures shelf { OnlyReads S.held S.Shelf.faults VErr.Failed result shelf.old shelf.new }
    ensures modelled { IfSome (S.held shelf.old) (λ files.
        Gives unread_file (λ verdict. verdict) result
        (claim_verdict_on (Q.admitted circuits.now) files board.now challenge.now reply.now)) }
{
    let names = OneReply {
        file: board,
        challenge,
        reply,
    };
    let judged = judge_claim(alloc, shelf, circuits, &names)?;
    Ok(verdict_by(judged))
}

/// Judges the named files, for these circuits, as `claim_verdict` tells.
#[tactic(auto, using(crate::proofs::Named::judged_begun))]
pub fn judge_claim<S: Shelf, Q: Circuits>(
    alloc: Global,
    shelf: &mut S,
    circuits: &Q,
    names: &OneReply<'_>,
) -> Result<Result<(), Refusal<ClaimRefusal>>, VErr>
    ensures shelf { OnlyReads S.held S.Shelf.faults VErr.Failed result shelf.old shelf.new }
    ensures modelled { IfSome (S.held shelf.old) (λ files.
        Gives unread_file (λ judged. judged) result
        (claim_judged_named (Q.admitted circuits.now) files names.now)) }
{
    let mut attempt = names.begin(alloc, shelf)?;
    let opened = read_claim(alloc, shelf, circuits, &mut attempt.pair.file)?;
    let judged = judge_file(alloc, shelf, opened, &mut attempt)?;
    Ok(judged)
}

/// The verdict by what judging came to.
fn verdict_by(judged: Result<(), Refusal<ClaimRefusal>>) -> ClaimVerdict
    ensures { result ≡ verdict_by judged }
{
    match judged {
        Ok(()) => ClaimVerdict::Accepted,
        Err(refusal) => ClaimVerdict::from(refusal),
    }
}
