// Two replies to a claim file, read lane by lane by the checker of claims, which no command calls.
ghost use Rattle.std.specs.Prelude.{◌≡◌, IfOk, false, true};
ghost use Rattle.vk_judge.specs.Opened.{HasOpened, IsCheckedOver};

use crate::bench::{Bench, Sizes, push_sizes};
use std::alloc::Global;
use vk_audit::same_challenge;
use vk_cases::{Text, Tried, Unreplayed, cut, text_in};
use vk_claim::{ClaimChecker, ClaimFinding, ClaimRefusal, ClaimVerdict, claim_verdict};
use vk_claims::{ClaimCircuits, claim_judged, claim_refused};
use vk_effect::Said;
use vk_io::{OutsideErr, PieceShelf};
use vk_judge::{Fault, Refusal, TwoReplies, VErr};
use vk_residue::NoMemory;

/// The most lanes that a claim file has.
const MOST_LANES: u32 = 64;

/// Tells what the checker gives and finds of the files of a case, once its words have written
/// theirs.
pub fn push_case(bench: &mut Bench, text: &mut Text, case: &[u8]) -> Tried<()> {
    let (words, named) = cut(case, b'|');
    let names = names_in(named)?;
    bench.run(text, words)?;
    push_checked(bench, text, &names)
}

/// The names, with a space between two.
fn names_in(named: &[u8]) -> Tried<TwoReplies<'_>> {
    let (file, behind) = cut(named, b' ');
    let (challenge1, behind) = cut(behind, b' ');
    let (reply1, behind) = cut(behind, b' ');
    let (challenge2, behind) = cut(behind, b' ');
    let (reply2, _behind) = cut(behind, b' ');
    Ok(TwoReplies {
        file: text_in(file)?,
        challenge1: text_in(challenge1)?,
        reply1: text_in(reply1)?,
        challenge2: text_in(challenge2)?,
        reply2: text_in(reply2)?,
    })
}

/// Tells what the checker gives and finds of these files: of the first lane how large the circuit
/// is that it is held to, then how many lanes there are, and what is said of the finding.
pub fn push_checked(bench: &mut Bench, text: &mut Text, names: &TwoReplies<'_>) -> Tried<()> {
    text.put(names.file.as_bytes());
    push_attempt(text, names.challenge1, names.reply1);
    push_attempt(text, names.challenge2, names.reply2);
    let (given, finding) = checked(bench.alloc, &mut bench.shelf, text, names)?;
    if verdict_on_first(bench.alloc, &mut bench.shelf, names)? != first_told(finding) {
        return Err(Unreplayed::NoCase);
    }
    text.put_count(b" lanes ", u64::from(given));
    let said = said_of(bench.alloc, names, finding)?;
    bench.say(&said)?;
    text.put(bench.said());
    Ok(())
}

/// The verdict on the first reply by itself.
fn verdict_on_first(
    alloc: Global,
    shelf: &mut PieceShelf,
    names: &TwoReplies<'_>,
) -> Tried<ClaimVerdict> {
    let (file, challenge, reply) = (names.file, names.challenge1, names.reply1);
    match claim_verdict(alloc, shelf, &ClaimCircuits, file, challenge, reply) {
        Ok(verdict) => Ok(verdict),
        Err(_refused) => Err(Unreplayed::NoCase),
    }
}

/// The same by what is found of both.
fn first_told(finding: ClaimFinding) -> ClaimVerdict {
    match finding {
        ClaimFinding::Refused {
            second: false,
            verdict,
        } => verdict,
        _ => ClaimVerdict::Accepted,
    }
}

/// The names of a challenge and of the reply to it.
fn push_attempt(text: &mut Text, challenge: &str, reply: &str) {
    text.put(b" ");
    text.put(challenge.as_bytes());
    text.put(b" ");
    text.put(reply.as_bytes());
}

/// How many lanes are given, and what is found then.
fn checked(
    alloc: Global,
    shelf: &mut PieceShelf,
    text: &mut Text,
    names: &TwoReplies<'_>,
) -> Tried<(u32, ClaimFinding)> {
    match begun(alloc, shelf, names) {
        Ok(checker) => {
            let found = course(alloc, shelf, text, checker);
            found
        }
        Err(_refused) => Err(Unreplayed::NoCase),
    }
}

/// The checker before the first lane.
fn begun(
    alloc: Global,
    shelf: &mut PieceShelf,
    names: &TwoReplies<'_>,
) -> Result<ClaimChecker, VErr> {
    let checker = ClaimChecker::start(
        alloc,
        shelf,
        &ClaimCircuits,
        names.file,
        names.challenge1,
        names.reply1,
        names.challenge2,
        names.reply2,
    );
    checker
}

/// How many lanes it gives, and what is found then.
fn course(
    alloc: Global,
    shelf: &mut PieceShelf,
    text: &mut Text,
    checker: ClaimChecker,
) -> Tried<(u32, ClaimFinding)> {
    let mut checker = checker;
    for given in 0..=MOST_LANES {
        let (next, some) = stepped(alloc, shelf, checker)?;
        checker = next;
        if !some {
            return Ok((given, checker.finding()));
        }
        if given == 0 {
            push_shape(text, &checker);
        }
    }
    Err(Unreplayed::NoCase)
}

/// The checker behind the next lane, and whether there was one.
fn stepped(
    alloc: Global,
    shelf: &mut PieceShelf,
    checker: ClaimChecker,
) -> Result<(ClaimChecker, bool), OutsideErr>
    ensures some { IfOk result (λ next. next.1 ≡ true → HasOpened next.0) }
    ensures none { IfOk result (λ next. next.1 ≡ false → IsCheckedOver next.0) }
{
    let (checker, lane) = checker.next_lane(alloc, shelf)?;
    Ok((checker, lane.is_some()))
}

/// How many wires, rows and inputs the circuit has.
fn push_shape(text: &mut Text, checker: &ClaimChecker)
    requires { HasOpened checker.now }
{
    let plan = checker.plan();
    push_sizes(
        text,
        Sizes {
            wires: plan.wires(),
            rows: plan.rows(),
        },
    );
    text.put_number(b" inputs ", u64::from(checker.head().inputs));
}

/// What is said of the finding, as of one reply that is accepted where both are.
fn said_of(alloc: Global, names: &TwoReplies<'_>, finding: ClaimFinding) -> Result<Said, NoMemory> {
    let (second, verdict) = match finding {
        ClaimFinding::Same => return Ok(same_challenge()),
        ClaimFinding::Ready => (false, ClaimVerdict::Accepted),
        ClaimFinding::Refused { second, verdict } => (second, verdict),
    };
    let said = match refusal_of(verdict) {
        Some(refusal) => claim_refused(alloc, names, second, refusal)?,
        None => claim_judged(alloc, names, Ok(()))?,
    };
    Ok(said)
}

/// Why a reply is refused on which this is the verdict; none where it is accepted.
fn refusal_of(verdict: ClaimVerdict) -> Option<Refusal<ClaimRefusal>> {
    match verdict {
        ClaimVerdict::Accepted => None,
        ClaimVerdict::Public => Some(Refusal::Front(ClaimRefusal::Public)),
        ClaimVerdict::Malformed { part, line } => {
            Some(Refusal::Fault(Fault::Malformed { part, line }))
        }
        ClaimVerdict::Lanes => Some(Refusal::Fault(Fault::Lanes)),
        ClaimVerdict::Wire { lane, wire, fault } => {
            Some(Refusal::Fault(Fault::Wire { lane, wire, fault }))
        }
        ClaimVerdict::Row { lane, row } => Some(Refusal::Fault(Fault::Row { lane, row })),
    }
}
