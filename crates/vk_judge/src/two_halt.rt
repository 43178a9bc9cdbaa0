// Why two replies are not read on.
ghost use Rattle.std.specs.Prelude.{◌≡◌, ℕ, Result, Ok, Err, IfOk, IfErr, IsOk, IsErr, IsTrue, IsFalse};
ghost use Rattle.vk_lines.specs.Common.{Causes, Rest};
ghost use Rattle.vk_judge.specs.declared.answers.Fault.{Fault};
ghost use Rattle.vk_judge.specs.Behind.{Judges};
ghost use Rattle.vk_judge.specs.Two.{IsFound, Refuses, second_fault, second_part, of_first, of_second, second_told, found_by, is_refused, accepted_of};
ghost use Rattle.vk_judge.specs.Answers.{first_answer, second_answer, second_halt, ends_halt};

use crate::answers::{Fault, Part};
use crate::halt::Halt;
use crate::stage::Finding;

/// Why two replies are not read on: what they come to is known, or the outside or memory failed.
pub type TwoHalt = Halt<Finding<Fault>>;

/// The part of the second attempt in place of that of the first.
fn second_part(part: Part) -> Part
    ensures { result ≡ second_part part }
{
    match part {
        Part::Board => Part::Board,
        Part::Challenge | Part::SecondChallenge => Part::SecondChallenge,
        Part::Reply | Part::SecondReply => Part::SecondReply,
    }
}

/// The fault of a second reply, which names the second challenge or reply.
fn second_fault(fault: Fault) -> Fault
    ensures { result ≡ second_fault fault }
{
    match fault {
        Fault::Malformed { part, line } => Fault::Malformed {
            part: second_part(part),
            line,
        },
        other => other,
    }
}

/// What was judged of the first reply. A fault of it is what is found.
pub fn of_first<X>(judged: Result<X, Halt<Fault>>) -> Result<X, TwoHalt>
    ensures exact { result ≡ first_answer judged }
    ensures found { (rest : Rest) (expected : Result (X × Rest) Fault)
        → Judges (λ x. (x, rest)) judged expected
        → Judges (λ x. (x, rest)) result (of_first expected) }
    ensures value { IfOk result (λ x. judged ≡ Ok x) }
    ensures refuses { IfErr result Refuses }
    ensures causes { (before : ℕ) (after : ℕ) → Causes Halt.Failed judged before after
        → Causes Halt.Failed result before after }
{
    match judged {
        Ok(value) => Ok(value),
        Err(Halt::Refused(verdict)) => Err(Halt::Refused(Finding::Refused {
            second: false,
            verdict,
        })),
        Err(Halt::Failed) => Err(Halt::Failed),
        Err(Halt::NoMemory) => Err(Halt::NoMemory),
    }
}

/// What was judged of the second reply. Where there is a fault of it, what is found is by the first
/// reply, which was then judged to its end.
pub fn of_second<X>(
    first: Result<(), Halt<Fault>>,
    judged: Result<X, Halt<Fault>>,
) -> Result<X, TwoHalt>
    ensures exact { result ≡ second_answer first judged }
    ensures found { (rest : Rest) (expected : Result (X × Rest) Fault) (other : Result Unit Fault)
        → Judges (λ x. (x, rest)) judged expected
        → (IsTrue (is_refused judged) → Judges (λ done. done) first other)
        → Judges (λ x. (x, rest)) result (of_second other expected) }
    ensures value { IfOk result (λ x. judged ≡ Ok x) }
    ensures refuses { IfErr result Refuses }
    ensures causes { (before : ℕ) (between : ℕ) (after : ℕ)
        → Causes Halt.Failed judged before between → Causes Halt.Failed first between after
        → (IsFalse (is_refused judged) → IsOk first) → Causes Halt.Failed result before after }
{
    match judged {
        Ok(value) => Ok(value),
        Err(Halt::Refused(fault)) => Err(second_told(fault, first)),
        Err(Halt::Failed) => Err(Halt::Failed),
        Err(Halt::NoMemory) => Err(Halt::NoMemory),
    }
}

/// What is found where the second reply has this fault, by what was judged of the first.
fn second_told(fault: Fault, first: Result<(), Halt<Fault>>) -> TwoHalt
    ensures exact { result ≡ second_halt fault first }
    ensures found { (other : Result Unit Fault) → Judges (λ done. done) first other
        → IsFound result (second_told fault other) }
    ensures refuses { Refuses result }
    ensures causes { (before : ℕ) (after : ℕ) → Causes Halt.Failed first before after
        → Causes {T = Unit {0}} Halt.Failed (Err result) before after }
{
    match first {
        Ok(()) => Halt::Refused(Finding::Refused {
            second: true,
            verdict: second_fault(fault),
        }),
        Err(Halt::Refused(other)) => Halt::Refused(Finding::Refused {
            second: false,
            verdict: other,
        }),
        Err(Halt::Failed) => Halt::Failed,
        Err(Halt::NoMemory) => Halt::NoMemory,
    }
}

/// Whether a fault was found.
pub fn is_refused<X>(judged: &Result<X, Halt<Fault>>) -> bool
    ensures { result ≡ is_refused judged.now }
{
    matches!(judged, Err(Halt::Refused(_)))
}

/// What is found where every lane was given: this, where there is no fault at the ends either.
pub fn found_by(
    accepted: Finding<Fault>,
    first: Result<(), Halt<Fault>>,
    second: Result<(), Halt<Fault>>,
) -> TwoHalt
    ensures exact { result ≡ ends_halt accepted first second }
    ensures found { (rest : Rest) (first_expected : Result Unit Fault)
        (second_expected : Result (Unit × Rest) Fault)
        → Judges (λ done. done) first first_expected
        → (IsOk first → Judges (λ done. (done, rest)) second second_expected)
        → IsFound result (found_by accepted first_expected second_expected) }
    ensures causes { (before : ℕ) (between : ℕ) (after : ℕ)
        → Causes Halt.Failed first before between → Causes Halt.Failed second between after
        → (IsErr first → IsOk second)
        → Causes {T = Unit {0}} Halt.Failed (Err result) before after }
{
    match (first, second) {
        (Ok(()), Ok(())) => Halt::Refused(accepted),
        (Ok(()), Err(Halt::Refused(fault))) => Halt::Refused(Finding::Refused {
            second: true,
            verdict: second_fault(fault),
        }),
        (Err(Halt::Refused(verdict)), _) => Halt::Refused(Finding::Refused {
            second: false,
            verdict,
        }),
        (Err(Halt::Failed), _) | (Ok(()), Err(Halt::Failed)) => Halt::Failed,
        (Err(Halt::NoMemory), _) | (Ok(()), Err(Halt::NoMemory)) => Halt::NoMemory,
    }
}

/// What is found of two accepted replies to challenges with these bits.
pub fn accepted_of(first: &[bool], second: &[bool]) -> Finding<Fault>
    ensures { result ≡ accepted_of first.now second.now }
{
    if first == second {
        Finding::Same
    } else {
        Finding::Ready
    }
}
