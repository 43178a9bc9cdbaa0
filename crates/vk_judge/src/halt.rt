// Why judging stopped.
ghost use Rattle.std.specs.Prelude.{◌≡◌, ℕ, Result, Ok, IfOk};
ghost use Rattle.vk_lines.specs.Common.{Causes, GivesReading, Rest};
ghost use Rattle.vk_judge.specs.Behind.{Judges, and_rest, in_part};
ghost use Rattle.vk_judge.specs.Answers.{known_answer, read_answer};
ghost use Rattle.vk_judge.specs.declared.halt.Halt.TheVariants.{NoMemory as OutOfMemory};

use crate::answers::{Fault, Part};
use vk_io::OutsideErr;
use vk_lines::ReadErr;
use vk_residue::NoMemory;

/// Why judging stopped before its end.
#[derive(Clone, Copy)]
pub enum Halt<V> {
    /// What was come to is known, and this says it.
    Refused(V),
    /// The outside failed.
    Failed,
    NoMemory,
}

impl<V> From<NoMemory> for Halt<V> {
    ghost from_gives = { λ _ halt. halt ≡ OutOfMemory };

    fn from(_refused: NoMemory) -> Halt<V> {
        Halt::NoMemory
    }
}

/// What was read of a file. A fault of its form is the fault.
pub fn in_part<X>(part: Part, read: Result<X, ReadErr>) -> Result<X, Halt<Fault>>
    ensures exact { result ≡ read_answer part read }
    ensures judged { (rest : Rest) (expected : Result (X × Rest) ℕ)
        → GivesReading (λ x. x) read rest expected
        → Judges (λ x. (x, rest)) result (in_part part expected) }
    ensures value { IfOk result (λ x. read ≡ Ok x) }
    ensures causes { (before : ℕ) (after : ℕ) → Causes ReadErr.Failed read before after
        → Causes Halt.Failed result before after }
{
    match read {
        Ok(value) => Ok(value),
        Err(ReadErr::Malformed { line }) => Err(Halt::Refused(Fault::Malformed { part, line })),
        Err(ReadErr::Failed) => Err(Halt::Failed),
        Err(ReadErr::NoMemory) => Err(Halt::NoMemory),
    }
}

/// What was come to, where a refusal is one of the values.
pub fn refusal_as_value<X, V>(judged: Result<X, Halt<V>>) -> Result<Result<X, V>, OutsideErr>
    ensures exact { result ≡ known_answer judged }
    ensures read { (rest : Rest) (expected : Result (X × Rest) V)
        → Judges (λ x. (x, rest)) judged expected
        → IfOk result (λ known. expected ≡ and_rest known rest) }
    ensures judged { (expected : Result X V) → Judges (λ x. x) judged expected
        → IfOk result (λ known. expected ≡ known) }
    ensures value { IfOk result (λ known. IfOk known (λ x. judged ≡ Ok x)) }
    ensures causes { (before : ℕ) (after : ℕ) → Causes Halt.Failed judged before after
        → Causes OutsideErr.Failed result before after }
{
    match judged {
        Ok(value) => Ok(Ok(value)),
        Err(Halt::Refused(refusal)) => Ok(Err(refusal)),
        Err(Halt::Failed) => Err(OutsideErr::Failed),
        Err(Halt::NoMemory) => Err(OutsideErr::NoMemory),
    }
}
