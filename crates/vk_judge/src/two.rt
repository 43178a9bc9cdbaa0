// How two replies to a file are read on, behind its front.
ghost use Rattle.std.specs.Prelude.{◌≡◌, ◌⊎◌, ◌≤◌, ◌<◌, ◌+◌, ℕ, Some, None, Result, Ok, IsSome, IfSome, IfOk, IfErr, IsErrOf, OnOk};
ghost use Rattle.vk_lines.specs.Common.{Causes, Files, OnlyReads};
ghost use Rattle.vk_judge.specs.declared.answers.Fault.{Fault};
ghost use Rattle.vk_judge.specs.declared.stage.Base.{Base};
ghost use Rattle.vk_judge.specs.declared.stage.Finding.{Finding};
ghost use Rattle.vk_judge.specs.declared.stage.Stage.TheVariants.{Running};
ghost use Rattle.vk_judge.specs.Behind.{Judges};
ghost use Rattle.vk_judge.specs.Answers.{start_answer, step_answer};
ghost use Rattle.vk_judge.specs.Opened.{CheckedGoesOn, GoesOn, IsChecked, IsCourse, IsLaneStep, as_ahead, as_found, checked_base, checked_given, coming_of, coming_with};
ghost use Rattle.vk_judge.specs.Wanting.{MemoryWasWanting};
ghost use Rattle.vk_judge.specs.Two.{Ahead, BothAreAccepted, GivesLane, IsBase, IsTwoLane, Refuses, Rests, ahead_by, ahead_on, base_in, rests_of};

use crate::answers::Fault;
use crate::halt::Halt;
use crate::opened::Refusal;
use crate::stage::{Base, Course, Finding, NextLane, Stage, TwoLane, TwoReaders};
use crate::two_halt::TwoHalt;
use crate::two_lane::next_step;
use std::alloc::Global;
use vk_io::{OutsideErr, Shelf};

/// What is found behind the front, as it is told of the file.
fn as_found<R: Copy>(finding: Finding<Fault>) -> Finding<Refusal<R>>
    ensures value { result ≡ as_found finding }
    ensures accepted { BothAreAccepted result → BothAreAccepted finding }
{
    let found = finding.told();
    found
}

/// Before the first lane of a file with this head, where there is no fault before it.
#[tactic(auto, using(crate::specs::Wanting::memory_was_wanting))]
pub fn stage_on<H: Drop, R: Copy>(
    head: H,
    base: Result<Base, TwoHalt>,
    readers: TwoReaders,
) -> Result<Stage<H, R>, OutsideErr>
    requires right { IfOk base IsBase }
    requires refuses { IfErr base Refuses }
    ensures exact { result ≡ start_answer head base readers }
    ensures modelled { (files : Files) (expected : Result (Base × Rests) (Finding Fault))
        → Judges (λ g. (g, rests_of readers files)) base expected
        → IfOk result (λ stage. coming_of stage files
        ≡ coming_with head (base_in expected) (ahead_by expected)) }
    ensures right { IfOk result IsChecked }
    ensures opened { IfOk result (λ stage. IfSome (checked_base stage)
        (λ known. (known.head ≡ head) × (base ≡ Ok known.base))) }
    ensures none_given { IfOk result (λ stage. checked_given stage ≡ 0) }
    ensures wanting { IsErrOf result OutsideErr.NoMemory → MemoryWasWanting }
    ensures causes { (before : ℕ) (after : ℕ) → Causes Halt.Failed base before after
        → Causes OutsideErr.Failed result before after }
{
    match base {
        Ok(base) => Ok(Stage::Running(Course {
            head,
            base,
            readers,
            given: 0,
            finding: None,
        })),
        Err(Halt::Refused(finding)) => Ok(Stage::Before(as_found(finding))),
        Err(Halt::Failed) => Err(OutsideErr::Failed),
        Err(Halt::NoMemory) => Err(OutsideErr::NoMemory),
    }
}

/// The next lane of the course, if there is one.
#[tactic(auto, using(crate::specs::Wanting::memory_was_wanting))]
pub fn next_on_course<S: Shelf, H: Drop, R: Copy>(
    alloc: Global,
    shelf: &mut S,
    course: Course<H, R>,
) -> NextLane<Course<H, R>>
    requires { IsCourse course }
    ensures modelled { IfSome (S.held shelf.old) (λ files. IfOk result
        (λ next. CheckedGoesOn (Running course) next.1 (Running next.0) files)) }
    ensures right { IfOk result (λ next. IsCourse next.0) }
    ensures step { IfOk result (λ next. IsLaneStep (Running course) next.1 (Running next.0)) }
    ensures wanting { IsErrOf result OutsideErr.NoMemory → MemoryWasWanting }
    ensures shelf { OnlyReads S.held S.Shelf.faults OutsideErr.Failed result shelf.old shelf.new }
{
    let Course {
        head,
        base,
        mut readers,
        given,
        finding,
    } = course;
    if finding.is_some() {
        let over = Course {
            head,
            base,
            readers,
            given,
            finding,
        };
        return Ok((over, None));
    }
    let step = next_step(alloc, shelf, &base, given, &mut readers);
    let next = after_step(head, base, readers, given, step)?;
    Ok(next)
}

/// The course after a step from so many lanes.
fn after_step<H: Drop, R: Copy>(
    head: H,
    base: Base,
    readers: TwoReaders,
    given: u32,
    step: Result<TwoLane, TwoHalt>,
) -> NextLane<Course<H, R>>
    requires base { IsBase base }
    requires within { given ≤ base.statement.lanes }
    requires right { IfOk step (IsTwoLane base.statement (given + 1)) }
    requires more { OnOk step (given < base.statement.lanes) }
    requires all { IfErr step (λ halt. Refuses halt ⊎ (given ≡ base.statement.lanes)) }
    ensures exact { result ≡ step_answer head base readers given step }
    ensures modelled { (files : Files) (before : Ahead Fault)
        → GivesLane before step (ahead_on base (given + 1) (rests_of readers files))
        → IfOk result (λ next. GoesOn (as_ahead before) next.1 (Running next.0) files) }
    ensures right { IfOk result (λ next. IsCourse next.0) }
    ensures next { IfOk result (λ next. IfSome next.1 (λ lane. (next.0.given ≡ given + 1)
        × IsTwoLane next.0.base.statement next.0.given lane)) }
    ensures none { IfOk result
        (λ next. next.1 ≡ None → IsSome next.0.finding × (next.0.given ≡ given)) }
    ensures base { IfOk result (λ next. (next.0.head ≡ head) × (next.0.base ≡ base)) }
    ensures causes { (before : ℕ) (after : ℕ) → Causes Halt.Failed step before after
        → Causes OutsideErr.Failed result before after }
{
    match step {
        Ok(lane) => {
            let course = Course {
                head,
                base,
                readers,
                given: given + 1,
                finding: None,
            };
            Ok((course, Some(lane)))
        }
        Err(Halt::Refused(finding)) => {
            let course = Course {
                head,
                base,
                readers,
                given,
                finding: Some(as_found(finding)),
            };
            Ok((course, None))
        }
        Err(Halt::Failed) => Err(OutsideErr::Failed),
        Err(Halt::NoMemory) => Err(OutsideErr::NoMemory),
    }
}
