// Files of any form: what is judged of one reply, and of two side by side.
ghost use Rattle.std.specs.Prelude.{◌≡◌, Ok, IfOk, IfSome, IsErrOf};
ghost use Rattle.vk_lines.specs.Lines.{OnlyReads};
ghost use Rattle.vk_judge.specs.Begun.{of_begun};
ghost use Rattle.vk_judge.specs.Behind.{and_rest};
ghost use Rattle.vk_judge.specs.Statement.{IsStatement};
ghost use Rattle.vk_judge.specs.Two.{of_two};
ghost use Rattle.vk_judge.specs.Wanting.{MemoryWasWanting};
ghost use Rattle.vk_judge.specs.Opened.{GivesFinding, GivesNext, HasOpened, IsCheckedOver, checked_base, checked_finding, checked_given, coming_of, coming_past, in_file, judged_past, opened_in};

use crate::answers::Fault;
use crate::halt::refusal_as_value;
use crate::judging::judge_behind;
use crate::opened::{Opened, Refusal};
use crate::stage::{Attempt, Finding, NextLane, Stage, TwoAttempts};
use crate::statement::Statement;
use crate::two::{next_on_course, stage_on};
use crate::two_lane::begin_lanes;
use std::alloc::Global;
use std::marker::Model;
use vk_io::{OutsideErr, Shelf};
use vk_plan::Plan;

/// Judges a challenge and the reply to it, behind the front of a file that was opened.
#[tactic(auto, using(crate::proofs::Joined::behind_parts))]
pub fn judge_file<S: Shelf, H: Drop, R: Copy>(
    alloc: Global,
    shelf: &mut S,
    opened: Result<Opened<H>, Refusal<R>>,
    attempt: &mut Attempt,
) -> Result<Result<(), Refusal<R>>, OutsideErr>
    ensures modelled { IfSome (S.held shelf.old) (λ files. IfOk result (λ judged.
        of_begun (λ file. judged_past (and_rest opened file)) attempt.old files ≡ judged)) }
    ensures shelf { OnlyReads S.held S.Shelf.faults OutsideErr.Failed result shelf.old shelf.new }
{
    match opened {
        Err(refusal) => Ok(Err(refusal)),
        Ok(opened) => {
            let judged = refusal_as_value(judge_behind(alloc, shelf, &opened.statement, attempt))?;
            Ok(in_file(judged))
        }
    }
}

/// What was judged behind the front of a file.
fn in_file<R: Copy>(judged: Result<(), Fault>) -> Result<(), Refusal<R>>
    ensures { result ≡ in_file judged }
{
    match judged {
        Ok(()) => Ok(()),
        Err(fault) => Err(Refusal::Fault(fault)),
    }
}

/// Reads a file, a challenge and the reply to it, and another challenge and the reply to that, lane
/// by lane. A lane is given where both replies are accepted so far. Once no lane is given any more,
/// it tells what the replies come to.
#[derive(Drop)]
pub struct Checker<H, R> {
    stage: Stage<H, R>,
}

impl<H, R> Model for Checker<H, R> {
    ghost use Rattle.vk_judge.specs.Opened.{Checked, IsChecked};

    ghost Value = { Checked H R };

    ghost view = { λ c. c.stage };

    ghost invariant = { λ c. IsChecked c.stage };
}

impl<H: Drop, R: Copy> Checker<H, R> {
    /// Reads both challenges and the heads of both replies, of a file that was opened and is read
    /// up to its first lane. Errs where the shelf fails, and for want of memory.
    pub fn begin<S: Shelf>(
        alloc: Global,
        shelf: &mut S,
        opened: Result<Opened<H>, Refusal<R>>,
        two: TwoAttempts,
    ) -> Result<Self, OutsideErr>
        ensures modelled { IfSome (S.held shelf.old) (λ files. IfOk result (λ checker.
            coming_of checker files ≡ of_two (λ file. coming_past (and_rest opened file)) two
            files)) }
        ensures opened { IfOk result (λ checker. IfSome (checked_base checker)
            (λ known. opened ≡ Ok (opened_in known))) }
        ensures none_given { IfOk result (λ checker. checked_given checker ≡ 0) }
        ensures wanting { IsErrOf result OutsideErr.NoMemory → MemoryWasWanting }
        ensures shelf { OnlyReads S.held S.Shelf.faults OutsideErr.Failed result shelf.old
            shelf.new }
    {
        match opened {
            Err(verdict) => {
                let second = false;
                let stage = Stage::Before(Finding::Refused { second, verdict });
                Ok(Checker { stage })
            }
            Ok(opened) => {
                let Opened { head, statement } = opened;
                let TwoAttempts {
                    mut first_challenge,
                    mut second_challenge,
                    mut readers,
                } = two;
                let base = begin_lanes(
                    alloc,
                    shelf,
                    statement,
                    &mut first_challenge,
                    &mut second_challenge,
                    &mut readers,
                );
                let stage = stage_on(head, base, readers)?;
                Ok(Checker { stage })
            }
        }
    }

    /// Gives the next lane, where both replies are accepted so far, and none where every lane was
    /// given or one of the replies has its fault in the lane or before it. What they come to is
    /// known then.
    pub fn next_lane<S: Shelf>(self, alloc: Global, shelf: &mut S) -> NextLane<Self>
        ensures next { GivesNext S.held S.Shelf.faults self result shelf.old shelf.new }
    {
        let Checker { stage } = self;
        match stage {
            Stage::Before(finding) => {
                let stage = Stage::Before(finding);
                Ok((Checker { stage }, None))
            }
            Stage::Running(course) => {
                let (course, lane) = next_on_course(alloc, shelf, course)?;
                let stage = Stage::Running(course);
                Ok((Checker { stage }, lane))
            }
        }
    }

    /// What both replies come to. Both are accepted only where every lane was given.
    pub fn finding(&self) -> Finding<Refusal<R>>
        requires { IsCheckedOver self.now }
        ensures found { GivesFinding (checked_finding self.now) self.now result }
    {
        match &self.stage {
            Stage::Before(finding) => *finding,
            Stage::Running(course) => match course.finding {
                Some(finding) => finding,
                None => unreachable!(),
            },
        }
    }

    /// What is to be shown lane by lane.
    pub fn statement(&self) -> &Statement
        requires { HasOpened self.now }
        ensures value { IfSome (checked_base self.now)
            (λ known. known.base.statement ≡ result.now) }
        ensures right { IsStatement result.now }
    {
        match &self.stage {
            Stage::Running(course) => &course.base.statement,
            Stage::Before(_) => unreachable!(),
        }
    }

    /// The circuit to which the lanes are held.
    pub fn plan(&self) -> &Plan
        requires { HasOpened self.now }
        ensures { IfSome (checked_base self.now)
            (λ known. known.base.statement.plan ≡ result.now) }
    {
        self.statement().plan()
    }

    /// What the head of the file says.
    pub fn head(&self) -> &H
        requires { HasOpened self.now }
        ensures { IfSome (checked_base self.now) (λ known. known.head ≡ result.now) }
    {
        match &self.stage {
            Stage::Running(course) => &course.head,
            Stage::Before(_) => unreachable!(),
        }
    }

    /// The head of the file, and what was to be shown lane by lane.
    pub fn into_opened(self) -> Opened<H>
        requires { HasOpened self }
        ensures value { IfSome (checked_base self) (λ known. opened_in known ≡ result) }
        ensures right { IsStatement result.statement }
    {
        let Checker { stage } = self;
        match stage {
            Stage::Running(course) => Opened {
                head: course.head,
                statement: course.base.statement,
            },
            Stage::Before(_) => unreachable!(),
        }
    }
}
