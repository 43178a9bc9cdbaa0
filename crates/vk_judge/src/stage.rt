// How far two replies to a file were read.
ghost use Rattle.std.specs.Prelude.{◌≡◌};
ghost use Rattle.vk_judge.specs.Found.{told_by};

use crate::opened::Refusal;
use crate::statement::Statement;
use vk_io::OutsideErr;
use vk_lines::Lines;
use vk_row::LaneCase;
use vk_seq::Seq;
use vk_wire::Shown;

/// One lane: all that is public of it, and what each of two replies shows of it for its bit.
#[derive(Debug, Drop)]
pub struct TwoLane {
    pub case: LaneCase,
    pub first_bit: bool,
    pub first: Seq<Shown>,
    pub second_bit: bool,
    pub second: Seq<Shown>,
}

/// What a step lane by lane answers: from where to go on, and the next lane, if one is given.
pub type NextLane<C> = Result<(C, Option<TwoLane>), OutsideErr>;

/// What two replies come to.
#[derive(Clone, Copy, Debug, PartialEq, Eq)]
pub enum Finding<V> {
    /// Why the first reply is refused, where it is, else why the second is. What is said of the
    /// second names the second challenge or the second reply in place of a first one.
    Refused { second: bool, verdict: V },
    /// Both replies are accepted, and the challenges' bits are the same.
    Same,
    /// Both replies are accepted, and the challenges differ in a bit.
    Ready,
}

impl<V> Finding<V> {
    /// The same, with its verdict told in other words.
    pub fn told<W: From<V>>(self) -> Finding<W>
        ensures { (tell : V → W)
            → ((verdict : V) (words : W) → W.from_gives verdict words → words ≡ tell verdict)
            → result ≡ told_by tell self }
    {
        match self {
            Finding::Refused { second, verdict } => {
                let verdict = W::from(verdict);
                Finding::Refused { second, verdict }
            }
            Finding::Same => Finding::Same,
            Finding::Ready => Finding::Ready,
        }
    }
}

/// A file and a reply, each from where it is to be read on.
#[derive(Drop)]
pub struct FileAndReply {
    pub file: Lines,
    pub reply: Lines,
}

/// The lanes that are left to judge: of which statement, after how many, and the challenge's bits
/// of all its lanes.
#[derive(Drop)]
pub struct LanesLeft<'a> {
    pub statement: &'a Statement,
    pub judged: u32,
    pub bits: &'a [bool],
}

/// A file, a challenge and the reply to it, each from where it is to be read on.
#[derive(Drop)]
pub struct Attempt {
    pub challenge: Lines,
    pub pair: FileAndReply,
}

/// What was read before the first lane: the statement of the front, and the bits of both
/// challenges.
#[derive(Drop)]
pub struct Base {
    pub statement: Statement,
    pub first_bits: Seq<bool>,
    pub second_bits: Seq<bool>,
}

/// The file with the first reply, and the second reply, each from where it is to be read on.
#[derive(Drop)]
pub struct TwoReaders {
    pub pair: FileAndReply,
    pub second: Lines,
}

/// A file, a challenge and the reply to it, and another challenge and the reply to that, each from
/// where it is to be read on.
#[derive(Drop)]
pub struct TwoAttempts {
    pub first_challenge: Lines,
    pub second_challenge: Lines,
    pub readers: TwoReaders,
}

/// A file whose lanes are read: its head, what was read before its first lane, how many lanes were
/// given, and what was found, where no lane is to be given any more.
#[derive(Drop)]
pub struct Course<H, R> {
    pub head: H,
    pub base: Base,
    pub readers: TwoReaders,
    pub given: u32,
    pub finding: Option<Finding<Refusal<R>>>,
}

/// How far two replies were read.
#[derive(Drop)]
pub enum Stage<H, R> {
    /// The file is refused, or there is a fault before the first lane.
    Before(Finding<Refusal<R>>),
    Running(Course<H, R>),
}
