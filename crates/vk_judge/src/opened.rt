// A file that was opened, or why it is refused.
use crate::answers::Fault;
use crate::statement::Statement;

/// What stands in a file before its first lane: its head, and what its lanes are to show.
#[derive(Debug, Drop)]
pub struct Opened<H> {
    pub head: H,
    pub statement: Statement,
}

/// Why a file is refused, or a reply to it.
#[derive(Clone, Copy, Debug, PartialEq, Eq)]
pub enum Refusal<R> {
    /// What the front says is refused.
    Front(R),
    /// There is a fault, of the front's lines or behind it.
    Fault(Fault),
}

impl<R> From<Fault> for Refusal<R> {
    ghost use Rattle.std.specs.Prelude.{◌≡◌};
    ghost use Rattle.vk_judge.specs.declared.opened.Refusal.TheVariants.{Fault as ForFault};

    ghost from_gives = { λ fault refusal. refusal ≡ ForFault fault };

    fn from(fault: Fault) -> Refusal<R> {
        Refusal::Fault(fault)
    }
}
