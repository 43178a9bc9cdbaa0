// What is public of a lane, and why what is shown of it is refused.
use vk_residue::{NoMemory, Residue};
use vk_seq::Seq;
use vk_wire::{WireCom, WireFault};

/// All that is public of one lane: its auction and number, the seat of each input, the commitments
/// to each wire, the inputs' first, and the posted number of each row.
#[derive(Debug, Drop)]
pub struct LaneCase {
    pub auction: [u8; 16],
    pub lane: u16,
    pub seats: Seq<u16>,
    pub coms: Seq<WireCom>,
    pub posted: Seq<Residue>,
}

/// Why what is shown of a lane gives no halves.
#[derive(Clone, Copy, Debug, PartialEq, Eq)]
pub enum LaneFault {
    /// The wire, counted from 0, is the first that reads nothing.
    Wire { wire: u32, fault: WireFault },
    /// Every wire reads its half, and the row, counted from 0, is the first that these don't meet.
    Row { row: u32 },
    /// There was no memory for the halves.
    NoMemory,
}

impl From<NoMemory> for LaneFault {
    ghost use Rattle.std.specs.Prelude.{◌≡◌};
    ghost use Rattle.vk_row.specs.declared.case.LaneFault.TheVariants.{NoMemory as OutOfMemory};

    ghost from_gives = { λ _ fault. fault ≡ OutOfMemory };

    fn from(_refused: NoMemory) -> LaneFault {
        LaneFault::NoMemory
    }
}
