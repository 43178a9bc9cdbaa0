//! Why no keeper is made over a store.

use vk_io::OutsideErr;

/// Why no keeper was made over a store.
#[derive(Clone, Copy, Debug, PartialEq, Eq)]
pub enum OpenErr {
    /// The table `about` doesn't hold one row with the number 1 or 2, but so many rows, and this
    /// number in the first of them. 0 where there is none.
    Version { rows: u64, number: i64 },
    /// The tables aren't those of the number that `about` holds; or a statement, or the reading of
    /// its row, was refused.
    Refused,
    /// Want of memory.
    NoMemory,
}

impl From<OutsideErr> for OpenErr {
    ghost use Rattle.std.specs.Prelude.{◌≡◌};
    ghost use Rattle.vk_keeper_sql.specs.Refusals.{open_refusal};

    ghost from_gives = { λ refused e. e ≡ open_refusal refused };

    fn from(refused: OutsideErr) -> OpenErr {
        match refused {
            OutsideErr::NoMemory => OpenErr::NoMemory,
            OutsideErr::Failed => OpenErr::Refused,
        }
    }
}
