use std::alloc::{AllocError, AllocFailed};
use thiserror::Error;
use vk_io::OutsideErr;
use vk_lines::{ReadErr, StartErr};
use vk_residue::NoMemory;

/// Why the cases were not replayed to their end.
#[derive(Clone, Copy, Debug, PartialEq, Eq, Error)]
pub enum Unreplayed {
    /// A file of cases is missing, or one of its lines is no case.
    #[error("no case")]
    NoCase,
    /// The outside failed.
    #[error("outside fault")]
    Outside,
    #[error("no memory")]
    NoMemory,
}

/// What came of a case that was tried.
pub type Tried<T> = Result<T, Unreplayed>;

impl From<OutsideErr> for Unreplayed {
    fn from(refusal: OutsideErr) -> Unreplayed {
        match refusal {
            OutsideErr::Failed => Unreplayed::Outside,
            OutsideErr::NoMemory => Unreplayed::NoMemory,
        }
    }
}

impl From<StartErr> for Unreplayed {
    fn from(refusal: StartErr) -> Unreplayed {
        match refusal {
            StartErr::Missing | StartErr::TooLong => Unreplayed::NoCase,
            StartErr::Failed => Unreplayed::Outside,
            StartErr::NoMemory => Unreplayed::NoMemory,
        }
    }
}

impl From<ReadErr> for Unreplayed {
    fn from(refusal: ReadErr) -> Unreplayed {
        match refusal {
            ReadErr::Malformed { line: _ } => Unreplayed::NoCase,
            ReadErr::Failed => Unreplayed::Outside,
            ReadErr::NoMemory => Unreplayed::NoMemory,
        }
    }
}

impl From<NoMemory> for Unreplayed {
    fn from(_refused: NoMemory) -> Unreplayed {
        Unreplayed::NoMemory
    }
}

impl From<AllocError> for Unreplayed {
    fn from(_refused: AllocError) -> Unreplayed {
        Unreplayed::NoMemory
    }
}

impl<T: Drop> From<AllocFailed<T>> for Unreplayed {
    fn from(_refused: AllocFailed<T>) -> Unreplayed {
        Unreplayed::NoMemory
    }
}
