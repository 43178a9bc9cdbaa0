ghost use Rattle.std.specs.Prelude.{◌≡◌};
ghost use Rattle.vk_io.specs.Faults.{told_as};
ghost use Rattle.vk_house.specs.declared.errors.HouseErr.TheVariants as house;
ghost use Rattle.vk_house.specs.Answers.{job_err_of};
ghost use Rattle.vk_house.specs.Tests.{house_err_of};

use crate::standing::PhaseName;
use vk_io::OutsideErr;
use vk_job::JobErr;
use vk_keeper::Refusal;
use vk_reply::Challenge;
use vk_residue::NoMemory;
use vk_seal::Mismatch;

/// Why a house refused a command, in the order in which it is tested. Nothing that is kept has
/// changed.
#[derive(Debug, Drop)]
pub enum HouseErr {
    /// The keeper failed. Its count of faults rose in this call.
    KeeperFailed,
    /// An auction is held under the id.
    Known,
    /// No auction is held under the id.
    Unknown,
    /// Seals are no longer taken; or still are, and nothing was proved that could be answered.
    Phase {
        kept: PhaseName,
    },
    /// 64 seals are held.
    Full,
    /// The seal is of another auction, the given one.
    OtherAuction {
        given: [u8; 16],
    },
    /// A held seal has the seat.
    SeatTaken,
    /// The seal is of another number of lanes than the auction, or the challenge of bits.
    Length {
        /// How many lanes the auction has.
        kept: u32,
        /// How many lanes the seal has, or bits the challenge.
        given: u32,
    },
    /// The bid isn't below 2^width.
    BidTooLarge,
    /// The seal isn't that of the secret.
    Mismatch(Mismatch),
    /// No seal is held.
    NoSeals,
    /// The board was made with the kept seed, and another one is given.
    OtherSeed {
        kept: [u8; 32],
    },
    /// The kept challenge was answered, and another one is given.
    OtherChallenge {
        kept: Challenge,
    },
    /// The seed gives no tape.
    DrySeed {
        /// The first lane without a tape, from 1.
        lane: u32,
        /// The first such wire in it, from 0.
        wire: u32,
    },
    /// Want of memory.
    NoMemory,
}

impl From<OutsideErr> for HouseErr {
    ghost from_gives = { λ refused e. e ≡ told_as house.KeeperFailed house.NoMemory refused };

    fn from(refused: OutsideErr) -> HouseErr {
        refused.told_as(HouseErr::KeeperFailed, HouseErr::NoMemory)
    }
}

impl From<Refusal> for HouseErr {
    ghost from_gives = { λ refused e. e ≡ house_err_of refused };

    fn from(refused: Refusal) -> HouseErr {
        match refused {
            Refusal::Full => HouseErr::Full,
            Refusal::OtherAuction { given } => HouseErr::OtherAuction { given },
            Refusal::SeatTaken => HouseErr::SeatTaken,
            Refusal::Length { kept, given } => HouseErr::Length { kept, given },
            Refusal::BidTooLarge => HouseErr::BidTooLarge,
            Refusal::Mismatch(mismatch) => HouseErr::Mismatch(mismatch),
        }
    }
}

impl From<JobErr> for HouseErr {
    ghost from_gives = { λ refused e. e ≡ job_err_of refused };

    fn from(refused: JobErr) -> HouseErr {
        match refused {
            JobErr::NoMemory => HouseErr::NoMemory,
            JobErr::DrySeed { lane, wire } => HouseErr::DrySeed { lane, wire },
        }
    }
}

impl From<NoMemory> for HouseErr {
    ghost from_gives = { λ _ e. e ≡ house.NoMemory };

    fn from(_refused: NoMemory) -> HouseErr {
        HouseErr::NoMemory
    }
}
