//! Where the auctions of a house are kept, and why they can't be reached.

ghost use Rattle.std.specs.Prelude.{◌≡◌, ◌≢◌, ℕ, Option, true, IfOk, IfSome, OnErr};
ghost use Rattle.vk_io.specs.Faults.{Causes, one_more};
ghost use Rattle.vk_keeper.specs.Ledgers.{IsLedger, Ledger};
ghost use Rattle.vk_program.specs.Refusals.{stopped_status, unopened_outside};

use sqlite::{Error, ErrorCode};
use std::fmt::{Display, Formatter, Result as FmtResult, Write};
use std::io::ErrorKind;
use vk_io::OutsideErr;
use vk_keeper::Keeper;
use vk_keeper_sql::OpenErr;

/// What keeps the auctions of a house: opened for a command that asks for them, and closed behind
/// it. Each call that answers a fault raises its count.
pub trait HousePlace: Drop {
    ghost use Rattle.vk_program.specs.Houses.{CausesUnopened, NoneUnmade};

    type Kept: Keeper;

    /// The auctions that are kept, where they are modelled. While a keeper is open they are the
    /// keeper's.
    ghost ledger: { Self → Option Ledger };

    /// How many faults of the outside were met. It never falls.
    ghost faults: { Self → ℕ };

    /// That nothing is made yet, where that can be told.
    ghost unmade: { Self → Type 0 };

    /// Whether something is kept already. Where nothing is, opening makes a place for it. Errs
    /// where that can't be told.
    fn is_made(&mut self) -> Result<bool, Unopened>
        ensures right { OnErr result (IfSome (ledger self.old) IsLedger) }
        ensures empty { NoneUnmade result (ledger self.old) }
        ensures unmade { unmade self.old → unmade self.new × result ≢ Ok true }
        ensures kept { ledger self.new ≡ ledger self.old }
        ensures causes { CausesUnopened result (faults self.old) (faults self.new) };

    /// The keeper of the auctions. Errs where they can't be reached.
    fn open(&mut self) -> Result<Self::Kept, Unopened>
        ensures right { OnErr result (IfSome (ledger self.old) IsLedger) }
        ensures opened { IfOk result (λ keeper. Self.Kept.ledger keeper ≡ ledger self.old) }
        ensures refused { OnErr result (ledger self.new ≡ ledger self.old) }
        ensures causes { CausesUnopened result (faults self.old) (faults self.new) };

    /// Closes what was opened, and keeps its auctions. Errs where only that tells of a fault of
    /// the outside, and then they are kept too.
    fn close(&mut self, kept: Self::Kept) -> Result<(), OutsideErr>
        ensures ledger { ledger self.new ≡ Self.Kept.ledger kept }
        ensures causes { Causes OutsideErr.Failed result (faults self.old) (faults self.new) };

    /// Counts a fault that was met by what was opened.
    fn count_fault(&mut self)
        ensures kept { ledger self.new ≡ ledger self.old }
        ensures unmade { unmade self.old → unmade self.new }
        ensures counted { faults self.new ≡ one_more (faults self.old) };
}

/// Why a house was not opened.
#[derive(Clone, Copy, Debug, Drop)]
pub enum Unopened {
    /// Its file is empty, and others than its owner may use what would be written into it.
    Exposed,
    /// Its file is empty, and another user owns it.
    Anothers,
    /// Its file has a second name.
    Linked,
    /// A file beside it lets in whom it doesn't.
    Beside,
    /// The file system refused its file.
    File(ErrorKind),
    /// The database refused its file.
    Database(Error),
    /// The database is no store of auctions.
    Store(OpenErr),
    /// It was made by another program, after this one had found nothing kept in it.
    Meanwhile,
}

impl Unopened {
    /// The status that a program ends with which needs the house.
    pub fn status(self) -> u8
        ensures { result ≡ stopped_status (unopened_outside self) }
    {
        match self.outside() {
            OutsideErr::Failed => 6,
            OutsideErr::NoMemory => 9,
        }
    }

    /// What it is to whom asks the keeper of the house.
    pub fn outside(self) -> OutsideErr
        ensures { result ≡ unopened_outside self }
    {
        match self {
            Unopened::File(ErrorKind::OutOfMemory)
            | Unopened::Database(Error::SqliteFailure(ErrorCode::OutOfMemory))
            | Unopened::Store(OpenErr::NoMemory) => OutsideErr::NoMemory,
            _ => OutsideErr::Failed,
        }
    }
}

impl Display for Unopened {
    fn fmt<W: Write>(&self, f: &mut Formatter<W>) -> FmtResult {
        match self {
            Unopened::Exposed => f.write_str("empty, and not its owner's alone"),
            Unopened::Anothers => f.write_str("empty, and another user's"),
            Unopened::Linked => f.write_str("it has a second name (a hard link)"),
            Unopened::Beside => f.write_str("a file beside it is not its owner's alone"),
            Unopened::File(kind) => write!(f, "{kind}"),
            Unopened::Database(error) => write!(f, "{error}"),
            Unopened::Store(OpenErr::Version { rows: 1, number }) => write!(f, "version {number}"),
            Unopened::Store(OpenErr::Version { rows, .. }) => write!(f, "{rows} versions"),
            Unopened::Store(OpenErr::Refused) => f.write_str("no store of auctions"),
            Unopened::Store(OpenErr::NoMemory) => f.write_str("no memory"),
            Unopened::Meanwhile => f.write_str("made by another program meanwhile"),
        }
    }
}
