//! What holds of every command of the house.

ghost use Rattle.std.specs.Prelude.{ℕ, List};
ghost use Rattle.vk_io.specs.Files.{Files};
ghost use Rattle.vk_auctioneer.specs.Laws.{BoardsAreWritten, ReadsChallenge, ReadsRow, RepliesAreWritten};

/// A law: a command reads the values whose texts its files are, and says of others the first fault,
/// by the tables of the forms.
pub fn what_is_read_is_what_the_files_are()
    ensures row { (files : Files) (seal_name secret_name : List ℕ)
        → ReadsRow files seal_name secret_name }
    ensures challenge { (files : Files) (name : List ℕ) → ReadsChallenge files name }
{}

/// A law: what `prove` writes is the board of the ledger's auction, and what `answer` writes is its
/// reply to the challenge of the file.
pub fn what_is_written_is_of_the_ledger()
    ensures boards { BoardsAreWritten }
    ensures replies { RepliesAreWritten }
{}
