//! What a refusal from below is to the caller of a keeper.

ghost use Rattle.std.specs.Prelude.{◌≡◌};
ghost use Rattle.vk_rows.specs.Refusals.{statement_refusal, start_refusal, text_refusal};

use sqlite::{Error, ErrorCode};
use vk_io::OutsideErr;
use vk_lines::{ReadErr, StartErr};

/// A statement was refused, or a column of its row is of another type.
pub fn refused_statement(error: Error) -> OutsideErr
    ensures { result ≡ statement_refusal error }
{
    match error {
        Error::SqliteFailure(ErrorCode::OutOfMemory) => OutsideErr::NoMemory,
        _ => OutsideErr::Failed,
    }
}

/// A stored text can't be read from its first line on.
pub fn refused_start(error: StartErr) -> OutsideErr
    ensures { result ≡ start_refusal error }
{
    match error {
        StartErr::NoMemory => OutsideErr::NoMemory,
        _ => OutsideErr::Failed,
    }
}

/// A stored text isn't of its form.
pub fn refused_text(error: ReadErr) -> OutsideErr
    ensures { result ≡ text_refusal error }
{
    match error {
        ReadErr::NoMemory => OutsideErr::NoMemory,
        _ => OutsideErr::Failed,
    }
}
