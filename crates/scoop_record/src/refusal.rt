//! A keeper's words for the errors of a database.

ghost use Rattle.scoop_keeper.specs.Keeper.{IsPutError};

use scoop_keeper::KeeperError;
use sqlite::{Error, ErrorCode};

/// The keeper's word for an error of the database.
pub(crate) fn refusal(error: Error) -> KeeperError
    ensures { IsPutError result }
{
    match error {
        Error::SqliteFailure(ErrorCode::OutOfMemory) => KeeperError::OutOfMemory,
        _ => KeeperError::Refused,
    }
}
