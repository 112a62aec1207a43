//! How a turn ends a session.

ghost use Rattle.std.specs.Prelude.{◌≡◌};
ghost use Rattle.ei_serve.specs.EndedBy.{ended_by};

use crate::session::{Ended, Turn};
use ei_types::Error;

/// How a turn ends its session, by what it answered; `None` where the session goes on.
pub fn ended_by(turned: Result<Turn, Error>) -> Option<Result<Ended, Error>>
    ensures { result ≡ ended_by turned }
{
    match turned {
        Ok(Turn::GoOn) => None,
        Ok(Turn::Disconnect) => Some(Ok(Ended::Disconnect)),
        Ok(Turn::End) => Some(Ok(Ended::End)),
        Err(error) => Some(Err(error)),
    }
}
