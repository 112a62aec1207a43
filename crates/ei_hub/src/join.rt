//! Why a client could not join.

ghost use Rattle.std.specs.Prelude.{◌≡◌, ◌↔◌};
ghost use Rattle.ei_types.specs.declared.error.Error.TheVariants as error;
ghost use Rattle.ei_serve.specs.Causes.{RefusesToStart};

use ei_types::Error;
use std::fmt;

/// Why a client could not join.
#[derive(Clone, Copy, Debug, PartialEq, Eq)]
pub enum JoinCause {
    /// As many clients joined as may.
    Full = 1,
    /// The client's sink failed.
    WriteFault = 2,
    /// Memory ran out, or the sink wants it.
    NoMemory = 3,
}

/// A client that could not join: why, and what it came with.
#[derive(Drop)]
pub struct JoinError<S, K> {
    /// Why it could not join.
    pub cause: JoinCause,
    /// Its source, as it was.
    pub source: S,
    /// Its sink, with a front of the greeting.
    pub sink: K,
}

/// Why a client can't join whose session could not start.
pub(crate) fn cause_of(why: &Error) -> JoinCause
    requires { RefusesToStart why.now }
    ensures full { result ≡ JoinCause.Full → ⊥ }
    ensures write_fault { result ≡ JoinCause.WriteFault ↔ why.now ≡ error.WriteFault }
{
    match why {
        Error::WriteFault => JoinCause::WriteFault,
        _ => JoinCause::NoMemory,
    }
}

impl fmt::Display for JoinCause {
    ghost use Rattle.std.specs.Prelude.{Some};
    ghost use Rattle.ei_hub.specs.Texts.{join_cause_text};

    ghost output = { λ c. Some (join_cause_text c) };

    fn fmt<W: fmt::Write>(&self, f: &mut fmt::Formatter<W>) -> fmt::Result {
        f.write_str(match self {
            JoinCause::Full => "too many clients",
            JoinCause::WriteFault => "IO error: write fault",
            JoinCause::NoMemory => "out of memory",
        })
    }
}

impl std::error::Error for JoinCause {}
