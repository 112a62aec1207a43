//! Reading the arguments of a lawful row at once.

ghost use Rattle.std.specs.Prelude.{[], ◌∷◌, ◌<◌, length, IfSome, IfNone};
ghost use Rattle.ei_wire.specs.Rows.{IsWhole};

use crate::arg::OwnedArg;
use crate::stream::ByteStream;

/// Whether a row without arguments is lawful: nothing is left. Of this call and the next three `None` says nothing, nor where
/// the stream stands then.
#[inline]
pub fn lawful_none(bytes: &mut ByteStream<'_>) -> Option<()>
    ensures whole { IfSome result (λ _. IsWhole [] [] bytes.old bytes.new) }
    ensures left { IfNone result (0 < length bytes.old.bytes) }
{
    if bytes.rest() == 0 { Some(()) } else { None }
}

/// Takes the one argument of a row, if it is lawful and nothing is left.
#[inline]
pub fn lawful_one<A: OwnedArg + Drop>(bytes: &mut ByteStream<'_>) -> Option<A>
    ensures { IfSome result (λ a. IsWhole (A.kind ∷ []) (A.value a ∷ []) bytes.old bytes.new) }
{
    let a = A::parse_lawful(bytes)?;
    lawful_none(bytes)?;
    Some(a)
}

/// Takes the two arguments of a row, if they are lawful and nothing is left.
#[inline]
pub fn lawful_two<A: OwnedArg + Drop, B: OwnedArg + Drop>(
    bytes: &mut ByteStream<'_>,
) -> Option<(A, B)>
    ensures { IfSome result (λ x. IsWhole (A.kind ∷ B.kind ∷ []) (A.value x.0 ∷ B.value x.1 ∷ []) bytes.old bytes.new) }
{
    let a = A::parse_lawful(bytes)?;
    let b = B::parse_lawful(bytes)?;
    lawful_none(bytes)?;
    Some((a, b))
}

/// Takes the three arguments of a row, if they are lawful and nothing is left.
#[inline(always)]
pub fn lawful_three<A: OwnedArg + Drop, B: OwnedArg + Drop, C: OwnedArg + Drop>(
    bytes: &mut ByteStream<'_>,
) -> Option<(A, B, C)>
    ensures { IfSome result (λ x. IsWhole (A.kind ∷ B.kind ∷ C.kind ∷ [])
        (A.value x.0 ∷ B.value x.1 ∷ C.value x.2 ∷ []) bytes.old bytes.new) }
{
    let a = A::parse_lawful(bytes)?;
    let b = B::parse_lawful(bytes)?;
    let c = C::parse_lawful(bytes)?;
    lawful_none(bytes)?;
    Some((a, b, c))
}
