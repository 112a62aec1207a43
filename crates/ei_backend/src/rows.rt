//! Reading the arguments of a row at once.

ghost use Rattle.std.specs.Prelude.{◌≡◌, true, [], ◌∷◌, IfErr};
ghost use Rattle.std.specs.List.{list_any};
ghost use Rattle.ei_spec.specs.Reading.{all_at};
ghost use Rattle.ei_wire.specs.Gives.{WhereFull};
ghost use Rattle.ei_wire.specs.Rows.{ReadsArguments};
ghost use Rattle.ei_backend.specs.Message.{is_text};

use ei_wire::{ByteStream, OwnedArg, ParseError};

/// Takes the one argument of a row. Of this call and the next three `NoMemory` comes only where an argument is a text.
#[inline]
pub fn read_one<A: OwnedArg + Drop>(bytes: &mut ByteStream<'_>) -> Result<A, ParseError>
    ensures read { ReadsArguments (λ x. (A.value x ∷ [], bytes.new)) bytes.new.taken result
        (all_at (A.kind ∷ []) bytes.old) }
    ensures memory { IfErr result (WhereFull (list_any is_text (A.kind ∷ []) ≡ true)) }
{
    bytes.read_arg()
}

/// Takes the two arguments of a row.
#[inline]
pub fn read_two<A: OwnedArg + Drop, B: OwnedArg + Drop>(
    bytes: &mut ByteStream<'_>,
) -> Result<(A, B), ParseError>
    ensures read { ReadsArguments (λ x. (A.value x.0 ∷ B.value x.1 ∷ [], bytes.new)) bytes.new.taken result
        (all_at (A.kind ∷ B.kind ∷ []) bytes.old) }
    ensures memory { IfErr result (WhereFull (list_any is_text (A.kind ∷ B.kind ∷ []) ≡ true)) }
{
    let a = bytes.read_arg()?;
    let b = bytes.read_arg()?;
    Ok((a, b))
}

/// Takes the three arguments of a row.
#[inline]
pub fn read_three<A: OwnedArg + Drop, B: OwnedArg + Drop, C: OwnedArg + Drop>(
    bytes: &mut ByteStream<'_>,
) -> Result<(A, B, C), ParseError>
    ensures read { ReadsArguments (λ x. (
      A.value x.0 ∷ B.value x.1 ∷ C.value x.2 ∷ [],
      bytes.new,
    )) bytes.new.taken result
        (all_at (A.kind ∷ B.kind ∷ C.kind ∷ []) bytes.old) }
    ensures memory { IfErr result (WhereFull (list_any is_text (A.kind ∷ B.kind ∷ C.kind ∷ []) ≡ true)) }
{
    let a = bytes.read_arg()?;
    let b = bytes.read_arg()?;
    let c = bytes.read_arg()?;
    Ok((a, b, c))
}

/// Takes the five arguments of a row.
#[inline]
pub fn read_five<A, B, C, D, E>(bytes: &mut ByteStream<'_>) -> Result<(A, B, C, D, E), ParseError>
where
    A: OwnedArg + Drop,
    B: OwnedArg + Drop,
    C: OwnedArg + Drop,
    D: OwnedArg + Drop,
    E: OwnedArg + Drop,
    ensures read { ReadsArguments (λ x. (
      A.value x.0 ∷ B.value x.1 ∷ C.value x.2 ∷ D.value x.3 ∷ E.value x.4 ∷ [],
      bytes.new,
    ))
        bytes.new.taken result (all_at (A.kind ∷ B.kind ∷ C.kind ∷ D.kind ∷ E.kind ∷ []) bytes.old) }
    ensures memory { IfErr result (
        WhereFull (list_any is_text (A.kind ∷ B.kind ∷ C.kind ∷ D.kind ∷ E.kind ∷ []) ≡ true)) }
{
    let a = bytes.read_arg()?;
    let b = bytes.read_arg()?;
    let c = bytes.read_arg()?;
    let d = bytes.read_arg()?;
    let e = bytes.read_arg()?;
    Ok((a, b, c, d, e))
}
