//! The rows of an interface are said once, in its file, as a table: of each event the opcode, the variant and its
//! fields in order, each with its kind on the wire. The macros here write the bodies of `Message` from a table.
//!
//! The table is a macro of the file, `rows!`. It hands its rows to the macro that a call names, with the variables
//! of the body: `rows!(opcode_of(self))` is `opcode_of! { (self) Event "seat"; 0 => Destroyed { .. }, .. }`.

/// Reads the row of that opcode, by a `match` with an arm a row: `rows!(read_row(opcode, bytes, objects))`.
///
/// A field as `seat: new Seat` is an object of that interface, which the event announces. For `object: new Object`, one
/// of any interface, the body hands in the code that reads the row, in place of the objects.
macro_rules! read_row {
    (
        ($opcode:ident, $bytes:ident, $objects:tt)
        $message:ident $name:literal; $($number:literal => $row:ident $({ $($fields:tt)+ })?,)+
    ) => {
        match $opcode {
            $($number => $crate::rows::read_fields!($bytes, $objects, $message::$row $({ $($fields)+ })?),)+
            _ => Err(ParseError::InvalidOpcode($name, $opcode)),
        }
    };
}

/// Reads the row of that opcode, if it is lawful: `rows!(read_lawful(opcode, bytes))`. A row that bears a handle, announces an
/// object, or has a text alone or more than three arguments is left to `read_row`. A text would need the bytes in memory.
macro_rules! read_lawful {
    (
        ($opcode:ident, $bytes:ident)
        $message:ident $name:literal; $($number:literal => $row:ident $({ $($fields:tt)+ })?,)+
    ) => {
        match $opcode {
            $($number => $crate::rows::lawful_fields!($bytes, $message::$row $({ $($fields)+ })?),)+
            _ => None,
        }
    };
}

/// Reads the fields of one row, if they are lawful.
macro_rules! lawful_fields {
    ($bytes:ident, $message:ident::$row:ident) => {{
        lawful_none($bytes)?;
        Some($message::$row)
    }};
    ($bytes:ident, $message:ident::$row:ident { $a:ident: $ak:ident, $b:ident: $bk:ident, $c:ident: Fd }) => {
        None
    };
    ($bytes:ident, $message:ident::$row:ident { $a:ident: new $p:ident }) => {
        None
    };
    ($bytes:ident, $message:ident::$row:ident { $a:ident: Text }) => {
        None
    };
    ($bytes:ident, $message:ident::$row:ident { $a:ident: $ak:ident }) => {{
        let $a = lawful_one($bytes)?;
        Some($message::$row { $a })
    }};
    ($bytes:ident, $message:ident::$row:ident { $a:ident: $ak:ident, $b:ident: $bk:ident }) => {{
        let ($a, $b) = lawful_two($bytes)?;
        Some($message::$row { $a, $b })
    }};
    ($bytes:ident, $message:ident::$row:ident { $a:ident: $ak:ident, $b:ident: $bk:ident, $c:ident: $ck:ident }) => {{
        let ($a, $b, $c) = lawful_three($bytes)?;
        Some($message::$row { $a, $b, $c })
    }};
    ($bytes:ident, $message:ident::$row:ident { $($fields:tt)+ }) => {
        None
    };
}

/// Reads the fields of one row, and announces its object.
macro_rules! read_fields {
    ($bytes:ident, $objects:tt, $message:ident::$row:ident) => {
        Ok($message::$row)
    };
    ($bytes:ident, $by_hand:block, $message:ident::$row:ident { $new:ident: new Object }) => {
        $by_hand
    };
    ($bytes:ident, $objects:ident, $message:ident::$row:ident { $new:ident: new $proxy:ident }) => {{
        let (id, version) = read_two($bytes)?;
        let $new = $proxy::announced($objects, id, version)?;
        Ok($message::$row { $new })
    }};
    (
        $bytes:ident, $objects:ident,
        $message:ident::$row:ident { $a:ident: $kind:ident, $new:ident: new $proxy:ident }
    ) => {{
        let ($a, id, version) = read_three($bytes)?;
        let $new = $proxy::announced($objects, id, version)?;
        Ok($message::$row { $a, $new })
    }};
    ($bytes:ident, $objects:tt, $message:ident::$row:ident { $($field:ident: $kind:ident),+ }) => {
        $crate::rows::read_values!($bytes, $message::$row, $($field),+)
    };
}

/// Reads the fields of one row that announces nothing.
macro_rules! read_values {
    ($bytes:ident, $message:ident::$row:ident, $a:ident) => {
        Ok($message::$row {
            $a: read_one($bytes)?,
        })
    };
    ($bytes:ident, $message:ident::$row:ident, $a:ident, $b:ident) => {{
        let ($a, $b) = read_two($bytes)?;
        Ok($message::$row { $a, $b })
    }};
    ($bytes:ident, $message:ident::$row:ident, $a:ident, $b:ident, $c:ident) => {{
        let ($a, $b, $c) = read_three($bytes)?;
        Ok($message::$row { $a, $b, $c })
    }};
    ($bytes:ident, $message:ident::$row:ident, $a:ident, $b:ident, $c:ident, $d:ident, $e:ident) => {{
        let ($a, $b, $c, $d, $e) = read_five($bytes)?;
        Ok($message::$row { $a, $b, $c, $d, $e })
    }};
}

/// The opcode of an event, by a `match` with an arm a row: `rows!(opcode_of(self))`.
macro_rules! opcode_of {
    (
        ($self:ident)
        $message:ident $name:literal; $($number:literal => $row:ident $({ $($fields:tt)+ })?,)+
    ) => {
        match $self {
            $($message::$row { .. } => $number,)+
        }
    };
}

/// The fields of an event as arguments, by a `match` with an arm a row: `rows!(show_row(self, alloc))`.
macro_rules! show_row {
    (
        ($self:ident, $alloc:ident)
        $message:ident $name:literal; $($number:literal => $row:ident $({ $($field:ident: $($kind:ident)+),+ })?,)+
    ) => {
        match $self {
            $($message::$row $({ $($field),+ })? => {
                $crate::rows::show_fields!($alloc $($(, $field: $($kind)+)+)?)
            })+
        }
    };
}

/// The fields of one row as arguments.
macro_rules! show_fields {
    ($alloc:ident) => {
        Ok(Vec::new($alloc))
    };
    ($alloc:ident, $($field:ident: $($kind:ident)+),+) => {
        Vec::from_array($alloc, [$($crate::rows::show_field!($field: $($kind)+)),+])
            .map_err(NoMemory::from)
    };
}

/// One field as an argument. Its kind is `new` with an interface, one of those named here, or a variant of `Arg`.
macro_rules! show_field {
    ($field:ident: new $proxy:ident) => {
        $field.as_arg()
    };
    ($field:ident: Enum) => {
        Arg::Uint32(u32::from(*$field))
    };
    ($field:ident: Float) => {
        Arg::Float($field.0)
    };
    ($field:ident: Text) => {
        Arg::String(Some($field.as_str()))
    };
    ($field:ident: Nullable) => {
        $field.as_arg()
    };
    ($field:ident: $arg:ident) => {
        Arg::$arg(*$field)
    };
}

/// All arguments of an event, by a `match` with an arm a row: `rows!(list_row(self, alloc))`.
macro_rules! list_row {
    (
        ($self:ident, $alloc:ident)
        $message:ident $name:literal; $($number:literal => $row:ident $({ $($field:ident: $($kind:ident)+),+ })?,)+
    ) => {
        match $self {
            $($message::$row $({ $($field),+ })? => {
                $crate::rows::list_fields!($alloc, [] $($(, $field: $($kind)+)+)?)
            })+
        }
    };
}

/// The fields of one row as arguments, behind those that stand in the list. A new object is its id, its name where the event names it, and its version.
macro_rules! list_fields {
    ($alloc:ident, []) => {
        Ok(Vec::new($alloc))
    };
    ($alloc:ident, [$($arg:expr,)+]) => {
        Vec::from_array($alloc, [$($arg),+]).map_err(NoMemory::from)
    };
    ($alloc:ident, [$($arg:expr,)*], $new:ident: new Object $($rest:tt)*) => {
        $crate::rows::list_fields!(
            $alloc,
            [$($arg,)* $new.as_arg(), Arg::String(Some($new.interface())), Arg::Uint32($new.version()),] $($rest)*
        )
    };
    ($alloc:ident, [$($arg:expr,)*], $new:ident: new $proxy:ident $($rest:tt)*) => {
        $crate::rows::list_fields!(
            $alloc,
            [$($arg,)* $new.as_arg(), Arg::Uint32($new.version()),] $($rest)*
        )
    };
    ($alloc:ident, [$($arg:expr,)*], $field:ident: $kind:ident $($rest:tt)*) => {
        $crate::rows::list_fields!(
            $alloc,
            [$($arg,)* $crate::rows::show_field!($field: $kind),] $($rest)*
        )
    };
}

pub(crate) use lawful_fields;
pub(crate) use list_fields;
pub(crate) use list_row;
pub(crate) use opcode_of;
pub(crate) use read_fields;
pub(crate) use read_lawful;
pub(crate) use read_row;
pub(crate) use read_values;
pub(crate) use show_field;
pub(crate) use show_fields;
pub(crate) use show_row;
