//! What a message of the protocol is, by its interface and opcode: the kinds of its arguments, what it announces, and whether it is
//! a destructor. It is the table of messages as code.

ghost use Rattle.std.specs.Prelude.{◌≡◌, true, false, map};
ghost use Rattle.std.specs.Option.{option_map};
ghost use Rattle.ei_spec.specs.Rows.{row_at};
ghost use Rattle.ei_spec.specs.Table.{table};
ghost use Rattle.ei_spec.specs.declared.interface.KnownInterface.TheVariants as known;
ghost use Rattle.ei_spec.specs.Rows.{Nothing, Fixed};
ghost use Rattle.ei_rows.specs.Parts.{kind_view, seen, parts};

use ei_spec::KnownInterface;

/// What an argument may be.
#[derive(Clone, Copy)]
pub enum ArgKind {
    U32,
    I32,
    U64,
    Float,
    Text,
    Nullable,
    Handle,
    New,
    ContextType,
    DisconnectReason,
    DeviceType,
    ButtonState,
    KeyState,
    KeymapType,
}

/// What a message announces.
#[derive(Clone, Copy)]
pub enum Announcing {
    Nothing,
    /// An object of the interface.
    Fixed(KnownInterface),
    /// An object of the interface that a text names.
    Named,
}

/// A row of the table of messages.
#[derive(Clone, Copy)]
pub struct Row {
    pub kinds: &'static [ArgKind],
    pub announces: Announcing,
    pub destroys: bool,
}

/// A row that announces and destroys nothing.
fn plain(kinds: &'static [ArgKind]) -> Row
    ensures { seen result ≡ record { kinds = map kind_view kinds.now; announces = Nothing; destroys = false } }
{
    Row {
        kinds,
        announces: Announcing::Nothing,
        destroys: false,
    }
}

/// A destructor.
fn last(kinds: &'static [ArgKind]) -> Row
    ensures { seen result ≡ record { kinds = map kind_view kinds.now; announces = Nothing; destroys = true } }
{
    Row {
        kinds,
        announces: Announcing::Nothing,
        destroys: true,
    }
}

/// A row that announces an object of the interface.
fn announces(kinds: &'static [ArgKind], interface: KnownInterface) -> Row
    ensures { seen result ≡ record { kinds = map kind_view kinds.now; announces = Fixed interface; destroys = false } }
{
    Row {
        kinds,
        announces: Announcing::Fixed(interface),
        destroys: false,
    }
}

/// The requests of `ei_handshake`.
fn handshake_requests(opcode: u32) -> Option<Row>
    ensures { option_map seen result ≡ option_map parts (row_at opcode (table false known.Handshake)) }
{
    use ArgKind::{ContextType, Text, U32};
    Some(match opcode {
        0 => plain(&[U32]),
        1 => plain(&[]),
        2 => plain(&[ContextType]),
        3 => plain(&[Text]),
        4 => plain(&[Text, U32]),
        _ => return None,
    })
}

/// The requests of `ei_connection`.
fn connection_requests(opcode: u32) -> Option<Row>
    ensures { option_map seen result ≡ option_map parts (row_at opcode (table false known.Connection)) }
{
    use ArgKind::{New, U32};
    Some(match opcode {
        0 => announces(&[New, U32], KnownInterface::Callback),
        1 => last(&[]),
        _ => return None,
    })
}

/// The requests of `ei_pingpong`.
fn pingpong_requests(opcode: u32) -> Option<Row>
    ensures { option_map seen result ≡ option_map parts (row_at opcode (table false known.Pingpong)) }
{
    use ArgKind::{U64};
    Some(match opcode {
        0 => last(&[U64]),
        _ => return None,
    })
}

/// The requests of `ei_seat`.
fn seat_requests(opcode: u32) -> Option<Row>
    ensures { option_map seen result ≡ option_map parts (row_at opcode (table false known.Seat)) }
{
    use ArgKind::{U64};
    Some(match opcode {
        0 => plain(&[]),
        1 | 2 => plain(&[U64]),
        _ => return None,
    })
}

/// The requests of `ei_device`.
fn device_requests(opcode: u32) -> Option<Row>
    ensures { option_map seen result ≡ option_map parts (row_at opcode (table false known.Device)) }
{
    use ArgKind::{U32, U64};
    Some(match opcode {
        0 | 4 => plain(&[]),
        1 => plain(&[U32, U32]),
        2 => plain(&[U32]),
        3 => plain(&[U32, U64]),
        _ => return None,
    })
}

/// The requests of `ei_pointer`.
fn pointer_requests(opcode: u32) -> Option<Row>
    ensures { option_map seen result ≡ option_map parts (row_at opcode (table false known.Pointer)) }
{
    use ArgKind::{Float};
    Some(match opcode {
        0 => plain(&[]),
        1 => plain(&[Float, Float]),
        _ => return None,
    })
}

/// The requests of `ei_pointer_absolute`.
fn pointer_absolute_requests(opcode: u32) -> Option<Row>
    ensures { option_map seen result ≡ option_map parts (row_at opcode (table false known.PointerAbsolute)) }
{
    use ArgKind::{Float};
    Some(match opcode {
        0 => plain(&[]),
        1 => plain(&[Float, Float]),
        _ => return None,
    })
}

/// The requests of `ei_scroll`.
fn scroll_requests(opcode: u32) -> Option<Row>
    ensures { option_map seen result ≡ option_map parts (row_at opcode (table false known.Scroll)) }
{
    use ArgKind::{Float, I32, U32};
    Some(match opcode {
        0 => plain(&[]),
        1 => plain(&[Float, Float]),
        2 => plain(&[I32, I32]),
        3 => plain(&[U32, U32, U32]),
        _ => return None,
    })
}

/// The requests of `ei_button`.
fn button_requests(opcode: u32) -> Option<Row>
    ensures { option_map seen result ≡ option_map parts (row_at opcode (table false known.Button)) }
{
    use ArgKind::{ButtonState, U32};
    Some(match opcode {
        0 => plain(&[]),
        1 => plain(&[U32, ButtonState]),
        _ => return None,
    })
}

/// The requests of `ei_keyboard`.
fn keyboard_requests(opcode: u32) -> Option<Row>
    ensures { option_map seen result ≡ option_map parts (row_at opcode (table false known.Keyboard)) }
{
    use ArgKind::{KeyState, U32};
    Some(match opcode {
        0 => plain(&[]),
        1 => plain(&[U32, KeyState]),
        _ => return None,
    })
}

/// The requests of `ei_touchscreen`.
fn touchscreen_requests(opcode: u32) -> Option<Row>
    ensures { option_map seen result ≡ option_map parts (row_at opcode (table false known.Touchscreen)) }
{
    use ArgKind::{Float, U32};
    Some(match opcode {
        0 => plain(&[]),
        1 | 2 => plain(&[U32, Float, Float]),
        3 | 4 => plain(&[U32]),
        _ => return None,
    })
}

/// The requests of `ei_text`.
fn text_requests(opcode: u32) -> Option<Row>
    ensures { option_map seen result ≡ option_map parts (row_at opcode (table false known.Text)) }
{
    use ArgKind::{KeyState, Text, U32};
    Some(match opcode {
        0 => plain(&[]),
        1 => plain(&[U32, KeyState]),
        2 => plain(&[Text]),
        _ => return None,
    })
}

/// The requests of `ei_x_gesture`.
fn gesture_requests(opcode: u32) -> Option<Row>
    ensures { option_map seen result ≡ option_map parts (row_at opcode (table false known.Gesture)) }
{
    use ArgKind::{Float, U32};
    Some(match opcode {
        0 => plain(&[]),
        1 => plain(&[U32, Float, Float]),
        2 => plain(&[Float]),
        _ => return None,
    })
}

/// The events of `ei_handshake`.
fn handshake_events(opcode: u32) -> Option<Row>
    ensures { option_map seen result ≡ option_map parts (row_at opcode (table true known.Handshake)) }
{
    use ArgKind::{New, Text, U32};
    Some(match opcode {
        0 => plain(&[U32]),
        1 => plain(&[Text, U32]),
        2 => Row {
            kinds: &[U32, New, U32],
            announces: Announcing::Fixed(KnownInterface::Connection),
            destroys: true,
        },
        _ => return None,
    })
}

/// The events of `ei_connection`.
fn connection_events(opcode: u32) -> Option<Row>
    ensures { option_map seen result ≡ option_map parts (row_at opcode (table true known.Connection)) }
{
    use ArgKind::{DisconnectReason, New, Nullable, U32, U64};
    Some(match opcode {
        0 => last(&[U32, DisconnectReason, Nullable]),
        1 => announces(&[New, U32], KnownInterface::Seat),
        2 => plain(&[U32, U64]),
        3 => announces(&[New, U32], KnownInterface::Pingpong),
        _ => return None,
    })
}

/// The events of `ei_callback`.
fn callback_events(opcode: u32) -> Option<Row>
    ensures { option_map seen result ≡ option_map parts (row_at opcode (table true known.Callback)) }
{
    use ArgKind::{U64};
    Some(match opcode {
        0 => last(&[U64]),
        _ => return None,
    })
}

/// The events of `ei_seat`.
fn seat_events(opcode: u32) -> Option<Row>
    ensures { option_map seen result ≡ option_map parts (row_at opcode (table true known.Seat)) }
{
    use ArgKind::{New, Text, U32, U64};
    Some(match opcode {
        0 => last(&[U32]),
        1 => plain(&[Text]),
        2 => plain(&[U64, Text]),
        3 => plain(&[]),
        4 => announces(&[New, U32], KnownInterface::Device),
        _ => return None,
    })
}

/// The events of `ei_device`.
fn device_events(opcode: u32) -> Option<Row>
    ensures { option_map seen result ≡ option_map parts (row_at opcode (table true known.Device)) }
{
    use ArgKind::{DeviceType, Float, New, Text, U32, U64};
    Some(match opcode {
        0 => last(&[U32]),
        1 | 12 => plain(&[Text]),
        2 => plain(&[DeviceType]),
        3 | 9 => plain(&[U32, U32]),
        4 => plain(&[U32, U32, U32, U32, Float]),
        5 => Row {
            kinds: &[New, Text, U32],
            announces: Announcing::Named,
            destroys: false,
        },
        6 => plain(&[]),
        7 | 8 | 10 => plain(&[U32]),
        11 => plain(&[U32, U64]),
        _ => return None,
    })
}

/// The events of `ei_pointer`.
fn pointer_events(opcode: u32) -> Option<Row>
    ensures { option_map seen result ≡ option_map parts (row_at opcode (table true known.Pointer)) }
{
    use ArgKind::{Float, U32};
    Some(match opcode {
        0 => last(&[U32]),
        1 => plain(&[Float, Float]),
        _ => return None,
    })
}

/// The events of `ei_pointer_absolute`.
fn pointer_absolute_events(opcode: u32) -> Option<Row>
    ensures { option_map seen result ≡ option_map parts (row_at opcode (table true known.PointerAbsolute)) }
{
    use ArgKind::{Float, U32};
    Some(match opcode {
        0 => last(&[U32]),
        1 => plain(&[Float, Float]),
        _ => return None,
    })
}

/// The events of `ei_scroll`.
fn scroll_events(opcode: u32) -> Option<Row>
    ensures { option_map seen result ≡ option_map parts (row_at opcode (table true known.Scroll)) }
{
    use ArgKind::{Float, I32, U32};
    Some(match opcode {
        0 => last(&[U32]),
        1 => plain(&[Float, Float]),
        2 => plain(&[I32, I32]),
        3 => plain(&[U32, U32, U32]),
        _ => return None,
    })
}

/// The events of `ei_button`.
fn button_events(opcode: u32) -> Option<Row>
    ensures { option_map seen result ≡ option_map parts (row_at opcode (table true known.Button)) }
{
    use ArgKind::{ButtonState, U32};
    Some(match opcode {
        0 => last(&[U32]),
        1 => plain(&[U32, ButtonState]),
        _ => return None,
    })
}

/// The events of `ei_keyboard`.
fn keyboard_events(opcode: u32) -> Option<Row>
    ensures { option_map seen result ≡ option_map parts (row_at opcode (table true known.Keyboard)) }
{
    use ArgKind::{Handle, KeyState, KeymapType, U32};
    Some(match opcode {
        0 => last(&[U32]),
        1 => plain(&[KeymapType, U32, Handle]),
        2 => plain(&[U32, KeyState]),
        3 => plain(&[U32, U32, U32, U32, U32]),
        _ => return None,
    })
}

/// The events of `ei_touchscreen`.
fn touchscreen_events(opcode: u32) -> Option<Row>
    ensures { option_map seen result ≡ option_map parts (row_at opcode (table true known.Touchscreen)) }
{
    use ArgKind::{Float, U32};
    Some(match opcode {
        0 => last(&[U32]),
        1 | 2 => plain(&[U32, Float, Float]),
        3 | 4 => plain(&[U32]),
        _ => return None,
    })
}

/// The events of `ei_text`.
fn text_events(opcode: u32) -> Option<Row>
    ensures { option_map seen result ≡ option_map parts (row_at opcode (table true known.Text)) }
{
    use ArgKind::{KeyState, Text, U32};
    Some(match opcode {
        0 => last(&[U32]),
        1 => plain(&[U32, KeyState]),
        2 => plain(&[Text]),
        _ => return None,
    })
}

/// The events of `ei_x_gesture`.
fn gesture_events(opcode: u32) -> Option<Row>
    ensures { option_map seen result ≡ option_map parts (row_at opcode (table true known.Gesture)) }
{
    use ArgKind::{Float, U32};
    Some(match opcode {
        0 => last(&[U32]),
        1 => plain(&[U32, Float, Float]),
        2 => plain(&[Float]),
        _ => return None,
    })
}

/// The row of an opcode to an object of the interface: of the events, or of the requests.
pub fn row_of(events: bool, interface: KnownInterface, opcode: u32) -> Option<Row>
    ensures { option_map seen result ≡ option_map parts (row_at opcode (table events interface)) }
{
    if events {
        match interface {
            KnownInterface::Handshake => handshake_events(opcode),
            KnownInterface::Connection => connection_events(opcode),
            KnownInterface::Callback => callback_events(opcode),
            KnownInterface::Pingpong => None,
            KnownInterface::Seat => seat_events(opcode),
            KnownInterface::Device => device_events(opcode),
            KnownInterface::Pointer => pointer_events(opcode),
            KnownInterface::PointerAbsolute => pointer_absolute_events(opcode),
            KnownInterface::Scroll => scroll_events(opcode),
            KnownInterface::Button => button_events(opcode),
            KnownInterface::Keyboard => keyboard_events(opcode),
            KnownInterface::Touchscreen => touchscreen_events(opcode),
            KnownInterface::Text => text_events(opcode),
            KnownInterface::Gesture => gesture_events(opcode),
        }
    } else {
        match interface {
            KnownInterface::Handshake => handshake_requests(opcode),
            KnownInterface::Connection => connection_requests(opcode),
            KnownInterface::Callback => None,
            KnownInterface::Pingpong => pingpong_requests(opcode),
            KnownInterface::Seat => seat_requests(opcode),
            KnownInterface::Device => device_requests(opcode),
            KnownInterface::Pointer => pointer_requests(opcode),
            KnownInterface::PointerAbsolute => pointer_absolute_requests(opcode),
            KnownInterface::Scroll => scroll_requests(opcode),
            KnownInterface::Button => button_requests(opcode),
            KnownInterface::Keyboard => keyboard_requests(opcode),
            KnownInterface::Touchscreen => touchscreen_requests(opcode),
            KnownInterface::Text => text_requests(opcode),
            KnownInterface::Gesture => gesture_requests(opcode),
        }
    }
}
