//! The laws of the definitions. Each function does nothing: its clauses are the laws.

ghost use Rattle.std.specs.Prelude.{◌≡◌, ◌≢◌, ℕ, ◌<◌, ◌≤◌, ◌⊎◌, ◌++◌, [], ◌∷◌, drop, ◌==◌, if◌then◌else◌, List, Bool, true, false, Some, None, Ok, Err, length};
ghost use Rattle.std.specs.Prelude.{nat_eq};
ghost use Rattle.std.specs.List.{IsDistinct, range_with_len, Contains, list_any, flat_map};
ghost use Rattle.std.specs.Prelude.{◌^◌, slice_get};
ghost use Rattle.std.specs.Str.{bytes_eq, is_utf8};
ghost use Rattle.ei_spec.specs.declared.handle.Handle.{Handle};
ghost use Rattle.ei_spec.specs.declared.interface.KnownInterface.{KnownInterface};
ghost use Rattle.ei_spec.specs.Value.{Kind, U32, Choice, OpenChoice, Value, Word, IsOf, written, handles_of};
ghost use Rattle.ei_spec.specs.Reading.{Unread, Fault, NoFd, InvalidVariant, read, all_at};
ghost use Rattle.ei_spec.specs.Spelling.{Begins, Follows, AllBegin};
ghost use Rattle.ei_spec.specs.Interface.{name_of, known_of, server_version, place_of, the_settled, the_interfaces};
ghost use Rattle.ei_spec.specs.Arguments.{AreOf, HasFewHandles, before_values, behind_values};
ghost use Rattle.ei_spec.specs.Rows.{Row, Nothing, row_at, row_named};
ghost use Rattle.ei_spec.specs.Table.{table, opcodes, names, count};
ghost use Rattle.ei_spec.specs.Groups.{Slot, Given, Input, Frame, Other, Free, group, gives, grouped, frames_made};
ghost use Rattle.ei_spec.specs.History.{lasts, HasLasted};
ghost use Rattle.ei_spec.specs.Message.{Raw, IsLawful, IsBytes, size, bytes_of, front, Short, Whole};

use crate::limits::{
    FIRST_SERVER_ID, INTERFACES, MOST_MESSAGE_BYTES, MOST_NAME_BYTES, MOST_OPCODES,
    MOST_PIECE_BYTES, MOST_PIECE_HANDLES, MOST_TEXT_BYTES, MOST_TOUCHES, MOST_UNREAD_HANDLES,
    SETTLED_INTERFACES,
};

/// The limits, as numbers: definitions and code name them by the same constants.
pub fn limits()
    ensures message { MOST_MESSAGE_BYTES ≡ 1048576 }
    ensures piece { MOST_PIECE_BYTES ≡ 65536 }
    ensures piece_handles { MOST_PIECE_HANDLES ≡ 64 }
    ensures handles { MOST_UNREAD_HANDLES ≡ 4096 }
    ensures touches { MOST_TOUCHES ≡ 16 }
    ensures text { MOST_TEXT_BYTES ≡ 254 }
    ensures server { FIRST_SERVER_ID ≡ 18374686479671623680 }
{}

/// What is spelled is read, whatever follows it, and what is refused isn't spelled.
pub fn spelling()
    ensures read_back { (k : Kind) (v : Value) (s t : Unread) → Begins k v s t → read k s ≡ Ok (v, t) }
    ensures written { (k : Kind) (v : Value) (s t : Unread) → IsOf k v → Follows v s t → read k s ≡ Ok (v, t) }
    ensures refused { (k : Kind) (v : Value) (s t : Unread) (f : Fault) → read k s ≡ Err f → Begins k v s t → ⊥ }
    ensures all { (ks : List Kind) (vs : List Value) (s t : Unread) → AllBegin ks vs s t → all_at ks s ≡ Ok (vs, t) }
    ensures values { (kinds : List Kind) (values : List Value) (handles more : List Handle) (taken : ℕ) →
        AreOf kinds values →
        length (flat_map written values) ≤ 1048576 → drop taken handles ≡ flat_map handles_of values ++ more →
        all_at kinds (before_values handles taken values) ≡ Ok (values, behind_values handles taken values) }
{}

/// A value of an enum is read as its number, and every number that is no value of it is refused by the enum's
/// name and the number. Where every number is a value, none is refused.
pub fn enums()
    ensures value { (type_name values : List ℕ) (number : ℕ) (s t : Unread) → list_any (nat_eq number) values ≡ true →
        read U32 s ≡ Ok (Word number, t) → read (Choice type_name values) s ≡ Ok (Word number, t) }
    ensures unknown { (type_name values : List ℕ) (number : ℕ) (s t : Unread) →
        list_any (nat_eq number) values ≡ false →
        read U32 s ≡ Ok (Word number, t) → read (Choice type_name values) s ≡ Err (InvalidVariant type_name number) }
    ensures refused { (type_name values : List ℕ) (s : Unread) (f : Fault) → read U32 s ≡ Err f →
        read (Choice type_name values) s ≡ Err f }
    ensures every { (s : Unread) → read OpenChoice s ≡ read U32 s }
{}

/// The handles that came make no difference to what is refused, but for one that isn't there: with the same
/// bytes the same refusal comes, of one argument and of some, one after another, behind as many handles.
pub fn refusals()
    ensures one { (kind : Kind) (s t : Unread) (f : Fault) → s.bytes ≡ t.bytes → f ≢ NoFd → read kind s ≡ Err f →
        read kind t ≡ Err f }
    ensures all { (kinds : List Kind) (s t : Unread) (f : Fault) (taken : ℕ) → s.bytes ≡ t.bytes → s.taken ≡ t.taken →
        f ≢ NoFd
        → all_at kinds s ≡ Err (f, taken) →
        (all_at kinds t ≡ Err (f, taken)) ⊎ ((before : ℕ) × (all_at kinds t ≡ Err (NoFd, before))) }
{}

/// The bytes of a message, and the message at the front of some bytes, are one.
pub fn messages()
    ensures found { (m : Raw) (rest : List ℕ) → IsLawful m → front (bytes_of m ++ rest) ≡ Whole m rest }
    ensures spelled { (bytes : List ℕ) (m : Raw) (rest : List ℕ) → IsBytes bytes → front bytes ≡ Whole m rest →
        bytes ≡ bytes_of m ++ rest }
    ensures lawful { (bytes : List ℕ) (m : Raw) (rest : List ℕ) → IsBytes bytes → front bytes ≡ Whole m rest →
        IsLawful m }
    ensures more { (bytes more : List ℕ) (m : Raw) (rest : List ℕ) → front bytes ≡ Whole m rest →
        front (bytes ++ more) ≡ Whole m (rest ++ more) }
    ensures size { (m : Raw) → length (bytes_of m) ≡ size m }
    // cut short, and how long what is no whole message may be
    ensures cut { (m : Raw) (part more : List ℕ) → IsLawful m → bytes_of m ≡ part ++ more → length part < size m →
        front part ≡ Short }
    ensures short { (bytes : List ℕ) → front bytes ≡ Short → length bytes < 1048576 }
{}

/// The table of all messages has so many requests and events, of each interface by opcodes from 0 on and by
/// names that differ. A message has at most one handle, and one that announces an object has none.
pub fn all_messages()
    ensures interfaces { (interface : KnownInterface) → Contains the_interfaces interface }
    ensures requests { count false ≡ 39 }
    ensures events { count true ≡ 51 }
    ensures opcodes { (events : Bool) (interface : KnownInterface) →
        opcodes events interface ≡ range_with_len 0 (length (table events interface)) }
    ensures names { (events : Bool) (interface : KnownInterface) → IsDistinct bytes_eq (names events interface) }
    ensures by_name { (events : Bool) (interface : KnownInterface) (name : List ℕ) (r : ℕ × Row) →
        row_named name (table events interface) ≡ Some r →
        (r.0 < MOST_OPCODES) × (row_at r.0 (table events interface) ≡ Some r.1) }
    // handles
    ensures handles { (events : Bool) (interface : KnownInterface) (opcode : ℕ) (r : Row) (values : List Value) →
        row_at opcode (table events interface) ≡ Some r → AreOf r.kinds values → HasFewHandles values }
    ensures announcing { (events : Bool) (interface : KnownInterface) (opcode : ℕ) (r : Row) (values : List Value) →
        row_at opcode (table events interface) ≡ Some r → AreOf r.kinds values →
        (length (flat_map handles_of values) ≡ 0) ⊎ (r.announces ≡ Nothing) }
{}

/// The names of the interfaces differ, and each is a short text. Each interface has a place of its own in the list of
/// all, and its version fits a message.
pub fn all_interfaces()
    ensures settled { length the_settled ≡ SETTLED_INTERFACES }
    ensures all { length the_interfaces ≡ INTERFACES }
    ensures names { (interface : KnownInterface) → known_of (name_of interface) ≡ Some interface }
    ensures named { (name : List ℕ) (interface : KnownInterface) → known_of name ≡ Some interface →
        name ≡ name_of interface }
    ensures texts { (interface : KnownInterface) → is_utf8 (name_of interface) ≡ true }
    ensures short { (interface : KnownInterface) → length (name_of interface) ≤ MOST_NAME_BYTES }
    ensures places { (interface : KnownInterface) → slice_get the_interfaces (place_of interface) ≡ Some interface }
    ensures versions { (interface : KnownInterface) → server_version interface < 2 ^ 32 }
{}

/// What lasts was started at a position, and no later one ended it.
pub fn lasting<M>()
    ensures found { (starts ends : List M → M → Bool) (before : List M) → lasts starts ends before ≡ true →
        HasLasted starts ends before }
    ensures shown { (starts ends : List M → M → Bool) (before : List M) → HasLasted starts ends before →
        lasts starts ends before ≡ true }
{}

/// What one more position adds to the groups of inputs: `slot` comes behind those before it.
pub fn groups<X, Y>()
    ensures more { (readings : List ℕ) (before : List (Slot X Y)) (slot : Slot X Y) →
        grouped readings (slot ∷ before) ≡ grouped readings before ++ gives readings before slot }
    ensures prefix { (readings : List ℕ) (more before : List (Slot X Y)) →
        (rest : List (Given ℕ X Y)) × (grouped readings (more ++ before) ≡ grouped readings before ++ rest) }
    ensures readings { (readings later : List ℕ) (slots : List (Slot X Y)) → frames_made slots ≤ length readings →
        grouped (readings ++ later) slots ≡ grouped readings slots }
{}

/// The inputs that wait on a device, after an item of each kind.
pub fn waiting_inputs<X, Y>()
    ensures input { (device d : ℕ) (x : X) (before : List (Slot X Y)) (slot : Slot X Y) → slot.item ≡ Some (Input d x) →
        group device (slot ∷ before) ≡ (if d == device then group device before ++ (x ∷ []) else group device before) }
    ensures frame { (device d serial time : ℕ) (before : List (Slot X Y)) (slot : Slot X Y) →
        slot.item ≡ Some (Frame d serial time) →
        group device (slot ∷ before) ≡ (if d == device then [] else group device before) }
    ensures other { (device d : ℕ) (y : Y) (before : List (Slot X Y)) (slot : Slot X Y) → slot.item ≡ Some (Other d y) →
        group device (slot ∷ before) ≡ (if d == device then [] else group device before) }
    ensures free { (device : ℕ) (y : Y) (before : List (Slot X Y)) (slot : Slot X Y) → slot.item ≡ Some (Free y) →
        group device (slot ∷ before) ≡ group device before }
    ensures none { (device : ℕ) (before : List (Slot X Y)) (slot : Slot X Y) → slot.item ≡ None →
        group device (slot ∷ before) ≡ group device before }
{}
