//! The laws of tables, of room, of the next message and of what is lent. Each function does nothing: its clauses are the laws.

ghost use Rattle.std.specs.Prelude.{◌≡◌, ◌≢◌, ℕ, ◌+◌, ◌<◌, ◌≤◌, Bool, Option, List, ◌∷◌, ◌++◌, Some, None, Ok, nat_eq, length, IsTrue};
ghost use Rattle.std.specs.List.{IsDistinct, flat_map};
ghost use Rattle.ei_spec.specs.Value.{Value, handles_of};
ghost use Rattle.ei_spec.specs.declared.interface.KnownInterface.{KnownInterface};
ghost use Rattle.ei_spec.specs.Rows.{Row};
ghost use Rattle.ei_spec.specs.Piece.{Piece};
ghost use Rattle.ei_spec.specs.Message.{Raw, IsLawful, message, size, bytes_of, front, Short};
ghost use Rattle.ei_spec.specs.Interface.{Interface, ObjectView};
ghost use Rattle.ei_backend.specs.Lent.{LentSource, LentSink, LentClock};
ghost use Rattle.ei_backend.specs.Table.{TableView, Announced, HasIdRoom, accept, found, own, own_start, own_limit, peer_end, with_own, without, new_table};
ghost use Rattle.ei_backend.specs.Outgoing.{HasSpare, HasRoomFor};
ghost use Rattle.ei_backend.specs.Step.{reading};
ghost use Rattle.ei_backend.specs.Next.{IsOfRow, HasAtFront};
ghost use Rattle.ei_backend.specs.Backend.{BackendView, Waits, Gone, Message, Answers, Brings, next, unsent_of, sent, after_row, with_room};
ghost use Rattle.ei_backend.specs.Typed.{piece_of, behind, new_of, HasSent, HasCome, IsRead, HandsOut};
ghost use Rattle.ei_backend.specs.Growth.{Step, grown, made_by, table_grown, ids_given, IsKnownId};
ghost use Rattle.ei_backend.specs.declared.message.PendingRequestResult.{PendingRequestResult};

use crate::message::MessageEnum;
use crate::outside::{Clock, Sink, Source};
pub use crate::ring::ring_laws;

/// Ids only rise, and none is given twice.
pub fn tables()
    // an object of this end
    ensures own_id { (t : TableView) (interface : Interface) (version : ℕ) →
        (with_own t interface version).next_own ≡ t.next_own + 1 }
    ensures own_found { (t : TableView) (interface : Interface) (version : ℕ)
        → found (with_own t interface version) t.next_own ≡ Some (own t interface version) }
    ensures own_others { (t : TableView) (interface : Interface) (version id : ℕ) → id ≢ t.next_own →
        found (with_own t interface version) id ≡ found t id }
    // an object of the peer
    ensures peer_id { (t u : TableView) (id version : ℕ) (interface : Interface) (o : ObjectView) →
        accept t id interface version ≡ Ok (o, u)
        → (t.next_peer ≤ id) × (id < peer_end t) × (u.next_peer ≡ id + 1) }
    ensures accepts { (t : TableView) (id version : ℕ) (interface : Interface) → t.next_peer ≤ id → id < peer_end t →
        (u : TableView) × (o : ObjectView) × (accept t id interface version ≡ Ok (o, u)) }
    ensures peer_found { (t u : TableView) (id version : ℕ) (interface : Interface) (o : ObjectView) →
        accept t id interface version ≡ Ok (o, u)
        → found u id ≡ Some o }
    ensures peer_others { (t u : TableView) (id version other : ℕ) (interface : Interface) (o : ObjectView) →
        accept t id interface version ≡ Ok (o, u)
        → other ≢ id → found u other ≡ found t other }
    // an object that goes
    ensures removed { (t : TableView) (id : ℕ) → found (without t id) id ≡ None }
    ensures removed_others { (t : TableView) (id other : ℕ) → other ≢ id → found (without t id) other ≡ found t other }
    // a table that grew
    ensures under_its_id { (client : Bool) (first id : ℕ) (steps : List Step) (o : ObjectView) →
        found (table_grown client first steps) id ≡ Some o
        → o.id ≡ id }
    ensures known { (client : Bool) (first id : ℕ) (steps : List Step) (o : ObjectView) →
        found (table_grown client first steps) id ≡ Some o
        → IsKnownId first (table_grown client first steps) id }
    ensures given_once { (client : Bool) (first : ℕ) (steps : List Step) → own_start client ≤ first →
        first ≤ own_limit client
        → IsDistinct nat_eq (0 ∷ ids_given (new_table client first) steps) }
{}

/// Room that was made is there, and a message takes of it what it has, so a burst of messages fits that has no
/// more bytes and handles in all. So does each new object, of as many as the room was made for.
pub fn bursts()
    ensures made { (bytes handles objects : ℕ) (b : BackendView) →
        HasSpare bytes handles (unsent_of b) (with_room bytes handles objects b).room }
    ensures fits { (bytes handles id opcode : ℕ) (values : List Value) (b : BackendView)
        → HasSpare (size (message id opcode values) + bytes) (length (flat_map handles_of values) + handles)
        (unsent_of b) b.room →
        HasRoomFor id opcode values (unsent_of b) b.room }
    ensures left { (bytes handles id opcode : ℕ) (values : List Value) (b : BackendView)
        → HasSpare (size (message id opcode values) + bytes) (length (flat_map handles_of values) + handles)
        (unsent_of b) b.room →
        HasSpare bytes handles (unsent_of (sent b id opcode values)) (sent b id opcode values).room }
    // new objects, whatever the peer announces and whatever goes meanwhile, as far as there are own ids
    ensures objects { (bytes handles objects : ℕ) (steps : List Step) (b : BackendView) → made_by steps < objects →
        HasIdRoom (grown (with_room bytes handles objects b).table steps) }
{}

/// What a call for the next message answers, and what it leaves, where the front of what is unread is known.
pub fn next_messages()
    ensures reads { (events : Bool) (interface : KnownInterface) (opcode : ℕ) (r : Row) (target : ObjectView) (id : ℕ)
        (values : List Value) (rest : Piece)
        (after : TableView) (b : BackendView) → IsOfRow events interface opcode r id values →
        HasAtFront interface opcode r target id values rest after b →
        next events b ≡ (Message target opcode values, reading rest.bytes rest.handles after b) }
    ensures gone { (events : Bool) (m : Raw) (rest : List ℕ) (b : BackendView) → IsLawful m →
        b.unread ≡ bytes_of m ++ rest → found b.table m.id ≡ None →
        next events b ≡ (Gone m.id, reading rest b.handles b.table b) }
    ensures waits { (events : Bool) (b : BackendView) → front b.unread ≡ Short → next events b ≡ (Waits, b) }
    ensures few_left { (events : Bool) (b c : BackendView) → next events b ≡ (Waits, c) → length b.unread < 1048576 }
{}

/// A typed message that was written is read as it was sent: the sender's own facts suffice, where what it added is at the
/// front of what the other end hasn't read, and the target is there.
pub fn typed_messages()
    ensures written { (r : ℕ × Row) (target : ObjectView) (values : List Value) (b : BackendView) →
        unsent_of (after_row (Some r) target values b) ≡ behind (unsent_of b) (piece_of target.id r.0 values) }
    ensures read { (events : Bool) (interface : KnownInterface) (name : List ℕ) (r : ℕ × Row)
        (target there : ObjectView) (values : List Value)
        (added rest : Piece) (before after reader : BackendView) →
        HasSent events interface name r target values before after →
        HasCome interface r target there values added rest before after reader →
        (left : BackendView) × IsRead events r there values rest before reader left }
    // the table before and the one after say which object was announced
    ensures once { (t u : TableView) (x y : Option ObjectView) → Announced x t u → Announced y t u → x ≡ y }
{}

/// So what is handed out is the message that was sent, with the very object that it announces.
pub fn handed_out<T: MessageEnum>()
    ensures sent { (interface : KnownInterface) (name : List ℕ) (r : ℕ × Row) (target there : ObjectView)
        (values : List Value) (added rest : Piece)
        (before after reader left : BackendView) (answer : Option (PendingRequestResult T)) →
        HasSent T.events interface name r target values before after →
        HasCome interface r target there values added rest before after reader →
        Answers T.target T.code T.values answer left (next T.events reader) →
        Brings T.announced answer reader.table left.table →
        HandsOut T.target T.code T.values T.announced there r.0 values (new_of r.1 values reader.table.client) answer }
{}

/// What a call says of a source, a sink and a clock that it was lent: one that it doesn't touch is as the word says, where
/// the answer is neither a fault nor the source's end; and two calls in a row are one, where the first answered no fault.
pub fn lent<S: Source, K: Sink, C: Clock>()
    ensures untouched_source { (x : S) → LentSource S.view S.later ⊥ ⊥ x x }
    ensures source_twice { (at_end failed ended : Bool) (x y z : S) → LentSource S.view S.later ⊥ (IsTrue at_end) x y →
        LentSource S.view S.later (IsTrue failed) (IsTrue ended) y z →
        LentSource S.view S.later (IsTrue failed) (IsTrue ended) x z }
    ensures untouched_sink { (x : K) → LentSink K.view K.later ⊥ x x }
    ensures sink_twice { (failed : Bool) (x y z : K) → LentSink K.view K.later ⊥ x y →
        LentSink K.view K.later (IsTrue failed) y z →
        LentSink K.view K.later (IsTrue failed) x z }
    ensures untouched_clock { (x : C) → LentClock C.later x x }
    ensures clock_twice { (x y z : C) → LentClock C.later x y → LentClock C.later y z → LentClock C.later x z }
{}
