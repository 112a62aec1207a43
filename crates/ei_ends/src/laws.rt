//! The laws of two ends. Each function does nothing: its clauses are the laws.
//!
//! The first end (`x`) sends the events where `events` is true, and the second (`y`) takes them. Each law holds of the
//! other direction too, by `turned`.

ghost use Rattle.std.specs.Prelude.{◌≡◌, ℕ, ◌+◌, ◌<◌, ◌≤◌, Bool, true, false, List, [], ◌∷◌, ◌++◌, Some, length, map};
ghost use Rattle.ei_spec.specs.declared.interface.KnownInterface.{KnownInterface};
ghost use Rattle.ei_spec.specs.declared.handle.Handle.{Handle};
ghost use Rattle.ei_spec.specs.Value.{Value};
ghost use Rattle.ei_spec.specs.Reading.{Fault};
ghost use Rattle.ei_spec.specs.Interface.{Known, ObjectView};
ghost use Rattle.ei_spec.specs.Rows.{Row, Nothing};
ghost use Rattle.ei_spec.specs.Piece.{Piece};
ghost use Rattle.ei_spec.specs.Message.{all_bytes};
ghost use Rattle.ei_backend.specs.Table.{found};
ghost use Rattle.ei_backend.specs.Backend.{BackendView, Waits, Refused, Gone, Message, next, unsent_of, sent, sent_new, removed, after_row};
ghost use Rattle.ei_backend.specs.Endpoint.{endpoint_of};
ghost use Rattle.ei_ends.specs.Sent.{other, Sent, Got, Took, Missed, New, new_of, row_of, raw_of};
ghost use Rattle.ei_ends.specs.Announced.{next_own};
ghost use Rattle.ei_ends.specs.Agree.{oldest, handles_sent, handles_got, IsTaken, Agree, AreTimes, KeepsHandles, AllEqual, NeedNoHandles, all_got};
ghost use Rattle.ei_ends.specs.Way.{End, alive, onto};
ghost use Rattle.ei_ends.specs.Steps.{called, with_backend, with_sent, after_call, after_calls, after_read, after_reads, with_taken, stored};
ghost use Rattle.ei_ends.specs.Steps.{behind, no_piece, flushed, delivered, closed_end, ringed, roomy, IsPiece, handed, left_over};
ghost use Rattle.ei_ends.specs.Joined.{new_end, Joined, IsCallOf, AgreeSoFar, AllDelivered, AreCalls, AreListedCalls, ArePlain, IsSame};
ghost use Rattle.ei_spec.specs.declared.limits.TheConstants.{MOST_UNREAD_HANDLES};

/// Two new ends are joined, and each step keeps them so, whichever end makes it.
pub fn steps()
    ensures begins { (events : Bool) → Joined events (new_end (other events)) (new_end events) no_piece no_piece }
    ensures turned { (events : Bool) (x y : End) (to_y to_x : Piece) → Joined events x y to_y to_x →
        Joined (other events) y x to_x to_y }
    // the sender
    ensures call { (events : Bool) (m : Sent) (r : Row) (x y : End) (to_y to_x : Piece) →
        Joined events x y to_y to_x → IsCallOf events x m r → Joined events (after_call events m x) y to_y to_x }
    ensures flush { (events : Bool) (x y : End) (to_y to_x : Piece) →
        Joined events x y to_y to_x → Joined events (flushed x) y (behind to_y (unsent_of x.backend)) to_x }
    // the reader: what a delivery of at most 1536 bytes hands over is a piece; at too many handles it may be lost
    ensures piece { (n : ℕ) (link : Piece) → n ≤ 1536 → IsPiece (handed n link) (left_over n link) link }
    ensures deliver { (events : Bool) (x y : End) (to_y to_x p left : Piece) →
        Joined events x y to_y to_x → y.backend.closed ≡ false → IsPiece p left to_y →
        Joined events x (delivered p y) left to_x }
    ensures close { (events : Bool) (x y : End) (to_y to_x left : Piece) → Joined events x y to_y to_x →
        Joined events x (closed_end y) left to_x }
    ensures read { (events : Bool) (x y : End) (to_y to_x : Piece) → Joined events x y to_y to_x →
        Joined events x (after_read events y) to_y to_x }
    ensures reads_nothing { (events : Bool) (x y : End) (to_y to_x : Piece) (b : BackendView) →
        Joined events x y to_y to_x → next events y.backend ≡ (Waits, b) → b ≡ y.backend }
    ensures reads_message { (events : Bool) (x y : End) (to_y to_x : Piece) (target : ObjectView)
        (interface : KnownInterface) (opcode : ℕ)
        (values : List Value) (b : BackendView) →
        Joined events x y to_y to_x → next events y.backend ≡ (Message target opcode values, b) →
        target.interface ≡ Known interface →
        Joined events x (with_taken b (Took (stored target interface opcode values) (length y.sent)) y) to_y to_x }
    ensures reads_gone { (events : Bool) (x y : End) (to_y to_x : Piece) (id : ℕ) (b : BackendView) →
        Joined events x y to_y to_x → next events y.backend ≡ (Gone id, b) →
        Joined events x (with_taken b (Missed id (length y.sent)) y) to_y to_x }
    // what doesn't matter
    ensures ring { (events : Bool) (x y : End) (to_y to_x : Piece) (capacity : ℕ) →
        Joined events x y to_y to_x → Joined events x (ringed capacity y) to_y to_x }
    ensures room { (events : Bool) (x y : End) (to_y to_x : Piece) (bytes handles objects : ℕ) →
        Joined events x y to_y to_x → Joined events x (roomy bytes handles objects y) to_y to_x }
    ensures alike { (events : Bool) (x y : End) (to_y to_x : Piece) (b : BackendView) → Joined events x y to_y to_x →
        endpoint_of b ≡ endpoint_of y.backend → Joined events x (with_backend b y) to_y to_x }
{}

/// A call of each kind of row keeps two ends joined, be its target alive or not.
pub fn calls()
    ensures ordinary { (events : Bool) (m : Sent) (r : Row) (x y : End) (to_y to_x : Piece) →
        Joined events x y to_y to_x → IsCallOf events x m r → r.announces ≡ Nothing → r.destroys ≡ false →
        Joined events (with_sent (sent x.backend m.target m.opcode m.values) m x) y to_y to_x }
    ensures destructor { (events : Bool) (m : Sent) (r : Row) (x y : End) (to_y to_x : Piece) →
        Joined events x y to_y to_x → IsCallOf events x m r → r.announces ≡ Nothing → r.destroys ≡ true →
        Joined events (with_sent (removed (sent x.backend m.target m.opcode m.values) m.target) m x) y to_y to_x }
    ensures announcing { (events : Bool) (m : Sent) (r : Row) (n : New) (x y : End) (to_y to_x : Piece) →
        Joined events x y to_y to_x → IsCallOf events x m r → new_of events m ≡ Some n → r.destroys ≡ false →
        Joined events (with_sent
        (sent_new x.backend m.target m.opcode m.values n.interface n.version) m x) y to_y to_x }
    ensures handing_over { (events : Bool) (m : Sent) (r : Row) (n : New) (x y : End) (to_y to_x : Piece) →
        Joined events x y to_y to_x → IsCallOf events x m r → new_of events m ≡ Some n → r.destroys ≡ true →
        Joined events (with_sent
        (removed (sent_new x.backend m.target m.opcode m.values n.interface n.version) m.target) m x) y to_y to_x }
{}

/// What the calls of the proxies do, by their rows, is a step of a call.
pub fn calls_of_rows()
    ensures { (events : Bool) (m : Sent) (r : Row) (target : ObjectView) (b : BackendView) →
        row_of events m ≡ Some r → target.id ≡ m.target →
        after_row (Some (m.opcode, r)) target m.values b ≡ called events m b }
{}

/// Several messages in turn: they are calls, and plain ones add their bytes alone.
pub fn in_turn()
    ensures calls { (events : Bool) (ms : List Sent) (x y : End) (to_y to_x : Piece) →
        Joined events x y to_y to_x → AreCalls events ms x → Joined events (after_calls events ms x) y to_y to_x }
    ensures plain { (events : Bool) (ms : List Sent) (x : End) → ArePlain events ms →
        (after_calls events ms x).backend ≡ record x.backend {
          unsent = x.backend.unsent ++
              all_bytes (map raw_of ms);
        } }
{}

/// What follows for two ends that are joined.
pub fn ends()
    // what was taken is, one by one, what was sent, but for what is dropped; there is never a parse error
    ensures agrees { (events : Bool) (x y : End) (to_y to_x : Piece) → Joined events x y to_y to_x →
        AgreeSoFar events x y }
    ensures each { (events : Bool) (own a b : List Sent) (m : Sent) (c d : List Got) (g : Got) → length a ≡ length c →
        Agree events own (a ++ (m ∷ b)) (c ++ (g ∷ d)) → IsTaken events own b d m g × Agree events own b d }
    ensures times { (events : Bool) (x y : End) (to_y to_x : Piece) → Joined events x y to_y to_x →
        AreTimes (length y.sent) y.taken }
    ensures never_refused { (events : Bool) (x y : End) (to_y to_x : Piece) (f : Fault) (b : BackendView) →
        Joined events x y to_y to_x → next events y.backend ≡ (Refused f, b) → ⊥ }
    // handles come in their order, and with their message up to where a message with a handle was dropped
    ensures handles { (events : Bool) (x y : End) (to_y to_x : Piece) → Joined events x y to_y to_x →
        (rest : List Handle) × (handles_sent x.sent ≡ handles_got y.taken ++ rest) }
    ensures equal { (events : Bool) (x y : End) (to_y to_x : Piece) (a b : List Sent) (c d : List Got) →
        Joined events x y to_y to_x →
        oldest (length y.taken) x.sent ≡ a ++ b → y.taken ≡ c ++ d → length a ≡ length c → KeepsHandles b d →
        AllEqual b d }
    ensures few_handles { (events : Bool) (x y : End) (to_y to_x p left : Piece) → Joined events x y to_y to_x →
        y.backend.closed ≡ false →
        IsPiece p left to_y → length (handles_sent x.sent) ≤ MOST_UNREAD_HANDLES →
        length y.backend.handles + length p.handles ≤ MOST_UNREAD_HANDLES }
    // where nothing is on its way any more, all was taken
    ensures all { (events : Bool) (x y : End) (to_y to_x : Piece) → Joined events x y to_y to_x →
        AllDelivered x y to_y →
        next events y.backend ≡ (Waits, y.backend) → length y.taken ≡ length x.sent }
    // an object that is at both ends is the same, but for the side
    ensures same { (events : Bool) (x y : End) (to_y to_x : Piece) (id : ℕ) (o p : ObjectView) →
        Joined events x y to_y to_x →
        found x.backend.table id ≡ Some o → found y.backend.table id ≡ Some p → IsSame o p }
    // who took a message to an object that it announced itself was heard up to the message that announced it
    ensures answered { (events : Bool) (x y : End) (to_y to_x : Piece) (a b : List Sent) (m : Sent) (n : New)
        (p q : List Got) (r : Sent) (after : ℕ) →
        Joined events x y to_y to_x → y.sent ≡ a ++ (m ∷ b) → new_of (other events) m ≡ Some n →
        y.taken ≡ p ++ (Took r after ∷ q) → r.target ≡ n.id → length b < length x.taken }
{}

/// What an end may send, has and takes, by the lists of what both ends sent and took alone.
pub fn by_the_lists()
    ensures may_send { (events : Bool) (ms : List Sent) (x y : End) (to_y to_x : Piece) →
        Joined events x y to_y to_x → AreListedCalls events ms x.sent x.taken → AreCalls events ms x }
    ensures next_id { (events : Bool) (x y : End) (to_y to_x : Piece) → Joined events x y to_y to_x →
        x.backend.table.next_own ≡ next_own events x.sent }
    ensures objects { (events : Bool) (x y : End) (to_y to_x : Piece) (id : ℕ) → Joined events x y to_y to_x →
        found y.backend.table id ≡ alive events y.sent (oldest (length y.taken) x.sent) y.taken id }
    // `past` was taken, and `ms` behind it is there
    ensures takes { (events : Bool) (x y : End) (to_y to_x : Piece) (past ms : List Sent) →
        Joined events x y to_y to_x → AllDelivered x y to_y →
        x.sent ≡ onto ms past → length past ≡ length y.taken → NeedNoHandles events y.sent past y.taken ms →
        (after_reads (length ms) events y).taken ≡ all_got events y.sent past y.taken ms }
    ensures waits { (events : Bool) (x y : End) (to_y to_x : Piece) → Joined events x y to_y to_x →
        length y.taken ≡ length x.sent →
        next events y.backend ≡ (Waits, y.backend) }
{}
