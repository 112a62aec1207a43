//! What a request asks, and that the other definitions say so. Each function does nothing: its clauses are the laws.

ghost use Rattle.std.specs.Prelude.{◌≡◌, ◌≢◌, ◌||◌, ℕ, true, false, List, [], ◌∷◌, Some, None, is_some, codes};
ghost use Rattle.ei_spec.specs.declared.interface.KnownInterface.{KnownInterface};
ghost use Rattle.ei_spec.specs.declared.interface.KnownInterface.TheVariants as known;
ghost use Rattle.ei_spec.specs.Value.{Value, Word, Long, Letters};
ghost use Rattle.ei_spec.specs.Reading.{Fault};
ghost use Rattle.ei_spec.specs.Rows.{Row, row_named};
ghost use Rattle.ei_spec.specs.Table.{table};
ghost use Rattle.ei_spec.specs.Message.{Raw};
ghost use Rattle.ei_spec.specs.Stream.{Accepted};
ghost use Rattle.ei_session.specs.Setup.{Setup};
ghost use Rattle.ei_session.specs.Arguments.{request_args};
ghost use Rattle.ei_session.specs.Asked.{asked, asks};
ghost use Rattle.ei_session.specs.Inputs.{input_to};
ghost use Rattle.ei_session.specs.Meaning.{Meaning, Greets, Finishes, TellsContext, TellsName, TellsInterface};
ghost use Rattle.ei_session.specs.Meaning.{Shakes, Syncs, Disconnects, Pongs, ReleasesSeat, Binds, RequestsDevice};
ghost use Rattle.ei_session.specs.Meaning.{Closes, Starts, Stops, Frames, Readies, Releases, Inputs, Asks, meaning};
ghost use Rattle.ei_session.specs.Devices.{asked_mask, not_empty, made, next_id, is_past, exhausts};
ghost use Rattle.ei_session.specs.Objects.{Entry, is_device, object, gone};
ghost use Rattle.ei_session.specs.Touches.{of_device, input};
ghost use Rattle.ei_session.specs.Refusals.{Parse, callback_of, synced, refusal, is_disconnect, verdict, judge};
ghost use Rattle.ei_session.specs.Requests.{item};
ghost use Rattle.ei_session.specs.Handshake.{connected};
ghost use Rattle.ei_session.specs.Serial.{steps};
ghost use Rattle.ei_session.specs.Events.{reply};
ghost use Rattle.ei_session.specs.AnsweredByMeaning.{gone_for, steps_for, reply_for};
ghost use Rattle.ei_session.specs.ByMeaning.{releases, input_in, mask_in, callback_in, disconnects, finishes};
ghost use Rattle.ei_session.specs.ByMeaning.{tells_context};
ghost use Rattle.ei_session.specs.ByMeaning.{tells_name, item_for, refusal_for, of_interface};
ghost use Rattle.ei_session.specs.Kept.{is_bare};

/// The arguments of the request of a name are those of the message, where it has the opcode of that row.
pub fn asked_rows()
    ensures row { (k : KnownInterface) (name : List ℕ) (n : ℕ) (r : Row) (m : Raw) →
        row_named name (table false k) ≡ Some (n, r) → m.opcode ≡ n → asked k name m ≡ request_args k m }
    ensures other { (k : KnownInterface) (name : List ℕ) (n : ℕ) (r : Row) (m : Raw) →
        row_named name (table false k) ≡ Some (n, r) → m.opcode ≢ n → asked k name m ≡ None }
    ensures nothing { (k : KnownInterface) (name : List ℕ) (m : Raw) → row_named name (table false k) ≡ None →
        asked k name m ≡ None }
    ensures unread { (k : KnownInterface) (name : List ℕ) (m : Raw) → request_args k m ≡ None →
        asked k name m ≡ None }
{}

/// What a request asks is what its row in the table asks, and nothing is asked where nothing reads.
pub fn requests_ask()
    ensures row { (m : Raw) (k : KnownInterface) (n : ℕ) (values : List Value) (x : Meaning) → Asks k n values x →
        m.opcode ≡ n → request_args k m ≡ Some values → meaning k m ≡ Some x }
    ensures only { (k : KnownInterface) (m : Raw) (x : Meaning) → meaning k m ≡ Some x →
        (values : List Value) × ((request_args k m ≡ Some values) × Asks k m.opcode values x) }
    ensures reads { (k : KnownInterface) (m : Raw) → is_some (meaning k m) ≡ is_some (request_args k m) }
{}

/// What a request asks says whether its target is to go, which input it is, and which device or callback it is for.
pub fn words_by_meaning()
    ensures release { (k : KnownInterface) (m : Raw) → asks k (codes "release") m ≡ releases (meaning k m) }
    ensures input { (k : KnownInterface) (m : Raw) → input_to k m ≡ input_in (meaning k m) }
    ensures mask { (m : Raw) → asked_mask m ≡ mask_in (meaning known.Seat m) }
    ensures callback { (m : Raw) → callback_of (asked known.Connection (codes "sync") m) ≡
        callback_in (meaning known.Connection m) }
    ensures finish { (m : Raw) → asks known.Handshake (codes "finish") m ≡ finishes (meaning known.Handshake m) }
    ensures context_type { (m : Raw) → asks known.Handshake (codes "context_type") m ≡
        tells_context (meaning known.Handshake m) }
    ensures name { (m : Raw) → asks known.Handshake (codes "name") m ≡ tells_name (meaning known.Handshake m) }
    ensures item { (before : List Raw) (m : Raw) (e : Entry) → object before m.id ≡ Some e →
        item before m ≡ item_for before m.id e.device (meaning e.interface m) }
    ensures device_input { (before : List Raw) (m : Raw) (e : Entry) → object before m.id ≡ Some e →
        input before m ≡ of_device e.device (input_in (meaning e.interface m)) }
{}

/// Why a request to what is there is refused: by what it asks, or for its bytes, where it asks nothing.
pub fn refused_by_meaning()
    ensures asks { (setup : Setup) (before : List Raw) (m : Raw) (e : Entry) (x : Meaning) →
        object before m.id ≡ Some e → meaning e.interface m ≡ Some x →
        refusal setup before m ≡ refusal_for setup before e x }
    ensures unread { (setup : Setup) (before : List Raw) (m : Raw) (e : Entry) → object before m.id ≡ Some e →
        meaning e.interface m ≡ None → (fault : Fault) × (refusal setup before m ≡ Some (Parse fault)) }
    ensures accepted { (setup : Setup) (before : List Raw) (m : Raw) (e : Entry) → object before m.id ≡ Some e →
        refusal setup before m ≡ None → (x : Meaning) × (meaning e.interface m ≡ Some x) }
{}

/// The arguments by the name of the request, and the interface of its target, where it is told what it asks.
pub fn asked_by_meaning()
    ensures greeting { (k : KnownInterface) (m : Raw) (version : ℕ) → meaning k m ≡ Some (Shakes (Greets version)) →
        asked known.Handshake (codes "handshake_version") m ≡ Some (Word version ∷ []) }
    ensures finish { (k : KnownInterface) (m : Raw) → meaning k m ≡ Some (Shakes Finishes) →
        asked known.Handshake (codes "finish") m ≡ Some [] }
    ensures context_type { (k : KnownInterface) (m : Raw) (context : ℕ) →
        meaning k m ≡ Some (Shakes (TellsContext context)) →
        asked known.Handshake (codes "context_type") m ≡ Some (Word context ∷ []) }
    ensures name { (k : KnownInterface) (m : Raw) (letters : List ℕ) →
        meaning k m ≡ Some (Shakes (TellsName letters)) →
        asked known.Handshake (codes "name") m ≡ Some (Letters letters ∷ []) }
    ensures interface_version { (k : KnownInterface) (m : Raw) (letters : List ℕ) (version : ℕ) →
        meaning k m ≡ Some (Shakes (TellsInterface letters version)) →
        asked known.Handshake (codes "interface_version") m ≡ Some (Letters letters ∷ Word version ∷ []) }
    ensures sync { (k : KnownInterface) (m : Raw) (callback version : ℕ) →
        meaning k m ≡ Some (Syncs callback version) →
        asked known.Connection (codes "sync") m ≡ Some (Long callback ∷ Word version ∷ []) }
    ensures disconnect { (k : KnownInterface) (m : Raw) → meaning k m ≡ Some Disconnects →
        asked known.Connection (codes "disconnect") m ≡ Some [] }
    ensures pong { (k : KnownInterface) (m : Raw) (callback_data : ℕ) → meaning k m ≡ Some (Pongs callback_data) →
        asked known.Pingpong (codes "done") m ≡ Some (Long callback_data ∷ []) }
    ensures seat_release { (k : KnownInterface) (m : Raw) → meaning k m ≡ Some ReleasesSeat →
        asked known.Seat (codes "release") m ≡ Some [] }
    ensures bind { (k : KnownInterface) (m : Raw) (mask : ℕ) → meaning k m ≡ Some (Binds mask) →
        asked known.Seat (codes "bind") m ≡ Some (Long mask ∷ []) }
    ensures request_device { (k : KnownInterface) (m : Raw) (mask : ℕ) → meaning k m ≡ Some (RequestsDevice mask) →
        asked known.Seat (codes "request_device") m ≡ Some (Long mask ∷ []) }
    ensures device_release { (k : KnownInterface) (m : Raw) → meaning k m ≡ Some Closes →
        asked known.Device (codes "release") m ≡ Some [] }
    ensures start { (k : KnownInterface) (m : Raw) (serial sequence : ℕ) →
        meaning k m ≡ Some (Starts serial sequence) →
        asked known.Device (codes "start_emulating") m ≡ Some (Word serial ∷ Word sequence ∷ []) }
    ensures stop { (k : KnownInterface) (m : Raw) (serial : ℕ) → meaning k m ≡ Some (Stops serial) →
        asked known.Device (codes "stop_emulating") m ≡ Some (Word serial ∷ []) }
    ensures frame { (k : KnownInterface) (m : Raw) (serial time : ℕ) → meaning k m ≡ Some (Frames serial time) →
        asked known.Device (codes "frame") m ≡ Some (Word serial ∷ Long time ∷ []) }
    ensures ready { (k : KnownInterface) (m : Raw) → meaning k m ≡ Some Readies →
        asked known.Device (codes "ready") m ≡ Some [] }
    ensures interface { (k i : KnownInterface) (m : Raw) (x : Meaning) → meaning k m ≡ Some x →
        of_interface x ≡ Some i → k ≡ i }
    ensures no_device { (k : KnownInterface) (m : Raw) (x : Meaning) → meaning k m ≡ Some x → of_interface x ≡ None →
        is_device k ≡ false }
    ensures owned { (k : KnownInterface) (m : Raw) (x : Meaning) → meaning k m ≡ Some x → of_interface x ≡ None →
        is_bare k ≡ false }
{}

/// What answers a request to what is there, by what it asks; and what comes and goes with it.
pub fn answered_by_meaning()
    ensures gone { (before : List Raw) (m : Raw) (e : Entry) → object before m.id ≡ Some e →
        gone before m ≡ gone_for before m.id (meaning e.interface m) }
    ensures made { (before : List Raw) (m : Raw) (e : Entry) → connected before ≡ true → object before m.id ≡ Some e →
        made before m ≡ not_empty (mask_in (meaning e.interface m)) }
    ensures synced { (before : List Raw) (m : Raw) (e : Entry) → connected before ≡ true →
        object before m.id ≡ Some e → synced before m ≡ callback_in (meaning e.interface m) }
    ensures steps { (before : List Raw) (m : Raw) (e : Entry) → connected before ≡ true →
        object before m.id ≡ Some e → steps before m ≡ steps_for before m (meaning e.interface m) }
    ensures reply { (setup : Setup) (before : List Raw) (m : Raw) (e : Entry) → connected before ≡ true →
        object before m.id ≡ Some e →
        reply setup before m ≡ reply_for setup before m (meaning e.interface m) }
{}

/// What becomes of a message after the finish: by what it asks, where its target is there; else it is accepted.
pub fn judged_by_meaning()
    ensures disconnect { (before : List Raw) (m : Raw) (e : Entry) → connected before ≡ true →
        object before m.id ≡ Some e → is_disconnect before m ≡ disconnects (meaning e.interface m) }
    ensures exhausts { (before : List Raw) (m : Raw) (e : Entry) → connected before ≡ true →
        object before m.id ≡ Some e →
        exhausts before m ≡ is_past (next_id before) (not_empty (mask_in (meaning e.interface m))) }
    ensures asks { (setup : Setup) (before : List Raw) (m : Raw) (e : Entry) (x : Meaning) →
        connected before ≡ true → object before m.id ≡ Some e → meaning e.interface m ≡ Some x →
        judge setup before m ≡ verdict (refusal_for setup before e x) (disconnects (Some x) || exhausts before m) }
    ensures unknown { (setup : Setup) (before : List Raw) (m : Raw) → connected before ≡ true →
        object before m.id ≡ None → judge setup before m ≡ Accepted }
{}
