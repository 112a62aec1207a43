//! The laws. Each function does nothing: its clauses are the laws.

ghost use Rattle.std.specs.Prelude.{◌≡◌, ℕ, ◌+◌, ◌<◌, ◌≤◌, ◌^◌, false, true, [], ◌∷◌, List, length, find};
ghost use Rattle.std.specs.Prelude.{Bool, Option, Some, None, is_some};
ghost use Rattle.std.specs.List.{Any};
ghost use Rattle.ei_spec.specs.declared.interface.KnownInterface.{KnownInterface};
ghost use Rattle.ei_spec.specs.declared.interface.KnownInterface.TheVariants as known;
ghost use Rattle.ei_spec.specs.declared.limits.TheConstants.{MOST_MESSAGE_BYTES};
ghost use Rattle.ei_spec.specs.Interface.{ObjectView};
ghost use Rattle.ei_spec.specs.Message.{size};
ghost use Rattle.ei_spec.specs.Piece.{Piece};
ghost use Rattle.ei_spec.specs.Rows.{Row};
ghost use Rattle.ei_types.specs.declared.capability.DeviceCapabilities.{DeviceCapabilities};
ghost use Rattle.ei_types.specs.declared.enums.DeviceType.{DeviceType};
ghost use Rattle.ei_session.specs.Events.{resumed_event};
ghost use Rattle.ei_session.specs.Meaning.{Meaning};
ghost use Rattle.ei_session.specs.Replies.{name_event};
ghost use Rattle.ei_backend.specs.Endpoint.{endpoint_of};
ghost use Rattle.ei_backend.specs.Table.{found, own_limit, Announced};
ghost use Rattle.ei_ends.specs.Sent.{Sent, IsCall};
ghost use Rattle.ei_ends.specs.Way.{End, onto};
ghost use Rattle.ei_ends.specs.Steps.{with_backend, after_calls, closed_end};
ghost use Rattle.ei_ends.specs.Joined.{Joined, AreListedCalls};
ghost use Rattle.ei_reported.specs.Said.{Said, said};
ghost use Rattle.ei_reported.specs.Reported.{refusal};
ghost use Rattle.ei_steady.specs.Steady.{Stands, NoneRefused, after};
ghost use Rattle.ei_told.specs.Told.{event_of, all_said, after_connection, messages, NoneMissed, NeverRefused};
ghost use Rattle.ei_request.specs.declared.making.DeviceSetup.{DeviceSetup};
ghost use Rattle.ei_request.specs.Keys.{DeviceKey};
ghost use Rattle.ei_request.specs.Held.{is_seat, is_of_key, gone_ids, gone_with_seat, all_seat_ids};
ghost use Rattle.ei_request.specs.Connection.{ConnectionView, holds_device, Unchanged};
ghost use Rattle.ei_request.specs.Converter.{ConverterView};
ghost use Rattle.ei_request.specs.Sending as sending;
ghost use Rattle.ei_request.specs.Making.{AddsSeat, AddsDevice, NeedsKeyboard, has_keyboard, granted_at};
ghost use Rattle.ei_request.specs.Making.{is_long_name, is_long_description};
ghost use Rattle.ei_request.specs.Removing.{RemovesDevice, RemovesSeat, Disconnects};
ghost use Rattle.ei_request.specs.Handling as handling;
ghost use Rattle.ei_shaking.specs.Sending.{AreVersions};
ghost use Rattle.ei_acts.specs.Events as event;
ghost use Rattle.ei_acts.specs.Acts.{resumed, paused, start_emulating, stop_emulating, frame, invalid_object};
ghost use Rattle.ei_acts.specs.Acts.{release_seat, release_interface, answers, add_seat, add_device};
ghost use Rattle.ei_acts.specs.Acts.{gone, gone_as, remove_device, remove_seat, disconnected, disconnected_as};
ghost use Rattle.ei_acts.specs.Input.{IsInput, input, having_sent, is_input};
ghost use Rattle.ei_acts.specs.There.{HoldsThere};
ghost use Rattle.ei_acts.specs.Holding.{held_by, said_by, StandsWith, Sends, KeepsSteady, AllGoAs, AllMayGo};
ghost use Rattle.ei_acts.specs.Holding.{IsTargetOf, IsHeldAs, is_a_seat, pauses};
ghost use Rattle.ei_acts.specs.Sendable.{AnnouncesIt, announced_in, HoldsAnnounced, Knows, IsObject, IsEndOf};
ghost use Rattle.ei_acts.specs.Sendable.{IsText, AreLawful};
ghost use Rattle.ei_acts.specs.Acting.{Act, sent_by, IsQuiet, IsSteady, Makes, Does, AllDone, all_sent, left_by};
ghost use Rattle.ei_acts.specs.Acting.{IsFresh, AllShake};
ghost use Rattle.ei_acts.specs.Serving.{Serves};
ghost use Rattle.ei_acts.specs.Allowed.{MayDo, after_act, announced_by, after_announced};

// ---- what an act makes of the endpoint

/// What a device tells, that no object has an id, and an input: the endpoint that the call leaves.
pub fn telling()
    ensures resumed { (old : ConnectionView) (device : ObjectView) →
        Sends (resumed old device) old (sending.tells old (resumed_event device.id)) }
    ensures paused { (old : ConnectionView) (key : DeviceKey) (device : ObjectView) → device.id ≡ key.proxy.id →
        Sends (paused old device) old (pauses old key) }
    ensures start_emulating { (old : ConnectionView) (device : ObjectView) (sequence : ℕ) →
        Sends (start_emulating old device sequence) old
        (sending.tells old (λ serial. sending.start_emulating_event device.id serial sequence)) }
    ensures stop_emulating { (old : ConnectionView) (device : ObjectView) →
        Sends (stop_emulating old device) old (sending.tells old (sending.stop_emulating_event device.id)) }
    ensures frame { (old : ConnectionView) (device : ObjectView) (time : ℕ) → Sends (frame old device time) old
        (sending.tells old (λ serial. sending.frame_event device.id serial time)) }
    ensures invalid_object { (old : ConnectionView) (id : ℕ) → Sends (invalid_object old id) old
        (record old { ctx = sending.says old.ctx (sending.no_object_event old.proxy.id old.last_serial id) }) }
    ensures input { (old : ConnectionView) (m : Sent) → Sends (input m) old (having_sent old m) }
{}

/// What answers a request: the endpoint that the call leaves.
pub fn answering()
    ensures sync { (old : ConnectionView) (callback version : ℕ) →
        Sends (event.called_back callback version ∷ []) old (handling.calls_back old callback) }
    ensures seat_release { (old : ConnectionView) (id : ℕ) → AllMayGo old.ctx.table (id ∷ []) →
        Sends (release_seat old id) old (handling.releases_seat old id) }
    ensures interface_release { (old : ConnectionView) (id : ℕ) → AllMayGo old.ctx.table (id ∷ []) →
        Sends (release_interface old id) old (handling.obeys old id None) }
{}

/// What goes: the endpoint that the call leaves, and that what a connection holds may go.
pub fn going()
    ensures device_goes { (old new : ConnectionView) (key : DeviceKey) → RemovesDevice old key new →
        AllMayGo old.ctx.table (gone_ids (find (is_of_key key) old.devices)) → Sends (remove_device old key) old new }
    ensures seat_goes { (old new : ConnectionView) (id : ℕ) → RemovesSeat old id new →
        AllMayGo old.ctx.table (gone_with_seat old.devices (find (is_seat id) old.seats)) →
        Sends (remove_seat old id) old new }
    ensures disconnected { (old new : ConnectionView) (reason : ℕ) (text : Option (List ℕ)) (x : End) →
        Disconnects old reason text new → AllMayGo old.ctx.table (all_seat_ids old.devices old.seats) →
        x.backend ≡ old.ctx →
        endpoint_of new.ctx ≡ endpoint_of (closed_end (after_calls true (disconnected old reason text) x)).backend }
    // what is held may go
    ensures device { (c : ConnectionView) (key : DeviceKey) → HoldsThere c →
        AllMayGo c.ctx.table (gone_ids (find (is_of_key key) c.devices)) }
    ensures seat { (c : ConnectionView) (id : ℕ) → HoldsThere c →
        AllMayGo c.ctx.table (gone_with_seat c.devices (find (is_seat id) c.seats)) }
    ensures all { (c : ConnectionView) → HoldsThere c → AllMayGo c.ctx.table (all_seat_ids c.devices c.seats) }
{}

/// A seat and a device that come: the endpoint that the call leaves. The object of the device's seat has the id of the
/// seat's key.
pub fn coming()
    ensures seat_comes { (old new : ConnectionView) (name : Option (List ℕ)) (given : DeviceCapabilities) →
        AddsSeat old name given new → Sends (add_seat old name given) old new }
    ensures device_comes { (old new : ConnectionView) (key seat : ObjectView) (name : Option (List ℕ))
        (kind : DeviceType) (interfaces : List KnownInterface) (items : List DeviceSetup) →
        AddsDevice old key name kind interfaces items new → seat.id ≡ key.id →
        (Any NeedsKeyboard items → has_keyboard interfaces ≡ true) →
        Sends (add_device old seat name kind interfaces items) old new }
{}

/// What goes, as it was announced, be it in the table or not: the endpoint that the call leaves, and that it may be
/// sent.
pub fn going_as_announced()
    ensures device_goes { (objects : ℕ → Option ObjectView) (old new : ConnectionView) (key : DeviceKey) →
        RemovesDevice old key new → AllGoAs objects (gone_ids (find (is_of_key key) old.devices)) →
        Sends (gone_as objects old.last_serial (gone_ids (find (is_of_key key) old.devices))) old new }
    ensures seat_goes { (objects : ℕ → Option ObjectView) (old new : ConnectionView) (id : ℕ) →
        RemovesSeat old id new → AllGoAs objects (gone_with_seat old.devices (find (is_seat id) old.seats)) →
        Sends (gone_as objects old.last_serial (gone_with_seat old.devices (find (is_seat id) old.seats))) old new }
    ensures disconnected { (objects : ℕ → Option ObjectView) (old new : ConnectionView) (reason : ℕ)
        (text : Option (List ℕ)) (x : End) → Disconnects old reason text new →
        AllGoAs objects (all_seat_ids old.devices old.seats) → x.backend ≡ old.ctx → endpoint_of new.ctx ≡
        endpoint_of (closed_end (after_calls true (disconnected_as objects old reason text) x)).backend }
    // that it may be sent
    ensures gone { (x : End) (c : ConnectionView) (serial : ℕ) (ids : List ℕ) → IsEndOf x c →
        AllGoAs (announced_in x.sent) ids →
        AreListedCalls true (gone_as (announced_in x.sent) serial ids) x.sent x.taken }
    ensures end { (x : End) (c : ConnectionView) (reason : ℕ) (text : Option (List ℕ)) → IsEndOf x c →
        AnnouncesIt x.sent known.Connection c.proxy →
        AllGoAs (announced_in x.sent) (all_seat_ids c.devices c.seats) → c.last_serial < 2 ^ 32 →
        reason < 2 ^ 32 → IsText text →
        size (sending.disconnected_event c.proxy.id
        (sending.serial_after c.last_serial (all_seat_ids c.devices c.seats)) reason text) ≤ MOST_MESSAGE_BYTES →
        AreListedCalls true (disconnected_as (announced_in x.sent) c reason text) x.sent x.taken }
    // what is in the table was announced as that, and stays announced
    ensures there { (x : End) (c : ConnectionView) (ids : List ℕ) → IsEndOf x c → AllMayGo c.ctx.table ids →
        AllGoAs (announced_in x.sent) ids }
    ensures same { (x : End) (c : ConnectionView) (serial : ℕ) (ids : List ℕ) → IsEndOf x c →
        AllMayGo c.ctx.table ids →
        gone_as (announced_in x.sent) serial ids ≡ gone_as (found c.ctx.table) serial ids }
    ensures kept { (sent : List Sent) (m : Sent) (ids : List ℕ) → AllGoAs (announced_in sent) ids →
        AllGoAs (announced_in (m ∷ sent)) ids }
{}

// ---- that it may be sent

/// What a device in the table tells, that no object has an id, and an input may be sent.
pub fn may_tell()
    ensures resumed { (x : End) (c : ConnectionView) (device : ObjectView) → IsEndOf x c →
        IsObject c.ctx.table known.Device device → AreListedCalls true (resumed c device) x.sent x.taken }
    ensures paused { (x : End) (c : ConnectionView) (device : ObjectView) → IsEndOf x c →
        IsObject c.ctx.table known.Device device → AreListedCalls true (paused c device) x.sent x.taken }
    ensures start_emulating { (x : End) (c : ConnectionView) (device : ObjectView) (sequence : ℕ) → IsEndOf x c →
        IsObject c.ctx.table known.Device device → sequence < 2 ^ 32 →
        AreListedCalls true (start_emulating c device sequence) x.sent x.taken }
    ensures stop_emulating { (x : End) (c : ConnectionView) (device : ObjectView) → IsEndOf x c →
        IsObject c.ctx.table known.Device device → AreListedCalls true (stop_emulating c device) x.sent x.taken }
    ensures frame { (x : End) (c : ConnectionView) (device : ObjectView) (time : ℕ) → IsEndOf x c →
        IsObject c.ctx.table known.Device device → time < 2 ^ 64 →
        AreListedCalls true (frame c device time) x.sent x.taken }
    ensures invalid_object { (x : End) (c : ConnectionView) (id : ℕ) → IsEndOf x c →
        AnnouncesIt x.sent known.Connection c.proxy → c.last_serial < 2 ^ 32 → id < 2 ^ 64 →
        AreListedCalls true (invalid_object c id) x.sent x.taken }
    ensures input { (x : End) (c : ConnectionView) (m : Sent) (r : Row) → IsEndOf x c → IsInput c m →
        IsCall true m r → Knows x m.target m.interface m.version → AreListedCalls true (input m) x.sent x.taken }
{}

/// What answers a `sync`, what goes, and what comes may be sent. What is in the table was announced.
pub fn may_send()
    ensures sync { (x : End) (c : ConnectionView) (callback version : ℕ) → IsEndOf x c → callback < 2 ^ 64 →
        Knows x callback known.Callback version →
        AreListedCalls true (event.called_back callback version ∷ []) x.sent x.taken }
    ensures gone { (x : End) (c : ConnectionView) (ids : List ℕ) → IsEndOf x c → AllMayGo c.ctx.table ids →
        AreListedCalls true (gone c ids) x.sent x.taken }
    ensures disconnected { (x : End) (c : ConnectionView) (reason : ℕ) (text : Option (List ℕ)) → IsEndOf x c →
        AnnouncesIt x.sent known.Connection c.proxy →
        AllMayGo c.ctx.table (all_seat_ids c.devices c.seats) → c.last_serial < 2 ^ 32 → reason < 2 ^ 32 →
        IsText text →
        size (sending.disconnected_event c.proxy.id
        (sending.serial_after c.last_serial (all_seat_ids c.devices c.seats)) reason text) ≤ MOST_MESSAGE_BYTES →
        AreListedCalls true (disconnected c reason text) x.sent x.taken }
    ensures seat_comes { (x : End) (c : ConnectionView) (name : Option (List ℕ)) (given : DeviceCapabilities) →
        IsEndOf x c → AnnouncesIt x.sent known.Connection c.proxy → AreVersions c.negotiated →
        c.ctx.table.next_own < own_limit false → IsText name →
        is_long_name (name_event c.ctx.table.next_own) name ≡ false →
        AreListedCalls true (add_seat c name given) x.sent x.taken }
    ensures device_comes { (x : End) (c : ConnectionView) (seat : ObjectView) (name : Option (List ℕ))
        (kind : DeviceType) (interfaces : List KnownInterface) (items : List DeviceSetup) → IsEndOf x c →
        AnnouncesIt x.sent known.Seat seat → AreVersions c.negotiated →
        c.ctx.table.next_own + (length interfaces + 1) ≤ own_limit false → IsText name → AreLawful items →
        is_long_description c.ctx.table.next_own name items ≡ false →
        AreListedCalls true (add_device c seat name kind interfaces items) x.sent x.taken }
    ensures announced { (x : End) (c : ConnectionView) (o : ObjectView) → IsEndOf x c →
        IsObject c.ctx.table known.Seat o → AnnouncesIt x.sent known.Seat o }
{}

// ---- that a client refuses none of it

/// A client that stands with what the connection holds refuses nothing that a held device tells, and stands with it
/// then.
pub fn telling_steadily()
    ensures resumed { (old : ConnectionView) (key : DeviceKey) (device : ObjectView) → IsHeldAs old key device →
        KeepsSteady (resumed old device) old (sending.tells old (resumed_event key.proxy.id)) }
    ensures paused { (old : ConnectionView) (key : DeviceKey) (device : ObjectView) → IsHeldAs old key device →
        KeepsSteady (paused old device) old (pauses old key) }
    ensures start_emulating { (old : ConnectionView) (key : DeviceKey) (device : ObjectView) (sequence : ℕ) →
        IsHeldAs old key device → KeepsSteady (start_emulating old device sequence) old
        (sending.tells old (λ serial. sending.start_emulating_event key.proxy.id serial sequence)) }
    ensures stop_emulating { (old : ConnectionView) (key : DeviceKey) (device : ObjectView) →
        IsHeldAs old key device → KeepsSteady (stop_emulating old device) old
        (sending.tells old (sending.stop_emulating_event key.proxy.id)) }
    ensures frame { (old : ConnectionView) (key : DeviceKey) (device : ObjectView) (time : ℕ) →
        IsHeldAs old key device → KeepsSteady (frame old device time) old
        (sending.tells old (λ serial. sending.frame_event key.proxy.id serial time)) }
    ensures invalid_object { (old : ConnectionView) (id : ℕ) → KeepsSteady (invalid_object old id) old
        (record old { ctx = sending.says old.ctx (sending.no_object_event old.proxy.id old.last_serial id) }) }
    ensures input { (old : ConnectionView) (m : Sent) → IsInput old m →
        KeepsSteady (input m) old (having_sent old m) }
    ensures test { (c : ConnectionView) (m : Sent) → is_input c m.target m.interface m.opcode ≡ true → IsInput c m }
{}

/// Nor does it refuse what answers any request, what announces a seat, or a device of one that is alive, or what goes.
pub fn changing_steadily()
    ensures answer { (c : ConverterView) (id : ℕ) (meaning : Meaning) (time : ℕ) →
        IsTargetOf meaning c.handle.ctx.table id →
        KeepsSteady (answers c.handle id meaning) c.handle (handling.handled c id meaning time).handle }
    ensures seat_comes { (old new : ConnectionView) (name : Option (List ℕ)) (given : DeviceCapabilities) →
        AddsSeat old name given new → KeepsSteady (add_seat old name given) old new }
    ensures device_comes { (old new : ConnectionView) (key seat : ObjectView) (name : Option (List ℕ))
        (kind : DeviceType) (wanted : DeviceCapabilities) (items : List DeviceSetup) →
        AddsDevice old key name kind (granted_at old key.id wanted) items new → seat.id ≡ key.id →
        is_a_seat (found old.ctx.table key.id) ≡ true →
        KeepsSteady (add_device old seat name kind (granted_at old key.id wanted) items) old new }
    ensures device_goes { (old new : ConnectionView) (key : DeviceKey) → RemovesDevice old key new →
        KeepsSteady (remove_device old key) old new }
    ensures seat_goes { (old new : ConnectionView) (id : ℕ) → RemovesSeat old id new →
        KeepsSteady (remove_seat old id) old new }
    ensures disconnected { (old new : ConnectionView) (reason : ℕ) (text : Option (List ℕ)) →
        Disconnects old reason text new → KeepsSteady (disconnected old reason text) old new }
{}

/// A server that does steady acts, one after another, from right behind its handshake: none of what it says is ever
/// refused.
pub fn acting()
    ensures fresh { (x : End) (c : ConnectionView) → IsEndOf x c → AllShake x.sent → c.seats ≡ [] → c.devices ≡ [] →
        IsFresh c }
    ensures begins { (c : ConnectionView) → IsFresh c → StandsWith [] c }
    ensures act { (a : Act) (old new : ConnectionView) → Does a old new → KeepsSteady (sent_by a old) old new }
    ensures never { (c : ConnectionView) (steps : List (Act × ConnectionView)) → IsFresh c → AllDone c steps →
        NeverRefused (after [] (said_by (all_sent c steps))) }
    ensures stands { (c : ConnectionView) (steps : List (Act × ConnectionView)) → IsFresh c → AllDone c steps →
        Stands (after [] (said_by (all_sent c steps))) (left_by c steps).ctx.table.next_own
        (held_by (left_by c steps)) }
{}

/// Where nothing is sent all that is held stays: where a request is read, and where memory was made ready.
pub fn resting()
    ensures reads { (x : End) (c new : ConnectionView) (o : Option ObjectView) → IsEndOf x c →
        Announced o c.ctx.table new.ctx.table → is_a_seat o ≡ false → new ≡ record c { ctx = new.ctx } →
        IsQuiet c new }
    ensures unchanged { (old new : ConnectionView) → Unchanged old new → IsQuiet old new }
{}

/// What the server said, as it stands in the list of all that it sent, and at the client.
pub fn telling_in_turn()
    ensures list { (ms past : List Sent) → all_said (onto ms past) ≡ after (all_said past) (said_by ms) }
    ensures behind { (ms past all : List Sent) → after_connection past ≡ Some all →
        after_connection (onto ms past) ≡ Some (onto ms all) }
    // a client that took it refuses none
    ensures client { (x y : End) (to_y to_x : Piece) (c : ConnectionView) (steps : List (Act × ConnectionView))
        (ms : List Sent) (r : Sent) → Joined true x y to_y to_x → NoneMissed y.taken → IsFresh c →
        AllDone c steps → after_connection x.sent ≡ Some (onto (all_sent c steps) []) →
        after_connection (messages y.taken) ≡ Some (r ∷ ms) →
        refusal (all_said ms) (said (event_of r)) ≡ None }
{}

// ---- two ends

/// Two ends stay joined where the server does an act that may be sent, be it steady or not.
pub fn joining()
    ensures act { (a : Act) (x y : End) (to_y to_x : Piece) (old new : ConnectionView) →
        Joined true x y to_y to_x → x.backend ≡ old.ctx → HoldsThere old → MayDo a x old → Makes a old new →
        Joined true (with_backend new.ctx (after_act a old x)) y to_y to_x }
    ensures sends { (x y : End) (to_y to_x : Piece) (old new : ConnectionView) (ms : List Sent) →
        Joined true x y to_y to_x → x.backend ≡ old.ctx → Sends ms old new →
        AreListedCalls true ms x.sent x.taken →
        Joined true (with_backend new.ctx (after_calls true ms x)) y to_y to_x }
    ensures sent { (a : Act) (c : ConnectionView) (x : End) →
        ((after_act a c x).sent ≡ onto (sent_by a c) x.sent) × ((after_act a c x).taken ≡ x.taken) }
    ensures announced { (ms sent : List Sent) (k : KnownInterface) (o : ObjectView) → AnnouncesIt sent k o →
        AnnouncesIt (onto ms sent) k o }
{}

/// All that a connection holds was announced, from right behind its handshake on: so two ends stay joined where it
/// goes, be it in the table or not.
pub fn announcing()
    ensures fresh { (sent : List Sent) (c : ConnectionView) → IsFresh c → HoldsAnnounced sent c }
    ensures more { (ms sent : List Sent) (c : ConnectionView) → HoldsAnnounced sent c →
        HoldsAnnounced (onto ms sent) c }
    ensures act { (x : End) (old new : ConnectionView) (a : Act) → IsEndOf x new → HoldsAnnounced x.sent old →
        Makes a old new → HoldsAnnounced x.sent new }
    // what is sent may be, and keeps the ends joined
    ensures may { (a : Act) (x : End) (old new : ConnectionView) → IsEndOf x old → HoldsAnnounced x.sent old →
        MayDo a x old → Makes a old new → AreListedCalls true (announced_by x.sent a old) x.sent x.taken }
    ensures joined { (a : Act) (x y : End) (to_y to_x : Piece) (old new : ConnectionView) →
        Joined true x y to_y to_x → x.backend ≡ old.ctx → HoldsAnnounced x.sent old → MayDo a x old →
        Makes a old new → Joined true (with_backend new.ctx (after_announced a old x)) y to_y to_x }
    ensures sent { (a : Act) (c : ConnectionView) (x : End) →
        ((after_announced a c x).sent ≡ onto (announced_by x.sent a c) x.sent) ×
        ((after_announced a c x).taken ≡ x.taken) }
    // where all that is held is in the table too, the messages are those
    ensures same { (a : Act) (x : End) (c : ConnectionView) → IsEndOf x c → HoldsThere c →
        announced_by x.sent a c ≡ sent_by a c }
{}

/// What a held device and a held seat are named by: the object that was announced.
pub fn naming()
    ensures device { (sent : List Sent) (c : ConnectionView) (key : DeviceKey) → HoldsAnnounced sent c →
        holds_device c key ≡ true → (o : ObjectView) × (announced_in sent key.proxy.id ≡ Some o) ×
        (o.id ≡ key.proxy.id) × AnnouncesIt sent known.Device o }
    ensures seat { (sent : List Sent) (c : ConnectionView) (id : ℕ) → HoldsAnnounced sent c →
        is_some (find (is_seat id) c.seats) ≡ true → (o : ObjectView) × (announced_in sent id ≡ Some o) ×
        (o.id ≡ id) × AnnouncesIt sent known.Seat o }
{}

// ---- all of it

/// The server of two joined ends, from right behind its handshake on: it stays one where it rests and at each act, and
/// while it is steady no event that a client took, which missed none, is refused.
pub fn serving()
    ensures begins { (x : End) (c : ConnectionView) → x.backend ≡ c.ctx → AnnouncesIt x.sent known.Connection c.proxy →
        IsFresh c → after_connection x.sent ≡ Some [] → Serves x c true }
    ensures rests { (x z : End) (old new : ConnectionView) (steady : Bool) → Serves x old steady → IsEndOf z new →
        z.sent ≡ x.sent → IsQuiet old new → Serves z new steady }
    ensures acts { (a : Act) (x y : End) (to_y to_x : Piece) (old new : ConnectionView) (was steady : Bool) →
        Joined true x y to_y to_x → Serves x old was → MayDo a x old → Makes a old new →
        (steady ≡ true → (was ≡ true) × IsSteady a old) →
        Joined true (with_backend new.ctx (after_announced a old x)) y to_y to_x ×
        Serves (with_backend new.ctx (after_announced a old x)) new steady }
    ensures never { (x y : End) (to_y to_x : Piece) (c : ConnectionView) (ms : List Sent) (r : Sent) →
        Joined true x y to_y to_x → Serves x c true → NoneMissed y.taken →
        after_connection (messages y.taken) ≡ Some (r ∷ ms) → refusal (all_said ms) (said (event_of r)) ≡ None }
{}
