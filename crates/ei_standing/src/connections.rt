//! How a converter comes to stand for a history, what it refuses, and how it stands for one more message to its
//! connection, to its seat, or to nothing. Each function does nothing: its clauses are the laws.

ghost use Rattle.std.specs.Prelude.{◌≡◌, ◌≢◌, ◌<◌, ◌≤◌, ◌+◌, ◌^◌, ◌++◌, ◌↔◌, ℕ, List, [], ◌∷◌, map, length, find};
ghost use Rattle.std.specs.Prelude.{Option, Some, None, Err, is_some, true, false, codes};
ghost use Rattle.std.specs.Option.{option_map};
ghost use Rattle.ei_spec.specs.declared.handle.Handle.{Handle};
ghost use Rattle.ei_spec.specs.declared.interface.KnownInterface.{KnownInterface};
ghost use Rattle.ei_spec.specs.declared.interface.KnownInterface.TheVariants as known;
ghost use Rattle.ei_spec.specs.Interface.{Interface, Known, ObjectView};
ghost use Rattle.ei_spec.specs.Message.{Raw, all_bytes};
ghost use Rattle.ei_spec.specs.Reading.{Fault, InvalidId};
ghost use Rattle.ei_spec.specs.History.{each};
ghost use Rattle.ei_spec.specs.Groups.{gives};
ghost use Rattle.ei_types.specs.Capability.{all_bits};
ghost use Rattle.ei_types.specs.declared.enums.DeviceType.{DeviceType};
ghost use Rattle.ei_types.specs.declared.enums.DeviceType.TheVariants.{Virtual};
ghost use Rattle.ei_backend.specs.Table.{TableView, Announced, new_table, first_server_id, with_own, without, accept, own_end};
ghost use Rattle.ei_backend.specs.Backend.{BackendView, new_backend};
ghost use Rattle.ei_backend.specs.Endpoint.{endpoint_of};
ghost use Rattle.ei_server.specs.declared.request.Request.{Request};
ghost use Rattle.ei_server.specs.Request.{opcode_of, values_of};
ghost use Rattle.ei_handshake.specs.declared.server.EisHandshakeResp.{EisHandshakeResp};
ghost use Rattle.ei_session.specs.Setup.{Setup, connection_id, seat_id};
ghost use Rattle.ei_session.specs.Arguments.{request_args};
ghost use Rattle.ei_session.specs.Handshake.{is_the_finish, settled};
ghost use Rattle.ei_session.specs.SettledMap.{settled_map};
ghost use Rattle.ei_session.specs.Meaning.{Shake, Meaning, meaning, Shakes, Syncs, Disconnects, Pongs, ReleasesSeat, Binds, RequestsDevice};
ghost use Rattle.ei_session.specs.ByMeaning.{mask_in, callback_in, refusal_for};
ghost use Rattle.ei_session.specs.Devices.{exhausts};
ghost use Rattle.ei_session.specs.Objects.{Entry, object};
ghost use Rattle.ei_session.specs.Refusals.{may_give, came, refusal};
ghost use Rattle.ei_session.specs.Requests.{slot};
ghost use Rattle.ei_session.specs.Replies.{settled_events, connection_event, finish_events};
ghost use Rattle.ei_session.specs.Events.{resumed_event, reply};
ghost use Rattle.ei_request.specs.Typed.{interface_asked, meaning_of};
ghost use Rattle.ei_request.specs.Held.{is_seat};
ghost use Rattle.ei_request.specs.Connection.{ConnectionView, new_connection, holds_device};
ghost use Rattle.ei_request.specs.Sending.{tells};
ghost use Rattle.ei_request.specs.Making.{granted_by, new_device, AddsSeat, AddsDevice};
ghost use Rattle.ei_request.specs.declared.making.DeviceSetup.{DeviceSetup};
ghost use Rattle.ei_request.specs.Refusing.{refusal as refused};
ghost use Rattle.ei_request.specs.Handling.{handled, queues, set_of, bind_of, request_device_of};
ghost use Rattle.ei_request.specs.Converter.{ConverterView};
ghost use Rattle.ei_standing.specs.Standing.{connection_object, seat_of, seat_held, IsHeld, HandedOver, TookOne, request_in_code};
ghost use Rattle.ei_standing.specs.Standing.{seat_events, tells_no_object, with_table, refusal_told};

/// A typed request asks what its message asks.
pub fn meanings()
    ensures asks { (m : Raw) (r : Request) → m.opcode ≡ opcode_of r →
        request_args (interface_asked r) m ≡ Some (values_of r) →
        meaning (interface_asked r) m ≡ Some (meaning_of r) }
{}

/// The converter refuses what the session refuses, and for the same reason. The id of a callback is looked at where the
/// request is read: the table takes what may be given, and nothing else.
pub fn refusals()
    ensures asked { (setup : Setup) (past : List Raw) (m : Raw) (readings : List ℕ) (c : ConverterView) (e : Entry)
        (x : Meaning) →
        IsHeld setup past readings c → object past m.id ≡ Some e → meaning e.interface m ≡ Some x →
        ((callback : ℕ) → callback_in (Some x) ≡ Some callback → may_give past callback ≡ true) →
        option_map refusal_told (refused c.handle m.id e.version x) ≡ refusal_for setup past e x }
    ensures no_shake { (setup : Setup) (past : List Raw) (m : Raw) (readings : List ℕ) (c : ConverterView) (e : Entry)
        (shake : Shake) →
        IsHeld setup past readings c → object past m.id ≡ Some e → meaning e.interface m ≡ Some (Shakes shake) → ⊥ }
    ensures given { (setup : Setup) (past : List Raw) (readings : List ℕ) (c : ConverterView) (o : ObjectView)
        (table : TableView) →
        IsHeld setup past readings c → Announced (Some o) c.handle.ctx.table table → may_give past o.id ≡ true }
    ensures not_given { (setup : Setup) (past : List Raw) (readings : List ℕ) (c : ConverterView) (id v : ℕ)
        (i : Interface) (f : Fault) →
        IsHeld setup past readings c → accept c.handle.ctx.table id i v ≡ Err f → (f ≡ InvalidId id) ×
        (may_give past id ≡ false) }
{}

/// The converter behind the finish, with the seat that is added, stands for it; the seat's events go behind those that
/// hand the connection over, and all of them are what answers the finish.
pub fn first()
    ensures handed { (before : List Raw) (resp : EisHandshakeResp) (ctx : BackendView) (unsent unread : List ℕ)
        (handles : List Handle) →
        resp.connection ≡ connection_object → is_some resp.name ≡ came (codes "name") before →
        resp.negotiated_interfaces ≡ settled_map before →
        endpoint_of ctx ≡ record (endpoint_of (new_backend
        (without (with_own (new_table false first_server_id) (Known known.Connection) 1) 0))) {
          unread = unread;
          handles = handles;
          unsent = unsent;
        } → HandedOver before resp ctx }
    ensures held { (setup : Setup) (before : List Raw) (finish : Raw) (ctx : BackendView) (resp : EisHandshakeResp)
        (new : ConnectionView) →
        is_the_finish before finish ≡ true → HandedOver before resp ctx →
        AddsSeat (new_connection ctx resp setup.serial) None (set_of setup.capabilities) new →
        setup.capabilities ≤ all_bits → setup.serial < 2 ^ 32 →
        IsHeld setup (finish ∷ before) [] (record { handle = new; queue = [] }) }
    ensures unsent { (setup : Setup) (before : List Raw) (finish : Raw) (ctx : BackendView) (resp : EisHandshakeResp)
        (new : ConnectionView) →
        is_the_finish before finish ≡ true → HandedOver before resp ctx →
        AddsSeat (new_connection ctx resp setup.serial) None (set_of setup.capabilities) new →
        new.ctx.unsent ≡ ctx.unsent ++ all_bytes (seat_events setup before) }
    ensures all { (setup : Setup) (before : List Raw) →
        (settled_events 0 (settled before) ++ connection_event 0 setup.serial connection_id ∷ [])
        ++ seat_events setup before ≡ finish_events setup before }
    ensures answer { (setup : Setup) (before : List Raw) (finish : Raw) (ctx : BackendView) (resp : EisHandshakeResp)
        (new : ConnectionView) →
        is_the_finish before finish ≡ true → HandedOver before resp ctx →
        AddsSeat (new_connection ctx resp setup.serial) None (set_of setup.capabilities) new →
        ctx.unsent ≡ all_bytes (settled_events 0 (settled before) ++
        connection_event 0 setup.serial connection_id ∷ []) →
        new.ctx.unsent ≡ all_bytes (reply setup before finish) }
    ensures unread { (setup : Setup) (before : List Raw) (finish : Raw) (ctx : BackendView) (resp : EisHandshakeResp)
        (new : ConnectionView) →
        is_the_finish before finish ≡ true → HandedOver before resp ctx →
        AddsSeat (new_connection ctx resp setup.serial) None (set_of setup.capabilities) new →
        (new.ctx.unread ≡ ctx.unread) × (new.ctx.handles ≡ ctx.handles) }
{}

/// One more message to what isn't there, to the connection, or to a ping.
pub fn connection_messages()
    ensures unknown { (setup : Setup) (past : List Raw) (m : Raw) (readings : List ℕ) (c : ConverterView) →
        IsHeld setup past readings c → object past m.id ≡ None →
        TookOne setup past m readings [] c (record c { handle = tells_no_object c.handle m.id }) }
    ensures disconnect { (setup : Setup) (past : List Raw) (m : Raw) (readings : List ℕ) (c : ConverterView)
        (e : Entry) (time : ℕ) →
        IsHeld setup past readings c → object past m.id ≡ Some e → meaning e.interface m ≡ Some Disconnects →
        TookOne setup past m readings [] c (handled c m.id Disconnects time) }
    ensures pong { (setup : Setup) (past : List Raw) (m : Raw) (readings : List ℕ) (c : ConverterView) (e : Entry)
        (number time : ℕ) →
        IsHeld setup past readings c → object past m.id ≡ Some e → meaning e.interface m ≡ Some (Pongs number) →
        TookOne setup past m readings [] c (handled c m.id (Pongs number) time) }
    // reading the request puts its callback into the table
    ensures sync { (setup : Setup) (past : List Raw) (m : Raw) (readings : List ℕ) (c : ConverterView) (e : Entry)
        (o : ObjectView) (v time : ℕ)
        (table : TableView) →
        IsHeld setup past readings c → object past m.id ≡ Some e → meaning e.interface m ≡ Some (Syncs o.id v) →
        Announced (Some o) c.handle.ctx.table table →
        TookOne setup past m readings [] (with_table c table) (handled (with_table c table) m.id (Syncs o.id v) time) }
{}

/// One more message to the seat that makes no device: its release, and a mask of no bit.
pub fn seat_messages()
    ensures released { (setup : Setup) (past : List Raw) (m : Raw) (readings : List ℕ) (c : ConverterView) (e : Entry)
        (time : ℕ) →
        IsHeld setup past readings c → object past m.id ≡ Some e → meaning e.interface m ≡ Some ReleasesSeat →
        TookOne setup past m readings [] c (handled c m.id ReleasesSeat time) }
    ensures empty { (setup : Setup) (past : List Raw) (m : Raw) (readings : List ℕ) (c : ConverterView) (e : Entry)
        (x : Meaning) (time : ℕ) →
        IsHeld setup past readings c → object past m.id ≡ Some e → meaning e.interface m ≡ Some x →
        mask_in (Some x) ≡ Some 0 →
        TookOne setup past m readings [] c (handled c m.id x time) }
{}

/// One more `bind`, or `request_device`, of a mask with a bit: it is handed out, and a device of the interfaces that the
/// seat grants is added, and resumed.
pub fn binds()
    ensures bind { (setup : Setup) (past : List Raw) (m : Raw) (readings : List ℕ) (c : ConverterView) (e : Entry)
        (mask time : ℕ) →
        IsHeld setup past readings c → object past m.id ≡ Some e → meaning e.interface m ≡ Some (Binds mask) →
        handled c m.id (Binds mask) time ≡ queues c (bind_of mask (seat_of past)) }
    ensures request_device { (setup : Setup) (past : List Raw) (m : Raw) (readings : List ℕ) (c : ConverterView)
        (e : Entry) (mask time : ℕ) →
        IsHeld setup past readings c → object past m.id ≡ Some e → meaning e.interface m ≡ Some (RequestsDevice mask) →
        handled c m.id (RequestsDevice mask) time ≡ queues c (request_device_of mask (seat_of past)) }
    ensures seat { (setup : Setup) (past : List Raw) (m : Raw) (readings : List ℕ) (c : ConverterView) (e : Entry)
        (x : Meaning) (mask time : ℕ) →
        IsHeld setup past readings c → object past m.id ≡ Some e → meaning e.interface m ≡ Some x →
        mask_in (Some x) ≡ Some mask →
        find (is_seat seat_id) (handled c m.id x time).handle.seats ≡ Some (seat_held setup past) }
    ensures held { (old added : ConnectionView) (seat : ObjectView) (name : Option (List ℕ)) (kind : DeviceType)
        (interfaces : List KnownInterface)
        (items : List DeviceSetup) → AddsDevice old seat name kind interfaces items added →
        holds_device added (new_device (endpoint_of old.ctx) old.negotiated seat name interfaces).device ≡ true }
    ensures device { (setup : Setup) (past : List Raw) (m : Raw) (readings : List ℕ) (c : ConverterView) (e : Entry)
        (x : Meaning) (mask time : ℕ)
        (added : ConnectionView) →
        IsHeld setup past readings c → object past m.id ≡ Some e → meaning e.interface m ≡ Some x →
        mask_in (Some x) ≡ Some mask → mask ≢ 0 →
        refusal setup past m ≡ None → exhausts past m ≡ false →
        AddsDevice (handled c m.id x time).handle (seat_of past) None Virtual
        (granted_by (find (is_seat seat_id) (handled c m.id x time).handle.seats) (set_of mask)) [] added →
        TookOne setup past m readings [] c (record (handled c m.id x time) {
          handle = tells added (resumed_event (handled c m.id x time).handle.ctx.table.next_own);
        }) }
    // the ids run out exactly where too few are left for it
    ensures exhausted { (setup : Setup) (past : List Raw) (m : Raw) (readings : List ℕ) (c : ConverterView) (e : Entry)
        (x : Meaning) (mask time : ℕ) →
        IsHeld setup past readings c → object past m.id ≡ Some e → meaning e.interface m ≡ Some x →
        mask_in (Some x) ≡ Some mask → mask ≢ 0 →
        refusal setup past m ≡ None →
        (exhausts past m ≡ true) ↔ (own_end (handled c m.id x time).handle.ctx.table <
        (handled c m.id x time).handle.ctx.table.next_own
        + (length (granted_by (find (is_seat seat_id) (handled c m.id x time).handle.seats) (set_of mask)) + 1)) }
    // and then it is handed out, and nothing answers it
    ensures last { (setup : Setup) (past : List Raw) (m : Raw) (readings later : List ℕ) (c : ConverterView)
        (e : Entry) (x : Meaning) (mask time : ℕ) →
        IsHeld setup past readings c → object past m.id ≡ Some e → meaning e.interface m ≡ Some x →
        mask_in (Some x) ≡ Some mask → mask ≢ 0 →
        exhausts past m ≡ true →
        ((handled c m.id x time).queue ≡ c.queue ++
        map (request_in_code past) (gives (readings ++ later) (each (slot setup) past) (slot setup past m)))
        × (reply setup past m ≡ []) }
{}
