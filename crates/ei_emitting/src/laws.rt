//! The laws. Each function does nothing: its clauses are the laws.

ghost use Rattle.std.specs.Prelude.{◌≡◌, ℕ, ◌+◌, ◌<◌, ◌≤◌, ◌^◌, false, true, [], ◌∷◌, List, length, find};
ghost use Rattle.std.specs.Prelude.{Some, None, is_some};
ghost use Rattle.std.specs.List.{flat_map};
ghost use Rattle.ei_spec.specs.declared.interface.KnownInterface.{KnownInterface};
ghost use Rattle.ei_spec.specs.declared.limits.TheConstants.{MOST_MESSAGE_BYTES};
ghost use Rattle.ei_spec.specs.Interface.{Known, ObjectView, about};
ghost use Rattle.ei_spec.specs.Rows.{Row, row_at};
ghost use Rattle.ei_spec.specs.Table.{table};
ghost use Rattle.ei_spec.specs.Value.{Value, written};
ghost use Rattle.ei_types.specs.Capability.{bits_of};
ghost use Rattle.ei_types.specs.declared.capability.DeviceCapabilities.{DeviceCapabilities};
ghost use Rattle.ei_types.specs.declared.enums.DeviceType.{DeviceType};
ghost use Rattle.ei_session.specs.Setup.{seat_id};
ghost use Rattle.ei_backend.specs.Table.{found, own_limit};
ghost use Rattle.ei_backend.specs.Endpoint.{endpoint_of};
ghost use Rattle.ei_ends.specs.Sent.{Sent};
ghost use Rattle.ei_ends.specs.Way.{onto};
ghost use Rattle.ei_request.specs.Keys.{DeviceKey};
ghost use Rattle.ei_request.specs.Held.{is_seat, is_of_key};
ghost use Rattle.ei_request.specs.Connection.{ConnectionView, holds_device};
ghost use Rattle.ei_request.specs.Reading.{interface_in};
ghost use Rattle.ei_request.specs.Making.{new_device, granted_at};
ghost use Rattle.ei_acts.specs.Holding.{is_a_seat};
ghost use Rattle.ei_acts.specs.Input.{is_input};
ghost use Rattle.ei_acts.specs.Acting.{Makes, sent_by, IsFresh, AddsSeat, AddsDevice, RemovesDevice, SendsInput};
ghost use Rattle.ei_acts.specs.Acting.{Resumes, Pauses, StartsEmulating, StopsEmulating, EndsFrame};
ghost use Rattle.ei_emitting.specs.Emitted.{Step, Add, Remove, Start, Stop, Pause, Resume, Frame, Inputs};
ghost use Rattle.ei_emitting.specs.Emitted.{added, mask_in, is_held, has_by, is_bad, next_device, all_fit};
ghost use Rattle.ei_emitting.specs.Emits.{all_capabilities, Emits, IsKeyOf, interface_id, IsInputOf};
ghost use Rattle.ei_emitting.specs.Worked.{Rows};

/// The worked rows.
pub fn rows()
    ensures { Rows }
{}

/// A nameless seat of all capabilities is added right behind the handshake: no step was carried out. Where nothing is
/// sent, no object comes or goes and all else stays, what was carried out stays so.
pub fn beginning()
    ensures begins { (start : ℕ) (c left : ConnectionView) → IsFresh c → c.last_serial ≡ start → start < 2 ^ 32 →
        c.ctx.table.next_own ≡ seat_id → Makes (AddsSeat None all_capabilities) c left →
        Emits start [] left (onto (sent_by (AddsSeat None all_capabilities) c) []) }
    ensures rests { (start : ℕ) (before : List Step) (c left : ConnectionView) (said : List Sent) →
        Emits start before c said → left ≡ record c { ctx = left.ctx } →
        left.ctx.table.next_own ≡ c.ctx.table.next_own →
        ((id : ℕ) → found left.ctx.table id ≡ found c.ctx.table id) → Emits start before left said }
{}

/// A step by which a device tells something, or an input of it, was carried out.
pub fn telling()
    ensures starts { (start : ℕ) (before : List Step) (c left : ConnectionView) (said : List Sent)
        (number sequence : ℕ) (key : DeviceKey) (device : ObjectView) → Emits start before c said →
        is_bad before (Start number sequence) ≡ false → IsKeyOf before number key →
        Makes (StartsEmulating key device sequence) c left → Emits start (Start number sequence ∷ before) left
        (onto (sent_by (StartsEmulating key device sequence) c) said) }
    ensures stops { (start : ℕ) (before : List Step) (c left : ConnectionView) (said : List Sent) (number : ℕ)
        (key : DeviceKey) (device : ObjectView) → Emits start before c said → is_bad before (Stop number) ≡ false →
        IsKeyOf before number key → Makes (StopsEmulating key device) c left →
        Emits start (Stop number ∷ before) left (onto (sent_by (StopsEmulating key device) c) said) }
    ensures pauses { (start : ℕ) (before : List Step) (c left : ConnectionView) (said : List Sent) (number : ℕ)
        (key : DeviceKey) (device : ObjectView) → Emits start before c said → is_bad before (Pause number) ≡ false →
        IsKeyOf before number key → Makes (Pauses key device) c left →
        Emits start (Pause number ∷ before) left (onto (sent_by (Pauses key device) c) said) }
    ensures resumes { (start : ℕ) (before : List Step) (c left : ConnectionView) (said : List Sent) (number : ℕ)
        (key : DeviceKey) (device : ObjectView) → Emits start before c said → is_bad before (Resume number) ≡ false →
        IsKeyOf before number key → Makes (Resumes key device) c left →
        Emits start (Resume number ∷ before) left (onto (sent_by (Resumes key device) c) said) }
    ensures frames { (start : ℕ) (before : List Step) (c left : ConnectionView) (said : List Sent) (number time : ℕ)
        (key : DeviceKey) (device : ObjectView) → Emits start before c said →
        is_bad before (Frame number time) ≡ false → IsKeyOf before number key →
        Makes (EndsFrame key device time) c left →
        Emits start (Frame number time ∷ before) left (onto (sent_by (EndsFrame key device time) c) said) }
    ensures inputs { (start : ℕ) (before : List Step) (c left : ConnectionView) (said : List Sent) (number : ℕ)
        (interface : KnownInterface) (opcode : ℕ) (m : Sent) → Emits start before c said →
        is_bad before (Inputs number interface opcode m.values) ≡ false → IsInputOf before number interface opcode m →
        Makes (SendsInput m) c left →
        Emits start (Inputs number interface opcode m.values ∷ before) left (onto (sent_by (SendsInput m) c) said) }
{}

/// A device was added, without a name or a description, and then resumed, by the key and the object that its addition
/// made; or one was removed.
pub fn changing()
    ensures adds { (start : ℕ) (before : List Step) (c middle left : ConnectionView) (said : List Sent)
        (wanted : DeviceCapabilities) (kind : DeviceType) (seat_key seat device : ObjectView) (key : DeviceKey) →
        Emits start before c said → seat_key.id ≡ seat_id →
        Makes (AddsDevice seat_key seat None kind wanted []) c middle → key.seat.id ≡ seat_id →
        key.proxy.id ≡ next_device before → Makes (Resumes key device) middle left →
        Emits start (Add (bits_of wanted) ∷ before) left (onto (sent_by (Resumes key device) middle)
        (onto (sent_by (AddsDevice seat_key seat None kind wanted []) c) said)) }
    ensures removes { (start : ℕ) (before : List Step) (c left : ConnectionView) (said : List Sent) (number : ℕ)
        (key : DeviceKey) → Emits start before c said → is_bad before (Remove number) ≡ false →
        IsKeyOf before number key → Makes (RemovesDevice key) c left →
        Emits start (Remove number ∷ before) left (onto (sent_by (RemovesDevice key) c) said) }
{}

/// What the calls of the steps ask for: that what they name is held, and that they are steady.
pub fn conditions()
    ensures seat { (start : ℕ) (before : List Step) (c : ConnectionView) (said : List Sent) (id : ℕ) →
        Emits start before c said → id ≡ seat_id → (is_some (find (is_seat id) c.seats) ≡ true) ×
        (is_a_seat (found c.ctx.table id) ≡ true) }
    ensures new { (c left : ConnectionView) (wanted : DeviceCapabilities) (kind : DeviceType)
        (seat_key seat : ObjectView) → Makes (AddsDevice seat_key seat None kind wanted []) c left →
        let interfaces = granted_at c seat_key.id wanted in
        holds_device left (new_device (endpoint_of c.ctx) c.negotiated seat_key None interfaces).device ≡ true }
    ensures device { (start : ℕ) (before : List Step) (c : ConnectionView) (said : List Sent) (number : ℕ)
        (key : DeviceKey) → Emits start before c said → is_held before number ≡ true → IsKeyOf before number key →
        holds_device c key ≡ true }
    ensures input { (start : ℕ) (before : List Step) (c : ConnectionView) (said : List Sent) (number : ℕ)
        (interface : KnownInterface) (opcode : ℕ) (values : List Value) → Emits start before c said →
        is_bad before (Inputs number interface opcode values) ≡ false →
        is_input c (interface_id before number interface) interface opcode ≡ true }
    ensures object { (start : ℕ) (before : List Step) (c : ConnectionView) (said : List Sent) (number : ℕ)
        (interface : KnownInterface) (opcode : ℕ) (values : List Value) → Emits start before c said →
        is_bad before (Inputs number interface opcode values) ≡ false → (o : ObjectView) ×
        (found c.ctx.table (interface_id before number interface) ≡ Some o) × (o.interface ≡ Known interface) ×
        (o.id ≡ interface_id before number interface) }
    ensures row { (before : List Step) (number : ℕ) (interface : KnownInterface) (opcode : ℕ) (values : List Value) →
        is_bad before (Inputs number interface opcode values) ≡ false → (r : Row) ×
        (row_at opcode (table true interface) ≡ Some r) × (all_fit r.kinds values ≡ true) ×
        (16 + length (flat_map written values) ≤ MOST_MESSAGE_BYTES) }
    ensures ids { (before : List Step) → length before < 4294967295 → next_device before + 9 ≤ own_limit false }
{}

/// A held device's object of an interface, as a call of the device reads it: it has one where its mask has the
/// interface's bit.
pub fn reading()
    ensures some { (start : ℕ) (before : List Step) (c : ConnectionView) (said : List Sent) (number : ℕ)
        (key : DeviceKey) (interface : KnownInterface) (o : ObjectView) → Emits start before c said →
        is_held before number ≡ true → IsKeyOf before number key →
        interface_in interface (find (is_of_key key) c.devices) ≡ Some o →
        (has_by (mask_in (added before number)) (about interface).bit ≡ true) ×
        (o.id ≡ interface_id before number interface) × (o.interface ≡ Known interface) ×
        (found c.ctx.table o.id ≡ Some o) }
    ensures none { (start : ℕ) (before : List Step) (c : ConnectionView) (said : List Sent) (number : ℕ)
        (key : DeviceKey) (interface : KnownInterface) → Emits start before c said → is_held before number ≡ true →
        IsKeyOf before number key → interface_in interface (find (is_of_key key) c.devices) ≡ None →
        has_by (mask_in (added before number)) (about interface).bit ≡ false }
{}
