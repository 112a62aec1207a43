//! The laws. Each function does nothing: its clauses are the laws.

ghost use Rattle.std.specs.Prelude.{◌≡◌, ◌<◌, ◌≤◌, ◌^◌, ◌++◌, ℕ, false, if◌then◌else◌, List, [], ◌∷◌, length};
ghost use Rattle.std.specs.Prelude.{Option, Some, None, Result};
ghost use Rattle.ei_spec.specs.Piece.{Piece};
ghost use Rattle.ei_backend.specs.Outside.{with_more};
ghost use Rattle.ei_types.specs.Decided.{IsDecided};
ghost use Rattle.ei_serve.specs.declared.session.Ended.{Ended};
ghost use Rattle.ei_serve.specs.Around.{Around};
ghost use Rattle.ei_serve.specs.Whole.{Serves};
ghost use Rattle.ei_spec.specs.Message.{Raw, IsLawful, Short, Whole, bytes_of, front};
ghost use Rattle.ei_spec.specs.Stream.{Accepted, Final};
ghost use Rattle.ei_types.specs.Capability.{all_bits};
ghost use Rattle.ei_types.specs.declared.capability.DeviceCapabilities.{DeviceCapabilities};
ghost use Rattle.ei_types.specs.declared.enums.DeviceType.TheVariants.{Virtual};
ghost use Rattle.ei_types.specs.declared.error.Error.{Error};
ghost use Rattle.ei_types.specs.declared.error.Error.TheVariants as error;
ghost use Rattle.ei_session.specs.Setup.{Setup, seat_id};
ghost use Rattle.ei_session.specs.Devices.{made, exhausts};
ghost use Rattle.ei_session.specs.Objects.{Entry, object};
ghost use Rattle.ei_session.specs.Meaning.{meaning, Closes};
ghost use Rattle.ei_session.specs.Refusals.{judge};
ghost use Rattle.ei_session.specs.Served.{IdsExhausted, session};
ghost use Rattle.ei_request.specs.declared.event.EisRequest.{EisRequest};
ghost use Rattle.ei_request.specs.Handling.{set_of};
ghost use Rattle.ei_request.specs.Converter.{ConverterView};
ghost use Rattle.ei_serve.specs.Steps.{Refuses};
ghost use Rattle.reis_eis.specs.declared.ending.Ending.{Ending};
ghost use Rattle.reis_eis.specs.declared.ending.Ending.TheVariants as ending;
ghost use Rattle.reis_eis.specs.declared.call_error.CallError.TheVariants as call_error;
ghost use Rattle.reis_eis.specs.declared.phase.Phase.TheVariants as phase;
ghost use Rattle.reis_eis.specs.declared.shaking.Shaking.{Shaking};
ghost use Rattle.reis_eis.specs.View.{EisView};
ghost use Rattle.reis_eis.specs.Words.{unsent_in};
ghost use Rattle.reis_eis.specs.Starting.{started};
ghost use Rattle.reis_eis.specs.Feeding.{Feeds, end_of};
ghost use Rattle.reis_eis.specs.Refusals.{adding_seat, adding_device, on_device};
ghost use Rattle.reis_eis.specs.Acting.{AddsDeviceAs, ActsOn, refusal};
ghost use Rattle.reis_alike.specs.Standing.{StandsFor};
ghost use Rattle.reis_alike.specs.Program.{Came, unread_with, HasOneAtMost, Turns, GivesUp};
ghost use Rattle.reis_alike.specs.Alike.{TakesMessage, Runs, pieces_of, ServesAlike, EndsAs};

/// A new connection stands for no messages. Bytes that end no later than one message does make at most that one whole:
/// so a program may cut, by the length in a message's header.
pub fn beginning()
    ensures starts { (setup : Setup) → setup.capabilities ≤ all_bits → setup.serial < 2 ^ 32 →
        StandsFor setup [] [] (started setup.serial).phase }
    ensures cut { (m : Raw) (bytes more : List ℕ) → IsLawful m → bytes_of m ≡ bytes ++ more → HasOneAtMost bytes }
{}

/// One turn, from a connection that stands for some messages: during the handshake, at its finish, and behind it.
pub fn turns()
    // no message is whole
    ensures waits { (setup : Setup) (past : List Raw) (readings : List ℕ) (c : Came) (old new : EisView)
        (handed : List EisRequest) →
        StandsFor setup past readings old.phase → HasOneAtMost (unread_with old c) → Turns setup c old handed new →
        front (unread_with old c) ≡ Short → new.ending ≡ None →
        (handed ≡ []) × StandsFor setup past readings new.phase ×
        ((unsent_in new.phase).bytes ≡ (unsent_in old.phase).bytes) }
    // one is, and it is taken and answered; by the last the client disconnects
    ensures takes { (setup : Setup) (past : List Raw) (readings after : List ℕ) (c : Came) (old new : EisView)
        (handed : List EisRequest) (m : Raw) →
        StandsFor setup past readings old.phase → HasOneAtMost (unread_with old c) → Turns setup c old handed new →
        front (unread_with old c) ≡ Whole m after → new.ending ≡ None →
        (judge setup past m ≡ Accepted) × TakesMessage setup past m readings c.time old handed new }
    ensures disconnects { (setup : Setup) (past : List Raw) (readings after : List ℕ) (c : Came) (old new : EisView)
        (handed : List EisRequest) (m : Raw) →
        StandsFor setup past readings old.phase → HasOneAtMost (unread_with old c) → Turns setup c old handed new →
        front (unread_with old c) ≡ Whole m after → new.ending ≡ Some ending.Disconnected →
        (judge setup past m ≡ Final) × (exhausts past m ≡ false) ×
        TakesMessage setup past m readings c.time old handed new }
    // the message at the front is refused as a session refuses it, and nothing is handed out
    ensures refuses { (setup : Setup) (past : List Raw) (readings : List ℕ) (c : Came) (old new : EisView)
        (handed : List EisRequest) (e : Error) →
        StandsFor setup past readings old.phase → HasOneAtMost (unread_with old c) → Turns setup c old handed new →
        new.ending ≡ Some (ending.Refused e) → (e ≡ error.NoMemory → ⊥) → (e ≡ error.HandleLimit → ⊥) →
        Refuses setup past (unread_with old c) e × (handed ≡ []) }
{}

/// A whole run. What it handed out and wrote is what `serve` hands out and replies over the same pieces, and it ended
/// as `serve` answers, where memory didn't run out.
pub fn runs()
    ensures going { (setup : Setup) (came : List Came) (out : List EisRequest) (written : List ℕ) (e : EisView) →
        setup.capabilities ≤ all_bits → setup.serial < 2 ^ 32 → length (pieces_of came) ≤ setup.pieces →
        Runs setup came out written e → e.ending ≡ None → ServesAlike setup came out written }
    ensures ended { (setup : Setup) (came : List Came) (out : List EisRequest) (written : List ℕ) (e : EisView)
        (how : Ending) →
        setup.capabilities ≤ all_bits → setup.serial < 2 ^ 32 → length (pieces_of came) ≤ setup.pieces →
        Runs setup came out written e → e.ending ≡ Some how → (how ≡ ending.Refused error.NoMemory → ⊥) →
        EndsAs (session setup (pieces_of came)).answer how × ServesAlike setup came out written }
    // too few ids are left for a device that is wanted
    ensures exhausted { (setup : Setup) (came : List Came) (c : Came) (out handed : List EisRequest) (written : List ℕ)
        (e : EisView) →
        setup.capabilities ≤ all_bits → setup.serial < 2 ^ 32 → length (pieces_of (c ∷ came)) ≤ setup.pieces →
        Runs setup came out written e → e.ending ≡ None → HasOneAtMost (unread_with e c) → GivesUp c e handed →
        ((session setup (pieces_of (c ∷ came))).answer ≡ IdsExhausted) ×
        ServesAlike setup (c ∷ came) (out ++ handed) written }
    // no more comes
    ensures input_ends { (setup : Setup) (came : List Came) (out : List EisRequest) (written : List ℕ) (e : EisView) →
        setup.capabilities ≤ all_bits → setup.serial < 2 ^ 32 → length (pieces_of came) ≤ setup.pieces →
        Runs setup came out written e → e.ending ≡ None →
        EndsAs (session setup (pieces_of came)).answer (end_of e.phase) }
{}

/// `serve` over the same pieces hands out and replies just that, where its clock tells these readings first.
pub fn as_serve()
    ensures same { (setup : Setup) (came : List Came) (out : List EisRequest) (written later : List ℕ)
        (left : Option (List Piece)) (result : Result Ended Error) (old new : Around)
        (alike : ServesAlike setup came out written) →
        Serves setup (pieces_of came) left result old new → IsDecided result →
        old.readings ≡ Some (alike.readings ++ later) →
        (new.out ≡ old.out ++ out) × ((held : Piece) → old.sink.taken ≡ Some held →
        new.sink.taken ≡ Some (with_more written [] held)) }
{}

/// None of the program's calls is refused, but that of a device for which too few ids are left. Whether one is depends
/// on the connection alone, and not on the requests that wait.
pub fn calls()
    // the seat, where a piece ended the handshake
    ensures seat { (setup : Setup) (past : List Raw) (readings : List ℕ) (c : Came) (old fed : EisView) (s : Shaking)
        (k : ConverterView) →
        StandsFor setup past readings old.phase → HasOneAtMost (unread_with old c) → Feeds c.piece c.time old fed →
        fed.ending ≡ None → old.phase ≡ phase.Shaking s → fed.phase ≡ phase.Standing k →
        refusal (adding_seat None) fed ≡ None }
    // a device of the capabilities that the message at the front wants
    ensures device { (setup : Setup) (past : List Raw) (readings after : List ℕ) (c : Came) (old fed : EisView)
        (m : Raw) (mask : ℕ) →
        StandsFor setup past readings old.phase → HasOneAtMost (unread_with old c) → Feeds c.piece c.time old fed →
        fed.ending ≡ None → front (unread_with old c) ≡ Whole m after → made past m ≡ Some mask →
        refusal (adding_device seat_id None (set_of mask) []) fed ≡
        (if exhausts past m then Some call_error.IdsExhausted else None) }
    // that it is resumed
    ensures resumed { (id seat : ℕ) (wanted : DeviceCapabilities) (old added : EisView) →
        ActsOn (AddsDeviceAs id seat None Virtual wanted []) old added → refusal (on_device id) added ≡ None }
    // the removal of a device that the client closes by the message
    ensures closed { (setup : Setup) (past : List Raw) (readings after : List ℕ) (c : Came) (old fed : EisView)
        (m : Raw) (e : Entry) →
        StandsFor setup past readings old.phase → HasOneAtMost (unread_with old c) → Feeds c.piece c.time old fed →
        fed.ending ≡ None → front (unread_with old c) ≡ Whole m after → object past m.id ≡ Some e →
        meaning e.interface m ≡ Some Closes → refusal (on_device m.id) fed ≡ None }
{}
