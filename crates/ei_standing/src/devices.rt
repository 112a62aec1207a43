//! How a converter that stands for a history stands for one more message. Each function does nothing: its
//! clauses are the laws.

ghost use Rattle.std.specs.Prelude.{◌≡◌, ◌≢◌, ℕ, List, [], ◌∷◌, ◌++◌, Option, Some, None, Ok, true, false};
ghost use Rattle.std.specs.Option.{option_map};
ghost use Rattle.ei_spec.specs.Message.{Raw};
ghost use Rattle.ei_spec.specs.History.{each};
ghost use Rattle.ei_spec.specs.Groups.{group};
ghost use Rattle.ei_session.specs.Setup.{Setup};
ghost use Rattle.ei_input.specs.declared.input_event.InputEvent.{InputEvent};
ghost use Rattle.ei_session.specs.Meaning.{Meaning, meaning, Syncs, Disconnects, Pongs, ReleasesSeat, Binds};
ghost use Rattle.ei_session.specs.Meaning.{RequestsDevice, Closes, Starts, Stops, Frames, Readies, Releases, Inputs};
ghost use Rattle.ei_session.specs.Objects.{Entry, object};
ghost use Rattle.ei_session.specs.Refusals.{refusal};
ghost use Rattle.ei_session.specs.Requests.{slot};
ghost use Rattle.ei_request.specs.Connection.{ConnectionView};
ghost use Rattle.ei_request.specs.Converter.{ConverterView};
ghost use Rattle.ei_request.specs.Handling.{handled};
ghost use Rattle.ei_request.specs.Removing.{RemovesDevice};
ghost use Rattle.ei_standing.specs.Standing.{IsHeld, TookOne, device_of, used_by};

/// One more message to a device or to an interface of one.
pub fn device_messages()
    ensures input { (setup : Setup) (past : List Raw) (m : Raw) (readings : List ℕ) (c : ConverterView) (e : Entry)
        (i : InputEvent) (time : ℕ) →
        IsHeld setup past readings c → object past m.id ≡ Some e → meaning e.interface m ≡ Some (Inputs i) →
        refusal setup past m ≡ None →
        TookOne setup past m readings [] c (handled c m.id (Inputs i) time) }
    ensures frame { (setup : Setup) (past : List Raw) (m : Raw) (readings : List ℕ) (c : ConverterView) (e : Entry)
        (s t time : ℕ) →
        IsHeld setup past readings c → object past m.id ≡ Some e → meaning e.interface m ≡ Some (Frames s t) →
        TookOne setup past m readings [] c (handled c m.id (Frames s t) time) }
    ensures start { (setup : Setup) (past : List Raw) (m : Raw) (readings : List ℕ) (c : ConverterView) (e : Entry)
        (s n time : ℕ) →
        IsHeld setup past readings c → object past m.id ≡ Some e → meaning e.interface m ≡ Some (Starts s n) →
        TookOne setup past m readings (used_by (group m.id (each (slot setup) past)) time) c
        (handled c m.id (Starts s n) time) }
    ensures stop { (setup : Setup) (past : List Raw) (m : Raw) (readings : List ℕ) (c : ConverterView) (e : Entry)
        (s time : ℕ) →
        IsHeld setup past readings c → object past m.id ≡ Some e → meaning e.interface m ≡ Some (Stops s) →
        TookOne setup past m readings (used_by (group m.id (each (slot setup) past)) time) c
        (handled c m.id (Stops s) time) }
    ensures ready { (setup : Setup) (past : List Raw) (m : Raw) (readings : List ℕ) (c : ConverterView) (e : Entry)
        (time : ℕ) →
        IsHeld setup past readings c → object past m.id ≡ Some e → meaning e.interface m ≡ Some Readies →
        TookOne setup past m readings (used_by (group m.id (each (slot setup) past)) time) c
        (handled c m.id Readies time) }
    // behind it the device is taken away
    ensures closed { (setup : Setup) (past : List Raw) (m : Raw) (readings : List ℕ) (c : ConverterView) (e : Entry)
        (time : ℕ) (handle : ConnectionView) →
        IsHeld setup past readings c → object past m.id ≡ Some e → meaning e.interface m ≡ Some Closes →
        RemovesDevice (handled c m.id Closes time).handle (device_of past m.id) handle →
        TookOne setup past m readings (used_by (group m.id (each (slot setup) past)) time) c
        (record (handled c m.id Closes time) { handle = handle }) }
    ensures released { (setup : Setup) (past : List Raw) (m : Raw) (readings : List ℕ) (c : ConverterView) (e : Entry)
        (time : ℕ) →
        IsHeld setup past readings c → object past m.id ≡ Some e → meaning e.interface m ≡ Some Releases →
        TookOne setup past m readings [] c (handled c m.id Releases time) }
{}
