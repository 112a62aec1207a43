//! What the events of a server tell the client who reads them. Each function does nothing: its clauses are the laws.

ghost use Rattle.std.specs.Prelude.{◌≡◌, ℕ, List, Option, Some, None, false};
ghost use Rattle.ei_spec.specs.declared.interface.KnownInterface.{KnownInterface};
ghost use Rattle.ei_spec.specs.Message.{Raw};
ghost use Rattle.ei_spec.specs.History.{occurs};
ghost use Rattle.ei_spec.specs.Rows.{Row};
ghost use Rattle.ei_spec.specs.Value.{Value};
ghost use Rattle.ei_session.specs.Setup.{Setup};
ghost use Rattle.ei_session.specs.Served.{accepted};
ghost use Rattle.ei_session.specs.Told.{tells, told, interface_of, destroys};
ghost use Rattle.ei_session.specs.Told.{ReadsAs, HasTarget, IsReply};

/// Each event of the replies goes to object 0, to an object that an earlier one announced, or to the callback of
/// the `sync` that it answers, and to none that an earlier one destroyed. What it announces is new, and it reads as
/// its row of the table.
pub fn reply_targets()
    ensures target { (setup : Setup) (stream : List ℕ) (earlier : List Raw) (event : Raw) →
        IsReply setup stream earlier event → HasTarget setup (accepted setup stream) earlier event }
    ensures there { (setup : Setup) (stream : List ℕ) (earlier : List Raw) (event : Raw) →
        IsReply setup stream earlier event → occurs (destroys event.id) earlier ≡ false }
    ensures new { (setup : Setup) (stream : List ℕ) (earlier : List Raw) (event : Raw) (id : ℕ) (i : KnownInterface) →
        IsReply setup stream earlier event → tells (interface_of earlier event) event id ≡ Some i →
        told earlier id ≡ None }
    ensures reads { (setup : Setup) (stream : List ℕ) (earlier : List Raw) (event : Raw) →
        IsReply setup stream earlier event →
        (row : Row) × (values : List Value) × ReadsAs (interface_of earlier event) event row values }
{}
