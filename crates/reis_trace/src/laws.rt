//! The laws of a trace, and its worked lines. Each function does nothing: its clauses are the laws.

ghost use Rattle.std.specs.Prelude.{◌≡◌, ◌<◌, ◌^◌, ◌↔◌, ◌∷◌, ◌++◌, ℕ, List, [], codes, true};
ghost use Rattle.ei_spec.specs.declared.interface.KnownInterface.TheVariants as known;
ghost use Rattle.ei_spec.specs.Interface.{Known};
ghost use Rattle.ei_spec.specs.Value.{Word, Long};
ghost use Rattle.ei_spec.specs.Message.{Raw, IsBytes, all_bytes};
ghost use Rattle.ei_session.specs.Setup.{Setup};
ghost use Rattle.ei_session.specs.Events.{replies};
ghost use Rattle.ei_session.specs.Served.{accepted};
ghost use Rattle.ei_session.specs.Told.{Calls, IsReply};
ghost use Rattle.reis_trace.specs.Traced.{event_line, is_done, traced, traced_bytes};

/// What a fresh client traces of the replies to the messages of a stream is the trace of the session that handled
/// these: a line for each reply before the first `done` of a callback. Such an event is exactly one that answers a
/// `sync`, and goes to its callback.
pub fn traced_replies()
    ensures traced { (setup : Setup) (stream : List ℕ) → setup.serial < 2 ^ 32 → IsBytes stream →
        traced_bytes (all_bytes (replies setup (accepted setup stream))) ≡ traced setup (accepted setup stream) }
    ensures done { (setup : Setup) (stream : List ℕ) (earlier : List Raw) (event : Raw) →
        IsReply setup stream earlier event →
        (is_done earlier event ≡ true) ↔ Calls setup (accepted setup stream) earlier event }
{}

/// The first line of each trace, and that of the connection.
pub fn worked_lines()
    ensures first { event_line (Known known.Handshake) 0 0 (Word 1 ∷ [])
        ≡ codes " -> ei_handshake@0.handshake_version(1)" ++ 10 ∷ [] }
    ensures connection { event_line (Known known.Handshake) 0 2 (Word 5 ∷ Long 0xff00000000000000 ∷ Word 1 ∷ [])
        ≡ codes " -> ei_handshake@0.connection(5, id ff00000000000000)" ++ 10 ∷ [] }
{}
