//! The laws. Each function does nothing: its clauses are the laws.

ghost use Rattle.std.specs.Prelude.{◌≡◌, ℕ, ◌<◌, ◌≤◌, ◌^◌, true, false, List, [], ◌∷◌, ◌++◌, map, length, None, is_some};
ghost use Rattle.std.specs.FinMap as finite;
ghost use Rattle.std.specs.Str.{is_utf8};
ghost use Rattle.ei_spec.specs.Interface.{name_of};
ghost use Rattle.ei_spec.specs.Message.{all_bytes};
ghost use Rattle.ei_spec.specs.NameMap.{NameMap};
ghost use Rattle.ei_backend.specs.Table.{first_server_id};
ghost use Rattle.ei_session.specs.Replies as replies;
ghost use Rattle.ei_ends.specs.Sent.{Sent, Got, raw_of};
ghost use Rattle.ei_ends.specs.Way.{End, onto};
ghost use Rattle.ei_ends.specs.Steps.{after_calls};
ghost use Rattle.ei_ends.specs.Joined.{AreListedCalls};
ghost use Rattle.ei_greeting.specs.Shaking.{Greeter};
ghost use Rattle.ei_greeting.specs.Shaking as greeter;
ghost use Rattle.ei_shaking.specs.Messages.{greeting, settled_by, asked_by};
ghost use Rattle.ei_shaking.specs.Sending.{AreVersions};
ghost use Rattle.ei_shaking.specs.Heard.{shake, versions_told, refused, event_shake, is_finish, is_connection, collected};
ghost use Rattle.ei_shaking.specs.Both.{up_to, is_handed, is_finished, client_answer, server_answer, Side, Hears, AreShaking, OnlySettled};

/// The messages of a client's handshake: their bytes, and that a client may send them where its name is one that a message has room for.
pub fn client_messages()
    ensures bytes { (g : Greeter) → map raw_of (asked_by g) ≡ greeter.greeting g 0 }
    ensures sends { (g : Greeter) (x : End) → (after_calls false (asked_by g) x).backend ≡
        record x.backend { unsent = x.backend.unsent ++ all_bytes (greeter.greeting g 0) } }
    ensures may_send { (g : Greeter) (taken : List Got) → is_utf8 g.name ≡ true → length g.name ≤ 1048555 →
        AreListedCalls false (asked_by g) [] taken }
    ensures short { (g : Greeter) → length g.name ≤ 1048555 → greeter.is_long g 0 ≡ false }
{}

/// The messages of a server's handshake: their bytes, and that a server may send them.
pub fn server_messages()
    ensures bytes { (versions : NameMap) (serial id : ℕ) → map raw_of (settled_by versions serial id) ≡
        replies.settled_events 0 (λ i. finite.get versions (name_of i)) ++ (replies.connection_event 0 serial id ∷ []) }
    ensures may_begin { (taken : List Got) → AreListedCalls true (greeting ∷ []) [] taken }
    ensures may_settle { (versions : NameMap) (serial : ℕ) (taken : List Got) → serial < 2 ^ 32 → AreVersions versions →
        AreListedCalls true (settled_by versions serial first_server_id) (greeting ∷ []) taken }
    ensures versions { (past : List Sent) → AreVersions (versions_told past) }
{}

/// A client collects the very versions that a server sends.
pub fn maps()
    ensures settled { (past : List Sent) → OnlySettled (versions_told past) }
    ensures collected { (versions : NameMap) (serial id : ℕ) → OnlySettled versions →
        collected (onto (settled_by versions serial id) (greeting ∷ [])) ≡ versions }
{}

/// Two ends shake hands from the first on, whatever either of them takes, and also once one of them is done and sends and takes more.
pub fn going_on()
    ensures begins { (g : Greeter) (serial : ℕ) →
        AreShaking g serial (record { sent = greeting ∷ []; taken = [] }) (record { sent = []; taken = [] }) }
    ensures server_takes { (g : Greeter) (serial : ℕ) (server client : Side) → AreShaking g serial server client →
        (m : Sent) →
        Hears (m ∷ server.taken) client.sent → is_finished server.taken ≡ false →
        AreShaking g serial (record {
          sent = onto
              (server_answer serial server.taken m) server.sent;
          taken = m ∷ server.taken;
        }) client }
    ensures client_takes { (g : Greeter) (serial : ℕ) (server client : Side) → AreShaking g serial server client →
        (m : Sent) →
        Hears (m ∷ client.taken) server.sent → is_handed client.taken ≡ false →
        AreShaking g serial server (record {
          sent = onto
              (client_answer g (event_shake m)) client.sent;
          taken = m ∷ client.taken;
        }) }
    ensures server_later { (g : Greeter) (serial : ℕ) (server client : Side) → AreShaking g serial server client →
        (sent taken : List Sent) →
        is_finished server.taken ≡ true → Hears (taken ++ server.taken) client.sent →
        AreShaking g serial (record { sent = sent ++ server.sent; taken = taken ++ server.taken }) client }
    ensures client_later { (g : Greeter) (serial : ℕ) (server client : Side) → AreShaking g serial server client →
        (sent taken : List Sent) →
        is_handed client.taken ≡ true → Hears (taken ++ client.taken) server.sent →
        AreShaking g serial server (record { sent = sent ++ client.sent; taken = taken ++ client.taken }) }
{}

/// Neither end refuses what the other sends; once each took all that the other sent, both are done; and then both have the same versions.
pub fn both_ends()
    ensures server { (g : Greeter) (serial : ℕ) (server client : Side) → AreShaking g serial server client →
        (m : Sent) →
        Hears (m ∷ server.taken) client.sent → is_finished server.taken ≡ false →
        refused server.taken (shake m) ≡ None }
    ensures client { (g : Greeter) (serial : ℕ) (server client : Side) → AreShaking g serial server client →
        (m : Sent) →
        Hears (m ∷ client.taken) server.sent → is_handed client.taken ≡ false → is_some (event_shake m) ≡ true }
    ensures finished { (g : Greeter) (serial : ℕ) (server client : Side) → AreShaking g serial server client →
        length server.taken ≡ length client.sent → length client.taken ≡ length server.sent →
        is_finished server.taken ≡ true }
    ensures handed { (g : Greeter) (serial : ℕ) (server client : Side) → AreShaking g serial server client →
        length server.taken ≡ length client.sent → length client.taken ≡ length server.sent →
        is_handed client.taken ≡ true }
    ensures versions { (g : Greeter) (serial : ℕ) (server client : Side) → AreShaking g serial server client →
        is_handed client.taken ≡ true →
        collected (up_to is_connection client.taken) ≡ versions_told (up_to is_finish server.taken) }
{}
