//! Worked handshakes. Each function does nothing: its clauses are what the definitions make of them.

ghost use Rattle.std.specs.Prelude.{◌≡◌, true, [], ◌∷◌, ◌++◌, length, map, codes, Some};
ghost use Rattle.ei_types.specs.declared.error.HandshakeError.TheVariants as handshake;
ghost use Rattle.ei_spec.specs.declared.handle.Handle.{Handle};
ghost use Rattle.ei_spec.specs.declared.interface.KnownInterface.TheVariants as known;
ghost use Rattle.ei_spec.specs.Interface.{Known};
ghost use Rattle.ei_spec.specs.Message.{header};
ghost use Rattle.ei_greeting.specs.Shaking.{Handshake};
ghost use Rattle.ei_greeting.specs.Opening.{Connected, UnexpectedEof, PieceLimit, HandleLimit, Refused};
ghost use Rattle.ei_greeting.specs.Worked.{opened, ending, sent, begun, shaken, seat, three, ending_with, ending_laden};

/// The server begins, and no more comes.
pub fn begins()
    ensures eof { ending 200 (begun ∷ []) ≡ UnexpectedEof }
    ensures limit { ending 1 (begun ∷ []) ≡ PieceLimit }
    ensures none { ending 0 (begun ∷ []) ≡ PieceLimit }
    ensures bytes { ending 20 (map (λ b. b ∷ []) begun) ≡ PieceLimit }
    ensures more { ending 21 (map (λ b. b ∷ []) begun) ≡ UnexpectedEof }
    ensures sends { length (sent 200 (begun ∷ [])) ≡ 564 }
    ensures handles { (h : Handle) → ending_laden h ≡ HandleLimit }
{}

/// The server hands the connection over, and tells of a seat behind it.
pub fn connects()
    ensures handover { ending 200 ((begun ++ shaken) ∷ []) ≡ Connected (record {
      serial = 5;
      connection = record {
        id = 18374686479671623680;
        interface = Known known.Connection;
        version = 1;
        client_side = true;
      };
      versions = three;
    }) }
    ensures left { (opened 200 (begun ∷ (shaken ++ seat) ∷ [])).left.unread ≡ seat }
    ensures taken { (opened 200 (begun ∷ shaken ∷ seat ∷ [])).taken ≡ 2 }
{}

/// A message to an object that isn't there, and one to another than that of the handshake.
pub fn strangers()
    ensures stranger { ending 200 (header 9 16 0 ∷ []) ≡ Refused (Handshake (handshake.InvalidObject 9)) }
    ensures other { ending_with ((header 9 28 2 ++ (0 ∷ 0 ∷ 0 ∷ 0 ∷ 0 ∷ 0 ∷ 0 ∷ 0 ∷ 0 ∷ 0 ∷ 0 ∷ 0 ∷ [])) ∷ []) ≡
        Refused (Handshake handshake.NonHandshakeEvent) }
{}
