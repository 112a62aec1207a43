//! What worked streams of a client of buttons come to. Each function does nothing: its clauses are the values.

ghost use Rattle.std.specs.Prelude.{◌≡◌, ℕ, ◌+◌, List, [], ◌∷◌, map, Some, None, true, false, codes};
ghost use Rattle.std.specs.FinMap as finite;
ghost use Rattle.ei_spec.specs.declared.interface.KnownInterface.TheVariants as known;
ghost use Rattle.ei_spec.specs.History.{occurs};
ghost use Rattle.ei_session.specs.Setup.{connection_id, seat_id};
ghost use Rattle.ei_session.specs.Told.{told, destroys};
ghost use Rattle.ei_session.specs.Complete.{needed};
ghost use Rattle.ei_session.specs.NextIds.{next_own, next_peer};
ghost use Rattle.ei_session.specs.Worked.{buttons, piece, shaken, disconnect, sync, bind, finish};
ghost use Rattle.ei_session.specs.Worked.{device_id, interface_id, release, touchscreen_announced};
ghost use Rattle.ei_session.specs.WorkedTold.{taken, events, versions, bound, handshake_announced};

/// The objects that a client is told of, and those that are gone.
pub fn told_objects()
    ensures at_first { told (events []) 0 ≡ Some known.Handshake }
    ensures handed_over { occurs (destroys 0) (events (shaken ∷ [])) ≡ true }
    ensures connection { told (events (shaken ∷ [])) connection_id ≡ Some known.Connection }
    ensures seat { told (events (shaken ∷ [])) seat_id ≡ Some known.Seat }
    ensures not_yet { told (events (shaken ∷ [])) device_id ≡ None }
    ensures device { told (events (bound [])) device_id ≡ Some known.Device }
    ensures interface { told (events (bound [])) interface_id ≡ Some known.Button }
    ensures there { occurs (destroys interface_id) (events (bound [])) ≡ false }
    ensures gone { occurs (destroys interface_id) (events (bound (release interface_id ∷ []))) ≡ true }
    ensures device_there { occurs (destroys device_id) (events (bound (release interface_id ∷ []))) ≡ false }
    ensures all_gone { occurs (destroys interface_id) (events (bound (release device_id ∷ []))) ≡ true }
    ensures connection_there { occurs (destroys connection_id) (events (bound (release seat_id ∷ []))) ≡ false }
    ensures seat_gone { occurs (destroys seat_id) (events (bound (release seat_id ∷ []))) ≡ true }
    ensures own { told (events (shaken ∷ sync 3 1 ∷ [])) 3 ≡ None }
    ensures called { occurs (destroys 3) (events (shaken ∷ sync 3 1 ∷ [])) ≡ true }
{}

/// The ids that come next.
pub fn given_ids()
    ensures first { next_own (taken []) ≡ 0xff00000000000000 }
    ensures connected { next_own (taken (shaken ∷ [])) ≡ 0xff00000000000002 }
    ensures device { next_own (taken (bound [])) ≡ 0xff00000000000004 }
    ensures peer { next_peer (taken (shaken ∷ [])) ≡ 1 }
    ensures synced { next_peer (taken (shaken ∷ sync 1 1 ∷ sync 7 1 ∷ [])) ≡ 8 }
    ensures refused { next_peer (taken (shaken ∷ sync 7 1 ∷ sync 7 1 ∷ sync 9 1 ∷ [])) ≡ 8 }
{}

/// How many pieces end a session well.
pub fn needed_pieces()
    ensures disconnect { needed buttons (map piece (shaken ∷ disconnect ∷ bind 32 ∷ [])) ≡ 2 }
    ensures all { needed buttons (map piece (shaken ∷ bind 32 ∷ sync 1 1 ∷ [])) ≡ 3 }
    ensures refused { needed buttons (map piece (finish ∷ disconnect ∷ [])) ≡ 2 }
    ensures none { needed buttons [] ≡ 0 }
{}

/// The versions that are settled, by their names.
pub fn settled_names()
    ensures touch { finite.get (versions (touchscreen_announced ∷ shaken ∷ [])) (codes "ei_touchscreen") ≡ Some 2 }
    ensures callback { finite.get (versions (touchscreen_announced ∷ shaken ∷ [])) (codes "ei_callback") ≡ Some 1 }
    ensures seat { finite.get (versions (touchscreen_announced ∷ shaken ∷ [])) (codes "ei_seat") ≡ None }
    ensures late { finite.get (versions (shaken ∷ touchscreen_announced ∷ [])) (codes "ei_touchscreen") ≡ None }
    ensures handshake { finite.get (versions (handshake_announced ∷ shaken ∷ [])) (codes "ei_handshake") ≡ None }
{}
