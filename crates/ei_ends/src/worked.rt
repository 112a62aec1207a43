//! Conversations that are worked by hand: the premises of the laws can be met, and what is dropped is dropped.

ghost use Rattle.std.specs.Prelude.{◌≡◌, true, [], ◌∷◌};
ghost use Rattle.ei_spec.specs.declared.handle.Handle.{Handle};
ghost use Rattle.ei_ends.specs.Sent.{Took, Missed};
ghost use Rattle.ei_ends.specs.Steps.{no_piece};
ghost use Rattle.ei_ends.specs.Joined.{Joined, AreListedCalls};
ghost use Rattle.ei_ends.specs.Worked.{talk_answered, talk_ended, talk_keyboard, talk_keymap, talk_keymaps};
ghost use Rattle.ei_ends.specs.Worked.{connection, sync, done, disconnect, seat, device, keyboard, keymap};

/// A server hands over the connection and answers a sync. Then the client ends the connection, of which the server
/// hasn't heard, and takes neither the seat that the server announces there nor the seat's device.
pub fn an_ended_connection()
    ensures answered { talk_answered.client.taken ≡ Took done 1 ∷ Took connection 0 ∷ [] }
    ensures answered_joined { Joined true talk_answered.server talk_answered.client no_piece no_piece }
    ensures may_announce { AreListedCalls true
        (seat 0xff00000000000001 ∷ device 0xff00000000000001 0xff00000000000002 ∷ [])
        (done ∷ connection ∷ []) (Took sync 1 ∷ []) }
    ensures server_sent { talk_ended.server.sent ≡
        device 0xff00000000000001 0xff00000000000002 ∷ seat 0xff00000000000001 ∷ done ∷ connection ∷ [] }
    ensures server_taken { talk_ended.server.taken ≡ Took sync 1 ∷ [] }
    ensures client_sent { talk_ended.client.sent ≡ disconnect ∷ sync ∷ [] }
    ensures client_taken { talk_ended.client.taken ≡
        Missed 0xff00000000000001 2 ∷ Missed 0xff00000000000000 2 ∷ Took done 1 ∷ Took connection 0 ∷ [] }
    ensures joined { Joined true talk_ended.server talk_ended.client no_piece no_piece }
{}

/// The handle of a keymap that is dropped is the one that the next keymap gets.
pub fn a_dropped_handle()
    ensures before { talk_keyboard.client.taken ≡
        Took (keyboard 0xff00000000000002 0xff00000000000003) 0 ∷ Took (device 0xff00000000000001 0xff00000000000002) 0
        ∷ Took (seat 0xff00000000000001) 0 ∷ Took connection 0 ∷ [] }
    ensures dropped { (handle : Handle) → (talk_keymap handle).client.taken ≡
        Missed 0xff00000000000006 1 ∷ Missed 0xff00000000000005 1 ∷ Missed 0xff00000000000004 1 ∷
        Missed 0xff00000000000000 1 ∷ talk_keyboard.client.taken }
    ensures next_gets_it { (handle next : Handle) → (talk_keymaps handle next).client.taken ≡
        Took (keymap 0xff00000000000003 handle) 1 ∷ (talk_keymap handle).client.taken }
    ensures joined { (handle next : Handle) →
        Joined true (talk_keymaps handle next).server (talk_keymaps handle next).client no_piece no_piece }
{}
