//! The laws, at types of the protocol. A call of one does nothing: that its facts are proved there, is the test.

ghost use Rattle.std.specs.Prelude.{◌≡◌, Ok};
ghost use Rattle.ei_spec.specs.Reading.{Unread, read};
ghost use Rattle.ei_spec.specs.Spelling.{Follows};
ghost use Rattle.ei_spec.specs.Table.{key_state};
ghost use Rattle.ei_spec.specs.Value.{Word};
ghost use Rattle.ei_types.specs.Enums.{key_state_number};

use ei_backend::laws::{bursts, lent, ring_laws, tables};
use ei_backend::{Pieces, Readings, Tray};
use ei_spec::Handle;
use ei_spec::laws::{all_messages, enums, groups, messages, spelling, waiting_inputs};
use ei_types::KeyState;
use ei_wire::laws::{interface_names, no_proper_prefix, no_spelling, read_back, spelled};
use ei_wire::{EiText, OwnedArg};

/// The laws of the kinds, through their bound.
fn laws_of<T: OwnedArg>(value: &T)
    ensures { (s t : Unread) → Follows (T.value value.now) s t →
        read T.kind s ≡ Ok (T.value value.now, t) }
{
    read_back(value);
    no_spelling::<T>();
    spelled::<T>();
    no_proper_prefix::<T>();
}

/// The word of a key's state is read back as the state's.
fn word_of_a_key_state(state: KeyState)
    ensures { (s t : Unread) → Follows (Word (key_state_number state)) s t →
        read key_state s ≡ Ok (Word (key_state_number state), t) }
{
    laws_of(&state);
}

/// The laws at types of the protocol.
pub(crate) fn laws_at_types() {
    word_of_a_key_state(KeyState::Press);
    groups::<Handle, EiText>();
    waiting_inputs::<Handle, EiText>();
    spelling();
    enums();
    messages();
    all_messages();
    interface_names();
    ring_laws();
    tables();
    bursts();
    lent::<Pieces, Tray, Readings>();
}
