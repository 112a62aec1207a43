//! Seats.

ghost use Rattle.std.specs.Prelude.{◌≡◌, ⊤, ◌↔◌, IfOk, IfErr, IsSome, IsErrOf, OnOk, OnErr, Some, find};
ghost use Rattle.std.specs.List.{Any};
ghost use Rattle.std.specs.Option.{option_copied};
ghost use Rattle.std.specs.Hash as fed;
ghost use Rattle.std.specs.Cmp.{partial_equiv_from_equiv};
ghost use Rattle.std.specs.Cmp.Rules.{hashing};
ghost use Rattle.std.proofs.Common.{rules};
ghost use Rattle.ei_wire.specs.declared.error.SendError.TheVariants as send_error;
ghost use Rattle.ei_backend.specs.Endpoint.{endpoint_of};
ghost use Rattle.ei_request.specs.Held.{is_seat};
ghost use Rattle.ei_request.specs.Connection.{Unchanged};
ghost use Rattle.ei_request.specs.Removing.{RemovesSeat};
ghost use Rattle.ei_request.specs.Making.{AddsDevice, granted_at, new_device, NeedsKeyboard, IsGiven, LacksIds, HasLongText};
ghost use Rattle.ei_request.specs.Keys.{same_seat, same_seat_equiv, seat_text};

use crate::connection::Connection;
use crate::device::Device;
use crate::making::{Allowed, DeviceSetup};
use ei_backend::Interface;
use ei_server::Seat as Proxy;
use ei_types::{DeviceCapabilities, DeviceType};
use ei_wire::SendError;
use std::alloc::AllocError;
use std::fmt;
use std::hash::{Hash, Hasher};
use std::marker::Model;

/// The key of a seat: a plain value, told apart from others by its id. Contracts see the object.
#[derive(Drop)]
pub struct Seat {
    proxy: Proxy,
}

impl Model for Seat {
    ghost use Rattle.ei_spec.specs.Interface.{ObjectView};
    ghost use Rattle.ei_backend.specs.Codes.{object_code};

    ghost Value = { ObjectView };

    ghost coded = { object_code };

    ghost view = { λ s. s.proxy };
}

impl Seat {
    pub(crate) fn over(proxy: Proxy) -> Seat
        ensures { result ≡ proxy }
    {
        Seat { proxy }
    }

    /// The same key again.
    pub(crate) fn copy(&self) -> Seat
        ensures { result ≡ self.now }
    {
        Seat {
            proxy: self.proxy.copy(),
        }
    }

    /// The proxy of the seat.
    pub fn eis_seat(&self) -> &Proxy
        ensures { result.now ≡ self.now }
    {
        &self.proxy
    }

    /// The id.
    pub(crate) fn id(&self) -> u64
        ensures { result ≡ self.now.id }
    {
        self.proxy.as_object().id()
    }
}

// What is done on the connection.
impl Seat {
    /// Announces a device of the seat: `device`, `name` where there is one, `device_type`, `interface` for each of the
    /// capabilities that the seat was given, by rising bit, the items of the description in their order, and `done`.
    /// Capabilities that the seat wasn't given are left out. All is sent, or nothing.
    ///
    /// The connection holds the seat, and a keymap comes only where the device gets a keyboard.
    ///
    /// `IdsExhausted` exactly where fewer own ids are left than it needs, one for the device and one for each
    /// interface; else `MessageTooLong` exactly where the event of its name or of a region's name would have more than
    /// 1048576 bytes; `NoMemory`.
    pub fn add_device(
        &self,
        conn: &mut Connection,
        name: Option<&str>,
        device_type: DeviceType,
        capabilities: DeviceCapabilities,
        setup: &[DeviceSetup<'_>],
    ) -> Result<Device, SendError>
        requires held { IsSome (find (is_seat self.now.id) conn.old.seats) }
        requires keyboard { Any NeedsKeyboard setup.now → IsGiven conn.old self.now.id capabilities }
        ensures device { IfOk result (λ d. d ≡ (new_device (endpoint_of conn.old.ctx) conn.old.negotiated self.now
            (option_copied name.entry) (granted_at conn.old self.now.id capabilities)).device) }
        ensures ok { OnOk result (AddsDevice conn.old self.now (option_copied name.entry) device_type
            (granted_at conn.old self.now.id capabilities) setup.now conn.new) }
        ensures err { OnErr result (Unchanged conn.old conn.new) }
        ensures ring { conn.new.ctx.capacity ≡ conn.old.ctx.capacity }
        // when it is refused
        ensures exhausted { IsErrOf result send_error.IdsExhausted ↔
            LacksIds conn.old.ctx.table (granted_at conn.old self.now.id capabilities) }
        ensures long { IsErrOf result send_error.MessageTooLong ↔
            HasLongText conn.old.ctx.table (granted_at conn.old self.now.id capabilities) (option_copied name.entry)
            setup.now }
    {
        let given = conn.capabilities_of(self.id()).unwrap();
        let allowed = Allowed {
            given,
            wanted: capabilities,
        };
        conn.add_allowed(self, name, device_type, allowed, setup)
    }

    /// Takes the seat away: its devices by rising ids, then `destroyed` of the seat, unless the client had released it.
    /// Where the connection doesn't hold it nothing is sent. All is sent, or nothing.
    ///
    /// `NoMemory`: the seat stays, and its devices.
    pub fn remove(&self, conn: &mut Connection) -> Result<(), SendError>
        ensures ok { OnOk result (RemovesSeat conn.old self.now.id conn.new) }
        ensures err { OnErr result (Unchanged conn.old conn.new) }
        ensures only { IfErr result (λ e. e ≡ send_error.NoMemory) }
        ensures ring { conn.new.ctx.capacity ≡ conn.old.ctx.capacity }
    {
        conn.remove_seat(self.id())
    }
}

// A clone takes no memory.
impl Clone for Seat {
    ghost is_clone = { λ s copy. copy ≡ s };

    ghost is_infallible = { λ _. ⊤ };

    fn clone(&self) -> Result<Seat, AllocError> {
        Ok(self.copy())
    }
}

impl PartialEq for Seat {
    ghost eq = { same_seat };

    ghost laws = { partial_equiv_from_equiv same_seat_equiv };

    fn eq(&self, other: &Seat) -> bool {
        self.id() == other.id()
    }
}

impl Eq for Seat {
    ghost laws = { same_seat_equiv };
}

impl Hash for Seat {
    ghost hash_input = { λ s. fed.u64 s.id };

    ghost respects_eq = { Prim.search (hashing, rules) };

    fn hash<H: Hasher>(&self, state: &mut H) {
        self.id().hash(state);
    }
}

impl fmt::Debug for Seat {
    ghost debug_output = { λ s. Some (seat_text s) };

    fn fmt<W: fmt::Write>(&self, f: &mut fmt::Formatter<W>) -> fmt::Result {
        let id = self.id();
        write!(f, "Seat({id})")
    }
}
