//! The objects of one endpoint.

ghost use Rattle.std.specs.Prelude.{◌≡◌, ◌≤◌, ◌-◌, ◌↔◌, ◌+◌, ◌^◌, ◌<◌, IfOk, OnErr, OnOk, IfSome, IsErrOf, Ok, Err, Some, true, false, if◌then◌else◌};
ghost use Rattle.std.specs.Option.{option_copied};
ghost use Rattle.ei_wire.specs.Gives.{Gives};
ghost use Rattle.ei_wire.specs.declared.error.SendError.TheVariants as send_error;
ghost use Rattle.ei_keyed.specs.Keyed.{without_key};
ghost use Rattle.ei_backend.specs.Object.{interface_view, HasFixedName};
ghost use Rattle.ei_backend.specs.Table.{Announced, accept, found, peer_end, without, own, own_end, own_start};
ghost use Rattle.ei_backend.specs.Table.{own_limit, with_own, with_places, new_table, first_object, first_server_id, is_own};

use crate::interface::InterfaceName;
use crate::object::Object;
use ei_keyed::Keyed;
use ei_spec::KnownInterface;
use ei_spec::limits::FIRST_SERVER_ID;
use ei_wire::{NoMemory, ParseError, SendError};
use std::alloc::Global;
use std::marker::Model;

/// The object that was put into a table, or why there is none.
pub type Accepted = Result<Object, ParseError>;

/// The objects of one endpoint, its next own id and its next peer id.
///
/// Object 0 is there from the first. A client's own ids run from 1 and end before 0xff00000000000000, a
/// server's run from there and end before `u64::MAX`.
///
/// The ids below 0xff00000000000000, 0 among them, are a client's, the others a server's. The objects of each
/// range stand by rising ids: those of this end's range in `own`, the others in `peer`. Ids only rise, so a new object
/// goes behind the others.
#[derive(Drop)]
pub struct Table {
    own: Keyed<Object>,
    peer: Keyed<Object>,
    next_own: u64,
    next_peer: u64,
    client: bool,
    room: u64,
}

impl Model for Table {
    ghost use Rattle.ei_backend.specs.Table.{TableView, table_of, objects_in, IsKept};
    ghost use Rattle.ei_backend.specs.Codes.{table_code};

    ghost Value = { TableView };

    ghost coded = { table_code };

    ghost view = { λ t. table_of (objects_in t.own.items)
        (objects_in t.peer.items) t.next_own t.next_peer t.client t.room };

    ghost invariant = { λ t. IsKept t.own.items t.peer.items
        (table_of (objects_in t.own.items)
        (objects_in t.peer.items) t.next_own t.next_peer t.client t.room) t.own.room };
}

impl Table {
    /// The table of a new endpoint, whose own ids begin at `next_own`.
    pub(crate) fn new(alloc: Global, client: bool, next_own: u64) -> Result<Table, NoMemory>
        requires from { own_start client ≤ next_own }
        requires to { next_own ≤ own_limit client }
        ensures { IfOk result (λ t. t ≡ new_table client next_own) }
    {
        let mut low = Keyed::new(alloc);
        low.push(0, Object::known(0, KnownInterface::Handshake, 1, client))?;
        let high = Keyed::new(alloc);
        let (own, peer, next_peer) = if client {
            (low, high, FIRST_SERVER_ID)
        } else {
            (high, low, 1)
        };
        Ok(Table {
            own,
            peer,
            next_own,
            next_peer,
            client,
            room: 0,
        })
    }

    /// The id of the next object that this end makes.
    pub fn next_id(&self) -> u64
        ensures { result ≡ self.now.next_own }
    {
        self.next_own
    }

    /// Where the own ids end.
    pub(crate) fn own_end(&self) -> u64
        ensures { result ≡ own_end self.now }
    {
        if self.client {
            FIRST_SERVER_ID
        } else {
            u64::MAX
        }
    }

    /// How many own ids are left.
    pub fn ids_left(&self) -> u64
        ensures { result ≡ own_end self.now - self.now.next_own }
    {
        self.own_end().saturating_sub(self.next_own)
    }

    /// Where the ids of the peer end.
    fn peer_end(&self) -> u64
        ensures { result ≡ peer_end self.now }
    {
        if self.client {
            u64::MAX
        } else {
            FIRST_SERVER_ID
        }
    }

    /// Whether an id lies in the range of the own ones. A client's has id 0 too.
    fn is_own(&self, id: u64) -> bool
        ensures { result ≡ is_own self.now.client id }
    {
        if self.client {
            id < FIRST_SERVER_ID
        } else {
            id >= FIRST_SERVER_ID
        }
    }

    /// The object of an id.
    #[inline(always)]
    pub fn object_for_id(&self, id: u64) -> Option<&Object>
        ensures object { option_copied result ≡ found self.now id }
        ensures first { id ≡ 0 → IfSome result (λ o. o.now ≡ first_object self.now.client) }
    {
        match self.likely(id) {
            Some(object) => Some(object),
            None => self.search(id),
        }
    }

    /// The object of an id, if it stands where it mostly does. The server's ids are tried first: to such objects go nearly
    /// all messages.
    #[inline(always)]
    pub(crate) fn likely(&self, id: u64) -> Option<&Object>
        ensures object { IfSome result (λ o. Some o.now ≡ found self.now id) }
        ensures first { id ≡ 0 → IfSome result (λ o. o.now ≡ first_object self.now.client) }
    {
        match self.likely_among(!self.client, id) {
            Some(object) => Some(object),
            None => self.likely_among(self.client, id),
        }
    }

    /// The same, among the own ids or those of the peer.
    #[inline(always)]
    fn likely_among(&self, own: bool, id: u64) -> Option<&Object>
        ensures object { IfSome result (λ o. Some o.now ≡ found self.now id) }
        ensures first { id ≡ 0 → IfSome result (λ o. o.now ≡ first_object self.now.client) }
    {
        if own {
            self.own.likely(id)
        } else {
            self.peer.likely(id)
        }
    }

    /// The object of an id, among those of its range.
    #[inline(never)]
    fn search(&self, id: u64) -> Option<&Object>
        ensures object { option_copied result ≡ found self.now id }
        ensures first { id ≡ 0 → IfSome result (λ o. o.now ≡ first_object self.now.client) }
    {
        if self.is_own(id) {
            self.own.get(id)
        } else {
            self.peer.get(id)
        }
    }

    /// Puts an object that the peer announced into the table.
    ///
    /// `InvalidId` where the id is below the highest one seen plus one, or not the peer's to give.
    pub fn new_peer_object(&mut self, id: u64, interface: InterfaceName, version: u32) -> Accepted
        ensures read { Gives (λ o. (o, self.new)) result (accept self.old id (interface_view interface) version) }
        ensures announced { IfOk result (λ o. Announced (Some o) self.old self.new) }
        ensures err { OnErr result (self.new ≡ self.old) }
    {
        if id < self.next_peer || id >= self.peer_end() {
            return Err(ParseError::InvalidId(id));
        }
        let object = Object::new(id, interface, version, self.client);
        self.peer.push(id, object.clone()?)?;
        self.next_peer = id + 1;
        Ok(object)
    }

    /// Makes the next object of this end.
    ///
    /// `IdsExhausted` exactly where no own id is left.
    pub fn new_object(
        &mut self,
        interface: InterfaceName,
        version: u32,
    ) -> Result<Object, SendError>
        ensures ok { IfOk result (λ o. (o ≡ own self.old (interface_view interface) version)
            × (self.new ≡ with_own self.old (interface_view interface) version)) }
        ensures exhausted { (result ≡ Err send_error.IdsExhausted) ↔ (own_end self.old ≤ self.old.next_own) }
        ensures err { OnErr result (self.new ≡ self.old) }
        ensures not_long { result ≡ Err send_error.MessageTooLong → ⊥ }
        ensures room { self.old.next_own < self.old.room → HasFixedName (interface_view interface) →
            IsErrOf result send_error.NoMemory → ⊥ }
    {
        let id = self.next_own;
        if id >= self.own_end() {
            return Err(SendError::IdsExhausted);
        }
        let object = Object::new(id, interface, version, self.client);
        self.own.push(id, object.clone()?)?;
        self.next_own = id + 1;
        Ok(object)
    }

    /// Makes room for so many more own objects, as far as there are own ids: to make them takes no memory, where
    /// their names are known.
    pub(crate) fn reserve(&mut self, objects: usize) -> Result<(), NoMemory>
        ensures ok { OnOk result (self.new ≡ with_places objects self.old) }
        ensures err { OnErr result (self.new ≡ self.old) }
    {
        let count = self.ids_left().min(objects as u64);
        self.own.reserve(count as usize)?;
        self.room = self.room.max(self.next_own + count);
        Ok(())
    }

    /// Own ids below this are made without want of memory, where their names are known.
    pub(crate) fn room(&self) -> u64
        ensures { result ≡ self.now.room }
    {
        self.room
    }

    /// Takes back room that was made.
    pub(crate) fn cut_room(&mut self, room: u64)
        requires { room ≤ self.old.room }
        ensures { self.new ≡ record self.old { room = room } }
    {
        self.room = room;
    }

    /// Takes the object of an id out of the table. An unknown id changes nothing.
    pub fn remove_id(&mut self, id: u64)
        ensures { self.new ≡ without self.old id }
    {
        if self.is_own(id) {
            take_out(&mut self.own, id);
        } else {
            take_out(&mut self.peer, id);
        }
    }
}

/// Takes the object of an id out of these.
fn take_out(objects: &mut Keyed<Object>, id: u64)
    ensures others { objects.new.items ≡ without_key id objects.old.items }
    ensures room { objects.old.room ≤ objects.new.room }
{
    drop(objects.take(id));
}
