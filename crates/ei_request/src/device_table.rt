//! The devices of a connection.

ghost use Rattle.std.specs.Prelude.{◌≡◌, ◌≤◌, ◌<◌, ◌+◌, ◌++◌, ◌∷◌, [], OnOk, OnErr, IfErr, IfSome, None, Some, not, true, length, find};
ghost use Rattle.std.specs.Option.{option_copied, option_copied_mut};
ghost use Rattle.std.specs.List.{filter};
ghost use Rattle.std.specs.Borrow.{sem};
ghost use Rattle.ei_wire.specs.declared.error.SendError.TheVariants as send_error;
ghost use Rattle.ei_keyed.specs.Keyed.{keyed, without_key};
ghost use Rattle.ei_request.specs.Held.{is_device, is_of_key, is_of_seat, has_interface, changed_first, without_first, emptied, untouched};
ghost use Rattle.ei_request.specs.Held.{without_interface, takes_input, group_of, waiting_of, gone_ids, all_device_ids};
ghost use Rattle.ei_request.specs.Refusing.{input_refusal, TellsOfInput};
ghost use Rattle.ei_request.specs.DeviceTable.{IsTable, HasRoom, fits, sought_id, number_of, values, own_ids, stays, fits_in, Numbered, ids_of, ForgetsDevice};
ghost use Rattle.ei_request.specs.TableLends.{lends_sought};

use crate::device::Device;
use crate::event::Queue;
use crate::held::HeldDevice;
use crate::input_error::InputError;
use ei_input::input_event::InputEvent;
use ei_keyed::Keyed;
use ei_spec::limits::CAPABILITIES;
use ei_wire::SendError;
use std::alloc::{AllocError, Global};
use std::marker::Model;

/// What a device is sought by: its own id, its key, or the id of an interface that it has left.
#[derive(Clone, Copy)]
pub(crate) enum Sought<'a> {
    Device(u64),
    Key(&'a Device),
    Interface(u64),
}

impl Sought<'_> {
    /// The id by which it is looked up.
    #[inline(always)]
    fn id(self) -> u64
        ensures { result ≡ sought_id self.entry }
    {
        match self {
            Sought::Device(id) => id,
            Sought::Key(device) => device.id(),
            Sought::Interface(id) => id,
        }
    }

    /// Whether it is the device that is sought.
    #[inline(always)]
    fn fits(self, held: &HeldDevice) -> bool
        ensures { result ≡ fits self.entry held.now }
    {
        match self {
            Sought::Device(id) => held.id() == id,
            Sought::Key(device) => held.is(device),
            Sought::Interface(id) => held.has_interface(id),
        }
    }
}

/// The devices of a connection, in the order in which they were added.
///
/// Each stands under a number, which rises with each device that is added, and a second table says which number an id has,
/// a device's own or that of an interface which it has left. So a device is found by two look-ups, however many there are.
/// An id may come twice where a caller puts another context in the place of the connection's: the first device is found
/// then, among all if the table of the ids doesn't name it.
#[derive(Drop)]
pub(crate) struct DeviceTable {
    held: Keyed<HeldDevice>,
    ids: Keyed<u64>,
    next: u64,
    // If so, `ids` has the ids of all devices and no others.
    exact: bool,
}

impl Model for DeviceTable {
    ghost use Rattle.ei_request.specs.DeviceTable.{TableView, table_code, values, IsTable};

    ghost Value = { TableView };

    ghost coded = { table_code };

    ghost view = { λ d.
        record { items = values d.held.items; room = d.held.room; id_room = d.ids.room; next = d.next } };

    ghost invariant = { λ d. IsTable d.held.items d.ids.items d.next d.exact };
}

/// The number of the device that is sought, where neither its id nor the number is behind a gap. Mostly so.
#[inline(always)]
fn likely_number(
    held: &Keyed<HeldDevice>,
    ids: &Keyed<u64>,
    exact: bool,
    sought: Sought<'_>,
) -> Option<u64>
    requires known { exact ≡ true → ids.now.items ≡ ids_of held.now.items }
    requires numbers { Numbered held.now.items }
    ensures { IfSome result (λ n. number_of (fits sought.entry) held.now.items ≡ Some n) }
{
    if !exact {
        return None;
    }
    let number = *ids.likely(sought.id())?;
    if likely_fits(held, number, sought) {
        Some(number)
    } else {
        None
    }
}

/// Whether the device of that number is the one that is sought, and the number isn't behind a gap.
#[inline(always)]
fn likely_fits(held: &Keyed<HeldDevice>, number: u64, sought: Sought<'_>) -> bool
    ensures { result ≡ true → fits_in (fits sought.entry) (keyed number held.now.items) ≡ true }
{
    match held.likely(number) {
        Some(device) => sought.fits(device),
        None => false,
    }
}

/// The number of the device that is sought.
#[inline(never)]
fn number_of(
    held: &Keyed<HeldDevice>,
    ids: &Keyed<u64>,
    exact: bool,
    sought: Sought<'_>,
) -> Option<u64>
    requires known { exact ≡ true → ids.now.items ≡ ids_of held.now.items }
    requires numbers { Numbered held.now.items }
    ensures { result ≡ number_of (fits sought.entry) held.now.items }
{
    if !exact {
        return search(held, sought);
    }
    let number = *ids.get(sought.id())?;
    if fits_at(held, number, sought) {
        Some(number)
    } else {
        search(held, sought)
    }
}

/// Whether the device of that number is the one that is sought.
#[inline(always)]
fn fits_at(held: &Keyed<HeldDevice>, number: u64, sought: Sought<'_>) -> bool
    ensures { result ≡ fits_in (fits sought.entry) (keyed number held.now.items) }
{
    match held.get(number) {
        Some(device) => sought.fits(device),
        None => false,
    }
}

/// The same, among all.
#[inline(never)]
fn search(held: &Keyed<HeldDevice>, sought: Sought<'_>) -> Option<u64>
    ensures { result ≡ number_of (fits sought.entry) held.now.items }
{
    let mut rest = held.iter();
    while let Some((number, device)) = rest.next() {
        if sought.fits(device) {
            return Some(number);
        }
    }
    None
}

/// The device that is sought, for writing.
#[inline(always)]
fn sought_mut<'a>(
    held: &'a mut Keyed<HeldDevice>,
    ids: &Keyed<u64>,
    exact: bool,
    sought: Sought<'_>,
) -> Option<&'a mut HeldDevice>
    requires known { exact ≡ true → ids.now.items ≡ ids_of held.old.items }
    requires numbers { Numbered held.old.items }
    ensures* writes_back { sem 𝓛 (lends_sought held.entry sought.entry result) }
    ensures value { option_copied_mut result ≡ find (fits sought.entry) (values held.old.items) }
{
    // Where it is found at once, the place at which it was seen is lent, without another look-up.
    if let Some(number) = likely_number(held, ids, exact, sought) {
        return held.get_mut(number);
    }
    match number_of(held, ids, exact, sought) {
        Some(number) => held.get_mut(number),
        None => None,
    }
}

/// Takes the ids of the device of that number out of the table of the ids, and says whether each was found there with it.
fn forget(held: &Keyed<HeldDevice>, ids: &mut Keyed<u64>, number: u64) -> bool
    ensures { result ≡ true → ForgetsDevice number held.now.items ids.old.items ids.new.items }
{
    match held.get(number) {
        Some(device) => device.forget_ids(ids, number),
        None => false,
    }
}

/// Whether the device of that number isn't of the seat of that id.
fn stays(held: &Keyed<HeldDevice>, number: u64, seat: u64) -> bool
    ensures { result ≡ stays seat (keyed number held.now.items) }
{
    match held.get(number) {
        Some(device) => !device.is_of_seat(seat),
        None => false,
    }
}

// What is held.
impl DeviceTable {
    /// No devices.
    pub(crate) fn new(alloc: Global) -> DeviceTable
        ensures { result.items ≡ [] }
    {
        DeviceTable {
            held: Keyed::new(alloc),
            ids: Keyed::new(alloc),
            next: 0,
            exact: true,
        }
    }

    /// Makes room for one more, with an interface for each capability at most.
    pub(crate) fn reserve(&mut self) -> Result<(), AllocError>
        ensures items { self.new.items ≡ self.old.items }
        ensures ok { OnOk result (HasRoom (CAPABILITIES + 1) self.new) }
    {
        if self.next == u64::MAX {
            return Err(AllocError);
        }
        self.held.reserve(1)?;
        self.ids.reserve(CAPABILITIES + 1)
    }

    /// Adds a device. There is room for it.
    pub(crate) fn push_reserved(&mut self, device: HeldDevice)
        requires { HasRoom (length (own_ids device)) self.old }
        ensures items { self.new.items ≡ self.old.items ++ device ∷ [] }
    {
        device.remember_ids(&mut self.ids, self.next);
        self.held.push_reserved(self.next, device);
        self.next += 1;
    }

    /// Takes all out.
    pub(crate) fn clear(&mut self)
        ensures items { self.new.items ≡ [] }
    {
        self.held.clear();
        self.ids.clear();
        self.exact = true;
    }

    /// Takes the device of that key out.
    pub(crate) fn take_out(&mut self, device: &Device)
        ensures { self.new.items ≡ without_first (is_of_key device.now) self.old.items }
    {
        let Some(number) = number_of(&self.held, &self.ids, self.exact, Sought::Key(device)) else {
            return;
        };
        let forgotten = forget(&self.held, &mut self.ids, number);
        self.exact = self.exact && forgotten;
        self.held.take(number);
    }

    /// Takes the devices of the seat of that id out.
    pub(crate) fn take_out_of_seat(&mut self, seat: u64)
        ensures { self.new.items ≡ filter (λ d. not (is_of_seat seat d)) self.old.items }
    {
        let held = &self.held;
        self.ids.retain(|number| stays(held, *number, seat));
        self.held.retain(|device| !device.is_of_seat(seat));
    }
}

// Look-ups.
impl DeviceTable {
    /// The device that is sought.
    pub(crate) fn get(&self, sought: Sought<'_>) -> Option<&HeldDevice>
        ensures { option_copied result ≡ find (fits sought.entry) self.now.items }
    {
        match number_of(&self.held, &self.ids, self.exact, sought) {
            Some(number) => self.held.get(number),
            None => None,
        }
    }

    /// How many inputs wait on the device of that id.
    pub(crate) fn waiting(&self, id: u64) -> usize
        ensures { result ≡ length (waiting_of (find (is_device id) self.now.items)) }
    {
        match self.get(Sought::Device(id)) {
            Some(held) => held.waiting(),
            None => 0,
        }
    }

    /// Adds the ids that go with the device of that key; none where it isn't held.
    pub(crate) fn push_ids(&self, device: &Device, ids: &mut Vec<u64>) -> Result<(), SendError>
        ensures ok { OnOk result (ids.new.items ≡ ids.old.items ++
            gone_ids (find (is_of_key device.now) self.now.items)) }
        ensures only { IfErr result (λ e. e ≡ send_error.NoMemory) }
    {
        match self.get(Sought::Key(device)) {
            Some(held) => held.push_ids(ids),
            None => Ok(()),
        }
    }

    /// Adds the ids that go with the devices of the seat of that id.
    pub(crate) fn push_ids_of_seat(&self, seat: u64, ids: &mut Vec<u64>) -> Result<(), SendError>
        ensures ok { OnOk result (ids.new.items ≡ ids.old.items ++
            all_device_ids (filter (is_of_seat seat) self.now.items)) }
        ensures only { IfErr result (λ e. e ≡ send_error.NoMemory) }
    {
        let mut rest = self.held.iter();
        while let Some((_, device)) = rest.next() {
            device.push_ids_if_of_seat(seat, ids)?;
        }
        Ok(())
    }
}

// What is asked of a device.
impl DeviceTable {
    /// The device that has the interface of that id and version takes an input, if one has it.
    #[inline(always)]
    pub(crate) fn hear(
        &mut self,
        id: u64,
        version: u32,
        input: InputEvent,
    ) -> Result<(), InputError>
        ensures accepted { OnOk result (input_refusal version input (find (has_interface id) self.old.items) ≡ None) }
        ensures ok { OnOk result (self.new.items ≡
            changed_first (has_interface id) (takes_input input) self.old.items) }
        ensures why { IfErr result (TellsOfInput version
            (input_refusal version input (find (has_interface id) self.old.items))) }
        ensures err { OnErr result (self.new.items ≡ self.old.items) }
    {
        match sought_mut(&mut self.held, &self.ids, self.exact, Sought::Interface(id)) {
            Some(device) => device.take(version, input),
            None => Ok(()),
        }
    }

    /// The interface of that id leaves its device, if one has it.
    pub(crate) fn give_up(&mut self, id: u64)
        ensures { self.new.items ≡ changed_first (has_interface id) (without_interface id) self.old.items }
    {
        let Some(number) = number_of(&self.held, &self.ids, self.exact, Sought::Interface(id))
        else {
            return;
        };
        if let Some(device) = self.held.get_mut(number) {
            let forgotten = device.give_up(&mut self.ids, number, id);
            self.exact = self.exact && forgotten;
        }
    }

    /// Makes room for what waits on the device of that id, with a frame, and hands it out.
    ///
    /// `AllocError`: nothing is handed out.
    #[inline(always)]
    pub(crate) fn frame(
        &mut self,
        queue: &mut Queue,
        id: u64,
        serial: u32,
        time: u64,
    ) -> Result<(), AllocError>
        ensures queue { OnOk result (queue.new.items ≡ queue.old.items ++
            group_of (find (is_device id) self.old.items) serial time) }
        ensures ok { OnOk result (self.new.items ≡ changed_first (is_device id) emptied self.old.items) }
        ensures same { OnErr result (queue.new.items ≡ queue.old.items) }
        ensures err { OnErr result (self.new.items ≡ self.old.items) }
    {
        match sought_mut(&mut self.held, &self.ids, self.exact, Sought::Device(id)) {
            Some(device) => device.frame(queue, serial, time),
            None => Ok(()),
        }
    }

    /// Hands out what waits on the device of that id, with a frame. There is room for it.
    #[inline(always)]
    pub(crate) fn hand_out(&mut self, queue: &mut Queue, id: u64, serial: u32, time: u64)
        requires room { length (waiting_of (find (is_device id) self.old.items)) + 2 ≤ queue.old.room }
        ensures queue { queue.new.items ≡ queue.old.items ++ group_of (find (is_device id) self.old.items) serial time }
        ensures ok { self.new.items ≡ changed_first (is_device id) emptied self.old.items }
        ensures left { 0 < queue.new.room }
    {
        if let Some(device) = sought_mut(
            &mut self.held,
            &self.ids,
            self.exact,
            Sought::Device(id),
        ) {
            device.hand_out(queue, serial, time);
        }
    }

    /// No touch of the device is down any more.
    pub(crate) fn clear_touches(&mut self, device: &Device)
        ensures { self.new.items ≡ changed_first (is_of_key device.now) untouched self.old.items }
    {
        if let Some(held) = sought_mut(&mut self.held, &self.ids, self.exact, Sought::Key(device)) {
            held.clear_touches();
        }
    }
}
