//! `ei_device`: a device, which has interfaces for input.

ghost use Rattle.std.specs.Prelude.{codes, [], ◌∷◌};
ghost use Rattle.ei_spec.specs.Interface.{name_of};
ghost use Rattle.ei_server.specs.Words.{KnownInterface, Word, Long, Letters, Sends, SendsText, SendsNew, device_type_number};
ghost use Rattle.ei_server.specs.Device.{opcode_of, values_of, event};

use crate::interface as eis;
use crate::prelude::*;
use ei_backend::Object;
use ei_spec::KnownInterface;
use ei_types::DeviceType;

/// A device.
pub type Device = Proxy<kinds::Device>;

impl Device {
    /// Names the device.
    ///
    /// `MessageTooLong` exactly where the message would have more than 1048576 bytes, `NoMemory`: nothing is
    /// sent.
    #[tactic(auto, using(ei_spec::proofs::Utf8::is_text))]
    pub fn name(&self, ctx: &mut Context, name: &str) -> Sent
        ensures sends { SendsText (event (codes "name")) self.now (Letters name.now ∷ []) ctx.old ctx.new result }
    {
        self.object.request(ctx, 1, &[Arg::String(Some(name))])
    }

    /// Says whether the device is virtual or physical. The description of each device has this event.
    ///
    /// `NoMemory`: nothing is sent.
    pub fn device_type(&self, ctx: &mut Context, device_type: DeviceType) -> Sent
        ensures sends { Sends (event (codes "device_type")) self.now
            (Word (device_type_number device_type) ∷ []) ctx.old ctx.new result }
    {
        self.object.request(ctx, 2, &[device_type.as_arg()])
    }

    /// Tells the size of a physical device, in millimetres.
    ///
    /// `NoMemory`: nothing is sent.
    pub fn dimensions(&self, ctx: &mut Context, width: u32, height: u32) -> Sent
        ensures sends { Sends (event (codes "dimensions")) self.now
            (Word width ∷ Word height ∷ []) ctx.old ctx.new result }
    {
        let args = [Arg::Uint32(width), Arg::Uint32(height)];
        self.object.request(ctx, 3, &args)
    }

    /// Tells a region in which a virtual device moves: its corner and its size in logical pixels, and the scale
    /// by which the client is to multiply distances. The protocol spells `hight` so.
    ///
    /// `NoMemory`: nothing is sent.
    pub fn region(
        &self,
        ctx: &mut Context,
        offset_x: u32,
        offset_y: u32,
        width: u32,
        hight: u32,
        scale: RawFloat,
    ) -> Sent
        ensures sends { Sends (event (codes "region")) self.now
            (Word offset_x ∷ Word offset_y ∷ Word width ∷ Word hight ∷ Word scale.0 ∷ []) ctx.old ctx.new result }
    {
        let args = [
            Arg::Uint32(offset_x),
            Arg::Uint32(offset_y),
            Arg::Uint32(width),
            Arg::Uint32(hight),
            Arg::Float(scale.0),
        ];
        self.object.request(ctx, 4, &args)
    }

    /// Announces an interface of the device: an object of `T`, whose name the message bears.
    ///
    /// `IdsExhausted` exactly where no own id is left, `NoMemory`: nothing is sent, and there is no object.
    pub fn interface<T: eis::Interface>(
        &self,
        ctx: &mut Context,
        version: u32,
    ) -> Result<T, SendError>
        ensures sends { SendsNew T.behind (event (codes "interface")) self.now
            (Long ctx.old.table.next_own ∷ Letters (name_of T.KNOWN) ∷ Word version ∷ []) ctx.old ctx.new result }
    {
        let object = self.known_interface(ctx, T::KNOWN, version)?;
        Ok(T::new_unchecked(object))
    }

    /// Announces an interface of the device, as `interface` does, where only a value says which: its object.
    ///
    /// `IdsExhausted` exactly where no own id is left, `NoMemory`: nothing is sent, and there is no object.
    pub fn known_interface(
        &self,
        ctx: &mut Context,
        interface: KnownInterface,
        version: u32,
    ) -> Result<Object, SendError>
        ensures sends { SendsNew (λ o. o) (event (codes "interface")) self.now
            (Long ctx.old.table.next_own ∷ Letters (name_of interface) ∷ Word version ∷ []) ctx.old ctx.new result }
    {
        let args = [
            Arg::NewId(ctx.backend().next_id()),
            Arg::String(Some(interface.name())),
            Arg::Uint32(version),
        ];
        self.announce_known(ctx, 5, &args, interface, version)
    }

    /// Ends the description of the device.
    ///
    /// `NoMemory`: nothing is sent.
    pub fn done(&self, ctx: &mut Context) -> Sent
        ensures sends { Sends (event (codes "done")) self.now [] ctx.old ctx.new result }
    {
        self.object.request(ctx, 6, &[])
    }

    /// Tells the client, as the event of this serial, that the device takes input.
    ///
    /// `NoMemory`: nothing is sent.
    pub fn resumed(&self, ctx: &mut Context, serial: u32) -> Sent
        ensures sends { Sends (event (codes "resumed")) self.now (Word serial ∷ []) ctx.old ctx.new result }
    {
        self.object.request(ctx, 7, &[Arg::Uint32(serial)])
    }

    /// Tells the client, as the event of this serial, that the device takes no input.
    ///
    /// `NoMemory`: nothing is sent.
    pub fn paused(&self, ctx: &mut Context, serial: u32) -> Sent
        ensures sends { Sends (event (codes "paused")) self.now (Word serial ∷ []) ctx.old ctx.new result }
    {
        self.object.request(ctx, 8, &[Arg::Uint32(serial)])
    }

    /// Tells a receiver, as the event of this serial, that the server begins to send input. The sequence counts
    /// such beginnings.
    ///
    /// `NoMemory`: nothing is sent.
    pub fn start_emulating(&self, ctx: &mut Context, serial: u32, sequence: u32) -> Sent
        ensures sends { Sends (event (codes "start_emulating")) self.now
            (Word serial ∷ Word sequence ∷ []) ctx.old ctx.new result }
    {
        let args = [Arg::Uint32(serial), Arg::Uint32(sequence)];
        self.object.request(ctx, 9, &args)
    }

    /// Tells a receiver, as the event of this serial, that the server sends no more input.
    ///
    /// `NoMemory`: nothing is sent.
    pub fn stop_emulating(&self, ctx: &mut Context, serial: u32) -> Sent
        ensures sends { Sends (event (codes "stop_emulating")) self.now (Word serial ∷ []) ctx.old ctx.new result }
    {
        self.object.request(ctx, 10, &[Arg::Uint32(serial)])
    }

    /// Tells a receiver, as the event of this serial, that the input since the last frame belongs together. The
    /// timestamp is in microseconds.
    ///
    /// `NoMemory`: nothing is sent.
    pub fn frame(&self, ctx: &mut Context, serial: u32, timestamp: u64) -> Sent
        ensures sends { Sends (event (codes "frame")) self.now
            (Word serial ∷ Long timestamp ∷ []) ctx.old ctx.new result }
    {
        let args = [Arg::Uint32(serial), Arg::Uint64(timestamp)];
        self.object.request(ctx, 11, &args)
    }

    /// Names the next region, so that the client can tell to what it maps.
    ///
    /// `MessageTooLong` exactly where the message would have more than 1048576 bytes, `NoMemory`: nothing is
    /// sent.
    #[tactic(auto, using(ei_spec::proofs::Utf8::is_text))]
    pub fn region_mapping_id(&self, ctx: &mut Context, mapping_id: &str) -> Sent
        ensures sends { SendsText (event (codes "region_mapping_id")) self.now
            (Letters mapping_id.now ∷ []) ctx.old ctx.new result }
    {
        self.object
            .request(ctx, 12, &[Arg::String(Some(mapping_id))])
    }
}

/// What a client asks of a device.
#[derive(Debug, Drop)]
pub enum Request {
    /// The client wants the device no more.
    Release,
    /// The client begins to send input.
    StartEmulating { last_serial: u32, sequence: u32 },
    /// The client sends no more input.
    StopEmulating { last_serial: u32 },
    /// The input since the last frame belongs together. The timestamp is in microseconds.
    Frame { last_serial: u32, timestamp: u64 },
    /// The client has taken note of the device.
    Ready,
}

/// The rows, from which the macros of `rows.rt` write the bodies below.
macro_rules! rows {
    ($write:ident $with:tt) => {
        $write! { $with Request "device";
            0 => Release,
            1 => StartEmulating { last_serial: Uint32, sequence: Uint32 },
            2 => StopEmulating { last_serial: Uint32 },
            3 => Frame { last_serial: Uint32, timestamp: Uint64 },
            4 => Ready,
        }
    };
}

impl Message for Request {
    ghost code = { opcode_of };

    ghost values = { values_of };

    ghost KNOWN = { KnownInterface.Device };

    fn parse(opcode: u32, bytes: &mut ByteStream<'_>, objects: &mut Table) -> Parsed<Request> {
        rows!(read_row(opcode, bytes, objects))
    }

    #[inline(always)]
    fn parse_lawful(opcode: u32, bytes: &mut ByteStream<'_>) -> Option<Request> {
        rows!(read_lawful(opcode, bytes))
    }

    fn opcode(&self) -> u32 {
        rows!(opcode_of(self))
    }

    fn arguments(&self, alloc: Global) -> Result<Vec<Arg<'_>>, NoMemory> {
        rows!(list_row(self, alloc))
    }

    fn args(&self, alloc: Global) -> Result<Vec<Arg<'_>>, NoMemory> {
        rows!(show_row(self, alloc))
    }
}
