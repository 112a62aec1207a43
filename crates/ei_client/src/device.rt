//! `ei_device`: a device, which has interfaces for input.

ghost use Rattle.std.specs.Prelude.{◌≡◌, Some, IfOk, OnErr, codes, [], ◌∷◌};
ghost use Rattle.ei_backend.specs.Proxies.{Announced};
ghost use Rattle.ei_spec.specs.Interface.{named, bytes_of};
ghost use Rattle.ei_wire.specs.Gives.{Gives};
ghost use Rattle.ei_backend.specs.Table.{accept};
ghost use Rattle.ei_client.specs.Words.{KnownInterface, Word, Long, Sends};
ghost use Rattle.ei_client.specs.Device.{opcode_of, values_of, announced_of, request};

use crate::prelude::*;
use ei_backend::{InterfaceName, Object};
use ei_types::DeviceType;

/// A device.
pub type Device = Proxy<kinds::Device>;

impl Device {
    /// Tells the server that the client begins to send input, with the last serial that came. The sequence
    /// counts such beginnings.
    ///
    /// `NoMemory`: nothing is sent.
    pub fn start_emulating(&self, ctx: &mut Context, last_serial: u32, sequence: u32) -> Sent
        ensures sends { Sends (request (codes "start_emulating")) self.now
            (Word last_serial ∷ Word sequence ∷ []) ctx.old ctx.new result }
    {
        let args = [Arg::Uint32(last_serial), Arg::Uint32(sequence)];
        self.object.request(ctx, 1, &args)
    }

    /// Tells the server that the client sends no more input, with the last serial that came.
    ///
    /// `NoMemory`: nothing is sent.
    pub fn stop_emulating(&self, ctx: &mut Context, last_serial: u32) -> Sent
        ensures sends { Sends (request (codes "stop_emulating")) self.now
            (Word last_serial ∷ []) ctx.old ctx.new result }
    {
        self.object.request(ctx, 2, &[Arg::Uint32(last_serial)])
    }

    /// Tells the server that the input since the last frame belongs together, with the last serial that came.
    /// The timestamp is in microseconds.
    ///
    /// `NoMemory`: nothing is sent.
    pub fn frame(&self, ctx: &mut Context, last_serial: u32, timestamp: u64) -> Sent
        ensures sends { Sends (request (codes "frame")) self.now
            (Word last_serial ∷ Long timestamp ∷ []) ctx.old ctx.new result }
    {
        let args = [Arg::Uint32(last_serial), Arg::Uint64(timestamp)];
        self.object.request(ctx, 3, &args)
    }

    /// Tells the server that the client has taken note of the device.
    ///
    /// `NoMemory`: nothing is sent.
    pub fn ready(&self, ctx: &mut Context) -> Sent
        ensures sends { Sends (request (codes "ready")) self.now [] ctx.old ctx.new result }
    {
        self.object.request(ctx, 4, &[])
    }
}

/// Puts an object of the interface of that name into the table.
fn announce_named(
    alloc: Global,
    id: u64,
    name: &str,
    version: u32,
    objects: &mut Table,
) -> Result<Object, ParseError>
    ensures read { Gives (λ o. (o, objects.new)) result (accept objects.old id (named name.now) version) }
    ensures name { IfOk result (λ o. bytes_of o.interface ≡ name.now) }
    ensures announced { IfOk result (λ o. Announced (Some o) objects.old objects.new) }
    ensures err { OnErr result (objects.new ≡ objects.old) }
{
    let interface = InterfaceName::of(alloc, name)?;
    objects.new_peer_object(id, interface, version)
}

/// What the server tells of a device.
#[derive(Debug, Drop)]
pub enum Event {
    /// The device is gone, as the event of this serial. Its interfaces stay.
    Destroyed {
        serial: u32,
    },
    /// The name of the device.
    Name {
        name: EiText,
    },
    /// The device is virtual or physical.
    DeviceType {
        device_type: DeviceType,
    },
    /// The size of a physical device, in millimetres.
    Dimensions {
        width: u32,
        height: u32,
    },
    /// A region in which a virtual device moves: its corner and its size in logical pixels, and the scale by
    /// which the client is to multiply distances.
    Region {
        offset_x: u32,
        offset_y: u32,
        width: u32,
        hight: u32,
        scale: RawFloat,
    },
    /// The device has an interface: an object of it. The name may be none of the protocol.
    Interface {
        object: Object,
    },
    /// The description of the device ends.
    Done,
    /// The device takes input, as the event of this serial.
    Resumed {
        serial: u32,
    },
    /// The device takes no input, as the event of this serial.
    Paused {
        serial: u32,
    },
    /// The server begins to send input, as the event of this serial. The sequence counts such beginnings.
    StartEmulating {
        serial: u32,
        sequence: u32,
    },
    /// The server sends no more input, as the event of this serial.
    StopEmulating {
        serial: u32,
    },
    /// The input since the last frame belongs together, as the event of this serial. The timestamp is in
    /// microseconds.
    Frame {
        serial: u32,
        timestamp: u64,
    },
    /// The name of the next region, by which the client can tell to what it maps.
    RegionMappingId {
        mapping_id: EiText,
    },
}

/// The rows, from which the macros of `rows.rt` write the bodies below.
macro_rules! rows {
    ($write:ident $with:tt) => {
        $write! { $with Event "device";
            0 => Destroyed { serial: Uint32 },
            1 => Name { name: Text },
            2 => DeviceType { device_type: Enum },
            3 => Dimensions { width: Uint32, height: Uint32 },
            4 => Region {
                offset_x: Uint32, offset_y: Uint32, width: Uint32, hight: Uint32, scale: Float
            },
            5 => Interface { object: new Object },
            6 => Done,
            7 => Resumed { serial: Uint32 },
            8 => Paused { serial: Uint32 },
            9 => StartEmulating { serial: Uint32, sequence: Uint32 },
            10 => StopEmulating { serial: Uint32 },
            11 => Frame { serial: Uint32, timestamp: Uint64 },
            12 => RegionMappingId { mapping_id: Text },
        }
    };
}

impl Message for Event {
    ghost code = { opcode_of };

    ghost values = { values_of };

    ghost announced = { announced_of };

    ghost KNOWN = { KnownInterface.Device };

    fn parse(opcode: u32, bytes: &mut ByteStream<'_>, objects: &mut Table) -> Parsed<Event> {
        rows!(read_row(
            opcode,
            bytes,
            {
                let (id, name, version): (u64, EiText, u32) = read_three(bytes)?;
                let object = announce_named(bytes.alloc(), id, name.as_str(), version, objects)?;
                Ok(Event::Interface { object })
            }
        ))
    }

    #[inline(always)]
    fn parse_lawful(opcode: u32, bytes: &mut ByteStream<'_>) -> Option<Event> {
        rows!(read_lawful(opcode, bytes))
    }

    fn opcode(&self) -> u32 {
        rows!(opcode_of(self))
    }

    fn arguments(&self, alloc: Global) -> Result<Vec<Arg<'_>>, NoMemory> {
        rows!(list_row(self, alloc))
    }

    fn args(&self, alloc: Global) -> Result<Vec<Arg<'_>>, NoMemory> {
        rows!(show_row(self, alloc))
    }
}
