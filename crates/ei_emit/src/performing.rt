//! The server makes the calls of a step of a script.

ghost use Rattle.std.specs.Prelude.{◌≡◌, true, false, IfOk, find};
ghost use Rattle.ei_spec.specs.Interface.{ObjectView};
ghost use Rattle.ei_linked.specs.declared.side.Side.TheVariants as of_side;
ghost use Rattle.ei_linked.specs.TwoEnds.{MayCall};
ghost use Rattle.ei_types.specs.Capability.{capability_of};
ghost use Rattle.ei_request.specs.Held.{is_of_key};
ghost use Rattle.ei_request.specs.Reading.{interface_in};
ghost use Rattle.ei_promises.specs.Pair.{connection_in, is_done};
ghost use Rattle.ei_pair.specs.Stepped.{IsKept};
ghost use Rattle.ei_emit.specs.declared.step.EmitStep.TheVariants as of_step;
ghost use Rattle.ei_emit.specs.Held.{held_at};
ghost use Rattle.ei_emit.specs.Performing.{MayMake, HasMade, is_told, telling, HoldsSeat, Adds, AnswersInput};
ghost use Rattle.ei_emit.specs.Performing.{CarriesOut};
ghost use Rattle.ei_emit.specs.Stands.{emitter, Script, IsStanding, StandsFor, Performs};
ghost use Rattle.ei_emit.specs.Targets.{may_be_input, object_at, object_in};

use crate::devices::Devices;
use crate::emitter::Emitter;
use crate::step::EmitStep;
use ei_backend::{Interface, Object};
use ei_pair::{Made, Pair, ServerCall, Side};
use ei_request::{Connection, Device, DeviceInterface, Seat};
use ei_server::{Button, Gesture, Keyboard, Pointer, PointerAbsolute, Scroll, Text, Touchscreen};
use ei_spec::KnownInterface;
use ei_types::{DeviceCapabilities, DeviceType};
use ei_values::Value;
use ei_wire::{NoMemory, SendError};

impl Emitter {
    /// The server makes the calls of a step. `false` where it is bad.
    pub(crate) fn perform(&mut self, step: &EmitStep) -> Result<bool, NoMemory>
        requires { IsStanding (emitter self.old.pair self.old.seat self.old.devices.added.items) }
        ensures { (s : Script) → StandsFor s (emitter self.old.pair self.old.seat self.old.devices.added.items) →
            Performs s step.now result (emitter self.old.pair self.old.seat self.old.devices.added.items)
            (emitter self.new.pair self.new.seat self.new.devices.added.items) }
    {
        carry_out(&mut self.pair, &self.seat, &mut self.devices, step)
    }
}

/// The same, by the parts of an emitter.
fn carry_out(
    pair: &mut Pair,
    seat: &Seat,
    devices: &mut Devices,
    step: &EmitStep,
) -> Result<bool, NoMemory>
    requires { IsStanding (emitter pair.old seat.now devices.old.added.items) }
    ensures { CarriesOut step.now result (emitter pair.old seat.now devices.old.added.items)
        (emitter pair.new seat.now devices.new.added.items) }
{
    match step {
        EmitStep::Add { capabilities } => add(pair, seat, devices, *capabilities),
        EmitStep::Remove { device } => remove(pair, devices, *device),
        EmitStep::Input {
            device,
            interface,
            opcode,
            values,
        } => send(
            pair,
            devices,
            *device,
            *interface,
            *opcode,
            values.as_slice(),
        ),
        step => tell_of(pair, devices, step),
    }
}

// ---- a device tells

/// A held device tells what the step says. `false` where it isn't held.
fn tell_of(pair: &mut Pair, devices: &Devices, step: &EmitStep) -> Result<bool, NoMemory>
    requires told { is_told step.now ≡ true }
    requires stands { (seat : ObjectView) × IsStanding (emitter pair.old seat devices.now.added.items) }
    ensures { (seat : ObjectView) → CarriesOut step.now result (emitter pair.old seat devices.now.added.items)
        (emitter pair.new seat devices.now.added.items) }
{
    let Some(call) = call_of(devices, step) else {
        return Ok(false);
    };
    tell(pair, call)?;
    Ok(true)
}

/// The call of a step by which a held device tells something.
fn call_of(devices: &Devices, step: &EmitStep) -> Option<ServerCall<'static>>
    ensures { result ≡ telling devices.now.added.items step.now }
{
    Some(match step {
        EmitStep::Start { device, sequence } => {
            ServerCall::StartEmulating(devices.held(*device)?, *sequence)
        }
        EmitStep::Stop { device } => ServerCall::StopEmulating(devices.held(*device)?),
        EmitStep::Pause { device } => ServerCall::Paused(devices.held(*device)?),
        EmitStep::Resume { device } => ServerCall::Resumed(devices.held(*device)?),
        EmitStep::Frame { device, time } => ServerCall::Frame(devices.held(*device)?, *time),
        _ => return None,
    })
}

/// The server makes the call, and answers what it made. `NoMemory` where the call is refused.
fn tell(pair: &mut Pair, call: ServerCall<'_>) -> Result<Made, NoMemory>
    requires { MayMake call pair.old }
    ensures { IfOk result (λ made. HasMade call.entry pair.old made pair.new) }
{
    match pair.server_do(call) {
        Ok(made) => Ok(made),
        Err(_) => Err(NoMemory),
    }
}

// ---- devices come and go

/// Adds a device, which takes input at once.
fn add(
    pair: &mut Pair,
    seat: &Seat,
    devices: &mut Devices,
    capabilities: DeviceCapabilities,
) -> Result<bool, NoMemory>
    requires { IsStanding (emitter pair.old seat.now devices.old.added.items) }
    ensures { CarriesOut (of_step.Add capabilities) result (emitter pair.old seat.now devices.old.added.items)
        (emitter pair.new seat.now devices.new.added.items) }
{
    let device = add_device(pair, seat, capabilities)?;
    let key = device.clone().unwrap();
    devices.push(device)?;
    drop(tell(pair, ServerCall::Resumed(key))?);
    Ok(true)
}

/// Adds a device of the seat, without a name or a description.
fn add_device(
    pair: &mut Pair,
    seat: &Seat,
    capabilities: DeviceCapabilities,
) -> Result<Device, NoMemory>
    requires { HoldsSeat seat.now pair.old }
    ensures { IfOk result (λ key. Adds seat.now capabilities key pair.old pair.new) }
{
    let call = ServerCall::AddDevice {
        seat: seat.clone().unwrap(),
        name: None,
        device_type: DeviceType::Virtual,
        capabilities,
        setup: &[],
    };
    match tell(pair, call)? {
        Made::Device(device) => Ok(device),
        _ => unreachable!(),
    }
}

/// Removes a device. `false` where it isn't held.
fn remove(pair: &mut Pair, devices: &mut Devices, number: u32) -> Result<bool, NoMemory>
    requires { (seat : ObjectView) × IsStanding (emitter pair.old seat devices.old.added.items) }
    ensures { (seat : ObjectView) → CarriesOut (of_step.Remove number) result
        (emitter pair.old seat devices.old.added.items) (emitter pair.new seat devices.new.added.items) }
{
    let Some(device) = devices.take(number) else {
        return Ok(false);
    };
    keep(pair);
    tell(pair, ServerCall::RemoveDevice(device))?;
    Ok(true)
}

// ---- inputs

/// Sends an input of a device. `false` where the device isn't held or lacks the interface, where no event of the
/// interface is an input with these values, and where its message would be too long.
fn send(
    pair: &mut Pair,
    devices: &Devices,
    number: u32,
    interface: KnownInterface,
    opcode: u32,
    values: &[Value],
) -> Result<bool, NoMemory>
    requires { (seat : ObjectView) × IsStanding (emitter pair.old seat devices.now.added.items) }
    ensures { (seat : ObjectView) → CarriesOut (of_step.Input number interface opcode values.now) result
        (emitter pair.old seat devices.now.added.items) (emitter pair.new seat devices.now.added.items) }
{
    let Some(target) = target_of(pair, devices, number, interface) else {
        return Ok(false);
    };
    keep(pair);
    if !may_be_input(interface, opcode) || !pair.may_call(Side::Server, &target, opcode, values) {
        return Ok(false);
    }
    input(pair, target, opcode, values)
}

/// Sends an input to the object. `false` where its message would be too long.
fn input(pair: &mut Pair, target: Object, opcode: u32, values: &[Value]) -> Result<bool, NoMemory>
    requires whole { pair.old.ends.spent ≡ false }
    requires done { is_done of_side.Server pair.old ≡ true }
    requires may { MayCall of_side.Server pair.old.ends target opcode values.now }
    ensures { AnswersInput target opcode values.now result pair.old pair.new }
{
    let call = ServerCall::Input {
        target,
        opcode,
        values,
    };
    match pair.server_do(call) {
        Ok(_) => Ok(true),
        Err(SendError::MessageTooLong) => Ok(false),
        Err(_) => Err(NoMemory),
    }
}

/// The object of an interface of the device of that number, where it is held and has it.
fn target_of(
    pair: &Pair,
    devices: &Devices,
    number: u32,
    interface: KnownInterface,
) -> Option<Object>
    ensures { result ≡ object_in interface (held_at devices.now.added.items number) (connection_in pair.now.server) }
{
    object_at(&devices.held(number)?, pair.handle()?, interface)
}

/// The object of an interface of the device, where the connection holds the device with it.
fn object_at(device: &Device, conn: &Connection, interface: KnownInterface) -> Option<Object>
    ensures { result ≡ object_at interface (capability_of interface) device.now conn.now }
{
    match interface {
        KnownInterface::Pointer => object_of::<Pointer>(device, conn),
        KnownInterface::PointerAbsolute => object_of::<PointerAbsolute>(device, conn),
        KnownInterface::Scroll => object_of::<Scroll>(device, conn),
        KnownInterface::Button => object_of::<Button>(device, conn),
        KnownInterface::Keyboard => object_of::<Keyboard>(device, conn),
        KnownInterface::Touchscreen => object_of::<Touchscreen>(device, conn),
        KnownInterface::Text => object_of::<Text>(device, conn),
        KnownInterface::Gesture => object_of::<Gesture>(device, conn),
        _ => None,
    }
}

/// The same, of an interface that a device may have.
fn object_of<T: DeviceInterface + Drop>(device: &Device, conn: &Connection) -> Option<Object>
    ensures { result ≡ interface_in T.KNOWN (find (is_of_key device.now) conn.now.devices) }
{
    let proxy: T = device.interface(conn)?;
    Some(proxy.as_object().copy())
}

/// Whether an event of an interface of a device may be an input: it is neither the end of the interface, nor a keymap,
/// nor modifiers.
fn may_be_input(interface: KnownInterface, opcode: u32) -> bool
    ensures { result ≡ may_be_input interface opcode }
{
    opcode != 0 && (interface != KnownInterface::Keyboard || opcode == 2)
}

/// Reads what the server took: what a pair keeps at any time may be relied on.
fn keep(pair: &Pair)
    ensures { IsKept pair.now }
{
    let _taken = pair.taken(Side::Server);
}
