//! A client and a server with their handshakes and converters, over links.

use crate::changing::{Changes, ClientCall, Pair};
use crate::shown::tell;
use ei_backend::{Interface, Readings};
use ei_linked::Side;
use ei_pair::{Made, ServerCall};
use ei_request::{Device, Seat};
use ei_server::Pointer;
use ei_types::{ContextType, DeviceCapabilities, DeviceType};
use ei_values::Value;
use std::alloc::Global;
use std::fmt::Debug;
use test_table::{Answer, Stop};

/// `caller`: both shake hands, the client asks for a callback, and the server moves the pointer of a device. It answers what the
/// callback's handler answered, and what the client was told.
pub(crate) fn caller(alloc: Global, answer: &mut Answer) {
    let made = Pair::new(alloc, "demo", ContextType::Receiver, 1);
    if let Some(mut pair) = answer.take(made) {
        talk(alloc, answer, &mut pair);
        // Let go by a call: at the end of a scope the drop of each field is proved anew.
        drop(pair);
    }
}

/// Both ends talk to each other.
fn talk(alloc: Global, answer: &mut Answer, pair: &mut Pair) {
    settle(alloc, answer, pair);
    drop(answer.take(call_back(pair)));
    drop(answer.take(add_seat(pair)));
    settle(alloc, answer, pair);
    tell_receipts(answer, pair);
    for _place in 0..8 {
        tell_event(answer, pair.next_event());
    }
}

/// The client asks for a callback.
fn call_back(pair: &mut Pair) -> Result<(), Stop> {
    if pair.is_spent() || pair.converter().is_none() {
        return Ok(());
    }
    let call = ClientCall::SyncWith(Changes { by: 5 });
    let _callback = pair.client_do(call)?;
    Ok(())
}

/// Hands over what waits, there, back and there, as often as both handshakes take.
fn settle(alloc: Global, answer: &mut Answer, pair: &mut Pair) {
    hand_over(alloc, answer, pair, Side::Server, Side::Client);
    hand_over(alloc, answer, pair, Side::Client, Side::Server);
    hand_over(alloc, answer, pair, Side::Server, Side::Client);
}

/// Puts what waits at a side before the other, which steps until no whole message is left.
fn hand_over(alloc: Global, answer: &mut Answer, pair: &mut Pair, from: Side, to: Side) {
    if !pair.is_spent() {
        drop(answer.take(pair.flush(from)));
    }
    if !pair.is_spent() {
        drop(answer.take(pair.deliver(to, 1536)));
    }
    if let Some(mut clock) = answer.take(Readings::new(alloc, &[])) {
        step_all(answer, pair, to, &mut clock);
        drop(clock);
    }
}

/// Steps of the side until no whole message is left.
fn step_all(answer: &mut Answer, pair: &mut Pair, to: Side, clock: &mut Readings) {
    for _message in 0..1536 / 16 {
        if !step(answer, pair, to, clock) {
            break;
        }
    }
}

/// A step of the side. Whether there was a whole message.
fn step(answer: &mut Answer, pair: &mut Pair, to: Side, clock: &mut Readings) -> bool {
    !pair.is_spent() && answer.take(pair.step(to, clock)).unwrap_or(false)
}

/// The server announces a seat, and a device of it.
fn add_seat(pair: &mut Pair) -> Result<(), Stop> {
    let call = ServerCall::AddSeat {
        name: Some("seat0"),
        capabilities: DeviceCapabilities::all(),
    };
    if pair.is_spent() || pair.handle().is_none() {
        return Ok(());
    }
    match pair.server_do(call)? {
        Made::Seat(seat) => add_device(pair, seat),
        _ => Ok(()),
    }
}

/// The server announces a device of the seat, and moves its pointer.
fn add_device(pair: &mut Pair, seat: Seat) -> Result<(), Stop> {
    let Some(conn) = pair.handle() else {
        drop(seat);
        return Ok(());
    };
    if pair.is_spent() || !conn.has_seat(&seat) {
        drop(seat);
        return Ok(());
    }
    let call = ServerCall::AddDevice {
        seat,
        name: None,
        device_type: DeviceType::Virtual,
        capabilities: DeviceCapabilities::all(),
        setup: &[],
    };
    match pair.server_do(call)? {
        Made::Device(device) => {
            let moved = move_pointer(pair, &device);
            drop(device);
            moved
        }
        made => {
            drop(made);
            Ok(())
        }
    }
}

/// The server moves the device's pointer, and ends the frame.
fn move_pointer(pair: &mut Pair, device: &Device) -> Result<(), Stop> {
    let Some(conn) = pair.handle() else {
        return Ok(());
    };
    let Some(pointer) = device.interface::<Pointer>(conn) else {
        return Ok(());
    };
    let target = pointer.as_object().clone()?;
    let values = [Value::Float(1065353216), Value::Float(0)];
    if pair.is_spent() || !pair.may_call(Side::Server, &target, 1, &values) {
        return Ok(());
    }
    let call = ServerCall::Input {
        target,
        opcode: 1,
        values: &values,
    };
    let _nothing = pair.server_do(call)?;
    end_frame(pair, device)
}

/// The server ends the frame of the device.
fn end_frame(pair: &mut Pair, device: &Device) -> Result<(), Stop> {
    let Some(conn) = pair.handle() else {
        return Ok(());
    };
    if !pair.is_spent() && conn.has_device(device) {
        drop(pair.server_do(ServerCall::Frame(device.clone()?, 20))?);
    }
    Ok(())
}

/// Tells what the client was told, if it was told something.
fn tell_event<T: Debug + Drop>(answer: &mut Answer, event: Option<T>) {
    if let Some(event) = event {
        answer.put("told ");
        answer.show(&event);
        answer.put(" / ");
        drop(event);
    }
}

/// Tells what the callback's handler answered.
fn tell_receipts(answer: &mut Answer, pair: &Pair) {
    if let Some(converter) = pair.converter() {
        for receipt in converter.receipts() {
            tell(answer, "callback ", &receipt.callback);
            tell(answer, " answered ", &receipt.answer);
            answer.put(" / ");
        }
    }
}
