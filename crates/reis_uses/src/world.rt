//! Two endpoints over links: what one sends, however it is cut, the other takes.

ghost use Rattle.std.specs.Prelude.{◌≡◌, ◌<◌, false, length};

use crate::stop::Stop;
use ei_backend::{HasBackend, Object};
use ei_spec::limits::FIRST_SERVER_ID;
use ei_wire::NoMemory;
use ei_world::{Got, Side, Step, Value, Values, World, WorldEnd};
use std::alloc::Global;
use std::io::Print;

/// The server hands out a connection, whose last bytes come late; then the client asks for a callback.
pub(crate) fn talk_over_links<R: Print + AllocGlobal>(rt: &R) -> Result<(), Stop> {
    let mut world = World::new(rt.alloc())?;
    let talked = talk(rt, &mut world);
    // Let go by a call: at the end of a scope the drop of each field is proved anew.
    drop(world);
    talked
}

/// The same, in a world that isn't spent.
fn talk<R: Print + AllocGlobal>(rt: &R, world: &mut World) -> Result<(), Stop>
    requires whole { world.old.spent ≡ false }
{
    hand_out(world, connection_values(rt.alloc())?)?;
    show_taken(rt, world)?;
    ask_for_callback(rt, world)
}

/// The server hands out a connection with these values, whose last bytes come late.
fn hand_out(world: &mut World, values: Values) -> Result<(), WorldEnd>
    requires whole { world.old.spent ≡ false }
{
    let steps = [
        Step::Call {
            side: Side::Server,
            target: 0,
            opcode: 2,
            values,
        },
        Step::Flush(Side::Server),
        Step::Deliver(Side::Client, 20),
        Step::Read(Side::Client),
        Step::Deliver(Side::Client, 12),
        Step::Read(Side::Client),
    ];
    let ran = world.run(&steps);
    drop(steps);
    ran
}

/// A serial, a new id, and the version of the connection.
fn connection_values(alloc: Global) -> Result<Values, NoMemory> {
    let mut values = Values::new(alloc);
    values.push(Value::Uint32(5))?;
    values.push(Value::New)?;
    values.push(Value::Uint32(1))?;
    Ok(values)
}

/// Shows what the client took.
fn show_taken<R: Print>(rt: &R, world: &World) -> Result<(), Stop> {
    for got in world.taken(Side::Client) {
        match got {
            Got::Message { message, .. } => {
                let name = message.interface.name();
                println!(rt; "the client took message {} of {name}", message.opcode)?;
            }
            Got::InvalidObject { id, .. } => println!(rt; "the client has no object {id}")?,
        }
    }
    Ok(())
}

/// The client asks for a callback.
fn ask_for_callback<R: Print>(rt: &R, world: &mut World) -> Result<(), Stop> {
    let Some(connection) = world.client().backend().object_for_id(FIRST_SERVER_ID) else {
        return Ok(());
    };
    let connection = connection.clone()?;
    let asked = ask(rt, world, &connection);
    drop(connection);
    asked
}

/// The same, of this connection.
fn ask<R: Print>(rt: &R, world: &mut World, connection: &Object) -> Result<(), Stop> {
    let values = [Value::New, Value::Uint32(1)];
    if world.is_spent() || !world.may_call(Side::Client, connection, 0, &values) {
        return Ok(());
    }
    if let Some(callback) = world.client_call(connection, 0, &values)? {
        println!(rt; "a callback with id {}", callback.id())?;
    }
    Ok(())
}
