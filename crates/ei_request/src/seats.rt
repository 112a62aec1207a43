//! Seats that are announced.

ghost use Rattle.std.specs.Prelude.{◌≡◌, ◌≤◌, ℕ, [], ◌∷◌, ◌↔◌, OnOk, IsErrOf, false};
ghost use Rattle.std.specs.Option.{option_copied};
ghost use Rattle.ei_spec.specs.declared.interface.KnownInterface.TheVariants as known;
ghost use Rattle.ei_wire.specs.declared.error.SendError.TheVariants as send_error;
ghost use Rattle.ei_types.specs.Capability.{bits_of, bit_of, interface_of};
ghost use Rattle.ei_backend.specs.Endpoint.{endpoint_of};
ghost use Rattle.ei_backend.specs.Table.{own_end};
ghost use Rattle.ei_session.specs.Replies.{seat_event, name_event, capability_event, capability_events, done_event};
ghost use Rattle.ei_handshake.specs.Handshaker.{sends};
ghost use Rattle.ei_request.specs.Connection.{is_settled, version_in};
ghost use Rattle.ei_request.specs.Costs.{Fits, Spends, seat_cost, announced_cost, name_cost, done_cost, capability_cost, capabilities_cost};
ghost use Rattle.ei_request.specs.Making.{capability_if, is_long_name, named_by, seat_made, HasLongName};
ghost use Rattle.ei_request.specs.Sending.{announces, next_object};

use crate::costs::{MOST_SEAT_BYTES, NAME_BYTES};
use crate::sending::text_bytes;
use ei_backend::HasBackend;
use ei_handshake::Versions;
use ei_server::{Connection, Context, Seat};
use ei_spec::KnownInterface;
use ei_spec::limits::MOST_MESSAGE_BYTES;
use ei_types::{DeviceCapabilities, DeviceCapability};
use ei_wire::SendError;

/// Whether the event of a name would be too long.
pub(crate) fn is_long(name: Option<&str>) -> bool
    ensures { (seat : ℕ) → result ≡ is_long_name (name_event seat) (option_copied name.entry) }
{
    match name {
        Some(_) => text_bytes(name).saturating_add(NAME_BYTES) > MOST_MESSAGE_BYTES as usize,
        None => false,
    }
}

/// Tests whether a seat of that name can be announced, and makes the room for it.
///
/// `IdsExhausted` exactly where no own id is left, then `MessageTooLong` exactly where the name is too long,
/// `NoMemory`.
pub(crate) fn make_room(ctx: &mut Context, name: Option<&str>) -> Result<(), SendError>
    ensures exhausted { IsErrOf result send_error.IdsExhausted ↔ (own_end ctx.old.table ≤ ctx.old.table.next_own) }
    ensures long { IsErrOf result send_error.MessageTooLong ↔ HasLongName ctx.old.table (option_copied name.entry) }
    ensures fits { OnOk result (Fits (seat_cost (option_copied name.entry)) ctx.new) }
    ensures same { endpoint_of ctx.new ≡ endpoint_of ctx.old }
    ensures ring { ctx.new.capacity ≡ ctx.old.capacity }
{
    if ctx.backend().ids_left() == 0 {
        return Err(SendError::IdsExhausted);
    }
    if is_long(name) {
        return Err(SendError::MessageTooLong);
    }
    let bytes = text_bytes(name).saturating_add(MOST_SEAT_BYTES);
    ctx.backend_mut().reserve(bytes, 0, 1)?;
    Ok(())
}

/// Announces a seat: `seat`, `name` where there is one, `capability` for each of the capabilities whose interface
/// both ends have, by rising bit, and `done`. There is room for it.
pub(crate) fn announce(
    ctx: &mut Context,
    connection: &Connection,
    versions: &Versions,
    name: Option<&str>,
    capabilities: DeviceCapabilities,
) -> Seat
    requires fits { Fits (seat_cost (option_copied name)) ctx.old }
    requires short { is_long_name (name_event ctx.old.table.next_own) (option_copied name) ≡ false }
    ensures seat { result ≡ next_object (endpoint_of ctx.old) known.Seat (version_in versions.now known.Seat) }
    ensures ok { endpoint_of ctx.new ≡ seat_made (endpoint_of ctx.old) connection.now.id versions.now
        (option_copied name.entry) (bits_of capabilities) }
    ensures spends { Spends (seat_cost (option_copied name.entry)) ctx.old ctx.new }
{
    let version = versions.version(KnownInterface::Seat).unwrap_or(1);
    let seat = begin(ctx, connection, version);
    tell_name(&seat, ctx, name);
    offer(&seat, ctx, versions, capabilities);
    end(&seat, ctx);
    seat
}

/// Announces a seat, and says nothing of it yet. There is room for it.
fn begin(ctx: &mut Context, connection: &Connection, version: u32) -> Seat
    requires fits { Fits announced_cost ctx.old }
    ensures seat { result ≡ next_object (endpoint_of ctx.old) known.Seat version }
    ensures ok { endpoint_of ctx.new ≡ announces (endpoint_of ctx.old)
        (seat_event connection.now.id ctx.old.table.next_own version) known.Seat version }
    ensures spends { Spends announced_cost ctx.old ctx.new }
{
    // There is room for it, and an id is left.
    connection.seat(ctx, version).unwrap()
}

/// Tells the name of a seat, where there is one. There is room for it.
fn tell_name(seat: &Seat, ctx: &mut Context, name: Option<&str>)
    requires fits { Fits (name_cost (option_copied name)) ctx.old }
    requires short { is_long_name (name_event seat.now.id) (option_copied name) ≡ false }
    ensures sends { ctx.new ≡ sends ctx.old (named_by (name_event seat.now.id) (option_copied name.entry)) }
    ensures spends { Spends (name_cost (option_copied name.entry)) ctx.old ctx.new }
{
    if let Some(name) = name {
        // There is room for it, and it isn't too long.
        seat.name(ctx, name).unwrap();
    }
}

/// Ends the description of a seat. There is room for it.
fn end(seat: &Seat, ctx: &mut Context)
    requires fits { Fits done_cost ctx.old }
    ensures sends { ctx.new ≡ sends ctx.old (done_event seat.now.id ∷ []) }
    ensures spends { Spends done_cost ctx.old ctx.new }
{
    // There is room for it.
    seat.done(ctx).unwrap();
}

/// Offers a capability. There is room for it.
fn offer_one(seat: &Seat, ctx: &mut Context, one: DeviceCapability)
    requires fits { Fits capability_cost ctx.old }
    ensures sends { ctx.new ≡ sends ctx.old (capability_event seat.now.id (bit_of one, interface_of one) ∷ []) }
    ensures spends { Spends capability_cost ctx.old ctx.new }
{
    // There is room for it, and it is short.
    seat.capability(ctx, one.bit(), one.interface_name())
        .unwrap();
}

/// Offers a capability, where it is one of these and both ends have its interface.
fn offer_if_settled(
    seat: &Seat,
    ctx: &mut Context,
    versions: &Versions,
    capabilities: DeviceCapabilities,
    one: DeviceCapability,
)
    requires fits { Fits capability_cost ctx.old }
    ensures sends { ctx.new ≡ sends ctx.old
        (capability_if seat.now.id (bits_of capabilities) (is_settled versions.now) (bit_of one, interface_of one)) }
    ensures spends { Spends capability_cost ctx.old ctx.new }
{
    if capabilities.has(one) && versions.version(one.interface()).is_some() {
        offer_one(seat, ctx, one);
    }
}

/// Offers the capabilities whose interface both ends have, by rising bit. There is room for all of them.
fn offer(seat: &Seat, ctx: &mut Context, versions: &Versions, capabilities: DeviceCapabilities)
    requires fits { Fits capabilities_cost ctx.old }
    ensures sends { ctx.new ≡ sends ctx.old
        (capability_events seat.now.id (bits_of capabilities) (is_settled versions.now)) }
    ensures spends { Spends capabilities_cost ctx.old ctx.new }
{
    let all = DeviceCapability::ALL;
    for one in &all {
        offer_if_settled(seat, ctx, versions, capabilities, *one);
    }
}
