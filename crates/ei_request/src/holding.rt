//! The seats of a connection by rising ids, and the ids that go with them.

ghost use Rattle.std.specs.Prelude.{◌≡◌, ◌++◌, OnOk, IfErr, position, find};
ghost use Rattle.std.specs.Option.{option_copied};
ghost use Rattle.ei_wire.specs.declared.error.SendError.TheVariants as send_error;
ghost use Rattle.ei_request.specs.Held.{is_seat, changed_first, without_first, released, seat_ids, gone_with_seat, all_seat_ids};

use crate::device_table::DeviceTable;
use crate::held::HeldSeat;
use ei_wire::SendError;

/// Where the seat of that id stands.
fn seat_place(seats: &[HeldSeat], id: u64) -> Option<usize>
    ensures { result ≡ position (is_seat id) seats.now }
{
    seats.iter().position(|seat| seat.id() == id)
}

/// The seat of that id.
pub(crate) fn find_seat(seats: &[HeldSeat], id: u64) -> Option<&HeldSeat>
    ensures { option_copied result ≡ find (is_seat id) seats.now }
{
    seats.iter().find(|seat| seat.id() == id)
}

/// The client releases the seat of that id.
pub(crate) fn release_seat(seats: &mut Vec<HeldSeat>, id: u64)
    ensures { seats.new.items ≡ changed_first (is_seat id) released seats.old.items }
{
    if let Some(at) = seat_place(seats, id) {
        seats[at].release();
    }
}

/// Takes the seat of that id out.
pub(crate) fn take_out_seat(seats: &mut Vec<HeldSeat>, id: u64)
    ensures { seats.new.items ≡ without_first (is_seat id) seats.old.items }
{
    if let Some(at) = seat_place(seats, id) {
        seats.remove(at);
    }
}

/// Adds the ids that go with a seat: those of its devices, and its own, unless the client released it.
fn push_held_seat_ids(
    devices: &DeviceTable,
    seat: &HeldSeat,
    ids: &mut Vec<u64>,
) -> Result<(), SendError>
    ensures ok { OnOk result (ids.new.items ≡ ids.old.items ++ seat_ids devices.now.items seat.now) }
    ensures only { IfErr result (λ e. e ≡ send_error.NoMemory) }
{
    devices.push_ids_of_seat(seat.id(), ids)?;
    if !seat.is_released() {
        ids.push(seat.id())?;
    }
    Ok(())
}

/// Adds the ids that go with the seat of that id; none where it isn't held.
pub(crate) fn push_seat_ids(
    devices: &DeviceTable,
    seats: &[HeldSeat],
    id: u64,
    ids: &mut Vec<u64>,
) -> Result<(), SendError>
    ensures ok { OnOk result (ids.new.items ≡ ids.old.items ++
        gone_with_seat devices.now.items (find (is_seat id) seats.now)) }
    ensures only { IfErr result (λ e. e ≡ send_error.NoMemory) }
{
    match find_seat(seats, id) {
        Some(seat) => push_held_seat_ids(devices, seat, ids),
        None => Ok(()),
    }
}

/// Adds the ids that go with all seats.
pub(crate) fn push_all_ids(
    devices: &DeviceTable,
    seats: &[HeldSeat],
    ids: &mut Vec<u64>,
) -> Result<(), SendError>
    ensures ok { OnOk result (ids.new.items ≡ ids.old.items ++ all_seat_ids devices.now.items seats.now) }
    ensures only { IfErr result (λ e. e ≡ send_error.NoMemory) }
{
    for seat in seats {
        push_held_seat_ids(devices, seat, ids)?;
    }
    Ok(())
}
