//! What a session does behind the requests that it hands out: its fixed policy.

ghost use Rattle.std.specs.Prelude.{◌≡◌, ◌↔◌, false, OnOk, IsErrOf, find};
ghost use Rattle.ei_wire.specs.declared.error.SendError.TheVariants as send_error;
ghost use Rattle.ei_request.specs.Held.{is_seat};
ghost use Rattle.ei_serve.specs.declared.policy.Policy.TheVariants as policies;
ghost use Rattle.ei_serve.specs.Policy.{policy_of, policy_behind, device_if, Follows, LacksIds, AddsIfHeld, RunOutIfHeld};

use ei_request::{Connection, Device, EisRequest, Seat};
use ei_types::{DeviceCapabilities, DeviceType};
use ei_wire::SendError;

/// What is done behind a request.
#[derive(Drop)]
pub(crate) enum Policy {
    /// Nothing.
    Nothing,
    /// A device of the seat with these capabilities is announced, and takes input from then on.
    AddDevice(Seat, DeviceCapabilities),
    /// The device is taken away.
    RemoveDevice(Device),
    /// The session ends.
    End,
}

/// What is done behind the request. A `bind` or `request_device` makes a device where some capability is wanted.
fn policy_of(request: &EisRequest) -> Policy
    ensures { result ≡ policy_of request.now }
{
    match request {
        EisRequest::Bind(bind) => device_if(&bind.seat, bind.capabilities),
        EisRequest::RequestDevice(asked) => device_if(&asked.seat, asked.capabilities),
        EisRequest::DeviceClosed(closed) => Policy::RemoveDevice(closed.device.clone().unwrap()),
        EisRequest::Disconnect => Policy::End,
        _ => Policy::Nothing,
    }
}

/// Whether something may be done behind the request.
#[inline(always)]
fn may_follow(request: &EisRequest) -> bool
    ensures { result ≡ false → policy_of request.now ≡ policies.Nothing }
{
    matches!(
        request,
        EisRequest::Bind(_)
            | EisRequest::RequestDevice(_)
            | EisRequest::DeviceClosed(_)
            | EisRequest::Disconnect
    )
}

/// Whether something may be done behind these requests.
#[inline(always)]
pub(crate) fn may_follow_any(requests: &[EisRequest]) -> bool
    ensures { result ≡ false → policy_behind requests.now ≡ policies.Nothing }
{
    match requests.last() {
        Some(last) => may_follow(last),
        None => false,
    }
}

/// What is done behind these requests: that of the last.
pub(crate) fn policy_behind(requests: &[EisRequest]) -> Policy
    ensures { result ≡ policy_behind requests.now }
{
    match requests.last() {
        Some(last) => policy_of(last),
        None => Policy::Nothing,
    }
}

/// A device for the seat, where some capability is wanted.
fn device_if(seat: &Seat, wanted: DeviceCapabilities) -> Policy
    ensures { result ≡ device_if seat.now wanted }
{
    if wanted.bits() == 0 {
        Policy::Nothing
    } else {
        // A key's clone takes no memory.
        Policy::AddDevice(seat.clone().unwrap(), wanted)
    }
}

impl Policy {
    /// Does it.
    ///
    /// `IdsExhausted` exactly where a device is to be announced and the own ids run out with it; `NoMemory`.
    pub(crate) fn follow(&self, handle: &mut Connection) -> Result<(), SendError>
        ensures ok { OnOk result (Follows self.now handle.old handle.new) }
        ensures exhausted { IsErrOf result send_error.IdsExhausted ↔ LacksIds self.now handle.old }
        ensures short { IsErrOf result send_error.MessageTooLong → ⊥ }
        ensures ring { handle.new.ctx.capacity ≡ handle.old.ctx.capacity }
    {
        match self {
            Policy::AddDevice(seat, wanted) => add_device(handle, seat, *wanted),
            Policy::RemoveDevice(device) => device.remove(handle),
            Policy::Nothing | Policy::End => Ok(()),
        }
    }
}

/// Announces a device of the seat, if that is held, and that it takes input.
fn add_device(
    handle: &mut Connection,
    seat: &Seat,
    wanted: DeviceCapabilities,
) -> Result<(), SendError>
    ensures ok { OnOk result (AddsIfHeld (find
        (is_seat seat.now.id) handle.old.seats) handle.old seat.now wanted handle.new) }
    ensures exhausted { IsErrOf result send_error.IdsExhausted ↔
        RunOutIfHeld (find (is_seat seat.now.id) handle.old.seats) handle.old wanted }
    ensures short { IsErrOf result send_error.MessageTooLong → ⊥ }
    ensures ring { handle.new.ctx.capacity ≡ handle.old.ctx.capacity }
{
    if !handle.has_seat(seat) {
        return Ok(());
    }
    let device = seat.add_device(handle, None, DeviceType::Virtual, wanted, &[])?;
    device.resumed(handle)
}
