//! The next request that passes.

ghost use Rattle.std.specs.Prelude.{◌≡◌, OnOk, OnErr, IfOk, IsTrue, Some, None};
ghost use Rattle.ei_input.specs.Queue.{first_of, rest_of};
ghost use Rattle.ei_request.specs.Event.{device_in};
ghost use Rattle.reis_eis.specs.Acting.{IsKept};
ghost use Rattle.reis_eis.specs.Words.{handle_in, queue_in};
ghost use Rattle.reis_strict.specs.declared.verdict.Verdict.TheVariants.{Pass};
ghost use Rattle.reis_strict.specs.Acts.{act_of};
ghost use Rattle.reis_strict.specs.Devices.{with_judged, presses};
ghost use Rattle.reis_strict.specs.View.{with_devices};
ghost use Rattle.reis_strict.specs.Sifting.{waiting, with_requests, ChangesRequests, is_gone, verdict_at, sifting, passing, behind, undropped, devices_behind, told_before, EndsClient, Tells, WantsMemory};
ghost use Rattle.reis_strict.specs.Turning.{Turns, EndsOne};

use crate::fault::Fault;
use crate::strict::Strict;
use crate::verdict::Verdict;
use ei_by_id::ById;
use ei_request::{Connection as Handle, EisRequest};
use ei_types::DisconnectReason;
use ei_wire::NoMemory;
use reis_eis::{CallError, Connection};
use std::mem;

/// What the first of the requests that wait comes to.
#[derive(Drop)]
enum Turn {
    /// None waits.
    NoneWaits,
    /// It is dropped.
    Dropped,
    /// It passes.
    Passed(EisRequest),
    /// It ended the client.
    Ended,
    /// Memory ran out, and it waits still.
    Held,
}

impl Strict {
    /// The next request of the client that passes; `None` where none does. Those before it are dropped: what `judge` drops,
    /// and what is about a device that the connection doesn't hold. Where one ends the client, the connection tells it so, as
    /// an error of the protocol with the text of the fault; no device counts as resumed any more, and the answer is `None`.
    /// Requests that wait behind it may still pass, but none of a device.
    ///
    /// One `Strict` goes with one connection. Before its handshake is done no request waits.
    ///
    /// `NoMemory`: the request that couldn't be judged or answered waits still, before all others. It comes only where a key or
    /// a button would go down, or where the client would be told of its end.
    pub fn next(&mut self, connection: &mut Connection) -> Result<Option<EisRequest>, NoMemory>
        // The answer, and what waits behind it.
        ensures passes { IfOk result (λ request. request ≡ passing (sifting self.old connection.old)) }
        ensures waits { OnOk result (waiting self.new connection.new ≡ behind (sifting self.old connection.old)) }
        ensures devices { OnOk result (
            self.new.devices ≡ devices_behind (sifting self.old connection.old) self.old.devices) }
        ensures tells { OnOk result (Tells (sifting self.old connection.old) connection.old connection.new) }
        // Where memory ran out.
        ensures held { OnErr result (waiting self.new connection.new ≡ undropped (sifting self.old connection.old)) }
        ensures known { OnErr result (self.new.devices ≡ self.old.devices) }
        ensures kept { OnErr result (
            IsKept (with_requests connection.old (queue_in connection.new.phase)) connection.new) }
        ensures memory { OnErr result (WantsMemory (sifting self.old connection.old) connection.old) }
    {
        'turns: loop {
            match self.turn(connection) {
                Turn::NoneWaits => return Ok(None),
                Turn::Dropped => {}
                Turn::Passed(request) => return Ok(Some(request)),
                Turn::Ended => return Ok(None),
                Turn::Held => return Err(NoMemory),
            }
        }
    }

    /// The first request that waits, which waits no more.
    fn take_waiting(&mut self, connection: &mut Connection) -> Option<EisRequest>
        ensures first { result ≡ first_of (waiting self.old connection.old) }
        ensures rest { queue_in connection.new.phase ≡ rest_of (waiting self.old connection.old) }
        ensures free { self.new ≡ record self.old { held = None } }
        ensures requests { ChangesRequests connection.old connection.new }
        ensures handle { handle_in connection.new.phase ≡ handle_in connection.old.phase }
    {
        match self.held_back.take() {
            Some(request) => Some(request),
            None => connection.next_request(),
        }
    }

    /// Does with the first request that waits what becomes of it.
    fn turn(&mut self, connection: &mut Connection) -> Turn
        ensures { Turns result self.old connection.old self.new connection.new }
    {
        let Some(request) = self.take_waiting(connection) else {
            return Turn::NoneWaits;
        };
        match self.judge_at(connection, &request) {
            Ok(Verdict::Pass) => Turn::Passed(request),
            Ok(Verdict::Drop) => {
                // Let go by a call: at the end of a scope the drop of each field is proved anew.
                drop(request);
                Turn::Dropped
            }
            Ok(Verdict::End(fault)) => self.end(connection, request, fault),
            Err(NoMemory) => {
                self.hold(request);
                Turn::Held
            }
        }
    }

    /// What becomes of a request that stood first.
    fn judge_at(
        &mut self,
        connection: &Connection,
        request: &EisRequest,
    ) -> Result<Verdict, NoMemory>
        ensures verdict { IfOk result (λ v.
            v ≡ verdict_at (handle_in connection.now.phase) request.now self.old.devices) }
        ensures done { IfOk result (λ v. self.new ≡ with_devices self.old
            (with_judged v (act_of request.now) self.old.devices)) }
        ensures err { OnErr result (self.new ≡ self.old) }
        ensures passing { OnErr result (
            verdict_at (handle_in connection.now.phase) request.now self.old.devices ≡ Pass) }
        ensures pressing { OnErr result (IsTrue (presses (act_of request.now))) }
    {
        let Some(client) = connection.client() else {
            return Ok(Verdict::Drop);
        };
        if is_gone(client, request) {
            return Ok(Verdict::Drop);
        }
        self.judge(client.context_type(), request)
    }

    /// Ends the client for the fault, which the request is.
    fn end(&mut self, connection: &mut Connection, request: EisRequest, fault: Fault) -> Turn
        ensures { EndsOne result request fault self.old connection.old self.new connection.new }
    {
        match end_client(connection, fault) {
            Ok(()) => {
                drop(request);
                drop(mem::replace(&mut self.devices, ById::new(self.alloc)));
                Turn::Ended
            }
            Err(NoMemory) => {
                self.hold(request);
                Turn::Held
            }
        }
    }

    /// The request waits still.
    fn hold(&mut self, request: EisRequest)
        ensures { self.new ≡ record self.old { held = Some request } }
    {
        drop(mem::replace(&mut self.held_back, Some(request)));
    }
}

/// Whether a request is about a device that the connection doesn't hold.
fn is_gone(client: &Handle, request: &EisRequest) -> bool
    ensures { result ≡ is_gone client.now (device_in request.now) }
{
    match request.device() {
        Some(device) => !client.has_device(device),
        None => false,
    }
}

/// Tells the client that the connection ends for the fault, unless it was told before.
fn end_client(connection: &mut Connection, fault: Fault) -> Result<(), NoMemory>
    ensures ok { OnOk result (EndsClient fault connection.old connection.new) }
    ensures err { OnErr result (IsKept connection.old connection.new) }
    ensures untold { OnErr result (told_before fault connection.old ≡ None) }
{
    match connection.disconnect(DisconnectReason::Protocol, Some(fault.text())) {
        Ok(()) => Ok(()),
        Err(CallError::NoMemory) => Err(NoMemory),
        Err(_) => Ok(()),
    }
}
