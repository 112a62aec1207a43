//! What a server does on its connection.

ghost use Rattle.std.specs.Prelude.{◌≡◌, false};
ghost use Rattle.ei_promises.specs.declared.calls.ServerCall.TheVariants as call;
ghost use Rattle.ei_pair.specs.Parts.{pair_in};
ghost use Rattle.ei_pair.specs.Stepped.{IsSound};
ghost use Rattle.ei_pair.specs.Calls.{IsNamed, MayMakeAt, MeetsAt, steady_after, steadied, ServesCall};

use crate::parts::Parts;
use crate::server_calls::{make_on, unsent_at};
use crate::steady::is_steady;
use crate::storing::store_server;
use crate::texts::read;
use ei_backend::Object;
use ei_handler::Call;
use ei_linked::{Side, Target};
use ei_promises::{Made, ServerCall};
use ei_values::Value;
use ei_wire::SendError;

impl<H: Call> Parts<H> {
    /// Makes a call of the server, whose handshake is done. What it sends is stored.
    pub(crate) fn server_do(&mut self, call: ServerCall<'_>) -> Result<Made, SendError>
        requires sound { IsSound self.old }
        requires whole { self.old.ends.spent ≡ false }
        requires may { MeetsAt call (pair_in self.old).ends (pair_in self.old).server }
        ensures { ServesCall call.entry self.old result self.new }
    {
        let steady = self.is_steady(&call);
        match self.serve(call) {
            Ok(made) => {
                self.steady = steady;
                Ok(made)
            }
            Err(error) => Err(error),
        }
    }

    /// Whether the server is steady still behind the call.
    fn is_steady(&self, call: &ServerCall<'_>) -> bool
        requires named { IsNamed call.now }
        ensures { result ≡ steady_after self.now.steady call.now (pair_in self.now).server }
    {
        match self.handle() {
            Some(conn) => self.steady && is_steady(conn, call),
            None => self.steady,
        }
    }

    /// Makes the call, and stores what it sends. How steady that leaves the server isn't kept.
    fn serve(&mut self, call: ServerCall<'_>) -> Result<Made, SendError>
        requires sound { IsSound self.old }
        requires whole { self.old.ends.spent ≡ false }
        requires may { MeetsAt call (pair_in self.old).ends (pair_in self.old).server }
        ensures { ServesCall call.entry self.old result
            (steadied result (steady_after self.old.steady call.entry (pair_in self.old).server) self.new) }
    {
        match call {
            ServerCall::Input {
                target,
                opcode,
                values,
            } => self.send(&target, opcode, values),
            call => self.tell(call),
        }
    }

    /// Makes the call `Input`.
    fn send(&mut self, target: &Object, opcode: u32, values: &[Value]) -> Result<Made, SendError>
        requires sound { IsSound self.old }
        requires whole { self.old.ends.spent ≡ false }
        requires may { MeetsAt (call.Input target.now opcode values) (pair_in self.old).ends (pair_in self.old).server }
        ensures { ServesCall (call.Input target.now opcode values.entry) self.old result
            (steadied result (steady_after self.old.steady (call.Input target.now opcode values.entry)
            (pair_in self.old).server) self.new) }
    {
        ei_promises::laws::doing::<H>();
        let target = Target::of(target);
        match self.ends.call(Side::Server, target, opcode, values) {
            Ok(_object) => Ok(Made::Nothing),
            Err(error) => Err(error),
        }
    }

    /// Makes the call, which isn't `Input`, and stores what it sends.
    fn tell(&mut self, call: ServerCall<'_>) -> Result<Made, SendError>
        requires sound { IsSound self.old }
        requires whole { self.old.ends.spent ≡ false }
        requires may { MayMakeAt call self.old.ends.server.context }
        ensures { ServesCall call.entry self.old result
            (steadied result (steady_after self.old.steady call.entry (pair_in self.old).server) self.new) }
    {
        ei_promises::laws::doing::<H>();
        ei_promises::laws::resting::<H>();
        read(&call);
        let before = unsent_at(&self.ends);
        match make_on(&mut self.ends, call) {
            Ok(made) => match store_server(&mut self.ends, before) {
                Ok(()) => Ok(made),
                Err(_) => Err(SendError::NoMemory),
            },
            Err(error) => Err(error),
        }
    }
}
