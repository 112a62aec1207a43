//! What a client does on its connection.

ghost use Rattle.std.specs.Prelude.{◌≡◌, false, true, [], ◌∷◌, codes};
ghost use Rattle.ei_spec.specs.Value.{Long, Word};
ghost use Rattle.ei_client.specs.Connection.{request};
ghost use Rattle.ei_backend.specs.Proxies.{SendsNew};
ghost use Rattle.ei_linked.specs.declared.side.Side.TheVariants as of_side;
ghost use Rattle.ei_linked.specs.Written.{unsent_in};
ghost use Rattle.ei_linked.specs.TwoEnds.{MayCall};
ghost use Rattle.ei_promises.specs.Pair.{client_done};
ghost use Rattle.ei_pair.specs.Parts.{pair_in};
ghost use Rattle.ei_pair.specs.Stepped.{IsSound};
ghost use Rattle.ei_pair.specs.Calls.{SyncsCall, CallsClient};
ghost use Rattle.ei_pair.specs.Asked.{MeetsClient, AsksCall};

use crate::client_call::ClientCall;
use crate::parts::Parts;
use crate::server_end::ServerEnd;
use crate::storing::store_client;
use ei_backend::{Interface, Object};
use ei_client::{Callback, Context};
use ei_event::EiEventConverter;
use ei_handler::Call;
use ei_linked::{Ends, Side, Target, Unsent};
use ei_values::Value;
use ei_wire::SendError;

impl<H: Call> Parts<H> {
    /// Makes a call of the client, whose handshake is done. What it sends is stored.
    pub(crate) fn client_do(&mut self, call: ClientCall<'_, H>) -> Result<Option<Object>, SendError>
        requires sound { IsSound self.old }
        requires whole { self.old.ends.spent ≡ false }
        requires done { client_done (pair_in self.old).client ≡ true }
        requires may { MeetsClient call (pair_in self.old).ends }
        ensures { AsksCall call.entry self.old result self.new }
    {
        match call {
            ClientCall::Call {
                target,
                opcode,
                values,
            } => self.ask(&target, opcode, values),
            ClientCall::SyncWith(handler) => match self.sync_with(handler) {
                Ok(object) => Ok(Some(object)),
                Err(error) => Err(error),
            },
        }
    }

    /// Makes the call `Call`.
    fn ask(
        &mut self,
        target: &Object,
        opcode: u32,
        values: &[Value],
    ) -> Result<Option<Object>, SendError>
        requires sound { IsSound self.old }
        requires whole { self.old.ends.spent ≡ false }
        requires done { client_done (pair_in self.old).client ≡ true }
        requires may { MayCall of_side.Client (pair_in self.old).ends target.now opcode values.now }
        ensures { CallsClient target.now opcode values.now self.old result self.new }
    {
        ei_promises::laws::doing::<H>();
        let target = Target::of(target);
        self.ends.call(Side::Client, target, opcode, values)
    }

    /// Sends a `sync` whose callback the handler is called for, and stores it.
    fn sync_with(&mut self, handler: H) -> Result<Object, SendError>
        requires sound { IsSound self.old }
        requires whole { self.old.ends.spent ≡ false }
        requires done { client_done (pair_in self.old).client ≡ true }
        ensures { SyncsCall handler self.old result self.new }
    {
        ei_promises::laws::doing::<H>();
        ei_promises::laws::resting::<H>();
        let before = client_unsent_at(&self.ends);
        let Some(converter) = &mut self.converter else {
            unreachable!();
        };
        let callback = sync_on(converter, &mut self.ends)?;
        let object = object_of(&callback);
        if converter.add_callback_handler(callback, handler).is_err() {
            spend(&mut self.ends);
            return Err(SendError::NoMemory);
        }
        store_client(&mut self.ends, before)?;
        Ok(object)
    }
}

/// The object of a callback.
fn object_of(callback: &Callback) -> Object
    ensures { result ≡ callback.now }
{
    callback.as_object().copy()
}

/// Sends a `sync` of version 1 on the connection of the converter.
fn sync<H: Call>(
    converter: &EiEventConverter<H>,
    context: &mut Context,
) -> Result<Callback, SendError>
    ensures { SendsNew (λ p. p) (request (codes "sync")) converter.now.kept.proxy
        (Long context.old.table.next_own ∷ Word 1 ∷ []) context.old context.new result }
{
    converter.connection().connection().sync(context, 1)
}

/// The same, at the client's end of two.
fn sync_on<H: Call>(
    converter: &EiEventConverter<H>,
    ends: &mut Ends<ServerEnd>,
) -> Result<Callback, SendError>
    ensures sends { SendsNew (λ p. p) (request (codes "sync")) converter.now.kept.proxy
        (Long ends.old.client.context.table.next_own ∷ Word 1 ∷ [])
        ends.old.client.context ends.new.client.context result }
    ensures kept { ends.new ≡ record ends.old {
      client = record ends.old.client { context = ends.new.client.context };
    } }
{
    sync(converter, &mut ends.client.context)
}

/// How much waits to be sent at the client's end.
fn client_unsent_at(ends: &Ends<ServerEnd>) -> Unsent
    ensures { result ≡ unsent_in ends.now.client.context }
{
    ends.client.unsent()
}

/// What the ends did last isn't stored.
fn spend(ends: &mut Ends<ServerEnd>)
    ensures { ends.new ≡ record ends.old { spent = true } }
{
    ends.spent = true;
}
