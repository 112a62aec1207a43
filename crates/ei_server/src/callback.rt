//! `ei_callback`: a callback of a client, which the server answers. No request is sent to it.

ghost use Rattle.std.specs.Prelude.{codes, [], ◌∷◌};
ghost use Rattle.ei_server.specs.Words.{Long, Sends};
ghost use Rattle.ei_server.specs.Callback.{event};

use crate::prelude::*;

/// A callback, which a client waits for.
pub type Callback = Proxy<kinds::Callback>;

impl Callback {
    /// Answers the client: all that it asked before the callback is done. The data is whatever the server
    /// likes. The callback is gone then.
    ///
    /// `NoMemory`: nothing is sent, and the callback stays.
    pub fn done(&self, ctx: &mut Context, callback_data: u64) -> Sent
        ensures sends { Sends (event (codes "done")) self.now (Long callback_data ∷ []) ctx.old ctx.new result }
    {
        self.send_last(ctx, 0, &[Arg::Uint64(callback_data)])
    }
}
