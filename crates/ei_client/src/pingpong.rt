//! `ei_pingpong`: a ping of the server, which the client answers. No event is sent to it.

ghost use Rattle.std.specs.Prelude.{codes, [], ◌∷◌};
ghost use Rattle.ei_client.specs.Words.{Long, Sends};
ghost use Rattle.ei_client.specs.Pingpong.{request};

use crate::prelude::*;

/// A ping, which a client answers.
pub type Pingpong = Proxy<kinds::Pingpong>;

impl Pingpong {
    /// Answers the server. The data is whatever the client likes. The ping is gone then.
    ///
    /// `NoMemory`: nothing is sent, and the ping stays.
    pub fn done(&self, ctx: &mut Context, callback_data: u64) -> Sent
        ensures sends { Sends (request (codes "done")) self.now (Long callback_data ∷ []) ctx.old ctx.new result }
    {
        self.send_last(ctx, 0, &[Arg::Uint64(callback_data)])
    }
}
