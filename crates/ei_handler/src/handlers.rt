//! The handlers that wait, and the receipts of those that were called.

ghost use Rattle.std.specs.Prelude.{◌≡◌, [], OnOk, OnErr};
ghost use Rattle.std.specs.FinMap as finite;
ghost use Rattle.ei_handler.specs.Handlers.{Keeps};

use crate::handler::Call;
use crate::receipt::Receipt;
use ei_by_id::ById;
use std::alloc::{AllocError, Global};
use std::marker::Model;

/// The handlers that wait, by the ids of their callbacks, and the receipts of those that were called.
#[derive(Drop)]
pub struct Handlers<H> {
    waiting: ById<H>,
    receipts: Vec<Receipt>,
}

impl<H> Model for Handlers<H> {
    ghost use Rattle.ei_handler.specs.Handlers.{HandlersView, handlers_code};

    ghost Value = { HandlersView H };

    ghost coded = { handlers_code H.code };

    ghost view = { λ h. record { waiting = h.waiting; receipts = h.receipts.items } };
}

impl<H> Handlers<H> {
    /// None.
    pub fn new(alloc: Global) -> Handlers<H>
        ensures { result ≡ record { waiting = finite.empty; receipts = [] } }
    {
        Handlers {
            waiting: ById::new(alloc),
            receipts: Vec::new(alloc),
        }
    }

    /// The receipts, in the order of the calls.
    pub fn receipts(&self) -> &[Receipt]
        ensures { result.now ≡ self.now.receipts }
    {
        &self.receipts
    }
}

impl<H: Call> Handlers<H> {
    /// Keeps a handler for the callback, in place of one that stood there, which is dropped unused.
    ///
    /// `AllocError`: nothing changes, and the handler is dropped.
    pub fn add(&mut self, callback: u64, handler: H) -> Result<(), AllocError>
        ensures ok { OnOk result (self.new ≡
            record self.old { waiting = finite.insert self.old.waiting callback handler }) }
        ensures err { OnErr result (self.new ≡ self.old) }
    {
        self.waiting.put(callback, handler)
    }

    /// The end of a callback: its handler, if it has one, is taken out and called, and a receipt is kept.
    ///
    /// `AllocError`: nothing changes, and nothing is called.
    pub fn done(&mut self, callback: u64, value: u64) -> Result<(), AllocError>
        ensures receipt { OnOk result (Keeps H.may_answer (finite.get self.old.waiting callback) callback value
            self.old.receipts self.new.receipts) }
        ensures gone { OnOk result (self.new.waiting ≡ finite.remove self.old.waiting callback) }
        ensures err { OnErr result (self.new ≡ self.old) }
    {
        if self.waiting.get(callback).is_none() {
            return Ok(());
        }
        self.receipts.reserve(1)?;
        if let Some(handler) = self.waiting.take(callback) {
            let answer = handler.call(value);
            self.receipts.push_reserved(Receipt {
                callback,
                value,
                answer,
            });
        }
        Ok(())
    }
}
