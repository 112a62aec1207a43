//! What is called at the end of a callback.

ghost use Rattle.std.specs.Prelude.{◌≡◌, ℕ};

/// What can be called at the end of a callback, once: it is given the number that ends the callback, and answers
/// another.
pub trait Call: Drop {
    /// Whether it may answer a number by this one.
    ghost may_answer: { Self → ℕ → ℕ → Type 0 };

    /// Calls it.
    fn call(self, value: u64) -> u64
        ensures { may_answer self value result };
}

/// What a caller made: a closure in a box.
pub type Run = Box<dyn FnOnce(u64) -> u64>;

/// A handler around a caller's box. It answers as the closure in it promises.
#[derive(Drop)]
pub struct Handler {
    pub run: Run,
    ghost callable: { Run.IsAlwaysCallable run },
}

impl Handler {
    /// A handler of what the caller made, which may be called with every number.
    pub fn new(run: Box<dyn FnOnce(u64) -> u64>) -> Handler
        requires { IsAlwaysCallable run }
        ensures { result.run ≡ run }
    {
        Handler { run }
    }
}

impl Call for Handler {
    ghost may_answer = { λ handler. Run.post handler.run };

    fn call(self, value: u64) -> u64 {
        (self.run)(value)
    }
}
