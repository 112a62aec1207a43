//! Which touches have begun, among what passed.

ghost use Rattle.std.specs.Prelude.{◌≡◌, [], OnOk};
ghost use Rattle.ei_filter.specs.Begun.{touch_in, begun_in, with_touch, with_begin, passes_as, after_input};

use crate::kind::Touch;
use ei_keyed::Keyed;
use std::alloc::{AllocError, Global};
use std::marker::Model;

/// The touches of a device, each with whether its last begin passed.
#[derive(Drop)]
struct Touches {
    passed: Keyed<bool>,
}

impl Model for Touches {
    ghost use Rattle.std.specs.Prelude.{ℕ, Bool, List};
    ghost use Rattle.ei_filter.specs.Begun.{touches_code};

    ghost Value = { List (ℕ × Bool) };

    ghost coded = { touches_code };

    ghost view = { λ t. t.passed.items };
}

impl Touches {
    fn new(alloc: Global) -> Touches
        ensures { result ≡ [] }
    {
        Touches {
            passed: Keyed::new(alloc),
        }
    }

    /// Whether the last begin of the touch passed.
    fn has(&self, touch: u32) -> bool
        ensures { result ≡ touch_in touch self.now }
    {
        match self.passed.get(touch as u64) {
            Some(passed) => *passed,
            None => false,
        }
    }

    /// The touch begins, and that passes or doesn't.
    fn begin(&mut self, touch: u32, passes: bool) -> Result<(), AllocError>
        ensures { OnOk result (self.new ≡ with_touch touch passes self.old) }
    {
        let touch = touch as u64;
        if let Some(passed) = self.passed.get_mut(touch) {
            *passed = passes;
            return Ok(());
        }
        self.passed.push(touch, passes)
    }
}

/// The touches of each device, with whether their last begins passed.
#[derive(Drop)]
pub(crate) struct Begun {
    alloc: Global,
    devices: Keyed<Touches>,
}

impl Begun {
    /// No touch began.
    pub(crate) fn new(alloc: Global) -> Begun
        ensures { result.devices.items ≡ [] }
    {
        Begun {
            alloc,
            devices: Keyed::new(alloc),
        }
    }

    /// Whether the last begin of the touch of the device passed.
    fn has(&self, device: u64, touch: u32) -> bool
        ensures { result ≡ begun_in device touch self.now.devices.items }
    {
        match self.devices.get(device) {
            Some(touches) => touches.has(touch),
            None => false,
        }
    }

    /// Whether an input of the device passes, which stands in a group, and which the rules let through or not.
    pub(crate) fn passes(&self, device: u64, touch: Touch, is_let: bool) -> bool
        ensures { result ≡ passes_as touch is_let (λ t. begun_in device t self.now.devices.items) }
    {
        match touch {
            Touch::End(touch) => self.has(device, touch),
            Touch::Move(touch) => self.has(device, touch) && is_let,
            Touch::Begin(_) | Touch::Nothing => is_let,
        }
    }

    /// Takes note of an input of the device, which passes or doesn't.
    pub(crate) fn note(&mut self, device: u64, touch: Touch, passes: bool) -> Result<(), AllocError>
        ensures { OnOk result (self.new.devices.items ≡ after_input device touch passes self.old.devices.items) }
    {
        match touch {
            Touch::Begin(touch) => self.begin(device, touch, passes),
            _ => Ok(()),
        }
    }

    /// The touch of the device begins, and that passes or doesn't.
    fn begin(&mut self, device: u64, touch: u32, passes: bool) -> Result<(), AllocError>
        ensures { OnOk result (self.new.devices.items ≡ with_begin device touch passes self.old.devices.items) }
    {
        if let Some(touches) = self.devices.get_mut(device) {
            return touches.begin(touch, passes);
        }
        let mut touches = Touches::new(self.alloc);
        touches.begin(touch, passes)?;
        self.devices.push(device, touches)
    }
}
