//! A device that the items so far made.

ghost use Rattle.std.specs.Prelude.{◌≡◌, [], ◌∷◌, ◌++◌, false, nat_eq, position, OnOk};
ghost use Rattle.ei_types.specs.Capability.{bits_of};
ghost use Rattle.ei_replay.specs.Made.{MadeView, has_touch, refuses_kind, refuses, takes, closed};
ghost use Rattle.ei_request.specs.Held.{without_first};

use crate::step::InputKind;
use ei_spec::limits::{MOST_TEXT_BYTES, MOST_TOUCHES};
use ei_types::{DeviceCapabilities, DeviceCapability};
use std::alloc::{AllocError, Global};
use std::marker::Model;

/// A device: its capabilities, whether it was closed, and which touches of it are down.
#[derive(Drop)]
pub(crate) struct Made {
    mask: DeviceCapabilities,
    closed: bool,
    touches: Vec<u32>,
}

impl Model for Made {
    ghost use Rattle.ei_types.specs.Capability.{bits_of};
    ghost use Rattle.ei_replay.specs.Made.{MadeView, made_code};

    ghost Value = { MadeView };

    ghost coded = { made_code };

    ghost view = { λ m. record { mask = bits_of m.mask; closed = m.closed; touches = m.touches.items } };
}

impl Made {
    /// A new device.
    pub(crate) fn new(alloc: Global, mask: DeviceCapabilities) -> Made
        ensures { result ≡ record { mask = bits_of mask; closed = false; touches = [] } }
    {
        Made {
            mask,
            closed: false,
            touches: Vec::new(alloc),
        }
    }

    /// Its capabilities.
    pub(crate) fn mask(&self) -> DeviceCapabilities
        ensures { bits_of result ≡ self.now.mask }
    {
        self.mask
    }

    /// Whether it was closed.
    pub(crate) fn is_closed(&self) -> bool
        ensures { result ≡ self.now.closed }
    {
        self.closed
    }

    /// It is closed.
    pub(crate) fn close(&mut self)
        ensures { self.new ≡ closed self.old }
    {
        self.closed = true;
    }

    /// Whether it can't take an input of that capability and kind.
    pub(crate) fn refuses(&self, capability: DeviceCapability, kind: InputKind) -> bool
        ensures { result ≡ refuses capability kind self.now }
    {
        !self.mask.has(capability) || refuses_kind(&self.touches, kind)
    }

    /// Takes an input of that kind.
    ///
    /// `AllocError`: no touch goes down.
    pub(crate) fn take(&mut self, kind: InputKind) -> Result<(), AllocError>
        ensures { OnOk result (self.new ≡ takes kind self.old) }
    {
        match kind {
            InputKind::Down(touch) => press(&mut self.touches, touch),
            InputKind::Lift(touch) => {
                lift(&mut self.touches, touch);
                Ok(())
            }
            _ => Ok(()),
        }
    }
}

/// Whether an input of that kind can't come, where these touches are down.
fn refuses_kind(touches: &[u32], kind: InputKind) -> bool
    ensures { result ≡ refuses_kind kind touches.now }
{
    match kind {
        InputKind::Down(touch) => touches.len() >= MOST_TOUCHES || has_touch(touches, touch),
        InputKind::Move(touch) | InputKind::Lift(touch) => !has_touch(touches, touch),
        InputKind::Text(len) => len == 0 || len > MOST_TEXT_BYTES,
        InputKind::Plain => false,
    }
}

/// Whether the touch is among these.
fn has_touch(touches: &[u32], touch: u32) -> bool
    ensures { result ≡ has_touch touch touches.now }
{
    touches.iter().any(|other| touch == *other)
}

/// A touch goes down.
fn press(touches: &mut Vec<u32>, touch: u32) -> Result<(), AllocError>
    ensures { OnOk result (touches.new.items ≡ touches.old.items ++ touch ∷ []) }
{
    touches.reserve(1)?;
    touches.push_reserved(touch);
    Ok(())
}

/// Where the touch stands among these.
fn touch_place(touches: &[u32], touch: u32) -> Option<usize>
    ensures { result ≡ position (nat_eq touch) touches.now }
{
    touches.iter().position(|other| touch == *other)
}

/// A touch ends.
fn lift(touches: &mut Vec<u32>, touch: u32)
    ensures { touches.new.items ≡ without_first (nat_eq touch) touches.old.items }
{
    if let Some(at) = touch_place(touches, touch) {
        touches.remove(at);
    }
}
