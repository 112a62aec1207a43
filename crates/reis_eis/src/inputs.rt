//! Inputs, told by the events of a device's interfaces.

ghost use Rattle.std.specs.Prelude.{◌≡◌, true, Some, find, is_some};
ghost use Rattle.ei_types.specs.Capability.{interface_of};
ghost use Rattle.ei_request.specs.Held.{is_of_key};
ghost use Rattle.ei_request.specs.Reading.{interface_in};
ghost use Rattle.reis_eis.specs.Inputs.{axis, told_by};
ghost use Rattle.reis_eis.specs.Acting.{TellsInput};

use ei_input::input_event::InputEvent;
use ei_request::{Connection, Device, DeviceInterface};
use ei_server::{
    Button, Gesture, Keyboard, Pointer, PointerAbsolute, Scroll, Sent, Text, Touchscreen,
};
use ei_types::DeviceCapability;

/// The capability by which a device can have the input.
pub(crate) fn capability(input: &InputEvent) -> DeviceCapability
    ensures { interface_of result ≡ (told_by input.now).interface }
{
    match input {
        InputEvent::PointerMotion { .. } => DeviceCapability::Pointer,
        InputEvent::PointerMotionAbsolute { .. } => DeviceCapability::PointerAbsolute,
        InputEvent::Button { .. } => DeviceCapability::Button,
        InputEvent::ScrollDelta { .. }
        | InputEvent::ScrollStop { .. }
        | InputEvent::ScrollCancel { .. }
        | InputEvent::ScrollDiscrete { .. } => DeviceCapability::Scroll,
        InputEvent::KeyboardKey { .. } => DeviceCapability::Keyboard,
        InputEvent::TouchDown { .. }
        | InputEvent::TouchMotion { .. }
        | InputEvent::TouchUp { .. }
        | InputEvent::TouchCancel { .. } => DeviceCapability::Touch,
        InputEvent::TextKeysym { .. } | InputEvent::TextUtf8 { .. } => DeviceCapability::Text,
        InputEvent::GestureSwipe { .. } | InputEvent::GesturePinch { .. } => {
            DeviceCapability::Gesture
        }
    }
}

/// The proxy of an interface that the device has left.
fn interface<T: DeviceInterface>(handle: &Connection, device: &Device) -> T
    requires { is_some (interface_in T.KNOWN (find (is_of_key device.now) handle.now.devices)) ≡ true }
    ensures { interface_in T.KNOWN (find (is_of_key device.now) handle.now.devices) ≡ Some (T.behind result) }
{
    device.interface::<T>(handle).unwrap()
}

/// An axis that stops is 1.
fn axis(stops: bool) -> u32
    ensures { result ≡ axis stops }
{
    u32::from(stops)
}

/// Tells by a call of the proxy of the device's interface. The proxy is let go by a call: at the end of a scope the drop of
/// each field is proved anew.
macro_rules! told {
    ($handle:ident, $device:ident, $kind:ident, $to:ident => $call:expr) => {{
        let $to = interface::<$kind>($handle, $device);
        let told = $call;
        drop($to);
        told
    }};
}

/// Tells the client of an input, by the device's interface for it, which it has left.
pub(crate) fn tell(handle: &mut Connection, device: &Device, input: &InputEvent) -> Sent
    requires { is_some (interface_in (told_by input.now).interface (find (is_of_key device.now) handle.old.devices))
        ≡ true }
    ensures { TellsInput input.now
        (interface_in (told_by input.now).interface (find (is_of_key device.now) handle.old.devices))
        handle.old result handle.new }
{
    match input {
        InputEvent::PointerMotion { dx, dy } =>
            told!(handle, device, Pointer, to => to.motion_relative(handle.context_mut(), *dx, *dy)),
        InputEvent::PointerMotionAbsolute {
            dx_absolute,
            dy_absolute,
        } =>
            told!(handle, device, PointerAbsolute, to => to.motion_absolute(handle.context_mut(), *dx_absolute, *dy_absolute)),
        InputEvent::Button { button, state } =>
            told!(handle, device, Button, to => to.button(handle.context_mut(), *button, *state)),
        InputEvent::ScrollDelta { dx, dy } =>
            told!(handle, device, Scroll, to => to.scroll(handle.context_mut(), *dx, *dy)),
        InputEvent::ScrollStop { x, y } =>
            told!(handle, device, Scroll, to => to.scroll_stop(handle.context_mut(), axis(*x), axis(*y), 0)),
        InputEvent::ScrollCancel { x, y } =>
            told!(handle, device, Scroll, to => to.scroll_stop(handle.context_mut(), axis(*x), axis(*y), 1)),
        InputEvent::ScrollDiscrete {
            discrete_dx,
            discrete_dy,
        } =>
            told!(handle, device, Scroll, to => to.scroll_discrete(handle.context_mut(), *discrete_dx, *discrete_dy)),
        InputEvent::KeyboardKey { key, state } =>
            told!(handle, device, Keyboard, to => to.key(handle.context_mut(), *key, *state)),
        InputEvent::TouchDown { touch_id, x, y } =>
            told!(handle, device, Touchscreen, to => to.down(handle.context_mut(), *touch_id, *x, *y)),
        InputEvent::TouchMotion { touch_id, x, y } =>
            told!(handle, device, Touchscreen, to => to.motion(handle.context_mut(), *touch_id, *x, *y)),
        InputEvent::TouchUp { touch_id } =>
            told!(handle, device, Touchscreen, to => to.up(handle.context_mut(), *touch_id)),
        InputEvent::TouchCancel { touch_id } =>
            told!(handle, device, Touchscreen, to => to.cancel(handle.context_mut(), *touch_id)),
        InputEvent::TextKeysym { keysym, state } =>
            told!(handle, device, Text, to => to.keysym(handle.context_mut(), *keysym, *state)),
        InputEvent::TextUtf8 { text } =>
            told!(handle, device, Text, to => to.utf8(handle.context_mut(), text.as_str())),
        InputEvent::GestureSwipe { fingers, dx, dy } =>
            told!(handle, device, Gesture, to => to.swipe(handle.context_mut(), *fingers, *dx, *dy)),
        InputEvent::GesturePinch { scale } =>
            told!(handle, device, Gesture, to => to.pinch(handle.context_mut(), *scale)),
    }
}
