//! What a request does with the input of a device.

ghost use Rattle.std.specs.Prelude.{◌≡◌};
ghost use Rattle.reis_strict.specs.Acts.{act_of, act_on, button_goes_down, key_goes_down};
ghost use Rattle.reis_strict.specs.declared.act.Deed.TheVariants as deed;

use ei_backend::Interface;
use ei_request::{Device, EisRequest};
use ei_types::{ButtonState, KeyState};

/// What a request does with the input of a device, which is named by its id.
#[derive(Clone, Copy)]
pub(crate) struct Act {
    pub(crate) device: u64,
    pub(crate) deed: Deed,
}

/// What is done with the input of a device.
#[derive(Clone, Copy)]
pub(crate) enum Deed {
    /// The client starts to emulate.
    Start,
    /// The client stops.
    Stop,
    /// A frame, or an input that is of no key and no button.
    Input,
    /// A key or a button goes down or up.
    Turn(Switch),
}

/// A key or a button, by its code, that goes down or else up.
#[derive(Clone, Copy)]
pub(crate) struct Switch {
    pub(crate) kind: Kind,
    pub(crate) code: u32,
    pub(crate) down: bool,
}

/// What goes down and up. A key and a button of one code are two.
#[derive(Clone, Copy)]
pub(crate) enum Kind {
    Key,
    Button,
}

/// A deed on the device.
fn act_on(device: &Device, deed: Deed) -> Option<Act>
    ensures { result ≡ act_on device.now deed }
{
    Some(Act {
        device: device.device().as_object().id(),
        deed,
    })
}

/// An input of the device that is of no key and no button, or a frame.
fn input_on(device: &Device) -> Option<Act>
    ensures { result ≡ act_on device.now deed.Input }
{
    act_on(device, Deed::Input)
}

/// Whether a key goes down.
fn key_goes_down(state: KeyState) -> bool
    ensures { result ≡ key_goes_down state }
{
    match state {
        KeyState::Press => true,
        KeyState::Released => false,
    }
}

/// Whether a button goes down.
fn button_goes_down(state: ButtonState) -> bool
    ensures { result ≡ button_goes_down state }
{
    match state {
        ButtonState::Press => true,
        ButtonState::Released => false,
    }
}

/// What a request does; `None` where it is no start, no stop, no frame and no input.
pub(crate) fn act_of(request: &EisRequest) -> Option<Act>
    ensures { result ≡ act_of request.now }
{
    match request {
        EisRequest::Disconnect
        | EisRequest::Bind(_)
        | EisRequest::RequestDevice(_)
        | EisRequest::DeviceClosed(_)
        | EisRequest::Ready(_) => None,
        EisRequest::DeviceStartEmulating(r) => act_on(&r.device, Deed::Start),
        EisRequest::DeviceStopEmulating(r) => act_on(&r.device, Deed::Stop),
        EisRequest::KeyboardKey(r) => act_on(
            &r.device,
            Deed::Turn(Switch {
                kind: Kind::Key,
                code: r.key,
                down: key_goes_down(r.state),
            }),
        ),
        EisRequest::Button(r) => act_on(
            &r.device,
            Deed::Turn(Switch {
                kind: Kind::Button,
                code: r.button,
                down: button_goes_down(r.state),
            }),
        ),
        EisRequest::Frame(r) => input_on(&r.device),
        EisRequest::PointerMotion(r) => input_on(&r.device),
        EisRequest::PointerMotionAbsolute(r) => input_on(&r.device),
        EisRequest::ScrollDelta(r) => input_on(&r.device),
        EisRequest::ScrollStop(r) => input_on(&r.device),
        EisRequest::ScrollCancel(r) => input_on(&r.device),
        EisRequest::ScrollDiscrete(r) => input_on(&r.device),
        EisRequest::TouchDown(r) => input_on(&r.device),
        EisRequest::TouchMotion(r) => input_on(&r.device),
        EisRequest::TouchUp(r) => input_on(&r.device),
        EisRequest::TouchCancel(r) => input_on(&r.device),
        EisRequest::TextKeysym(r) => input_on(&r.device),
        EisRequest::TextUtf8(r) => input_on(&r.device),
        EisRequest::GestureSwipe(r) => input_on(&r.device),
        EisRequest::GesturePinch(r) => input_on(&r.device),
    }
}
