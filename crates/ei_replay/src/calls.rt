//! The typed calls of a client: one for each item.

ghost use Rattle.std.specs.Prelude.{◌≡◌, OnOk};
ghost use Rattle.ei_backend.specs.Table.{found};
ghost use Rattle.ei_playing.specs.Playing.{axis, call_to};
ghost use Rattle.ei_player.specs.Objects.{IsAt};
ghost use Rattle.ei_replay.specs.Asked.{asked_of};
ghost use Rattle.ei_replay.specs.Sending.{after_call};

use ei_client::{
    Button, Connection, Context, Device, Gesture, Keyboard, Pointer, PointerAbsolute, Release,
    Scroll, Seat, Sent, Text, Touchscreen,
};
use ei_player::proxy;
use ei_request::EisRequest;

/// Sends by a call of the proxy to the object of that id. The proxy is let go by a call: at the end of a scope the drop of each
/// field is proved anew.
macro_rules! sent {
    ($client:ident, $id:ident, $kind:ident, $to:ident => $call:expr) => {{
        let $to = proxy::<$kind>($client, $id);
        let sent = $call;
        drop($to);
        sent
    }};
}

/// Sends the request that an item is played as, to the object of that id.
pub(crate) fn send(client: &mut Context, id: u64, item: &EisRequest) -> Sent
    requires { IsAt (call_to id (asked_of item.now)).interface id (found client.old.table id) }
    ensures { OnOk result (client.new ≡ after_call (call_to id (asked_of item.now)) client.old) }
{
    match item {
        EisRequest::Disconnect => sent!(client, id, Connection, to => to.disconnect(client)),
        EisRequest::Bind(r) =>
            sent!(client, id, Seat, to => to.bind(client, r.capabilities.bits())),
        EisRequest::RequestDevice(r) =>
            sent!(client, id, Seat, to => to.request_device(client, r.capabilities.bits())),
        EisRequest::DeviceClosed(_) => sent!(client, id, Device, to => to.release(client)),
        EisRequest::Frame(r) =>
            sent!(client, id, Device, to => to.frame(client, r.last_serial, r.time)),
        EisRequest::Ready(_) => sent!(client, id, Device, to => to.ready(client)),
        EisRequest::DeviceStartEmulating(r) =>
            sent!(client, id, Device, to => to.start_emulating(client, r.last_serial, r.sequence)),
        EisRequest::DeviceStopEmulating(r) =>
            sent!(client, id, Device, to => to.stop_emulating(client, r.last_serial)),
        EisRequest::PointerMotion(r) =>
            sent!(client, id, Pointer, to => to.motion_relative(client, r.dx, r.dy)),
        EisRequest::PointerMotionAbsolute(r) =>
            sent!(client, id, PointerAbsolute, to => to.motion_absolute(client, r.dx_absolute, r.dy_absolute)),
        EisRequest::Button(r) =>
            sent!(client, id, Button, to => to.button(client, r.button, r.state)),
        EisRequest::ScrollDelta(r) =>
            sent!(client, id, Scroll, to => to.scroll(client, r.dx, r.dy)),
        EisRequest::ScrollStop(r) =>
            sent!(client, id, Scroll, to => to.scroll_stop(client, axis(r.x), axis(r.y), 0)),
        EisRequest::ScrollCancel(r) =>
            sent!(client, id, Scroll, to => to.scroll_stop(client, axis(r.x), axis(r.y), 1)),
        EisRequest::ScrollDiscrete(r) =>
            sent!(client, id, Scroll, to => to.scroll_discrete(client, r.discrete_dx, r.discrete_dy)),
        EisRequest::KeyboardKey(r) =>
            sent!(client, id, Keyboard, to => to.key(client, r.key, r.state)),
        EisRequest::TouchDown(r) =>
            sent!(client, id, Touchscreen, to => to.down(client, r.touch_id, r.x, r.y)),
        EisRequest::TouchMotion(r) =>
            sent!(client, id, Touchscreen, to => to.motion(client, r.touch_id, r.x, r.y)),
        EisRequest::TouchUp(r) => sent!(client, id, Touchscreen, to => to.up(client, r.touch_id)),
        EisRequest::TouchCancel(r) =>
            sent!(client, id, Touchscreen, to => to.cancel(client, r.touch_id)),
        EisRequest::TextKeysym(r) =>
            sent!(client, id, Text, to => to.keysym(client, r.keysym, r.state)),
        EisRequest::TextUtf8(r) => sent!(client, id, Text, to => to.utf8(client, r.text.as_str())),
        EisRequest::GestureSwipe(r) =>
            sent!(client, id, Gesture, to => to.swipe(client, r.fingers, r.dx, r.dy)),
        EisRequest::GesturePinch(r) => sent!(client, id, Gesture, to => to.pinch(client, r.scale)),
    }
}

/// An axis that stops is 1.
fn axis(stops: bool) -> u32
    ensures { result ≡ axis stops }
{
    u32::from(stops)
}
