//! What a client tells beside its requests.

ghost use Rattle.std.specs.Prelude.{◌≡◌};
ghost use Rattle.ei_server.specs.Request.{target_of};
ghost use Rattle.ei_request.specs.Typed.{meaning_of};
ghost use Rattle.reis_eis.specs.Handling.{notice_of};

use ei_backend::Interface;
use ei_server::{Request, pingpong, seat};

/// What a client tells beside its requests, each object named by its id.
#[derive(Clone, Copy, Debug, PartialEq, Eq)]
pub enum Notice {
    /// The client released the seat, which stays until the program takes it away.
    SeatReleased { seat: u64 },
    /// The client answered a ping, with whatever data it liked. The ping is gone by that.
    Pong { ping: u64, callback_data: u64 },
}

/// What a request tells.
pub(crate) fn notice_of(request: &Request) -> Option<Notice>
    ensures { result ≡ notice_of (target_of request.now).id (meaning_of request.now) }
{
    match request {
        Request::Pingpong(ping, pingpong::Request::Done { callback_data }) => Some(Notice::Pong {
            ping: ping.as_object().id(),
            callback_data: *callback_data,
        }),
        Request::Seat(seat, seat::Request::Release) => Some(Notice::SeatReleased {
            seat: seat.as_object().id(),
        }),
        _ => None,
    }
}
