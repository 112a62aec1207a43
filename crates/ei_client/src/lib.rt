//! The client's end of the protocol: a context, the proxies of its objects with the requests that they
//! send, and the events that they get.
//!
//! There is no handshake here. Begin with `Context` and `Event`.
//!
//! No call that sends wants memory within the room that `Backend::reserve` made: `room` of its clause `sends`.
#![tactic(auto)]

pub mod button;
pub mod callback;
pub mod connection;
mod context;
pub mod device;
mod event;
pub mod gesture;
pub mod handshake;
mod interface;
pub mod keyboard;
mod message;
pub mod pingpong;
pub mod pointer;
pub mod pointer_absolute;
mod prelude;
mod proxy;
mod release;
mod rows;
pub mod scroll;
pub mod seat;
pub mod text;
pub mod touchscreen;

pub use button::Button;
pub use callback::Callback;
pub use connection::Connection;
pub use context::Context;
pub use device::Device;
pub use event::Event;
pub use gesture::Gesture;
pub use handshake::Handshake;
pub use interface::Interface;
pub use keyboard::Keyboard;
pub use pingpong::Pingpong;
pub use pointer::Pointer;
pub use pointer_absolute::PointerAbsolute;
pub use proxy::{Proxy, Sent};
pub use release::Release;
pub use scroll::Scroll;
pub use seat::Seat;
pub use text::Text;
pub use touchscreen::Touchscreen;
