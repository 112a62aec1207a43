//! The outside, and one endpoint over it: objects, buffers, and the messages in them.
#![tactic(auto)]

mod announcement;
mod backend;
mod failing;
mod front;
mod given;
mod has_backend;
mod incoming;
mod interface;
pub mod kinds;
pub mod laws;
mod memory_clock;
mod message;
mod object;
mod outgoing;
mod outside;
mod pieces;
mod proxy;
mod reading;
mod ring;
mod rows;
mod table;
mod tray;
mod words;

pub use backend::Backend;
pub use ei_spec::limits::FIRST_SERVER_ID;
pub use failing::Failing;
pub use given::{GivenPieces, PutPieces, TakenPiece};
pub use has_backend::HasBackend;
pub use interface::InterfaceName;
pub use kinds::{Kind, shown_name};
pub use memory_clock::Readings;
pub use message::{Answer, MessageEnum, PendingRequestResult};
pub use object::Object;
pub use outside::{Clock, Fault, LastAnswer, PutError, Sink, Source, Taken};
pub use pieces::Pieces;
pub use proxy::{Described, Interface};
pub use rows::{read_five, read_one, read_three, read_two};
pub use table::{Accepted, Table};
pub use tray::Tray;
