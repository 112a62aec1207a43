//! What a program must bring: a source of pieces, a sink for replies, a clock. Those in memory serve for tests; what a type that
//! keeps nothing gave or took is noted by `GivenPieces`, `Given` and `TakenPiece`, which take no memory.

pub use ei_backend::{
    Clock, Fault, GivenPieces, LastAnswer, Pieces, PutError, Readings, Sink, Source, Taken,
    TakenPiece, Tray,
};
pub use reis_lines::{Given, Input, MemoryText};
