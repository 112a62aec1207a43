//! The source of the stream.

ghost use Rattle.std.specs.Prelude.{◌≡◌, ◌≤◌, ◌+◌, [], Some, take, drop, length, min, vec_len, vec_capacity, IfOk, IsOk};
ghost use Rattle.ei_spec.specs.Message.{all_bytes};
ghost use Rattle.ei_spec.specs.declared.limits.TheConstants.{MOST_PIECE_BYTES, MOST_PIECE_HANDLES};
ghost use Rattle.ei_backend.specs.Outside.{IsPieceSize, IsTake, given_with};
ghost use Rattle.ei_backend.specs.declared.outside.LastAnswer.TheVariants as answers;
ghost use Rattle.reis_demo.specs.Generated.{generated_bytes};
ghost use Rattle.reis_demo.specs.Script.{StreamView, unsaid, stream_of};

use crate::opening::opening;
use crate::script::{GROUP_BYTES, Script};
use ei_backend::{Fault, GivenPieces, LastAnswer, Source, Taken};
use ei_spec::Handle;
use ei_wire::NoMemory;
use std::alloc::Global;
use std::marker::Model;

/// The bytes of a piece, but for the last one.
const PIECE_BYTES: usize = 4096;

/// Room for a piece and a group behind it.
const ROOM: usize = PIECE_BYTES + GROUP_BYTES;

/// A source of a stream that numbers make up: a client that shakes hands, binds its capabilities and sends groups of
/// inputs, each with its frame.
///
/// It hands out pieces of 4096 bytes and a shorter last one, and never fails. No more of the stream is in memory than a
/// piece and a group.
#[derive(Drop)]
pub struct Generated {
    script: Script,
    /// What was said and not handed out.
    waiting: Vec<u8>,
    given: GivenPieces,
    last: LastAnswer,
}

impl Model for Generated {
    ghost use Rattle.std.specs.Prelude.{◌++◌, ◌≤◌, vec_capacity};
    ghost use Rattle.ei_spec.specs.Message.{all_bytes};
    ghost use Rattle.reis_demo.specs.Script.{StreamView, unsaid, IsTimed};
    ghost use Rattle.reis_demo.specs.declared.generated.TheConstants.{ROOM};

    ghost Value = { StreamView };

    ghost view = { λ s. record {
      left = s.waiting.items ++ all_bytes (unsaid s.script);
      given = s.given.pieces;
      last = s.last;
    } };

    ghost invariant = { λ s. IsTimed s.script × (ROOM ≤ vec_capacity s.waiting) };
}

impl Generated {
    /// The stream of so many groups, by the numbers after `start`.
    ///
    /// `NoMemory` where there is none for its buffer.
    pub fn new(alloc: Global, groups: u32, start: u32) -> Result<Generated, NoMemory>
        ensures { IfOk result
            (λ s. s ≡ record { left = generated_bytes groups start; given = []; last = answers.Nothing }) }
    {
        Ok(Generated {
            script: Script::new(groups, start),
            waiting: opening(alloc, ROOM)?,
            given: GivenPieces::new(),
            last: LastAnswer::Nothing,
        })
    }

    /// How many bytes of the stream are left.
    pub fn bytes_left(&self) -> u64
        ensures { result ≡ length self.now.left }
    {
        self.waiting.len() as u64 + self.script.bytes_left()
    }
}

/// Takes the first bytes out: those behind them, less than a group's, move to the front.
#[tactic(auto, using(crate::proofs::Fronts::moved_down))]
fn drop_front(waiting: &mut Vec<u8>, count: usize)
    requires within { count ≤ vec_len waiting.old }
    ensures left { waiting.new.items ≡ drop count waiting.old.items }
    ensures capacity { vec_capacity waiting.new ≡ vec_capacity waiting.old }
{
    let end = waiting.len();
    waiting.copy_within(count..end, 0);
    waiting.truncate(end - count);
}

/// Takes the first bytes out, to the front of a slice, and notes them as a piece if there are any.
fn hand_out(waiting: &mut Vec<u8>, count: usize, bytes: &mut [u8], given: &mut GivenPieces)
    requires within { count ≤ vec_len waiting.old }
    requires room { count ≤ length bytes.old }
    ensures given { given.new.pieces ≡ given_with given.old.pieces count
        (record { bytes = take count bytes.new; handles = [] }) }
    ensures bytes { take count bytes.new ≡ take count waiting.old.items }
    ensures left { waiting.new.items ≡ drop count waiting.old.items }
    ensures capacity { vec_capacity waiting.new ≡ vec_capacity waiting.old }
{
    bytes[..count].copy_from_slice(&waiting[..count]);
    drop_front(waiting, count);
    if count > 0 {
        given.note(&bytes[..count], &[]);
    }
}

impl Source for Generated {
    ghost view = { stream_of };

    ghost later = { λ _ _. Unit {0} };

    ghost later_refl = { λ _. tt };

    ghost later_trans = { λ _ _ _ _ _. tt };

    fn take(&mut self, bytes: &mut [u8], _handles: &mut [Handle]) -> Result<Taken, Fault>
        requires room { MOST_PIECE_BYTES ≤ length bytes.old }
        requires handle_room { MOST_PIECE_HANDLES ≤ length _handles.old }
        ensures size { IfOk result IsPieceSize }
        ensures takes { IsTake (stream_of self.old) (stream_of self.new) result bytes.new _handles.new }
        // beyond the trait's: it never fails, and what is left
        ensures ok { IsOk result }
        ensures left { self.new.left ≡ drop 4096 self.old.left }
        ensures count { IfOk result (λ taken. taken ≡ record { bytes = min 4096 (length self.old.left); handles = 0 }) }
    {
        self.script.say_until(&mut self.waiting, PIECE_BYTES);
        let count = self.waiting.len().min(PIECE_BYTES);
        hand_out(&mut self.waiting, count, bytes, &mut self.given);
        self.last = LastAnswer::at(count);
        Ok(Taken {
            bytes: count,
            handles: 0,
        })
    }
}
