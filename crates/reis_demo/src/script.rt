//! What the client says from the first group on.

ghost use Rattle.std.specs.Prelude.{◌≡◌, ◌≤◌, ◌<◌, ◌+◌, ◌*◌, ◌%◌, ◌^◌, ◌⊎◌, ◌++◌, ◌∷◌, [], true, false, length, vec_len, vec_capacity};
ghost use Rattle.ei_spec.specs.Value.{Word};
ghost use Rattle.ei_spec.specs.Message.{header, message, bytes_of, all_bytes};
ghost use Rattle.reis_demo.specs.Generated.{drawn, after_draws, chooser, drawn_state, drawn_input, drawn_inputs, group_size, drawn_group, after_group};
ghost use Rattle.reis_demo.specs.Generated.{groups_from, frame_at, disconnect_message};
ghost use Rattle.reis_demo.specs.Script.{unsaid, IsTimed};

use ei_wire::Header;

/// The connection, which ends.
const CONNECTION: u64 = 0xff00000000000000;

/// The device, and those of its interfaces that the inputs go to.
const DEVICE: u64 = 0xff00000000000002;

const POINTER: u64 = 0xff00000000000003;

const KEYBOARD: u64 = 0xff00000000000005;

const SCROLL: u64 = 0xff00000000000007;

const BUTTON: u64 = 0xff00000000000008;

/// The bytes of an input.
const INPUT_BYTES: u32 = 24;

/// The bytes of a frame.
const FRAME_BYTES: u32 = 28;

/// The bytes of the end.
const END_BYTES: u32 = 16;

/// The most bytes of a group: three inputs and their frame.
pub(crate) const GROUP_BYTES: usize = 100;

/// So many groups are left, from a time and a number on, and the end if it wasn't said.
#[derive(Clone, Copy)]
pub(crate) struct Script {
    groups: u32,
    time: u64,
    number: u32,
    ended: bool,
}

/// The number that is drawn after another.
#[tactic(auto, unfolding(crate::specs::Generated::drawn))]
fn draw(number: u32) -> u32
    ensures { result ≡ drawn number }
{
    number.wrapping_mul(1664525).wrapping_add(1013904223)
}

/// How many inputs a group has, by the number drawn for it.
#[tactic(auto, unfolding(crate::specs::Generated::group_size, crate::specs::Generated::chooser))]
fn group_size(number: u32) -> u32
    ensures size { result ≡ group_size number }
    ensures some { 0 < result }
    ensures few { result ≤ 3 }
{
    1 + number / 65536 % 3
}

/// The state that a number gives to a button or a key.
#[tactic(auto, unfolding(crate::specs::Generated::drawn_state))]
fn drawn_state(number: u32) -> u32
    ensures { result ≡ drawn_state number }
{
    number / 1048576 % 2
}

/// The number after so many draws.
fn after_draws(count: u32, start: u32) -> u32
    ensures { result ≡ after_draws count start }
{
    let mut number = start;
    for _draw in 0..count {
        number = draw(number);
    }
    number
}

/// Appends the header of a message of so many bytes.
fn push_header(out: &mut Vec<u8>, object_id: u64, length: u32, opcode: u32)
    requires { vec_len out.old + 16 ≤ vec_capacity out.old }
    ensures bytes { out.new.items ≡ out.old.items ++ header object_id length opcode }
    ensures len { vec_len out.new ≡ vec_len out.old + 16 }
    ensures capacity { vec_capacity out.old ≤ vec_capacity out.new }
{
    let header = Header {
        object_id,
        length,
        opcode,
    };
    out.extend_from_slice(&header.as_bytes()).unwrap();
}

/// Appends a message of two words.
#[tactic(auto, unfolding(ei_spec::specs::Message::bytes_of))]
fn push_words(out: &mut Vec<u8>, object_id: u64, opcode: u32, first: u32, second: u32)
    requires { vec_len out.old + 24 ≤ vec_capacity out.old }
    ensures bytes { out.new.items ≡ out.old.items ++
        bytes_of (message object_id opcode (Word first ∷ Word second ∷ [])) }
    ensures len { vec_len out.new ≡ vec_len out.old + 24 }
    ensures capacity { vec_capacity out.old ≤ vec_capacity out.new }
{
    push_header(out, object_id, INPUT_BYTES, opcode);
    out.extend_from_slice(&first.to_le_bytes()).unwrap();
    out.extend_from_slice(&second.to_le_bytes()).unwrap();
}

/// Appends the input of a number that was drawn for it.
fn push_input(out: &mut Vec<u8>, number: u32)
    requires { vec_len out.old + 24 ≤ vec_capacity out.old }
    ensures bytes { out.new.items ≡ out.old.items ++ bytes_of (drawn_input (chooser number % 4) number) }
    ensures len { vec_len out.new ≡ vec_len out.old + 24 }
    ensures capacity { vec_capacity out.old ≤ vec_capacity out.new }
{
    match number / 65536 % 4 {
        0 => push_words(out, POINTER, 1, number, number),
        1 => push_words(out, BUTTON, 1, 272, drawn_state(number)),
        2 => push_words(out, KEYBOARD, 1, 30, drawn_state(number)),
        _ => push_words(out, SCROLL, 2, 120, (-120i32).cast_unsigned()),
    }
}

/// Appends the frame of a time.
#[tactic(auto, unfolding(ei_spec::specs::Message::bytes_of, crate::specs::Generated::frame_at))]
fn push_frame(out: &mut Vec<u8>, time: u64)
    requires { vec_len out.old + 28 ≤ vec_capacity out.old }
    ensures bytes { out.new.items ≡ out.old.items ++ bytes_of (frame_at time) }
    ensures len { vec_len out.new ≡ vec_len out.old + 28 }
    ensures capacity { vec_capacity out.old ≤ vec_capacity out.new }
{
    push_header(out, DEVICE, FRAME_BYTES, 3);
    out.extend_from_slice(&2u32.to_le_bytes()).unwrap();
    out.extend_from_slice(&time.to_le_bytes()).unwrap();
}

/// Appends the end.
#[tactic(auto, unfolding(ei_spec::specs::Message::bytes_of, crate::specs::Generated::disconnect_message))]
fn push_disconnect(out: &mut Vec<u8>)
    requires { vec_len out.old + 16 ≤ vec_capacity out.old }
    ensures bytes { out.new.items ≡ out.old.items ++ bytes_of disconnect_message }
    ensures len { vec_len out.new ≡ vec_len out.old + 16 }
    ensures capacity { vec_capacity out.old ≤ vec_capacity out.new }
{
    push_header(out, CONNECTION, END_BYTES, 1);
}

/// Appends the inputs of so many draws after a number. It answers the number after them.
fn push_inputs(out: &mut Vec<u8>, count: u32, start: u32) -> u32
    requires { vec_len out.old + 24 * count ≤ vec_capacity out.old }
    ensures bytes { out.new.items ≡ out.old.items ++ all_bytes (drawn_inputs count start) }
    ensures number { result ≡ after_draws count start }
    ensures len { vec_len out.new ≡ vec_len out.old + 24 * count }
    ensures capacity { vec_capacity out.old ≤ vec_capacity out.new }
{
    let mut number = start;
    for _draw in 0..count {
        number = draw(number);
        push_input(out, number);
    }
    number
}

/// Appends the group of a time after a number. It answers the number after it.
#[tactic(auto, unfolding(crate::specs::Generated::after_group))]
fn push_group(out: &mut Vec<u8>, time: u64, number: u32) -> u32
    requires { vec_len out.old + 100 ≤ vec_capacity out.old }
    ensures bytes { out.new.items ≡ out.old.items ++ all_bytes (drawn_group time number) }
    ensures number { result ≡ after_group number }
    ensures more { vec_len out.old < vec_len out.new }
    ensures few { vec_len out.new ≤ vec_len out.old + 100 }
    ensures capacity { vec_capacity out.old ≤ vec_capacity out.new }
{
    let first = draw(number);
    let last = push_inputs(out, group_size(first), first);
    push_frame(out, time);
    last
}

impl Script {
    /// All groups, from a number on.
    #[tactic(auto, unfolding(crate::specs::Script::unsaid))]
    pub(crate) fn new(groups: u32, start: u32) -> Script
        ensures messages { unsaid result ≡ groups_from groups 1 start ++ (disconnect_message ∷ []) }
        ensures times { IsTimed result }
    {
        Script {
            groups,
            time: 1,
            number: start,
            ended: false,
        }
    }

    /// Appends the next group, or the end.
    fn say_next(&mut self, out: &mut Vec<u8>)
        requires left { self.old.ended ≡ false }
        requires times { IsTimed self.old }
        requires room { vec_len out.old + 100 ≤ vec_capacity out.old }
        ensures said { out.new.items ++ all_bytes (unsaid self.new) ≡ out.old.items ++ all_bytes (unsaid self.old) }
        ensures more { vec_len out.old < vec_len out.new }
        ensures few { vec_len out.new ≤ vec_len out.old + 100 }
        ensures capacity { vec_capacity out.old ≤ vec_capacity out.new }
        ensures times { IsTimed self.new }
    {
        if self.groups == 0 {
            push_disconnect(out);
            self.ended = true;
        } else {
            self.number = push_group(out, self.time, self.number);
            self.time += 1;
            self.groups -= 1;
        }
    }

    /// Appends what is said until so many bytes wait, or all is said.
    pub(crate) fn say_until(&mut self, out: &mut Vec<u8>, len: usize)
        requires times { IsTimed self.old }
        requires room { len + 100 ≤ vec_capacity out.old }
        ensures said { out.new.items ++ all_bytes (unsaid self.new) ≡ out.old.items ++ all_bytes (unsaid self.old) }
        ensures full { (len ≤ vec_len out.new) ⊎ (unsaid self.new ≡ []) }
        ensures capacity { vec_capacity out.old ≤ vec_capacity out.new }
        ensures times { IsTimed self.new }
    {
        while out.len() < len && !self.ended {
            self.say_next(out);
        }
    }

    /// How many bytes it has yet to say.
    pub(crate) fn bytes_left(&self) -> u64
        ensures bytes { result ≡ length (all_bytes (unsaid self.now)) }
        ensures few { result < 2 ^ 40 }
    {
        if self.ended {
            return 0;
        }
        let mut number = self.number;
        let mut bytes = u64::from(END_BYTES);
        for _group in 0..self.groups {
            number = draw(number);
            let size = group_size(number);
            bytes += u64::from(INPUT_BYTES * size + FRAME_BYTES);
            number = after_draws(size, number);
        }
        bytes
    }
}
