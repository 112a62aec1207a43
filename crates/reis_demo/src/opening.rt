//! What the client says before the groups.

ghost use Rattle.std.specs.Prelude.{◌≡◌, ◌≤◌, ◌++◌, ◌∷◌, [], ℕ, List, length, map, vec_capacity, OnOk, IfOk};
ghost use Rattle.ei_spec.specs.Message.{message, bytes_of, all_bytes};
ghost use Rattle.ei_wire.specs.Gives.{value_of_arg};
ghost use Rattle.ei_backend.specs.Outgoing.{args_body};
ghost use Rattle.reis_demo.specs.Generated.{announcement, introduction, objects_announced, capabilities_announced, own_versions, finish_message, begins_to_send, opening};

use ei_wire::{Arg, Header, NoMemory};
use std::alloc::Global;

/// The object of the handshake.
const HANDSHAKE: u64 = 0;

/// The seat that the server announces.
const SEAT: u64 = 0xff00000000000001;

/// The device that it makes.
const DEVICE: u64 = 0xff00000000000002;

/// The capabilities that the client knows, and binds. Others that a server may have it doesn't know.
pub(crate) const OWN_CAPABILITIES: u64 = 127;

/// How many bytes the arguments have.
fn body_len(args: &[Arg<'_>]) -> u32
    requires { length (args_body args.now) ≤ 1000 }
    ensures { result ≡ length (args_body args.now) }
{
    let mut len = 0;
    for arg in args {
        len += arg.size() as u32;
    }
    len
}

/// Appends the arguments.
fn push_args(alloc: Global, out: &mut Vec<u8>, args: &[Arg<'_>]) -> Result<(), NoMemory>
    requires { length (args_body args.now) ≤ 1000 }
    ensures ok { OnOk result (out.new.items ≡ out.old.items ++ args_body args.now) }
    ensures capacity { vec_capacity out.old ≤ vec_capacity out.new }
{
    let mut handles = Vec::new(alloc);
    for arg in args {
        arg.write(out, &mut handles)?;
    }
    Ok(())
}

/// Appends a message.
#[tactic(auto, unfolding(ei_spec::specs::Message::bytes_of))]
fn push_message(
    alloc: Global,
    out: &mut Vec<u8>,
    object_id: u64,
    opcode: u32,
    args: &[Arg<'_>],
) -> Result<(), NoMemory>
    requires { length (args_body args.now) ≤ 1000 }
    ensures ok { OnOk result (out.new.items ≡ out.old.items ++
        bytes_of (message object_id opcode (map value_of_arg args.now))) }
    ensures capacity { vec_capacity out.old ≤ vec_capacity out.new }
{
    let header = Header {
        object_id,
        length: 16 + body_len(args),
        opcode,
    };
    out.extend_from_slice(&header.as_bytes())?;
    push_args(alloc, out, args)?;
    Ok(())
}

/// Appends the announcement of an interface.
#[tactic(auto, unfolding(crate::specs::Generated::announcement))]
fn push_announcement(
    alloc: Global,
    out: &mut Vec<u8>,
    name: &str,
    version: u32,
) -> Result<(), NoMemory>
    requires { length name.now ≤ 100 }
    ensures ok { OnOk result (out.new.items ≡ out.old.items ++ bytes_of (announcement name.now version)) }
    ensures capacity { vec_capacity out.old ≤ vec_capacity out.new }
{
    push_message(
        alloc,
        out,
        HANDSHAKE,
        4,
        &[Arg::String(Some(name)), Arg::Uint32(version)],
    )?;
    Ok(())
}

/// Appends the version, the name and the type of the client.
#[tactic(auto, unfolding(crate::specs::Generated::introduction))]
fn push_introduction(alloc: Global, out: &mut Vec<u8>) -> Result<(), NoMemory>
    ensures ok { OnOk result (out.new.items ≡ out.old.items ++ all_bytes introduction) }
    ensures capacity { vec_capacity out.old ≤ vec_capacity out.new }
{
    push_message(alloc, out, HANDSHAKE, 0, &[Arg::Uint32(1)])?;
    push_message(alloc, out, HANDSHAKE, 3, &[Arg::String(Some("demo"))])?;
    push_message(alloc, out, HANDSHAKE, 2, &[Arg::Uint32(2)])?;
    Ok(())
}

/// The interfaces that the client has, with their versions. Others that a server may have it doesn't know.
fn own_interfaces() -> [(&'static str, u32); 12]
    ensures { map {B = List ℕ × ℕ} (λ p. (p.0.now, p.1)) result ≡ own_versions }
{
    [
        ("ei_connection", 1),
        ("ei_callback", 1),
        ("ei_pingpong", 1),
        ("ei_seat", 2),
        ("ei_device", 3),
        ("ei_pointer", 1),
        ("ei_pointer_absolute", 1),
        ("ei_scroll", 1),
        ("ei_button", 1),
        ("ei_keyboard", 1),
        ("ei_touchscreen", 2),
        ("ei_text", 1),
    ]
}

/// Appends the announcements of the client's interfaces: those of a connection, and then those of a device.
fn push_announcements(alloc: Global, out: &mut Vec<u8>) -> Result<(), NoMemory>
    ensures ok { OnOk result (out.new.items ≡ out.old.items ++
        all_bytes (objects_announced ++ capabilities_announced)) }
    ensures capacity { vec_capacity out.old ≤ vec_capacity out.new }
{
    let interfaces = own_interfaces();
    for (name, version) in &interfaces {
        push_announcement(alloc, out, name, *version)?;
    }
    Ok(())
}

/// Appends the end of the handshake, and what makes a device that begins to send.
#[tactic(auto, unfolding(crate::specs::Generated::finish_message, crate::specs::Generated::begins_to_send))]
fn push_device(alloc: Global, out: &mut Vec<u8>) -> Result<(), NoMemory>
    ensures ok { OnOk result (out.new.items ≡ out.old.items ++ all_bytes (finish_message ∷ begins_to_send)) }
    ensures capacity { vec_capacity out.old ≤ vec_capacity out.new }
{
    push_message(alloc, out, HANDSHAKE, 1, &[])?;
    push_message(alloc, out, SEAT, 1, &[Arg::Uint64(OWN_CAPABILITIES)])?;
    push_message(alloc, out, DEVICE, 1, &[Arg::Uint32(2), Arg::Uint32(1)])?;
    Ok(())
}

/// What the client says before the groups, in a buffer with room for so many bytes.
#[tactic(auto, using(crate::proofs::Saying::opening_parts))]
pub(crate) fn opening(alloc: Global, room: usize) -> Result<Vec<u8>, NoMemory>
    ensures bytes { IfOk result (λ out. out.items ≡ all_bytes opening) }
    ensures room { IfOk result (λ out. room ≤ vec_capacity out) }
{
    let mut out = Vec::with_capacity(alloc, room)?;
    push_introduction(alloc, &mut out)?;
    push_announcements(alloc, &mut out)?;
    push_device(alloc, &mut out)?;
    Ok(out)
}
