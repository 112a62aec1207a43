//! The objects that the messages are to: one of each interface, at both ends under the same id; and where the ids
//! begin that messages announce.

use crate::messages::end::End;
use ei_backend::{Backend, FIRST_SERVER_ID, HasBackend, Interface, InterfaceName, Object};
use ei_spec::KnownInterface;
use std::alloc::Global;
use test_table::{Answer, Stop};

/// An object.
pub(crate) struct Target {
    pub(crate) interface: KnownInterface,
    pub(crate) id: u64,
    version: u32,
}

/// The object of each interface. The handshake is there from the first, in version 1; the callback is the client's,
/// and the others are the server's. Their versions are none of the protocol, and all differ.
const TARGETS: &[Target] = &[
    Target {
        interface: KnownInterface::Handshake,
        id: 0,
        version: 1,
    },
    Target {
        interface: KnownInterface::Callback,
        id: 1,
        version: 11,
    },
    Target {
        interface: KnownInterface::Connection,
        id: FIRST_SERVER_ID,
        version: 12,
    },
    Target {
        interface: KnownInterface::Pingpong,
        id: FIRST_SERVER_ID + 1,
        version: 13,
    },
    Target {
        interface: KnownInterface::Seat,
        id: FIRST_SERVER_ID + 2,
        version: 14,
    },
    Target {
        interface: KnownInterface::Device,
        id: FIRST_SERVER_ID + 3,
        version: 15,
    },
    Target {
        interface: KnownInterface::Pointer,
        id: FIRST_SERVER_ID + 4,
        version: 16,
    },
    Target {
        interface: KnownInterface::PointerAbsolute,
        id: FIRST_SERVER_ID + 5,
        version: 17,
    },
    Target {
        interface: KnownInterface::Scroll,
        id: FIRST_SERVER_ID + 6,
        version: 18,
    },
    Target {
        interface: KnownInterface::Button,
        id: FIRST_SERVER_ID + 7,
        version: 19,
    },
    Target {
        interface: KnownInterface::Keyboard,
        id: FIRST_SERVER_ID + 8,
        version: 20,
    },
    Target {
        interface: KnownInterface::Touchscreen,
        id: FIRST_SERVER_ID + 9,
        version: 21,
    },
    Target {
        interface: KnownInterface::Text,
        id: FIRST_SERVER_ID + 10,
        version: 22,
    },
    Target {
        interface: KnownInterface::Gesture,
        id: FIRST_SERVER_ID + 11,
        version: 23,
    },
];

/// The first id that a server's messages announce. It lies some ids behind the objects, so that one more of these
/// moves no announced id.
const FIRST_ANNOUNCED: u64 = FIRST_SERVER_ID + 16;

/// All of them.
pub(crate) fn targets() -> &'static [Target] {
    TARGETS
}

/// A fresh end with all of them.
pub(crate) fn with_targets<E: End>(alloc: Global, answer: &mut Answer) -> Option<E> {
    let mut end = answer.take(E::new(alloc));
    if let Some(end) = &mut end {
        put_all(answer, end);
    }
    end
}

/// Puts all of them into the table of a fresh end.
fn put_all<E: End>(answer: &mut Answer, end: &mut E) {
    for target in targets() {
        if target.id != 0 {
            put(answer, end, target);
        }
    }
    if !E::IS_CLIENT {
        pass_ids(answer, end.backend_mut());
    }
}

/// Uses up a server's own ids before the first that its messages announce.
fn pass_ids(answer: &mut Answer, backend: &mut Backend) {
    let name = KnownInterface::Callback;
    for id in backend.next_id()..FIRST_ANNOUNCED {
        check_made(answer, backend.new_object(InterfaceName::Known(name), 1));
        backend.remove_id(id);
    }
}

/// Puts the object into the table, as its own one or as the other end's.
fn put<E: End>(answer: &mut Answer, end: &mut E, target: &Target) {
    let name = InterfaceName::Known(target.interface);
    let backend = end.backend_mut();
    if (target.id >= FIRST_SERVER_ID) == E::IS_CLIENT {
        check_made(
            answer,
            backend.new_peer_object(target.id, name, target.version),
        );
    } else {
        check_made(answer, backend.new_object(name, target.version));
    }
}

/// Checks that there is an object. It is let go by a call: at the end of a scope the drop of each field is proved anew.
fn check_made<E: Drop>(answer: &mut Answer, made: Result<Object, E>) {
    if made.is_err() {
        answer.stop(Stop::Call);
    }
    drop(made);
}

/// The interface of the object of that id.
pub(crate) fn interface_of(id: u64) -> Option<KnownInterface> {
    for target in targets() {
        if target.id == id {
            return Some(target.interface);
        }
    }
    None
}

/// The id of the object of that interface.
fn id_of(interface: KnownInterface) -> Option<u64> {
    for target in targets() {
        if target.interface == interface {
            return Some(target.id);
        }
    }
    None
}

/// The proxy of this type over the object of its interface.
pub(crate) fn proxy<T: Interface, C: HasBackend>(context: &C) -> Option<T> {
    let object = context.backend().object_for_id(id_of(T::KNOWN)?)?;
    object.clone().ok()?.downcast::<T>()
}
