//! The proxies of both ends through their traits.

use crate::messages::end::End;
use crate::messages::targets::{targets, with_targets};
use crate::words::tell_next;
use ei_backend::{HasBackend, Interface, Object, kinds};
use ei_spec::KnownInterface;
use std::alloc::Global;
use std::fmt::Debug;
use std::hash::{FoldHasher, Hash, Hasher};
use test_table::{Answer, Stop};

/// Tells the proxy of each interface at each end.
pub(crate) fn tell(alloc: Global, answer: &mut Answer) {
    answer.put("proxies of the client\n");
    tell_all::<ei_client::Context>(alloc, answer);
    answer.put("proxies of the server\n");
    tell_all::<ei_server::Context>(alloc, answer);
}

/// Tells the proxy over each object of an end.
fn tell_all<E: End>(alloc: Global, answer: &mut Answer) {
    if let Some(end) = with_targets::<E>(alloc, answer) {
        for target in targets() {
            tell_at(answer, &end, target.id);
        }
        // Let go by a call: at the end of a scope the drop of each field is proved anew.
        drop(end);
    }
}

/// Tells the proxy over that object of an end.
fn tell_at<E: End>(answer: &mut Answer, end: &E, id: u64) {
    match end.backend().object_for_id(id) {
        Some(object) => {
            tell_proxy(answer, end, object);
            answer.put("\n");
        }
        None => answer.stop(Stop::Call),
    }
}

/// The proxy over the object as a text.
pub(crate) fn proxy_text<E: End>(alloc: Global, end: &E, object: &Object) -> Result<String, Stop> {
    let mut text = Answer::new(alloc);
    tell_proxy(&mut text, end, object);
    text.text()
}

/// Tells the proxy over the object: nothing where the object has none.
fn tell_proxy<E: End>(answer: &mut Answer, end: &E, object: &Object) {
    match KnownInterface::from_name(object.interface()) {
        Some(KnownInterface::Handshake) => end.tell_proxy::<kinds::Handshake>(answer, object),
        Some(KnownInterface::Connection) => end.tell_proxy::<kinds::Connection>(answer, object),
        Some(KnownInterface::Callback) => end.tell_proxy::<kinds::Callback>(answer, object),
        Some(KnownInterface::Pingpong) => end.tell_proxy::<kinds::Pingpong>(answer, object),
        Some(KnownInterface::Seat) => end.tell_proxy::<kinds::Seat>(answer, object),
        Some(KnownInterface::Device) => end.tell_proxy::<kinds::Device>(answer, object),
        Some(KnownInterface::Pointer) => end.tell_proxy::<kinds::Pointer>(answer, object),
        Some(KnownInterface::PointerAbsolute) => end.tell_proxy::<kinds::PointerAbsolute>(
            answer, object,
        ),
        Some(KnownInterface::Scroll) => end.tell_proxy::<kinds::Scroll>(answer, object),
        Some(KnownInterface::Button) => end.tell_proxy::<kinds::Button>(answer, object),
        Some(KnownInterface::Keyboard) => end.tell_proxy::<kinds::Keyboard>(answer, object),
        Some(KnownInterface::Touchscreen) => end.tell_proxy::<kinds::Touchscreen>(answer, object),
        Some(KnownInterface::Text) => end.tell_proxy::<kinds::Text>(answer, object),
        Some(KnownInterface::Gesture) => end.tell_proxy::<kinds::Gesture>(answer, object),
        None => {}
    }
}

/// Tells the proxy of that type over the object, if it has one: what it is shown as, and as an argument; the name of its
/// interface on the wire, with the version of the object and that of the interface; its end; whether it is alive;
/// and whether it is equal to a clone and a copy, and they are hashed alike.
pub(crate) fn tell_proxy_of<T, C>(answer: &mut Answer, context: &C, object: &Object)
where
    T: Interface + Clone + Debug + Eq + Hash + Drop,
    C: HasBackend,
{
    if let Some(object) = answer.take(object.clone()) {
        if let Some(proxy) = object.downcast::<T>() {
            tell_names(answer, &proxy);
            tell_state(answer, context, &proxy);
            drop(proxy);
        }
    }
}

/// Tells what a proxy is shown as, and as an argument, and the names and the versions of its interface.
fn tell_names<T: Interface + Debug>(answer: &mut Answer, proxy: &T) {
    answer.show(proxy);
    tell_next(answer, &proxy.as_arg());
    tell_next(answer, &T::NAME);
    tell_next(answer, &T::wire_name());
    tell_next(answer, &proxy.version());
    tell_next(answer, &T::VERSION);
}

/// Tells the end of a proxy, and whether it is alive, and the same as its clone and its copy.
fn tell_state<T, C>(answer: &mut Answer, context: &C, proxy: &T)
where
    T: Interface + Clone + Eq + Hash + Drop,
    C: HasBackend,
{
    answer.put(" client");
    tell_next(answer, &T::CLIENT_SIDE);
    answer.put(" alive");
    tell_next(answer, &proxy.is_alive(context));
    answer.put(" same");
    let same = has_same_copies(answer, proxy);
    tell_next(answer, &same);
}

/// Whether a proxy is the same as its clone and its copy.
fn has_same_copies<T: Interface + Clone + Eq + Hash + Drop>(
    answer: &mut Answer,
    proxy: &T,
) -> bool {
    match answer.take(proxy.clone()) {
        Some(clone) => {
            let copy = proxy.copy();
            let same = is_same(proxy, &clone) && is_same(proxy, &copy);
            drop(clone);
            drop(copy);
            same
        }
        None => false,
    }
}

/// Whether the values are equal, and hashed alike.
fn is_same<T: Eq + Hash>(first: &T, second: &T) -> bool {
    first == second && hash_of(first) == hash_of(second)
}

/// What the value is hashed to.
fn hash_of<T: Hash>(value: &T) -> u64 {
    let mut hasher = FoldHasher::default();
    value.hash(&mut hasher);
    hasher.finish()
}
