//! A client, and what it was told so far.

use ei_backend::Readings;
use ei_client::Context;
use ei_event::{Device, EiEvent, EiEventConverter, Seat};
use ei_handshake::EiHandshaker;
use std::alloc::Global;
use test_table::{Answer, Stop};

/// An endpoint, with the handshaker on it, and behind the handshake a converter with its clock, the seats and the devices
/// that were added, in this order, and the events of the last call that took some.
#[derive(Drop)]
pub(crate) struct Client {
    pub(crate) alloc: Global,
    pub(crate) context: Context,
    pub(crate) handshaker: Option<EiHandshaker>,
    pub(crate) converter: Option<EiEventConverter>,
    pub(crate) clock: Readings,
    pub(crate) seats: Vec<Seat>,
    pub(crate) devices: Vec<Device>,
    pub(crate) told: Vec<EiEvent>,
}

impl Client {
    /// A client that shook no hands.
    pub(crate) fn new(alloc: Global) -> Result<Client, Stop> {
        match Readings::new(alloc, &[]) {
            Ok(clock) => Client::with_clock(alloc, clock),
            Err(error) => Err(Stop::from(error)),
        }
    }

    /// The same, with that clock.
    fn with_clock(alloc: Global, clock: Readings) -> Result<Client, Stop> {
        match Context::new(alloc) {
            Ok(context) => Ok(Client {
                alloc,
                context,
                handshaker: None,
                converter: None,
                clock,
                seats: Vec::new(alloc),
                devices: Vec::new(alloc),
                told: Vec::new(alloc),
            }),
            Err(error) => {
                drop(clock);
                Err(Stop::from(error))
            }
        }
    }

    /// Begins on a fresh endpoint.
    pub(crate) fn begin(&mut self, answer: &mut Answer) {
        replace(&mut self.context, Context::new(self.alloc), answer);
    }

    /// Forgets the seats, the devices and the last events.
    pub(crate) fn forget(&mut self) {
        clear(&mut self.seats);
        clear(&mut self.devices);
        clear(&mut self.told);
    }

    /// Takes all events that wait, one by one, as the last ones, and keeps the seats and the devices that they added.
    pub(crate) fn take_told(&mut self, answer: &mut Answer) {
        clear(&mut self.told);
        match &mut self.converter {
            Some(converter) => take_events(converter, &mut self.told, answer),
            None => answer.stop(Stop::Line),
        }
        for event in &self.told {
            keep_key(event, &mut self.seats, &mut self.devices, answer);
        }
    }
}

/// Puts a value in the place of another.
pub(crate) fn put<T: Drop>(place: &mut T, value: T) {
    *place = value;
}

/// Puts a value that was made in the place of another.
pub(crate) fn replace<T: Drop, E: Drop>(place: &mut T, made: Result<T, E>, answer: &mut Answer)
where
    Stop: From<E>,
{
    if let Some(value) = answer.take(made) {
        put(place, value);
    }
}

/// Forgets all values.
pub(crate) fn clear<T: Drop>(values: &mut Vec<T>) {
    values.clear();
}

/// Takes all events that wait, one by one.
fn take_events(converter: &mut EiEventConverter, told: &mut Vec<EiEvent>, answer: &mut Answer) {
    for _ in 0..converter.queued_len() {
        push_next(told, converter.next_event(), answer);
    }
}

/// Adds the value that there has to be.
fn push_next<T: Drop>(values: &mut Vec<T>, next: Option<T>, answer: &mut Answer) {
    match next {
        Some(value) => {
            answer.take(values.push(value));
        }
        None => answer.stop(Stop::Call),
    }
}

/// Keeps the key of what an event added.
pub(crate) fn keep_key(
    event: &EiEvent,
    seats: &mut Vec<Seat>,
    devices: &mut Vec<Device>,
    answer: &mut Answer,
) {
    match event {
        EiEvent::SeatAdded(added) => keep(&added.seat, seats, answer),
        EiEvent::DeviceAdded(added) => keep(&added.device, devices, answer),
        _ => {}
    }
}

/// Keeps a key behind others.
fn keep<K: Clone + Drop>(key: &K, keys: &mut Vec<K>, answer: &mut Answer) {
    if let Some(key) = answer.take(key.clone()) {
        answer.take(keys.push(key));
    }
}
