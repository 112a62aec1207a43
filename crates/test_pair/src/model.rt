//! Plain lists of what two sides sent, and of what their converters should hand out for it.

use crate::draws::Draws;
use crate::shown::{keep_text, tell};
use crate::told::{tell_bind, tell_frame, tell_motion, tell_start};
use ei_pair::Side;
use ei_request::Device;
use std::alloc::Global;
use test_table::{Answer, Stop};

/// An input that waits for its frame.
#[derive(Clone, Copy)]
struct Moved {
    dx: u32,
    dy: u32,
}

/// What one side sent, each message as a text; how many of them the other side took; the inputs among them that wait for their
/// frame; and what the other side's converter should hand out.
#[derive(Drop)]
pub(crate) struct Plain {
    alloc: Global,
    pub(crate) sent: Vec<String>,
    pub(crate) taken: usize,
    waiting: Vec<Moved>,
    pub(crate) told: Vec<String>,
}

/// A callback, and by what its handler changes a number.
#[derive(Clone, Copy)]
pub(crate) struct Asked {
    pub(crate) callback: u64,
    pub(crate) by: u64,
}

/// The server's device, what is drawn, both sides, whether each message that was taken is the one in its place, the callbacks
/// that the client asked for, how many of them were answered, its next own id, and the server's last serial.
#[derive(Drop)]
pub(crate) struct Lists<'a> {
    pub(crate) alloc: Global,
    pub(crate) device: &'a Device,
    pub(crate) draws: Draws,
    pub(crate) client: Plain,
    pub(crate) server: Plain,
    pub(crate) is_equal: bool,
    pub(crate) asked: Vec<Asked>,
    answered: usize,
    next: u64,
    serial: u32,
}

impl Plain {
    fn new(alloc: Global) -> Plain {
        Plain {
            alloc,
            sent: Vec::new(alloc),
            taken: 0,
            waiting: Vec::new(alloc),
            told: Vec::new(alloc),
        }
    }

    /// An input of the pointer.
    pub(crate) fn moves(&mut self, answer: &mut Answer, dx: u32, dy: u32) {
        let mut text = Answer::new(self.alloc);
        tell(&mut text, "s3 ei_pointer 1 1 f", &dx);
        tell(&mut text, " f", &dy);
        keep_text(answer, &mut self.sent, text);
        drop(answer.take(self.waiting.push(Moved { dx, dy })));
    }

    /// A frame by this opcode, which is handed out behind the inputs that waited for it, if there are any.
    pub(crate) fn frames(&mut self, answer: &mut Answer, opcode: u32, serial: u32, time: u64) {
        let mut text = Answer::new(self.alloc);
        tell(&mut text, "s2 ei_device 3 ", &opcode);
        tell(&mut text, " u", &serial);
        tell(&mut text, " #", &time);
        keep_text(answer, &mut self.sent, text);
        self.hand_out(answer, serial, time);
    }

    /// Hands out the inputs that wait, if there are any, with this time, and a frame.
    fn hand_out(&mut self, answer: &mut Answer, serial: u32, time: u64) {
        if self.waiting.is_empty() {
            return;
        }
        for moved in &self.waiting {
            let mut text = Answer::new(self.alloc);
            tell_motion(&mut text, moved.dx, moved.dy, time);
            keep_text(answer, &mut self.told, text);
        }
        self.waiting.clear();
        let mut text = Answer::new(self.alloc);
        tell_frame(&mut text, serial, time);
        keep_text(answer, &mut self.told, text);
    }

    /// The server's input begins: a frame is made before it, with the time 7, if inputs wait.
    fn starts(&mut self, answer: &mut Answer, serial: u32, sequence: u32) {
        let mut text = Answer::new(self.alloc);
        tell(&mut text, "s2 ei_device 3 9 u", &serial);
        tell(&mut text, " u", &sequence);
        keep_text(answer, &mut self.sent, text);
        self.hand_out(answer, serial, 7);
        let mut text = Answer::new(self.alloc);
        tell_start(&mut text, serial, sequence);
        keep_text(answer, &mut self.told, text);
    }

    /// The client binds.
    pub(crate) fn binds(&mut self, answer: &mut Answer, mask: u64) {
        let mut text = Answer::new(self.alloc);
        tell(&mut text, "s1 ei_seat 2 1 #", &mask);
        keep_text(answer, &mut self.sent, text);
        let mut text = Answer::new(self.alloc);
        tell_bind(&mut text, mask);
        keep_text(answer, &mut self.told, text);
    }
}

impl<'a> Lists<'a> {
    /// None of what stands in the pair already: the client's next own id and the server's last serial are these.
    pub(crate) fn new(
        alloc: Global,
        device: &'a Device,
        draws: Draws,
        next: u64,
        serial: u32,
    ) -> Lists<'a> {
        Lists {
            alloc,
            device,
            draws,
            client: Plain::new(alloc),
            server: Plain::new(alloc),
            is_equal: true,
            asked: Vec::new(alloc),
            answered: 0,
            next,
            serial,
        }
    }

    /// What the other side sent.
    pub(crate) fn theirs(&mut self, side: Side) -> &mut Plain {
        match side {
            Side::Client => &mut self.server,
            Side::Server => &mut self.client,
        }
    }

    /// The client asks for a callback.
    pub(crate) fn asks(&mut self, answer: &mut Answer, by: u64) {
        let callback = self.next;
        self.next = callback.wrapping_add(1);
        let mut text = Answer::new(self.alloc);
        tell(&mut text, "s0 ei_connection 1 0 #", &callback);
        text.put(" u1");
        keep_text(answer, &mut self.client.sent, text);
        drop(answer.take(self.asked.push(Asked { callback, by })));
    }

    /// The server takes the next `sync`, and answers it.
    pub(crate) fn answers(&mut self, answer: &mut Answer) {
        match self.asked.get(self.answered) {
            Some(asked) => {
                let mut text = Answer::new(self.alloc);
                tell(&mut text, "", &asked.callback);
                text.put(" ei_callback 1 0 #0");
                keep_text(answer, &mut self.server.sent, text);
                self.answered = self.answered.saturating_add(1);
            }
            None => answer.stop(Stop::Call),
        }
    }

    /// The server's frame, which bears its next serial.
    pub(crate) fn server_frames(&mut self, answer: &mut Answer, time: u64) {
        self.serial = self.serial.wrapping_add(1);
        self.server.frames(answer, 11, self.serial, time);
    }

    /// The server's input begins, which bears its next serial.
    pub(crate) fn server_starts(&mut self, answer: &mut Answer, sequence: u32) {
        self.serial = self.serial.wrapping_add(1);
        self.server.starts(answer, self.serial, sequence);
    }
}
