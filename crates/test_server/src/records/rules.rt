//! Rules of the tests, and the words that spell them.

ghost use Rattle.test_server.specs.Rules.{no_down, no_up};

use ei_filter::Rule;
use ei_request::EisRequest;
use test_table::{Stop, count, number};

/// What a word does to a filter.
#[derive(Clone, Copy)]
pub(crate) enum Change {
    /// It adds `NoDown` of that touch.
    NoDown(u32),
    /// It adds `NoUp`.
    NoUp,
    /// It adds `Nothing`.
    Nothing,
    /// It says whether the rule of that place is asked.
    Enable(usize, bool),
    /// It changes nothing.
    Same,
}

/// `no-down-TOUCH`, `no-up`, `nothing`, `off-PLACE`, `on-PLACE`, or no word.
pub(crate) fn change_of(word: &str) -> Result<Change, Stop> {
    if let Some(place) = word.strip_prefix("off-") {
        return Ok(Change::Enable(count(place)?, false));
    }
    if let Some(place) = word.strip_prefix("on-") {
        return Ok(Change::Enable(count(place)?, true));
    }
    if let Some(touch) = word.strip_prefix("no-down-") {
        return Ok(Change::NoDown(number(touch)?));
    }
    match word {
        "" => Ok(Change::Same),
        "no-up" => Ok(Change::NoUp),
        "nothing" => Ok(Change::Nothing),
        _ => Err(Stop::Line),
    }
}

/// Lets all through but the begin of one touch.
#[derive(Drop)]
pub(crate) struct NoDown {
    pub(crate) touch: u32,
    pub(crate) on: bool,
}

impl Rule for NoDown {
    ghost test = { λ r. no_down r.touch };

    ghost asked = { λ r. r.on };

    fn keeps(&self, request: &EisRequest) -> bool {
        match request {
            EisRequest::TouchDown(down) => down.touch_id != self.touch,
            _ => true,
        }
    }

    fn enabled(&self) -> bool {
        self.on
    }

    fn set_enabled(&mut self, on: bool) {
        self.on = on;
    }
}

/// Lets all through but the ends of touches.
#[derive(Drop)]
pub(crate) struct NoUp {
    pub(crate) on: bool,
}

impl Rule for NoUp {
    ghost test = { λ r. no_up };

    ghost asked = { λ r. r.on };

    fn keeps(&self, request: &EisRequest) -> bool {
        !matches!(request, EisRequest::TouchUp(_))
    }

    fn enabled(&self) -> bool {
        self.on
    }

    fn set_enabled(&mut self, on: bool) {
        self.on = on;
    }
}

/// Lets nothing through.
#[derive(Drop)]
pub(crate) struct Nothing {
    pub(crate) on: bool,
}

impl Rule for Nothing {
    ghost use Rattle.std.specs.Prelude.{false};

    ghost test = { λ r item. false };

    ghost asked = { λ r. r.on };

    fn keeps(&self, _request: &EisRequest) -> bool {
        false
    }

    fn enabled(&self) -> bool {
        self.on
    }

    fn set_enabled(&mut self, on: bool) {
        self.on = on;
    }
}
