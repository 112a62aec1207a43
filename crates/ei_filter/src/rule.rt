//! Rules.

ghost use Rattle.std.specs.Prelude.{◌≡◌, ◌&&◌, not, Bool};
ghost use Rattle.ei_session.specs.Requests.{Request};
ghost use Rattle.ei_replay.specs.Asked.{asked_of};
ghost use Rattle.ei_filter.specs.Sifted.{is_let};
ghost use Rattle.ei_filter.specs.Sifts.{enabled};

use ei_request::EisRequest;

/// A rule, which lets a request through or not. Its test is over what a request asks, by the ids of the seats and devices
/// that it names: the versions of their objects don't count.
pub trait Rule: Drop {
    /// Which requests it lets through.
    ghost test: { Self → Request → Bool };

    /// Whether it is asked.
    ghost asked: { Self → Bool };

    /// Whether it lets the request through.
    fn keeps(&self, request: &EisRequest) -> bool
        ensures { result ≡ test self.now (asked_of request.now) };

    /// Whether it is asked.
    fn enabled(&self) -> bool
        ensures { result ≡ asked self.now };

    /// From now on it is asked, or isn't. Its test stays.
    fn set_enabled(&mut self, on: bool)
        ensures test { test self.new ≡ test self.old }
        ensures asked { asked self.new ≡ on };
}

/// Whether every rule that is asked lets the request through.
pub(crate) fn lets(rules: &[Box<dyn Rule>], request: &EisRequest) -> bool
    ensures { result ≡ is_let (enabled (λ r. test r) (λ r. asked r) rules.now) (asked_of request.now) }
{
    for rule in rules {
        if refuses(rule, request) {
            return false;
        }
    }
    true
}

/// Whether the rule is asked and doesn't let the request through.
fn refuses(rule: &Box<dyn Rule>, request: &EisRequest) -> bool
    ensures { result ≡ (asked rule.now && not (test rule.now (asked_of request.now))) }
{
    rule.enabled() && !rule.keeps(request)
}

/// From now on the rule is asked, or isn't.
pub(crate) fn set_enabled(rule: &mut Box<dyn Rule>, on: bool)
    ensures test { test rule.new ≡ test rule.old }
    ensures asked { asked rule.new ≡ on }
{
    rule.set_enabled(on);
}
