//! Laws: what is kept of the devices stands for all that was told. The functions do nothing: their clauses are the laws.

ghost use Rattle.std.specs.Prelude.{◌≡◌, ℕ, ◌∷◌, [], List};
ghost use Rattle.std.specs.FinMap as finite;
ghost use Rattle.ei_types.specs.declared.enums.ContextType.{ContextType};
ghost use Rattle.ei_request.specs.declared.event.EisRequest.{EisRequest};
ghost use Rattle.reis_strict.specs.declared.verdict.Verdict.TheVariants.{Pass};
ghost use Rattle.reis_strict.specs.Acts.{act_of};
ghost use Rattle.reis_strict.specs.Devices.{Devices, verdict_in, with_act, with_resumed, with_paused, with_reserved};
ghost use Rattle.reis_strict.specs.History.{Told, WasResumed, WasPaused, WasRemoved, Passed, verdict_of};
ghost use Rattle.reis_strict.specs.Standing.{StandsFor};

/// Before anything was told no device is kept; and what stands for a history stands for it with one thing more, as the
/// calls of `Strict` leave it. Room for a device changes nothing of that.
pub fn told()
    ensures first { StandsFor finite.empty [] }
    ensures resumed { (devices : Devices) (history : List Told) (device : ℕ) → StandsFor devices history →
        StandsFor (with_resumed device devices) (WasResumed device ∷ history) }
    ensures paused { (devices : Devices) (history : List Told) (device : ℕ) → StandsFor devices history →
        StandsFor (with_paused device devices) (WasPaused device ∷ history) }
    ensures removed { (devices : Devices) (history : List Told) (device : ℕ) → StandsFor devices history →
        StandsFor (finite.remove devices device) (WasRemoved device ∷ history) }
    ensures passed { (devices : Devices) (history : List Told) (role : ContextType) (request : EisRequest) →
        StandsFor devices history → verdict_of role request history ≡ Pass →
        StandsFor (with_act (act_of request) devices) (Passed request ∷ history) }
    ensures reserved { (devices : Devices) (history : List Told) (device : ℕ) → StandsFor devices history →
        StandsFor (with_reserved device devices) history }
{}

/// What becomes of a request by what is kept is what becomes of it by the history.
pub fn verdicts()
    ensures { (devices : Devices) (history : List Told) (role : ContextType) (request : EisRequest) →
        StandsFor devices history →
        verdict_in role request devices ≡ verdict_of role request history }
{}
