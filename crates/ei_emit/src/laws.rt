//! Laws.

ghost use Rattle.std.specs.Prelude.{◌≡◌, ◌++◌, ℕ, List};
ghost use Rattle.ei_reported.specs.Reported.{Report};
ghost use Rattle.ei_emitting.specs.Emitted.{Step, emitted};

/// What the client is told of some steps is a front of what it is told of more.
pub fn fronts()
    ensures { (start : ℕ) (readings : List ℕ) (more before : List Step) → (rest : List Report) ×
        (emitted start readings (more ++ before) ≡ emitted start readings before ++ rest) }
{}
