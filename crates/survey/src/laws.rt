//! Laws of stations that ask. Each law is the contract of a function that does nothing.

ghost use Rattle.std.specs.Prelude.{◌≡◌, ◌≤◌, ◌∷◌, [], ℕ, None};
ghost use Rattle.cabled.specs.Acting.{Heard};
ghost use Rattle.cabled.specs.Steps.{hearing_at};
ghost use Rattle.cabled.specs.declared.peers.Peers.TheVariants.{Real};
ghost use Rattle.ethertalk.specs.Frames.{Framed};
ghost use Rattle.survey.specs.Asking.{Asking, asking_step, untold};

/// A frame that its port doesn't hear, since it is for another station or its own, puts nothing, and
/// changes nothing but what was told of the step before.
pub fn unheard()
    ensures { (a : Asking) (k : ℕ) (f : Framed) → hearing_at Real (a.port ∷ []) k f ≡ None
        → asking_step a (Heard k f) ≡ ([], untold a) }
{}
