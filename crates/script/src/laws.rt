//! Laws of scripts. The function does nothing: the law is its ensures clause.

ghost use Rattle.std.specs.Prelude.{List, ℕ};
ghost use Rattle.script.specs.Scripts.{IsBadAt, IsScript};
ghost use Rattle.script.specs.declared.step.Step.{Step as StepValue};

/// A text that is a script has no bad line.
pub fn scripts_have_no_bad_line()
    ensures sound { (text : List ℕ) (steps : List StepValue) (n : ℕ)
        → IsScript text steps → IsBadAt text n → ⊥ }
{}
