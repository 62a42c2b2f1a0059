//! Scripts that are read line by line.

ghost use Rattle.std.specs.Prelude.{◌≡◌, ◌⊎◌, ⊤, ℕ, List, None, IfErr, IfOk, IfSome, IsErrAnd, OnOk};
ghost use Rattle.std.specs.Io.KnownBytes.{IsAtEnd};
ghost use Rattle.commands.specs.Streams.{IsScriptRefused, IsTold, most_reads};
ghost use Rattle.commands.specs.declared.refused.Origin.TheVariants as OriginValue;
ghost use Rattle.script.specs.Feeds.{HasRead, IsRefused};
ghost use Rattle.script.specs.Scripts.{IsBadAt, IsScript};
ghost use Rattle.script.specs.declared.step.Step.{Step as StepValue};

use crate::reading::{READS, Stop, Takes, read_into};
use crate::refused::Refused;
use at_base::Error;
use script::{ScriptFeed, Step, scripts_have_no_bad_line};
use std::alloc::Global;
use std::io::Read;

impl Takes for ScriptFeed {
    ghost took = { λ feed all. (feed.refused ≡ None) × HasRead feed all };

    ghost sound = { λ all. ⊤ };

    ghost refuses = { λ feed all e. IsRefused e all };

    fn take(&mut self, piece: &[u8]) -> Result<(), Error> {
        self.feed(piece)
    }
}

/// Reads the input to its end, line by line, and returns the steps of its script. A script with a
/// bad line is read up to it. Errors: `ReadFault`, `BadScript`, `Memory`.
pub fn read_steps<R: Read>(alloc: Global, input: &mut R) -> Result<Vec<Step>, Refused>
    ensures found { IfOk result (λ steps. IfSome (R.remaining input.old)
        (λ text. IsScript text steps.items)) }
    ensures end { OnOk result (IsAtEnd (R.remaining input.new)) }
    ensures named { IfErr result (λ r. IsScriptRefused r.error
        × (r.origin ≡ OriginValue.Script) × IsTold most_reads r) }
    // A script with a bad line has the error of its first bad line, or `ReadFault` or `Memory`.
    ensures bad_line { IfSome (R.remaining input.old) (λ text.
        (n : ℕ) → IsBadAt text n → IsErrAnd result (λ r. (r.error ≡ Error.BadScript n)
        ⊎ (r.error ≡ Error.ReadFault) ⊎ (r.error ≡ Error.Memory))) }
    ensures good { IfSome (R.remaining input.old) (λ text.
        (steps : List StepValue) → IsScript text steps → IfErr result (λ r.
        (r.error ≡ Error.Memory) ⊎ (r.error ≡ Error.ReadFault))) }
{
    // Only the prover needs this call: a script has no bad line.
    scripts_have_no_bad_line();
    let mut feed = ScriptFeed::new(alloc);
    match read_into(input, &mut feed, READS) {
        Ok(()) => match feed.finish() {
            Ok(steps) => Ok(steps),
            Err(error) => Err(Refused::of(error).in_script()),
        },
        Err(Stop::Unread(reason, reads)) => Err(Refused::unread(reason, reads).in_script()),
        Err(Stop::Refused(error)) => Err(Refused::of(error).in_script()),
    }
}
