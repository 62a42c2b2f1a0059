//! The verdict for the bytes of an image.
#![tactic(auto)]

ghost use Rattle.std.specs.Prelude.{◌≡◌, IfOk, IfErr, MatchResult};
ghost use Rattle.at_base.specs.Spelling.{Spells};
ghost use Rattle.table_image.specs.Internet.{Internet};
ghost use Rattle.table_image.specs.Spelling.{image_spelling};
ghost use Rattle.table_image.specs.Reading.{IsFirstFlaw, refusal, Refuses};
ghost use Rattle.table_image.specs.declared.flaw.Flaw.{Flaw};
ghost use Rattle.audit.specs.Verdicts.{Judges, OnYes};
ghost use Rattle.audit.specs.Walks.{WalksHome};

use at_base::Error;
use audit::{Verdict, audit};
use image_feed::read;
use std::alloc::Global;

/// Audits the internet whose image the bytes spell (docs/FORMATS.md). Errors: `BadImage`, with the
/// 0-based offset and the cause of the first flaw, where the bytes spell no image; `Memory`, only
/// where they spell one.
pub fn audit_bytes(alloc: Global, bytes: &[u8]) -> Result<Verdict, Error>
    // The verdict is that of the image that the bytes spell.
    ensures judged { IfOk result (λ verdict.
        (i : Internet)
        × Spells image_spelling bytes.now i
        × Judges i verdict
        × OnYes verdict (WalksHome i)) }
    // If the bytes spell an image, it is audited, unless memory runs out.
    ensures only { (i : Internet)
        → Spells image_spelling bytes.now i
        → MatchResult result (Judges i) (λ e. e ≡ Error.Memory) }
    // Other bytes are refused with their first flaw.
    ensures first { (f : Flaw) → IsFirstFlaw bytes.now f → result ≡ Err (refusal f) }
    // An error reports the first flaw, or a failed allocation where the bytes spell an image.
    ensures refused { IfErr result (Refuses bytes.now) }
{
    let image = read(alloc, bytes)?;
    Ok(audit(&image))
}
