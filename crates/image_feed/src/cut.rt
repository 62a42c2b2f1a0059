//! Bytes that end within a part.

ghost use Rattle.std.specs.Prelude.{◌≡◌, ◌≢◌, IfErr, IfOk, None, false, true};
ghost use Rattle.table_image.specs.Flaws.{faults};
ghost use Rattle.image_feed.specs.declared.stop.Stop.TheVariants.{Refused};

use crate::stop::Stop;
use at_base::Cause;
use table_image::parts::Fault;

/// Whether the fault is that the bytes end too early.
#[inline(always)]
pub(crate) fn is_cut(fault: Fault) -> bool
    ensures yes { result ≡ true → fault ≡ faults.cut }
    ensures no { result ≡ false → fault ≢ faults.cut }
{
    fault.left == 0 && matches!(fault.cause, Cause::Cut)
}

/// The bytes again, where they only end too early, so that more may follow; else the refusal.
pub(crate) fn unless_cut(fault: Fault, bytes: &[u8]) -> Result<&[u8], Stop>
    ensures waits { IfOk result (λ rest. (rest.now ≡ bytes.now) × (fault ≡ faults.cut)) }
    ensures refused { IfErr result (λ e. (e ≡ Refused fault) × (fault ≢ faults.cut)) }
{
    if is_cut(fault) {
        return Ok(bytes);
    }
    Err(Stop::Refused(fault))
}

/// None, where the bytes only end too early, so that more may follow; else the refusal.
pub(crate) fn none_if_cut<X>(fault: Fault) -> Result<Option<X>, Stop>
    ensures waits { IfOk result (λ o. (o ≡ None) × (fault ≡ faults.cut)) }
    ensures refused { IfErr result (λ e. (e ≡ Refused fault) × (fault ≢ faults.cut)) }
{
    if is_cut(fault) {
        return Ok(None);
    }
    Err(Stop::Refused(fault))
}
