//! Reads internet files, and states which errors that can have.

ghost use Rattle.std.specs.Prelude.{◌≢◌, IfErr, IfOk};
ghost use Rattle.file_entries.specs.Faults.{IsTold};
ghost use Rattle.internet_file.specs.Files.{IsFile, IsFileRefused};

use at_base::Error;
use file_entries::Refused;
use internet_file::{Plan, read};
use std::alloc::Global;

/// The plan of an internet file. Errors: `BadFile`, `Memory`, as in `internet_file::read`.
pub fn read_plan(alloc: Global, text: &[u8]) -> Result<Plan, Refused>
    ensures plan { IfOk result (λ plan. IsFile text.now plan) }
    ensures refused { IfErr result (λ r. IsFileRefused text.now r.error) }
    ensures told { IfErr result (λ r. IsTold r.faults r.error) }
    ensures not_full { IfErr result (λ r. r.error ≢ Error.Full) }
    ensures others { IfErr result
        (λ r. (r.error ≢ Error.ReadFault) × (r.error ≢ Error.WriteFault)) }
{
    read(alloc, text)
}
