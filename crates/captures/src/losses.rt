//! Which frames were lost.

ghost use Rattle.std.specs.Prelude.{◌≡◌, ◌==◌, ◌++◌, List, ℕ, IfOk, OnOk, map};
ghost use Rattle.std.specs.List.{list_any};
ghost use Rattle.cable_model.specs.Logs.{entry_at};
ghost use Rattle.captures.specs.Packets as spec;

use cable_model::Entry;
use std::alloc::{AllocError, Global};

/// Appends the stamp that an entry says was lost, if it says so.
fn put_loss(stamps: &mut Vec<u32>, entry: &Entry) -> Result<(), AllocError>
    ensures { OnOk result ((kept : List (List ℕ))
        → stamps.new.items ≡ stamps.old.items ++ spec.loss (entry_at kept entry.now)) }
{
    if let Entry::Lost { stamp } = *entry {
        stamps.push(stamp)?;
    }
    Ok(())
}

/// The stamps that entries say were lost.
pub(crate) fn losses_in(alloc: Global, entries: &[Entry]) -> Result<Vec<u32>, AllocError>
    ensures { IfOk result (λ stamps. (kept : List (List ℕ))
        → stamps.items ≡ spec.losses (map (entry_at kept) entries.now)) }
{
    let mut stamps = Vec::new(alloc);
    for entry in entries {
        put_loss(&mut stamps, entry)?;
    }
    Ok(stamps)
}

/// Whether the stamp is one of these.
pub(crate) fn is_among(stamps: &[u32], stamp: u32) -> bool
    ensures { result ≡ list_any (λ k. k == stamp) stamps.now }
{
    stamps.contains(&stamp)
}
