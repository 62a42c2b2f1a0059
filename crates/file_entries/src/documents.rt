//! Documents in TOML.

ghost use Rattle.std.specs.Prelude.{IfOk, IfErr};
ghost use Rattle.toml.specs.View.{table_view};
ghost use Rattle.file_entries.specs.Documents.{IsDocument, IsNoText};

use crate::judge::may_begin_text;
use at_base::{Error, Part};
use std::alloc::Global;
use toml::Table;

/// The document that a text is. Errors: `BadFile` with `Text` and 0 if the text isn't TOML;
/// `Memory`.
pub fn document(alloc: Global, text: &[u8]) -> Result<Table, Error>
    ensures read { IfOk result (λ t. IsDocument text.now (table_view t)) }
    ensures refused { IfErr result (IsNoText text.now) }
{
    if !may_begin_text(text) {
        return Err(Error::BadFile(Part::Text, 0));
    }
    match toml::table_from_slice(alloc, text) {
        Ok(table) => Ok(table),
        Err(fault) => {
            if fault.is_memory() {
                Err(Error::Memory)
            } else {
                Err(Error::BadFile(Part::Text, 0))
            }
        }
    }
}
