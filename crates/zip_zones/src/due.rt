//! The networks whose zones a router asks for.

ghost use Rattle.std.specs.Prelude.{◌≡◌, ◌&&◌, ◌++◌, ◌∷◌, [], not, IfOk, IsOk, IsOkUnless, OnOk};
ghost use Rattle.rtmp.specs.States.{is_usable};
ghost use Rattle.zip_zones.specs.Zones.{due, is_answered};

use crate::table::ZoneTable;
use at_base::Error;
use rtmp::{RouteTable, Row};
use std::alloc::Global;

/// Whether the router asks for the zones of a row's range.
fn is_due(zones: &ZoneTable, row: &Row) -> bool
    ensures { result ≡ (is_usable row.now.state && not (is_answered zones.now row.now.range)) }
{
    row.state.is_usable() && !zones.is_answered(row.range)
}

/// Appends the first network of the row, if the router asks for its zones. Error: `Memory`, only
/// then.
fn put_due(starts: &mut Vec<u16>, zones: &ZoneTable, row: &Row) -> Result<(), Error>
    ensures put { OnOk result
        (starts.new.items ≡ starts.old.items ++ due (row.now ∷ []) zones.now) }
    ensures none { due (row.now ∷ []) zones.now ≡ [] → IsOk result }
    ensures err { IsOkUnless result Error.Memory }
{
    if is_due(zones, row) {
        starts.push(row.range.start())?;
    }
    Ok(())
}

impl ZoneTable {
    /// The first networks of the usable rows whose ranges have no complete list, in rising order.
    /// Error: `Memory`, which no networks never need.
    pub fn queries_due<T: RouteTable>(&self, routes: &T) -> Result<Vec<u16>, Error>
        ensures ok { IfOk result (λ starts. starts.items ≡ due (T.rows routes.now) self.now) }
        ensures none { due (T.rows routes.now) self.now ≡ [] → IsOk result }
        ensures refused { IsOkUnless result Error.Memory }
    {
        let mut starts = Vec::new(self.allocator());
        for index in 0..routes.len() {
            if let Some(row) = routes.row(index) {
                put_due(&mut starts, self, &row)?;
            }
        }
        Ok(starts)
    }
}
