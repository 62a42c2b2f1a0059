//! The queries for zone lists that a router sends.

ghost use Rattle.std.specs.Prelude.{◌≡◌, ◌≤◌, ◌++◌, length, IfOk, IsOkUnless, OnOk};
ghost use Rattle.rtmp.specs.Routes.{IsRouteMap};
ghost use Rattle.learning.specs.Queries.{queries_of, query_at};
ghost use Rattle.at_base.specs.Limits.{max_rows};

use crate::query::Query;
use at_base::Error;
use rtmp::RouteTable;
use std::alloc::Global;
use zip_zones::ZoneTable;

/// Does nothing. It gives the prover the fact that the table is a map, which only a call can.
fn recall_map<T: RouteTable>(routes: &T)
    ensures { IsRouteMap (T.rows routes.now) }
{
    let _len = routes.len();
}

/// Appends the query for a network, unless the network has no usable row or the row is direct.
/// Error: `Memory`.
fn put_query<T: RouteTable>(queries: &mut Vec<Query>, routes: &T, start: u16) -> Result<(), Error>
    ensures put { OnOk result
        (queries.new.items ≡ queries.old.items ++ query_at (T.rows routes.now) start) }
    ensures refused { IsOkUnless result Error.Memory }
{
    if let Some(row) = routes.row_for(start) {
        if !row.is_direct() {
            queries.push(Query {
                port: row.port,
                next: row.next,
                start,
            })?;
        }
    }
    Ok(())
}

/// The queries for the zone lists that a router lacks, in the order of its rows: one for each
/// usable row that isn't direct and whose range has no complete list. A query goes to the row's
/// next router, on the row's port. Error: `Memory`.
///
/// Inside AppleTalk, the chapter on ZIP.
pub fn queries<T: RouteTable>(
    alloc: Global,
    routes: &T,
    zones: &ZoneTable,
) -> Result<Vec<Query>, Error>
    ensures ok { IfOk result (λ list. list.items ≡ queries_of (T.rows routes.now) zones.now) }
    // At most one for each row of a routing table.
    ensures few { IfOk result (λ list. length list.items ≤ max_rows) }
    ensures refused { IsOkUnless result Error.Memory }
{
    recall_map(routes);
    let starts = zones.queries_due(routes)?;
    let mut queries = Vec::new(alloc);
    for start in starts.as_slice() {
        put_query(&mut queries, routes, *start)?;
    }
    Ok(queries)
}
