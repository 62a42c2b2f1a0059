//! Aging of a router's tables.

ghost use Rattle.std.specs.Prelude.{◌≡◌, if◌then◌else◌};
ghost use Rattle.rtmp.specs.Routes as spec;
ghost use Rattle.rtmp.specs.Routes.{aged};
ghost use Rattle.zip_zones.specs.Zones.{without};
ghost use Rattle.learning.specs.Forgetting.{without_gone};

use rtmp::{RouteTable, Row, State};
use zip_zones::ZoneTable;

/// Whether the row is removed by the next aging.
fn is_over(row: &Row) -> bool
    ensures { result ≡ spec.is_over row.now }
{
    match row.state {
        State::Last => !row.is_direct(),
        _ => false,
    }
}

/// Removes the list of the row's range, if the row is to be removed.
fn forget_list(zones: &mut ZoneTable, row: &Row)
    ensures { zones.new ≡ (if spec.is_over row.now then without row.now.range zones.old else zones.old) }
{
    if is_over(row) {
        zones.remove(row.range);
    }
}

/// Removes the lists of the ranges whose rows are to be removed.
fn forget_lists<T: RouteTable>(routes: &T, zones: &mut ZoneTable)
    ensures { zones.new ≡ without_gone (T.rows routes.now) zones.old }
{
    for index in 0..routes.len() {
        if let Some(row) = routes.row(index) {
            forget_list(zones, &row);
        }
    }
}

/// Ages the tables by one period. Each row that isn't direct gets the next state, from good through
/// suspect and bad to the last; a row in its last state is removed, together with the zone list of
/// its range. Allocates nothing.
///
/// Inside AppleTalk, the chapters on RTMP and ZIP.
pub fn forget<T: RouteTable>(routes: &mut T, zones: &mut ZoneTable)
    ensures routes { T.rows routes.new ≡ aged (T.rows routes.old) }
    ensures zones { zones.new ≡ without_gone (T.rows routes.old) zones.old }
{
    forget_lists(routes, zones);
    routes.age();
}
