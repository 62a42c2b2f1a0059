//! Whether the tables need an image of version 2.

ghost use Rattle.std.specs.Prelude.{◌≡◌, length};
ghost use Rattle.std.specs.List.{list_any};
ghost use Rattle.freeze.specs.Frozen as spec;

use internet_file::{Cable, Plan};
use live_node::LiveNode;
use live_router::LiveRouter;
use rtmp::RouteTable;
use station::Member;
use table_image::Version;

/// Whether there are more zones than a range has in an image of version 1.
pub(crate) fn is_long(zones: usize) -> bool
    ensures { result ≡ spec.is_long zones }
{
    zones > Version::V1.zone_limit()
}

/// Whether one of the cables has more zones than that.
pub(crate) fn has_long_cable(cables: &[Cable]) -> bool
    ensures { result ≡ list_any (λ c. spec.is_long (length c.zones)) cables.now }
{
    cables.iter().any(|cable| is_long(cable.zones.len()))
}

/// Whether the station is a router that has a list with more names than that.
fn has_long_list<T: RouteTable>(station: &Member<LiveRouter<T>, LiveNode>) -> bool
    ensures { result ≡ spec.has_long_list station.now }
{
    match station {
        Member::Router(router) => is_long(router.router().zones().most_names()),
        Member::Node(_) => false,
    }
}

/// Whether one of the stations is such a router.
fn have_long_list<T: RouteTable>(stations: &[Member<LiveRouter<T>, LiveNode>]) -> bool
    ensures { result ≡ list_any spec.has_long_list stations.now }
{
    stations.iter().any(|station| has_long_list(station))
}

/// Whether a cable of a plan, or a zone list of one of its routers, has more than 64 names: then an
/// image of version 1 can't hold them. An incomplete list counts by the names that it has.
/// Allocates nothing.
pub fn needs_version_2<T: RouteTable>(
    plan: &Plan,
    stations: &[Member<LiveRouter<T>, LiveNode>],
) -> bool
    ensures { result ≡ spec.needs_version_2 plan.now stations.now }
{
    has_long_cable(plan.cables()) || have_long_list(stations)
}
