//! The pages sent in reply to requests for zone lists.

ghost use Rattle.std.specs.Prelude.{◌≡◌, ◌≤◌, [], length, IfOk, IsOk, IsOkUnless};
ghost use Rattle.zip_zones.specs.Answers.{asked_zones, my_zone, zone_page};

use crate::page::{Page, put_name, zone_list_page};
use crate::table::ZoneTable;
use crate::zone_function::ZoneFunction;
use at_base::{Bytes, Error, Name};
use std::alloc::Global;

/// The page with the default zone of a cable with these zones, or an empty page if it has none.
/// Error: `Memory`, which an empty page never needs.
fn my_page(alloc: Global, local: &[Name]) -> Result<Page, Error>
    ensures ok { IfOk result (λ made. made ≡ my_zone local.now) }
    ensures short { IfOk result (λ made. length made.bytes ≤ 578) }
    ensures none { local.now ≡ [] → IsOk result }
    ensures refused { IsOkUnless result Error.Memory }
{
    let mut bytes = Vec::new(alloc);
    match local {
        [] => Ok(Page {
            last: true,
            count: 0,
            bytes: Bytes::from_vec(bytes),
        }),
        [default, ..] => {
            put_name(&mut bytes, default)?;
            Ok(Page {
                last: false,
                count: 1,
                bytes: Bytes::from_vec(bytes),
            })
        }
    }
}

/// The page that answers a zone request: GetMyZone gives the default zone, marked as not the last
/// page; GetZoneList a page of all zones, from an index on; GetLocalZones a page of the cable's
/// zones, from an index on.
///
/// Inside AppleTalk, the chapter on ZIP; the default zone's page is this project's own. Error:
/// `Memory`, which a request about no zones never needs.
pub fn page_for(
    alloc: Global,
    function: ZoneFunction,
    start: u16,
    local: &[Name],
    table: &ZoneTable,
) -> Result<Page, Error>
    ensures ok { IfOk result
        (λ made. made ≡ zone_page function start local.now table.now) }
    ensures short { IfOk result (λ made. length made.bytes ≤ 578) }
    ensures none { asked_zones function local.now table.now ≡ [] → IsOk result }
    ensures refused { IsOkUnless result Error.Memory }
{
    match function {
        ZoneFunction::GetMyZone => my_page(alloc, local),
        ZoneFunction::GetZoneList => {
            let names = table.all()?;
            zone_list_page(alloc, start, names.as_slice())
        }
        ZoneFunction::GetLocalZones => zone_list_page(alloc, start, local),
    }
}
