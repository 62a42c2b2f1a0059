//! The example of the README of `tables_file`.

use at_base::{Error, Part};
use audit::audit;
use std::alloc::Global;
use tables_file::read;

/// The verdict line on the tables that a text says.
fn verdict(alloc: Global, text: &[u8]) -> Result<String, Error> {
    let image = match read(alloc, text) {
        Ok(image) => image,
        Err(refused) => return Err(refused.error),
    };
    audit(&image).line(alloc)
}

/// The file of the README.
const SMALL: &[u8] = br#"cable = [{range = [10, 19], zones = ["Red"]}]
node = [{cable = 1, address = "10.7", zone = "Red", router = "10.1"}]
[[router]]
port = [{cable = 1, address = "10.1"}]
row = [{range = [10, 19], distance = 0, port = 1}]
"#;

/// The file with another port in its row.
const AT_FAULT: &[u8] = br#"cable = [{range = [10, 19], zones = ["Red"]}]
node = [{cable = 1, address = "10.7", zone = "Red", router = "10.1"}]
[[router]]
port = [{cable = 1, address = "10.1"}]
row = [{range = [10, 19], distance = 0, port = 2}]
"#;

/// The file with a node that sends through no router's port.
const UNSERVED: &[u8] = br#"cable = [{range = [10, 19], zones = ["Red"]}]
node = [{cable = 1, address = "10.7", zone = "Red", router = "10.2"}]
[[router]]
port = [{cable = 1, address = "10.1"}]
row = [{range = [10, 19], distance = 0, port = 1}]
"#;

/// Whether the first two files are judged, and the one at fault is refused.
pub(super) fn tables_files_are_judged_or_refused(alloc: Global) -> Result<bool, Error> {
    let yes = "yes: 1 cables, 1 routers, 1 nodes, 1 rows, greatest distance 0";
    let passes = verdict(alloc, SMALL)?.as_str() == yes;
    let is_unserved = verdict(alloc, UNSERVED)?.as_str() == "no: C9 node 1";
    match verdict(alloc, AT_FAULT).err() {
        Some(Error::BadFile(Part::Router, 1)) => Ok(passes && is_unserved),
        Some(Error::Memory) => Err(Error::Memory),
        _ => Ok(false),
    }
}
