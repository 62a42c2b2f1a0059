//! The example of the README of `internet_file`.

use at_base::Error;
use internet_file::{Do, read};
use std::alloc::Global;

/// How many datagrams the nodes of a file send.
fn datagrams(alloc: Global, text: &[u8]) -> Result<usize, Error> {
    let plan = match read(alloc, text) {
        Ok(plan) => plan,
        Err(refused) => return Err(refused.error),
    };
    let mut sent = 0usize;
    for action in plan.actions() {
        if let Do::Send { .. } = &action.action {
            sent = sent.saturating_add(1);
        }
    }
    Ok(sent)
}

/// A file with one action, which sends.
const SEND: &[u8] = br#"ticks = 120
cable = [{range = [10, 19], zones = ["Red"]}]
router = [{port = [{cable = 1, hardware = "020000000001", try = ["10.1"]}]}]
node = [{cable = 1, hardware = "020000000005", try = ["10.7"], zone = "Red"}]
[[action]]
at = 110
node = 1
do = "send"
to = "10.1"
socket = 4
source = 128
type = 4
hex = "0170696E67"
"#;

/// A file with two actions, of which the second one sends.
const LOOKUP_AND_SEND: &[u8] = br#"action = [
  {at = 100000, node = 2, do = "lookup", id = 513, object = "=", type = "Laser*", zone = "*"},
  {at = 7, node = 1, do = "send", to = "0.255", socket = 1, source = 2, type = 3, hex = ""},
]
lose = [{cable = 2, first = 3, last = 70000}, {cable = 1, first = 9, last = 9}]
ticks = 100000
[[node]]
cable = 1
hardware = "aBcDeF012345"
try = ["1.253", "1.1"]
zone = "Red Zone"
[[node]]
cable = 2
hardware = "000000000000"
try = []
zone = "~"
[[cable]]
range = [1, 1]
zones = ["Red Zone"]
[[cable]]
range = [1, 65279]
zones = ["~"]
"#;

/// Whether one datagram is counted in either file.
pub(super) fn datagrams_are_counted(alloc: Global) -> Result<bool, Error> {
    Ok(datagrams(alloc, SEND)? == 1 && datagrams(alloc, LOOKUP_AND_SEND)? == 1)
}
