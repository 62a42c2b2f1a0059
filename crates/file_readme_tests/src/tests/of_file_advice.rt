//! What is said of files with faults.

use at_base::{Error, Part};
use file_advice::{Format, write};
use std::alloc::Global;

/// A file with 30 faults.
const FAULTS: &[u8] = br#"ticks = 9
[[cable]]
range = [11, 1]
zones = [1]
[[cable]]
range = [12, 2]
zones = [2]
[[cable]]
range = [13, 3]
zones = [3]
[[cable]]
range = [14, 4]
zones = [4]
[[cable]]
range = [15, 5]
zones = [5]
[[cable]]
range = [16, 6]
zones = [6]
[[cable]]
range = [17, 7]
zones = [7]
[[cable]]
range = [18, 8]
zones = [8]
[[cable]]
range = [19, 9]
zones = [9]
[[cable]]
range = [20, 10]
zones = [10]
[[lose]]
cable = 11
first = 3
last = 10
[[lose]]
cable = 12
first = 3
last = 11
[[lose]]
cable = 13
first = 3
last = 12
[[lose]]
cable = 14
first = 3
last = 13
[[lose]]
cable = 15
first = 3
last = 14
"#;

/// What is said of it.
const TOLD: &str = r#"cable 1, line 3: range is [11, 1]; the first number has to be the smaller one
atalk: cable 1, line 4: value 1 of zones is 1; it has to be a text
atalk: cable 2, line 6: range is [12, 2]; the first number has to be the smaller one
atalk: cable 2, line 7: value 1 of zones is 2; it has to be a text
atalk: cable 3, line 9: range is [13, 3]; the first number has to be the smaller one
atalk: cable 3, line 10: value 1 of zones is 3; it has to be a text
atalk: cable 4, line 12: range is [14, 4]; the first number has to be the smaller one
atalk: cable 4, line 13: value 1 of zones is 4; it has to be a text
atalk: cable 5, line 15: range is [15, 5]; the first number has to be the smaller one
atalk: cable 5, line 16: value 1 of zones is 5; it has to be a text
atalk: cable 6, line 18: range is [16, 6]; the first number has to be the smaller one
atalk: cable 6, line 19: value 1 of zones is 6; it has to be a text
atalk: cable 7, line 21: range is [17, 7]; the first number has to be the smaller one
atalk: cable 7, line 22: value 1 of zones is 7; it has to be a text
atalk: cable 8, line 24: range is [18, 8]; the first number has to be the smaller one
atalk: cable 8, line 25: value 1 of zones is 8; it has to be a text
atalk: cable 9, line 27: range is [19, 9]; the first number has to be the smaller one
atalk: cable 9, line 28: value 1 of zones is 9; it has to be a text
atalk: cable 10, line 30: range is [20, 10]; the first number has to be the smaller one
atalk: cable 10, line 31: value 1 of zones is 10; it has to be a text
atalk: lose 1, line 33: cable is 11; it has to be a number from 1, and there are 10
atalk: lose 1, line 35: last is 10; it has to be from 3 to 9
atalk: lose 2, line 37: cable is 12; it has to be a number from 1, and there are 10
atalk: lose 2, line 39: last is 11; it has to be from 3 to 9
atalk: lose 3, line 41: cable is 13; it has to be a number from 1, and there are 10
atalk: lose 3, line 43: last is 12; it has to be from 3 to 9
atalk: lose 4, line 45: cable is 14; it has to be a number from 1, and there are 10
atalk: lose 4, line 47: last is 13; it has to be from 3 to 9
atalk: lose 5, line 49: cable is 15; it has to be a number from 1, and there are 10
atalk: lose 5, line 51: last is 14; it has to be from 3 to 9
"#;

/// A tables file with faults within routers.
const TABLES: &[u8] = br#"version = 1
[[cable]]
range = [10, 19]
zones = ["Red"]
[[router]]
[[router.port]]
cable = 1
address = "10.256"
[[router.port]]
cable = 2
address = "10.2"
[[router.row]]
range = [10, 19]
distance = 0
port = 1
[[router.row]]
range = [10, 19]
distance = 32
port = 3
hops = 1
[[node]]
address = "10.7"
cable = 1
zone = {hex = "5"}
"#;

/// What is said of it.
const TABLES_TOLD: &str =
    r#"router 1, port 1, line 8: address is "10.256"; it has to be an address as "10.7"
atalk: router 1, port 2, line 10: cable is 2; it has to be a number from 1, and there is 1
atalk: router 1, row 2, line 20: "hops" isn't one of its keys; man atalk-tables has them
atalk: router 1, row 2, line 18: distance is 32; it has to be from 0 to 31
atalk: router 1, row 2, line 19: port is 3; it has to be a number from 1, and there are 2
atalk: node 1, line 24: zone is {..}; it has to be a text of an even number of hexadecimal digits
"#;

/// Whether this is said of a text as a file of the format, and its first fault is in this part, as
/// number 1. Where memory was refused, fewer faults may be told.
fn is_told(
    alloc: Global,
    format: Format,
    text: &[u8],
    lines: &str,
    part: Part,
) -> Result<bool, Error> {
    let refused = match format {
        Format::Internet => internet_file::read(alloc, text).err(),
        Format::Tables => tables_file::read(alloc, text).err(),
    };
    match refused {
        Some(refused) => {
            let mut said = Vec::new(alloc);
            let is_said = write(alloc, &mut said, format, text, &refused).is_ok();
            if !is_said || refused.error == Error::Memory {
                Err(Error::Memory)
            } else {
                let is_first = refused.error == Error::BadFile(part, 1);
                Ok(is_first && said.as_slice() == lines.as_bytes())
            }
        }
        None => Ok(false),
    }
}

/// Whether the faults of both files are told.
pub(super) fn faults_are_told(alloc: Global) -> Result<bool, Error> {
    for (format, text, lines, part) in [
        (Format::Internet, FAULTS, TOLD, Part::Cable),
        (Format::Tables, TABLES, TABLES_TOLD, Part::Router),
    ] {
        if !is_told(alloc, format, text, lines, part)?
            && !is_told(alloc, format, text, lines, part)?
        {
            return Ok(false);
        }
    }
    Ok(true)
}
