//! The example of the README of `tables_text`.

use super::three_cables::IMAGE;
use at_base::{Cause, Error};
use image_feed::read;
use std::alloc::Global;
use std::io::Write;
use tables_text::print_tables;
use text::Output;

/// Writes the tables file of the image that the bytes are.
fn show<W: Write>(alloc: Global, image: &[u8], output: &mut Output<W>) -> Result<(), Error> {
    let image = read(alloc, image)?;
    print_tables(output, &image)?;
    output.flush()
}

const SHOWN: &[u8] = br#"version = 1

[[cable]]
range = [10, 19]
zones = ["Red"]

[[cable]]
range = [20, 29]
zones = ["Red", "Blue"]

[[cable]]
range = [30, 39]
zones = ["Blue"]

[[router]]
port = [
    {cable = 1, address = "10.1", hardware = "020000000001"},
    {cable = 2, address = "20.1", hardware = "020000000002"},
]
row = [
    {range = [10, 19], distance = 0, port = 1, next = "0.0", state = "Good"},
    {range = [20, 29], distance = 0, port = 2, next = "0.0", state = "Good"},
    {range = [30, 39], distance = 1, port = 2, next = "20.2", state = "Good"},
]
list = [
    {range = [10, 19], complete = true, zones = ["Red"]},
    {range = [20, 29], complete = true, zones = ["Red", "Blue"]},
    {range = [30, 39], complete = true, zones = ["Blue"]},
]

[[router]]
port = [
    {cable = 2, address = "20.2", hardware = "020000000003"},
    {cable = 3, address = "30.1", hardware = "020000000004"},
]
row = [
    {range = [10, 19], distance = 1, port = 1, next = "20.1", state = "Good"},
    {range = [20, 29], distance = 0, port = 1, next = "0.0", state = "Good"},
    {range = [30, 39], distance = 0, port = 2, next = "0.0", state = "Good"},
]
list = [
    {range = [10, 19], complete = true, zones = ["Red"]},
    {range = [20, 29], complete = true, zones = ["Red", "Blue"]},
    {range = [30, 39], complete = true, zones = ["Blue"]},
]

[[node]]
cable = 1
address = "10.7"
hardware = "020000000005"
zone = "Red"
router = "10.1"
name = []

[[node]]
cable = 3
address = "30.5"
hardware = "020000000006"
zone = "Blue"
router = "30.1"
name = [
    {object = "lab", type = "LaserWriter", socket = 129, enumerator = 1},
]
"#;

/// Whether this is the text of the image.
fn is_shown(alloc: Global, image: &[u8], text: &[u8]) -> Result<bool, Error> {
    let mut output = Output::new(alloc, Vec::with_capacity(alloc, 4000)?);
    match show(alloc, image, &mut output) {
        Ok(()) => Ok(output.writer.as_slice() == text),
        Err(error) => Err(error),
    }
}

/// Whether an image is shown, and bytes that are none are refused.
pub(super) fn images_are_shown(alloc: Global) -> Result<bool, Error> {
    match is_shown(alloc, b"ATIM", b"") {
        Err(Error::BadImage(4, Cause::Cut)) => is_shown(alloc, &IMAGE, SHOWN),
        Err(error) => Err(error),
        Ok(_) => Ok(false),
    }
}
