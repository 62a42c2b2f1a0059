//! Names that are given to cables.

ghost use Rattle.std.specs.Prelude.{◌≡◌, option_map};

use at_base::{Bytes, Error};
use std::alloc::Global;
use text::cut::cut;
use text::number::byte;

/// The name of the interface that is a cable.
#[derive(Debug, Drop)]
pub struct Given {
    /// The number of the cable in the file, from 1.
    pub cable: u8,
    /// The name.
    pub name: Bytes,
}

/// The cable and the name in a word such as `3=eth0`: a number up to 255 in decimal, and all that
/// follows the first equals sign, which is at least one byte. `None` for any other word. Error:
/// `Memory`.
pub fn name_in(alloc: Global, word: &[u8]) -> Result<Option<Given>, Error> {
    let (front, name) = cut(b'=', word);
    match (byte(front), name) {
        (Some(cable), Some(name)) if !name.is_empty() => Ok(Some(Given {
            cable,
            name: Bytes::copy(alloc, name)?,
        })),
        _ => Ok(None),
    }
}
