//! Cases of tables files: the images that they say or their first faults, the texts that are
//! printed of images, and the drawings.
#![tactic(auto)]

mod answers;
mod bench;

use bench::Tables;
use std::io;

fn main(rt: HostRuntime) -> Result<(), io::Error> {
    case_words::run::<Tables, HostRuntime>(&rt)
}
