//! Cases of cables, of scripts and of runs over frozen tables: the stations that receive a frame,
//! the effects of events, and the lines of a transcript.
#![tactic(auto)]

mod bench;
mod cables;
mod entries;
mod relay;
mod runs;
mod scripts;
mod seats;
mod taking;

use bench::Runs;
use rtmp::{IndexedTable, PlainTable};
use std::io;

fn main(rt: HostRuntime) -> Result<(), io::Error> {
    case_words::run::<Runs<PlainTable>, HostRuntime>(&rt)?;
    case_words::run::<Runs<IndexedTable>, HostRuntime>(&rt)
}
