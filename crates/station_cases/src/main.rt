//! Cases of stations: the outputs of routers and nodes for frames, in ticks and for their users,
//! and their state after these. They are carried out twice, with each type of routing table.
#![tactic(auto)]

mod askers;
mod asking;
mod beginning;
mod bench;
mod frames;
mod nodes;
mod on_cables;
mod outputs;
mod passing;
mod plan;
mod routers;
mod texts;

use bench::Stations;
use rtmp::{IndexedTable, PlainTable};
use std::io;

fn main(rt: HostRuntime) -> Result<(), io::Error> {
    case_words::run::<Stations<PlainTable>, HostRuntime>(&rt)?;
    case_words::run::<Stations<IndexedTable>, HostRuntime>(&rt)
}
