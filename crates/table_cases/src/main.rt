//! Cases of the state of stations: routes, zones, names, addresses and transactions. They are
//! carried out twice, with each type of routing table.
#![tactic(auto)]

mod aarp_packets;
mod asks;
mod bench;
mod choosers;
mod equality;
mod learned;
mod mappers;
mod names;
mod requesters;
mod responders;
mod routes;
mod rows;
mod spelling;
mod tables;
mod zone_answers;
mod zone_words;
mod zones;

use bench::Cases;
use rtmp::{IndexedTable, PlainTable};
use std::io;

fn main(rt: HostRuntime) -> Result<(), io::Error> {
    case_words::run::<Cases<PlainTable>, HostRuntime>(&rt)?;
    case_words::run::<Cases<IndexedTable>, HostRuntime>(&rt)
}
