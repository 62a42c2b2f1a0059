//! Cases of packets: the results of reading bytes, and the bytes that are written.
#![tactic(auto)]

mod aarp_packets;
mod addresses;
mod bench;
mod cable_info;
mod constants;
mod datagrams;
mod edits;
mod errors;
mod fields;
mod hex_lines;
mod names_asked;
mod routing_data;
mod texts;
mod transactions;
mod zone_lists;
mod zone_packets;

use bench::Packets;
use std::io;

fn main(rt: HostRuntime) -> Result<(), io::Error> {
    case_words::run::<Packets, HostRuntime>(&rt)
}
