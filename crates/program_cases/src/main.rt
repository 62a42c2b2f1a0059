//! Cases of the program: arguments, internet files, worlds, plays, and the output of `audit`, `trace`
//! and `play`.
#![tactic(auto)]

mod arguments;
mod bench;
mod commands_run;
mod exits;
mod mishaps;
mod plans;
mod turns;
mod worlds;

use bench::Program;
use rtmp::{IndexedTable, PlainTable};
use std::io;

fn main(rt: HostRuntime) -> Result<(), io::Error> {
    case_words::run::<Program<PlainTable>, HostRuntime>(&rt)?;
    case_words::run::<Program<IndexedTable>, HostRuntime>(&rt)
}
