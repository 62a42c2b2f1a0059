//! The program `atalk`: audits an image of an internet's tables, runs scripts over it, shows and
//! draws it, joins several, makes one of a tables file, plays internet files, whose final tables it
//! writes as an image, and routes and asks on real cables.
#![tactic(auto)]

mod asking;
mod explain;
mod files;
mod keeper;
mod keeping;
mod objects;
mod outputs;
mod performed;
mod printing;
mod question_words;
mod run;
mod run_ask;
mod run_join;
mod run_play;
mod run_route;
mod run_tables;
mod run_trace;
mod settling;
mod streams;
mod telling;
mod watching;

use run::run;
use std::process::ExitCode;
use streams::take_places;
use telling::Terminals;

// No `Result` here: an `Err` of `main` would end with status 1, which means that the audit failed.
fn main(rt: HostRuntime) -> ExitCode {
    let _places = take_places(&rt);
    ExitCode::from(run(&rt, Terminals::of(&rt)))
}
