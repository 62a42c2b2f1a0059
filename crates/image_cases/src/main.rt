//! Cases of images and of their audit: the results of reading bytes, the images of given parts,
//! their parts as tables, and the verdicts.
#![tactic(auto)]

mod answers;
mod bench;
mod changes;
mod edits;
mod equal;
mod making;
mod parts;
mod pieces;
mod reading;
mod verdicts;

use bench::Images;
use std::io;

fn main(rt: HostRuntime) -> Result<(), io::Error> {
    case_words::run::<Images, HostRuntime>(&rt)
}
