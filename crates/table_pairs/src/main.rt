//! Lists of random calls, each carried out on both types of routing table, whose answers and rows
//! are compared. Arguments: a seed, and the number of lists. Prints how many calls there were, by
//! their answers, and how many differed.
#![tactic(auto)]

mod call;
mod driver;
mod random;
mod tally;

use case_words::Words;
use driver::run_lists;
use random::Random;
use rtmp::{IndexedTable, PlainTable};
use std::rt::Env;
use std::{env, io};
use tally::Tally;

/// The number in an argument, or 0 where it has none.
fn number_in(argument: &str) -> u64 {
    let mut words = Words::new(argument);
    words.number().unwrap_or(0)
}

/// The seed, and the number of lists.
fn asked<R: Env + AllocGlobal>(rt: &R) -> Result<(u64, u64), io::Error> {
    let mut numbers = [0, 0];
    for (number, argument) in numbers.iter_mut().zip(env::args(rt)?.skip(1)) {
        *number = number_in(argument.as_str());
    }
    Ok((numbers[0], numbers[1]))
}

fn main(rt: HostRuntime) -> Result<(), io::Error> {
    let (seed, lists) = asked(&rt)?;
    let mut tally = Tally::new();
    let mut random = Random::new(seed);
    let whole = run_lists::<PlainTable, IndexedTable>(
        rt.alloc(),
        &mut random,
        lists,
        &mut tally,
    ).is_ok();
    tally.print(&rt, lists, whole)
}
