//! One call of a table, many times, so that its cost can be measured. Arguments: the table
//! (`plain`, `indexed` or `zones`), the call, the number of rows or lists, and how many times.
//! `scripts/table-speed` prints the costs.
#![tactic(auto)]

mod routes;
mod zones;

use at_base::Error;
use case_words::Words;
use rtmp::{IndexedTable, PlainTable};
use std::alloc::Global;
use std::rt::Env;
use std::{env, io};

/// What is measured.
#[derive(Drop)]
struct Asked {
    table: String,
    call: String,
    rows: u16,
    times: u32,
}

/// The number in a text, or 0 where it has none.
fn number_in(text: &str) -> u32 {
    Words::new(text).number().unwrap_or(0)
}

/// What the arguments ask for.
fn make_asked<R: Env + AllocGlobal>(rt: &R) -> Result<Asked, io::Error> {
    let mut asked = Asked {
        table: String::new(rt.alloc()),
        call: String::new(rt.alloc()),
        rows: 0,
        times: 0,
    };
    for (place, argument) in env::args(rt)?.enumerate() {
        match place {
            1 => asked.table = argument,
            2 => asked.call = argument,
            3 => asked.rows = (number_in(argument.as_str()) % 65536) as u16,
            4 => asked.times = number_in(argument.as_str()),
            _ => {}
        }
    }
    Ok(asked)
}

/// Carries out the calls. Returns how many rows or ranges they found or changed.
fn measured(alloc: Global, asked: &Asked) -> Result<u64, Error> {
    let (call, rows, times) = (asked.call.as_str(), asked.rows, asked.times);
    match asked.table.as_str() {
        "plain" => routes::run::<PlainTable>(alloc, call, rows, times),
        "indexed" => routes::run::<IndexedTable>(alloc, call, rows, times),
        _ => zones::run(alloc, call, rows, times),
    }
}

fn main(rt: HostRuntime) -> Result<(), io::Error> {
    let asked = make_asked(&rt)?;
    match measured(rt.alloc(), &asked) {
        Ok(found) => println!(rt; "{found}"),
        Err(error) => println!(rt; "{error}"),
    }
}
