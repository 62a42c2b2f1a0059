//! Carries out a list of calls on two tables, and compares what they answer and hold.

use crate::call::{act, next};
use crate::random::Random;
use crate::tally::Tally;
use at_base::Error;
use rtmp::RouteTable;
use std::alloc::Global;

/// How many calls a list has.
const CALLS: usize = 120;

/// Whether two tables have the same rows.
fn are_alike<A: RouteTable, B: RouteTable>(one: &A, other: &B) -> bool {
    one.len() == other.len() && (0..one.len()).all(|index| one.row(index) == other.row(index))
}

/// Carries out a list of random calls on empty tables. Error: `Memory`.
fn run_list<A: RouteTable, B: RouteTable>(
    alloc: Global,
    random: &mut Random,
    tally: &mut Tally,
) -> Result<(), Error> {
    let mut one = A::empty(alloc)?;
    let mut other = B::empty(alloc)?;
    for _ in 0..CALLS {
        let call = next(alloc, random)?;
        let answer = act(&mut one, &call);
        let likewise = act(&mut other, &call);
        if answer == Err(Error::Memory) || likewise == Err(Error::Memory) {
            return Err(Error::Memory);
        }
        tally.add(&answer, answer == likewise && are_alike(&one, &other));
    }
    Ok(())
}

/// Carries out lists of random calls, each on empty tables. Error: `Memory`.
pub(crate) fn run_lists<A: RouteTable, B: RouteTable>(
    alloc: Global,
    random: &mut Random,
    lists: u64,
    tally: &mut Tally,
) -> Result<(), Error> {
    for _ in 0..lists {
        run_list::<A, B>(alloc, random, tally)?;
    }
    Ok(())
}
