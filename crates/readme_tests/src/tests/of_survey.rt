//! The example of the README of `survey`.

use at_base::{Error, Hw};
use cabled::{Cabled, Puts};
use std::alloc::Global;
use survey::{Aim, Asker, First, Stage, Wanted};

/// Whether a station is done, and has put nothing, after so many ticks in which it hears no router.
fn is_done_after(alloc: Global, ticks: u8) -> Result<bool, Error> {
    let aim = Aim {
        first: Some(First {
            to: None,
            wanted: Wanted::Echo,
            times: 1,
        }),
        spreads: false,
        pattern: None,
    };
    let mut asker = Asker::new(alloc, Hw([2, 0, 0, 0, 0, 1]), &aim)?;
    let mut puts = Puts::new(alloc);
    for _tick in 0..ticks {
        asker.advance(&mut puts)?;
    }
    Ok(asker.is_done() && asker.stage() == Stage::Listens && puts.as_slice().is_empty())
}

/// Whether a station that hears no router is done after 60 ticks.
pub(super) fn it_listens_for_sixty_ticks(alloc: Global) -> Result<bool, Error> {
    Ok(is_done_after(alloc, 60)? && !is_done_after(alloc, 59)?)
}
