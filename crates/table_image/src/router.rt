//! Routers of an internet.

ghost use Rattle.table_image.specs.Spelling.{router_spelling};

use crate::checking::{CheckItem, check_counted};
use crate::context::Context;
use crate::count::CountSize;
use crate::flaw::{Fault, Flaw};
use crate::item::{Item, PassItem, WriteItem, pass_counted, put_counted};
use crate::listed::Listed;
use crate::port::Port;
use crate::row::Row;
use crate::version::Version;
use crate::zone_list::ZoneList;
use at_base::limits::{MAX_LISTS, MAX_PORTS, MAX_ROWS};
use std::alloc::AllocError;

/// A router: its ports, its routing table and its zone information table.
///
/// Inside AppleTalk, the chapters on RTMP and ZIP.
#[derive(Debug, PartialEq, Eq, Drop)]
pub struct Router {
    /// Its ports, at most `MAX_PORTS`. Rows refer to them by index, from 0.
    pub ports: Listed<Port>,
    /// The rows of its routing table, at most `MAX_ROWS`, strictly rising by their first networks.
    pub rows: Listed<Row>,
    /// Its zone lists, at most `MAX_LISTS`, strictly rising by their first networks.
    pub lists: Listed<ZoneList>,
}

impl Item for Router {
    ghost spelling = { λ context low. router_spelling context.version context.cables };

    ghost next = { λ _. 0 };

    fn next_low(&self) -> u32 {
        0
    }

    fn written_alike() {}
}

impl PassItem for Router {
    #[tactic(auto, unfolding(crate::specs::Spelling::router_spelling))]
    fn pass_one(context: Context, _low: u32, bytes: &[u8]) -> Result<(u32, &[u8]), Fault> {
        let (ports, rest) = pass_counted::<Port>(CountSize::One, MAX_PORTS, context, bytes)?;
        let of_ports = context.with_ports(ports);
        let (_rows, rest) = pass_counted::<Row>(CountSize::One, MAX_ROWS, of_ports, rest)?;
        let (_lists, rest) = pass_counted::<ZoneList>(CountSize::One, MAX_LISTS, context, rest)?;
        Ok((0, rest))
    }
}

impl WriteItem for Router {
    #[tactic(auto, unfolding(crate::specs::Spelling::router_spelling))]
    fn write_one(&self, version: Version, out: &mut Vec<u8>) -> Result<(), AllocError> {
        let context = Context::nothing(version);
        let of_ports = context.with_ports(self.ports.len());
        put_counted(out, CountSize::One, MAX_PORTS, context, &self.ports)?;
        put_counted(out, CountSize::One, MAX_ROWS, of_ports, &self.rows)?;
        put_counted(out, CountSize::One, MAX_LISTS, context, &self.lists)
    }
}

impl CheckItem for Router {
    ghost use Rattle.table_image.specs.Short.{short_router};
    ghost use Rattle.table_image.specs.Sizes.{router_size};

    ghost short = { short_router };

    ghost max_size = { router_size };

    fn check_one(&self, context: Context, _low: u32, at: usize) -> Result<usize, Flaw> {
        let end = match check_counted(CountSize::One, MAX_PORTS, context, at, &self.ports) {
            Ok(end) => end,
            Err(flaw) => return Err(flaw),
        };
        let of_ports = context.with_ports(self.ports.len());
        match check_counted(CountSize::One, MAX_ROWS, of_ports, end, &self.rows) {
            Ok(end) => check_counted(CountSize::One, MAX_LISTS, context, end, &self.lists),
            Err(flaw) => Err(flaw),
        }
    }
}
