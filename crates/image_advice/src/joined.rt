//! Which cables the routers of an image join.

use at_base::limits::MAX_CABLES;
use std::io;
use table_image::{Image, Router};

/// The greatest number of groups that are shown. Further ones are counted.
const MAX_SHOWN: usize = 10;

/// Whether the router has a port on the cable with this index.
fn is_on(router: &Router, cable: usize) -> bool {
    let mut ports = router.ports.as_slice().iter();
    ports.any(|port| port.cable as usize == cable)
}

/// Whether a router has a port on the cable with this index.
pub(crate) fn has_router(image: &Image, cable: usize) -> bool {
    image.routers().iter().any(|router| is_on(router, cable))
}

/// The cables in groups. Two cables are in one group if a line of routers leads from one to the
/// other, each with a port on the cable of the next.
#[derive(Drop)]
pub(crate) struct Groups {
    /// For each cable the first one of its group, both by their indices.
    first: [usize; MAX_CABLES],
}

impl Groups {
    /// The groups that the routers of the image make.
    pub(crate) fn of(image: &Image) -> Groups {
        let mut groups = Groups::apart();
        for router in image.routers() {
            let ports = router.ports.as_slice();
            let Some(one) = ports.first() else {
                continue;
            };
            for port in ports {
                groups.join(one.cable as usize, port.cable as usize);
            }
        }
        groups
    }

    /// Each cable in a group of its own.
    fn apart() -> Groups {
        let mut first = [0; MAX_CABLES];
        for (index, it) in first.iter_mut().enumerate() {
            *it = index;
        }
        Groups { first }
    }

    /// The first cable of this cable's group.
    fn first_of(&self, cable: usize) -> Option<usize> {
        self.first.get(cable).copied()
    }

    /// Makes one group of the groups of two cables.
    fn join(&mut self, one: usize, other: usize) {
        let (Some(one), Some(other)) = (self.first_of(one), self.first_of(other)) else {
            return;
        };
        let (low, high) = (one.min(other), one.max(other));
        for first in self.first.iter_mut() {
            if *first == high {
                *first = low;
            }
        }
    }

    /// Whether routers lead from this router to the cable.
    pub(crate) fn leads(&self, router: &Router, cable: usize) -> bool {
        let wanted = self.first_of(cable);
        let mut ports = router.ports.as_slice().iter();
        ports.any(|port| self.first_of(port.cable as usize) == wanted)
    }

    /// Shows the first groups, each with its cables, and how many more there are of this number of
    /// cables.
    pub(crate) fn show(&self, rt: &impl Eprint, cables: usize) -> io::Result<()> {
        let mut found: usize = 0;
        for (index, first) in self.first.iter().take(cables).enumerate() {
            if *first != index {
                continue;
            }
            found = found.saturating_add(1);
            if found <= MAX_SHOWN {
                self.show_group(rt, cables, index)?;
            }
        }
        match found.saturating_sub(MAX_SHOWN) {
            0 => Ok(()),
            1 => eprintln!(rt; "  and there is 1 more group"),
            more => eprintln!(rt; "  and there are {more} more groups"),
        }
    }

    /// Shows the group with this first cable.
    fn show_group(&self, rt: &impl Eprint, cables: usize, head: usize) -> io::Result<()> {
        let group = self.first.iter().take(cables);
        if group.filter(|first| **first == head).count() == 1 {
            return eprintln!(rt;
                "  routers join cable {} to no other",
                head.saturating_add(1)
            );
        }
        eprint!(rt; "  routers join cables")?;
        for (index, first) in self.first.iter().take(cables).enumerate() {
            if *first == head {
                let mark = if index == head { "" } else { "," };
                eprint!(rt; "{mark} {}", index.saturating_add(1))?;
            }
        }
        eprintln!(rt; "")
    }
}
