//! Ports that come in pieces.

ghost use Rattle.std.specs.Prelude.{◌≡◌, true};
ghost use Rattle.image_feed.specs.Parts.{IsNewPort, port_head};

use crate::growth::Growing;
use crate::head::{Head, read_head};
use crate::mappings::advance_mappings;
use crate::several::Several;
use crate::stop::Stop;
use at_base::{Addr, Hw};
use std::alloc::Global;
use table_image::parts::{Context, Fault, address_at, hardware_at, index_at};
use table_image::{Mapping, Port};

/// A port without its mappings.
#[derive(Clone, Copy, Debug)]
pub(crate) struct PortHead {
    pub cable: u8,
    pub address: Addr,
    pub hardware: Hw,
}

/// A port of which the first fields may have been read.
#[derive(Drop)]
pub(crate) struct GrowingPort {
    /// Its head, if it was read.
    pub head: Option<PortHead>,
    /// Its mappings.
    pub mappings: Several<Mapping>,
}

impl Head for PortHead {
    ghost spelling = { λ context low. port_head context.cables };

    #[tactic(auto, unfolding(crate::specs::Parts::port_head))]
    fn head_at(context: Context, _low: u32, bytes: &[u8]) -> Result<(PortHead, &[u8]), Fault> {
        let (cable, rest) = index_at(bytes, context.cables)?;
        let (address, rest) = address_at(rest)?;
        let (hardware, rest) = hardware_at(rest)?;
        Ok((
            PortHead {
                cable,
                address,
                hardware,
            },
            rest,
        ))
    }
}

impl GrowingPort {
    /// A port of which nothing was read.
    pub(crate) fn new(alloc: Global) -> GrowingPort
        ensures { IsNewPort result }
    {
        GrowingPort {
            head: None,
            mappings: Several::new(alloc),
        }
    }

    /// Whether nothing of it was read.
    pub(crate) fn is_new(&self) -> bool
        ensures { result ≡ true → IsNewPort self.now }
    {
        self.head.is_none() && self.mappings.is_new()
    }
}

impl Growing for GrowingPort {
    ghost use Rattle.std.specs.Prelude.{◌&&◌, is_some};
    ghost use Rattle.table_image.specs.Spelling.{port_spelling};
    ghost use Rattle.image_feed.specs.Growing.{none_left};
    ghost use Rattle.image_feed.specs.Parts.{port_on};

    type Whole = Port;

    ghost spelling = { λ context. port_spelling context.version context.cables };

    ghost goes_on = { λ context like p. port_on context.version context.cables p };

    ghost whole = { λ p. is_some p.head && none_left p.mappings.left };

    fn is_whole(&self) -> bool {
        self.head.is_some() && self.mappings.is_whole()
    }

    fn advance<'a>(
        &mut self,
        _alloc: Global,
        context: Context,
        _like: Option<&Port>,
        bytes: &'a [u8],
    ) -> Result<&'a [u8], Stop> {
        let rest = read_head(&mut self.head, context, 0, bytes)?;
        let Some(_) = self.head else {
            return Ok(rest);
        };
        advance_mappings(&mut self.mappings, context.version, rest)
    }

    // A port has no names.
    fn wants(&self, _bytes: &[u8]) -> usize {
        0
    }

    fn take(&mut self, alloc: Global, _like: Option<&Port>) -> Result<Port, Stop> {
        let Some(head) = self.head else {
            unreachable!()
        };
        self.head = None;
        Ok(Port {
            cable: head.cable,
            address: head.address,
            hardware: head.hardware,
            mappings: self.mappings.take(alloc),
        })
    }
}
