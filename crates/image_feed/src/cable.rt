//! Cables that come in pieces.

ghost use Rattle.std.specs.Prelude.{◌≡◌, [], None, unwrap_or};
ghost use Rattle.std.specs.Option.{option_copied};
ghost use Rattle.image_feed.specs.Parts as spec;
ghost use Rattle.image_feed.specs.Parts.{cable_head};
ghost use Rattle.image_feed.specs.declared.front.Front.TheVariants.{Same};

use crate::growth::Growing;
use crate::head::{Head, read_head};
use crate::names::Names;
use crate::stop::Stop;
use at_base::Name;
use std::alloc::Global;
use table_image::parts::{Context, Fault, u16_at};
use table_image::{Cable, Listed};

/// A cable without its zones.
#[derive(Clone, Copy, Debug)]
pub(crate) struct CableHead {
    pub start: u16,
    pub end: u16,
}

/// A cable of which the first fields may have been read.
#[derive(Drop)]
pub(crate) struct GrowingCable {
    /// Its head, if it was read.
    pub head: Option<CableHead>,
    /// Its zones.
    pub names: Names,
}

impl Head for CableHead {
    ghost spelling = { λ context low. cable_head };

    #[tactic(auto, unfolding(crate::specs::Parts::cable_head))]
    fn head_at(_context: Context, _low: u32, bytes: &[u8]) -> Result<(CableHead, &[u8]), Fault> {
        let (start, rest) = u16_at(bytes)?;
        let (end, rest) = u16_at(rest)?;
        Ok((CableHead { start, end }, rest))
    }
}

/// The zones of the cable, if there is one.
fn zones_of(cable: Option<&Cable>) -> Option<&Listed<Name>>
    ensures { unwrap_or (option_copied result) [] ≡ spec.zones_of (option_copied cable.entry) }
{
    match cable {
        Some(cable) => Some(&cable.zones),
        None => None,
    }
}

impl GrowingCable {
    /// A cable of which nothing was read.
    pub(crate) fn new() -> GrowingCable
        ensures head { result.head ≡ None }
        ensures left { result.names.left ≡ None }
        ensures front { result.names.front ≡ Same 0 }
    {
        GrowingCable {
            head: None,
            names: Names::new(),
        }
    }
}

impl Growing for GrowingCable {
    ghost use Rattle.std.specs.Prelude.{◌&&◌, is_some};
    ghost use Rattle.table_image.specs.Spelling.{cable_spelling};
    ghost use Rattle.image_feed.specs.Growing.{none_left};
    ghost use Rattle.image_feed.specs.Parts.{cable_on};

    type Whole = Cable;

    ghost spelling = { λ context. cable_spelling context.version };

    ghost goes_on = { λ context like c. cable_on context.version like c };

    ghost whole = { λ c. is_some c.head && none_left c.names.left };

    fn is_whole(&self) -> bool {
        self.head.is_some() && self.names.is_whole()
    }

    fn advance<'a>(
        &mut self,
        alloc: Global,
        context: Context,
        like: Option<&Cable>,
        bytes: &'a [u8],
    ) -> Result<&'a [u8], Stop> {
        let rest = read_head(&mut self.head, context, 0, bytes)?;
        let Some(_) = self.head else {
            return Ok(rest);
        };
        self.names
            .advance(alloc, context.version, zones_of(like), rest)
    }

    fn wants(&self, bytes: &[u8]) -> usize {
        if self.head.is_some() {
            self.names.wants(bytes)
        } else {
            0
        }
    }

    fn take(&mut self, alloc: Global, like: Option<&Cable>) -> Result<Cable, Stop> {
        let Some(head) = self.head else {
            unreachable!()
        };
        self.head = None;
        let zones = self.names.take(alloc, zones_of(like))?;
        Ok(Cable {
            start: head.start,
            end: head.end,
            zones,
        })
    }
}
