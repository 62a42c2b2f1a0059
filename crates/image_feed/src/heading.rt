//! The head of a zone list.

ghost use Rattle.std.specs.Prelude.{◌≡◌, true};
ghost use Rattle.image_feed.specs.Zones.{head_of, list_head, with_head};

use crate::head::Head;
use at_base::{Cause, Name};
use table_image::parts::{Context, Fault, byte_within, rising_at, u16_at};
use table_image::{Listed, ZoneList};

/// A zone list without its zones.
#[derive(Clone, Copy, Debug)]
pub(crate) struct ListHead {
    pub start: u16,
    pub end: u16,
    pub complete: bool,
}

impl Head for ListHead {
    ghost spelling = { λ context low. list_head low };

    #[tactic(auto, unfolding(crate::specs::Zones::list_head))]
    fn head_at(_context: Context, low: u32, bytes: &[u8]) -> Result<(ListHead, &[u8]), Fault> {
        let (start, rest) = rising_at(bytes, low)?;
        let (end, rest) = u16_at(rest)?;
        let (complete, rest) = byte_within(rest, 0, 1, Cause::Value)?;
        Ok((
            ListHead {
                start,
                end,
                complete: complete == 1,
            },
            rest,
        ))
    }
}

impl ListHead {
    /// Whether the list has this head.
    pub(crate) fn is_of(self, list: &ZoneList) -> bool
        ensures { result ≡ true → head_of list.now ≡ self }
    {
        self.start == list.start && self.end == list.end && self.complete == list.complete
    }

    /// The list with this head and these zones.
    pub(crate) fn with(self, zones: Listed<Name>) -> ZoneList
        ensures { result ≡ with_head self zones }
    {
        ZoneList {
            start: self.start,
            end: self.end,
            complete: self.complete,
            zones,
        }
    }
}
