//! The names in a list of zones, in place.

ghost use Rattle.std.specs.Prelude.{◌≡◌};
ghost use Rattle.survey.specs.Answers.{zones_listed};

use at_base::in_place::{ItemFormat, Items, all_items};
use at_base::packet::text_at;
use at_base::{Error, Name, is_zone_name};

/// The format of a name in a list of zones.
#[derive(Clone, Copy, Debug)]
pub struct ZoneFormat;

impl ItemFormat for ZoneFormat {
    type Item = Name;

    ghost use Rattle.survey.specs.Answers.{zone_item};

    ghost format = { λ f low. zone_item };

    ghost next = { λ f name. 0 };

    #[tactic(auto, unfolding(crate::specs::Answers::zone_item, at_base::specs::Packets::text))]
    fn item_at(self, _low: u32, bytes: &[u8]) -> Result<(Name, &[u8]), Error> {
        let (name, rest) = text_at(bytes, 1)?;
        if !is_zone_name(name) {
            return Err(Error::BadName);
        }
        Ok((Name::of(name), rest))
    }

    fn low_after(self, _name: &Name) -> u32 {
        0
    }

    #[tactic(auto, using(crate::proofs::Shape::item_lawful, crate::proofs::Shape::item_long))]
    fn are_items(self) {}
}

/// An iterator over the zones that are left in a list. Contracts see it as a list.
pub type ZoneNames<'a> = Items<'a, ZoneFormat>;

/// The zones that the data of a response list, if they list zones. Allocates nothing.
///
/// Inside AppleTalk, the chapter on ZIP.
pub fn zones_in(payload: &[u8]) -> Option<ZoneNames<'_>>
    ensures { result ≡ zones_listed payload.now }
{
    match all_items(ZoneFormat, payload) {
        Ok(names) => Some(names),
        Err(_) => None,
    }
}
