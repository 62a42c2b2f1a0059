//! Rule C1: the ranges of the cables are valid and rising, and each cable has zones, none of them
//! twice.

ghost use Rattle.std.specs.Prelude.{◌≡◌, ◌<◌, false, suc, IfSome};
ghost use Rattle.audit.specs.Firsts.{FirstNumber, FirstPlace};
ghost use Rattle.audit.specs.NameMarks.{AreMarked};
ghost use Rattle.audit.specs.Rules as rules_spec;
ghost use Rattle.audit.specs.Rules.{c1};
ghost use Rattle.audit.specs.ZoneLists as zone_lists_spec;

use crate::name_marks::NameMarks;
use crate::places::from_one;
use at_base::{Name, Place, Range};
use table_image::{Cable, Image};

// Whether a zone of the cable is there twice. Each name is marked after those that follow it.
fn has_double(marks: &mut NameMarks, number: u8, zones: &[Name]) -> bool
    ensures double { result ≡ zone_lists_spec.has_double zones.now }
    ensures marked { result ≡ false → AreMarked marks.new number zones.now }
{
    match zones {
        [] => false,
        [name, rest @ ..] => { has_double(marks, number, rest) || marks.add(number, name, rest) }
    }
}

fn is_bad(marks: &mut NameMarks, number: u8, before: u16, cable: &Cable) -> bool
    ensures { result ≡ rules_spec.bad_cable before cable.now }
{
    Range::new(cable.start, cable.end).is_err()
        || cable.start <= before
        || cable.zones.is_empty()
        || has_double(marks, number, cable.zones.as_slice())
}

fn first_cable(image: &Image) -> Option<usize>
    ensures first { FirstNumber (λ k. c1 image.now (Place.Cable (suc k))) result }
    ensures low { IfSome result (λ k. k < 200) }
{
    let mut marks = NameMarks::new();
    let mut before = 0;
    for (k, cable) in image.cables().iter().enumerate() {
        if is_bad(&mut marks, (k % 255) as u8 + 1, before, cable) {
            return Some(k);
        }
        before = cable.end;
    }
    None
}

/// The first cable that breaks rule C1, if any.
pub(crate) fn bad_cable(image: &Image) -> Option<Place>
    ensures { FirstPlace (c1 image.now) result }
{
    first_cable(image).map(|k| Place::Cable(from_one(k)))
}
