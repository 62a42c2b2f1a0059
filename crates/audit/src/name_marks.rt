//! A filter of zone names. For almost every new name it shows that no other zone of the cable has
//! it, so few pairs of names are compared.

ghost use Rattle.std.specs.Prelude.{◌≡◌, ◌<◌, ℕ, false};
ghost use Rattle.std.specs.List.{list_any};
ghost use Rattle.at_base.specs.Text.{same_name};
ghost use Rattle.audit.specs.NameMarks.{AreMarked, KeepsMarks, mark_at, name_slot, name_sum};

use at_base::Name;

/// The number of marks.
const SLOTS: usize = 16_384;

/// For each sum of a name, the number of the last cable with a zone whose name has it, counted from
/// 1 to 255. Two names may share a sum, so a name with a mark may be that of another zone; one
/// without a mark isn't.
#[derive(Drop)]
pub(crate) struct NameMarks {
    cables: [u8; SLOTS],
}

// A sum of the bytes of a name in lower case.
fn sum_of(name: &[u8]) -> u32
    ensures { result ≡ name_sum name.now }
{
    name.iter().fold(0u32, |sum, byte| {
        sum.wrapping_mul(31)
            .wrapping_add(u32::from(byte.to_ascii_lowercase()))
    })
}

fn slot_of(name: &Name) -> usize
    ensures value { result ≡ name_slot name.now }
    ensures low { result < 16384 }
{
    sum_of(name.as_slice()) as usize % SLOTS
}

fn is_among(name: &Name, others: &[Name]) -> bool
    ensures { result ≡ list_any (same_name name.now) others.now }
{
    others.iter().any(|other| name.same(other))
}

impl NameMarks {
    /// No marks.
    pub(crate) fn new() -> NameMarks {
        NameMarks { cables: [0; SLOTS] }
    }

    /// Marks the name of a zone of a cable. Returns whether one of the cable's other zones has the
    /// name, if those are marked.
    pub(crate) fn add(&mut self, cable: u8, name: &Name, others: &[Name]) -> bool
        requires { AreMarked self.old cable others.now }
        ensures found { result ≡ list_any (same_name name.now) others.now }
        ensures here { mark_at self.new (name_slot name.now) ≡ cable }
        ensures kept { KeepsMarks cable self.old self.new }
    {
        let slot = slot_of(name);
        if self.cables[slot] == cable {
            return is_among(name, others);
        }
        self.cables[slot] = cable;
        false
    }
}
