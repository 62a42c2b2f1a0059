//! Zone names as keys, compared without case.

ghost use Rattle.std.specs.Prelude.{◌≡◌};

use at_base::Name;
use std::hash::{Hash, Hasher};
use std::marker::Model;

/// A zone name that is compared without case.
#[derive(Clone, Copy, Debug)]
pub(crate) struct Zone {
    name: Name,
}

impl Model for Zone {
    ghost use Rattle.std.specs.Prelude.{ℕ, List};

    ghost Value = { List ℕ };

    ghost view = { λ z. z.name };

    ghost inverse = { λ d. record { name = d } };
}

impl Zone {
    /// The zone of a name.
    pub(crate) fn new(name: &Name) -> Zone
        ensures { result ≡ name.now }
    {
        Zone { name: *name }
    }

    /// The name, in its first spelling.
    pub(crate) fn name(&self) -> &Name
        ensures { result.now ≡ self.now }
    {
        &self.name
    }
}

impl PartialEq for Zone {
    ghost use Rattle.at_base.specs.Text.{same_name};
    ghost use Rattle.at_base.proofs.Texts.{names_alike_in_part};

    ghost eq = { same_name };

    ghost laws = { names_alike_in_part };

    fn eq(&self, other: &Zone) -> bool {
        self.name.same(&other.name)
    }
}

impl Eq for Zone {
    ghost use Rattle.at_base.proofs.Texts.{names_alike};

    ghost laws = { names_alike };
}

impl Hash for Zone {
    ghost use Rattle.std.proofs.Common.{ap};
    ghost use Rattle.std.specs.Hash as fed;
    ghost use Rattle.at_base.proofs.Texts.{same_name_is};
    ghost use Rattle.std.specs.Prelude.{map};
    ghost use Rattle.std.specs.Char.{to_ascii_lowercase};

    ghost hash_input = { λ z. fed.slice fed.u8 (map to_ascii_lowercase z) };

    ghost respects_eq = { λ x y t. ap (λ text. fed.slice fed.u8 text) (same_name_is x y t) };

    fn hash<H: Hasher>(&self, state: &mut H) {
        let mut lower = [0; 32];
        let name = self.name.as_slice();
        lower[..name.len()].copy_from_slice(name);
        lower.make_ascii_lowercase();
        lower[..name.len()].hash(state);
    }
}
