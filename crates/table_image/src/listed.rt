//! Lists that contracts see as lists, however they are stored.

ghost use Rattle.std.specs.Prelude.{◌≡◌, ◌∷◌, ◌==◌, [], length, IfSome};
ghost use Rattle.std.specs.Slice.Iter.{iter_rest};
ghost use Rattle.std.specs.Cmp.{on_per, on_equiv};
ghost use Rattle.std.specs.Cmp.Lexicographic.{pointwise, lists_per, lists_equiv};

use std::alloc::Global;
use std::convert::AsSlice;
use std::marker::Model;
use std::ops::DerefSlice;
use std::slice;
use std::sync::Arc;

/// A list of values that owns its memory. Contracts see the values.
#[derive(Debug, Drop)]
pub struct Listed<T> {
    kept: Kept<T>,
}

// Most zone lists of a router have one zone. A list of one value is stored in place, without an
// allocation. Longer lists are usually those of the other routers too, so they are stored once and
// shared.
#[derive(Debug, Drop)]
enum Kept<T> {
    One([T; 1]),
    Many(Vec<T>),
    Shared(Arc<Vec<T>, Global>),
}

impl<T> Model for Listed<T> {
    ghost use Rattle.std.specs.Prelude.{List};
    ghost use Rattle.table_image.specs.Listed.{values};

    ghost Value = { List T };

    ghost view = { λ a. values a.kept };
}

impl<T> Listed<T> {
    /// A list of one value, without an allocation.
    pub fn one(item: T) -> Listed<T>
        ensures { result ≡ item ∷ [] }
    {
        Listed {
            kept: Kept::One([item]),
        }
    }

    /// A list of the values of a vector, without an allocation.
    pub fn from_vec(items: Vec<T>) -> Listed<T>
        ensures { result ≡ items.items }
    {
        Listed {
            kept: Kept::Many(items),
        }
    }

    /// The values, in place.
    pub fn as_slice(&self) -> &[T]
        ensures { result.now ≡ self.now }
    {
        match &self.kept {
            Kept::One(item) => item.as_slice(),
            Kept::Many(items) => items.as_slice(),
            Kept::Shared(items) => items.as_ref().as_slice(),
        }
    }

    /// The number of values.
    pub fn len(&self) -> usize
        ensures { result ≡ length self.now }
    {
        self.as_slice().len()
    }

    /// Whether the list is empty.
    pub fn is_empty(&self) -> bool
        ensures { result ≡ (length self.now == 0) }
    {
        self.as_slice().is_empty()
    }

    /// The values, from the first to the last.
    pub fn iter(&self) -> slice::Iter<'_, T>
        ensures { iter_rest result ≡ self.now }
    {
        self.as_slice().iter()
    }
}

impl<T> DerefSlice for Listed<T> {
    type Elem = T;

    ghost deref_gives = { λ a xs. xs ≡ a };

    fn deref(&self) -> &[T] {
        self.as_slice()
    }
}

impl<T> AsSlice<T> for Listed<T> {
    ghost items = { λ a. a };

    fn as_slice(&self) -> &[T] {
        self.as_slice()
    }
}

impl<'a, T> IntoIterator for &'a Listed<T> {
    type Item = &'a T;

    type IntoIter = slice::Iter<'a, T>;

    ghost into_iter_gives = { λ a it. iter_rest it ≡ a.now };

    fn into_iter(self) -> slice::Iter<'a, T> {
        self.iter()
    }
}

// Lists are equal if they have equal values in the same order, however they are stored.
impl<T: PartialEq> PartialEq for Listed<T> {
    ghost eq = { λ a b. pointwise T.eq a b };

    ghost laws = { on_per (λ a. a) (lists_per T.laws) };

    fn eq(&self, other: &Self) -> bool {
        self.as_slice() == other.as_slice()
    }
}

impl<T: Eq> Eq for Listed<T> {
    ghost laws = { on_equiv (λ a. a) (lists_equiv T.Eq.laws) };
}

impl<T: Drop> Listed<T> {
    /// The same values, stored so that they can be shared. If the allocation fails, they are stored
    /// as before.
    pub fn into_shared(self, alloc: Global) -> Listed<T>
        ensures { result ≡ self }
    {
        let kept = match self.kept {
            Kept::Many(items) => match Arc::new(alloc, items) {
                Ok(shared) => Kept::Shared(shared),
                Err(refused) => Kept::Many(refused.value),
            },
            kept => kept,
        };
        Listed { kept }
    }

    /// The same values again, without a copy, if they can be shared.
    pub fn share(&self) -> Option<Listed<T>>
        ensures { IfSome result (λ other. other ≡ self.now) }
    {
        match &self.kept {
            Kept::Shared(items) => match Arc::try_clone(items) {
                Ok(items) => Some(Listed {
                    kept: Kept::Shared(items),
                }),
                Err(_) => None,
            },
            _ => None,
        }
    }
}

impl<T: Copy + Drop> Listed<T> {
    /// The same values again, without an allocation: one value, or values that can be shared.
    pub fn again(&self) -> Option<Listed<T>>
        ensures { IfSome result (λ other. other ≡ self.now) }
    {
        match &self.kept {
            Kept::One(item) => Some(Listed {
                kept: Kept::One(*item),
            }),
            _ => self.share(),
        }
    }
}
