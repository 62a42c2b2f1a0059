//! Lists for which all room is made when they begin.

ghost use Rattle.std.specs.Prelude.{◌≡◌, ◌<◌, ◌≤◌, [], length, slice_get, slice_set, Some, IfOk, IsOkUnless};
ghost use Rattle.survey.specs.Known.{max_known, pushed};

use at_base::Error;
use std::alloc::Global;
use std::marker::Model;

/// The greatest number of items.
pub(crate) const MAX_KNOWN: usize = 1_024;

/// A list of at most 1,024 items, which never needs memory after it was made.
#[derive(Drop)]
pub(crate) struct Few<T> {
    items: Vec<T>,
}

impl<T> Model for Few<T> {
    ghost use Rattle.std.specs.Prelude.{◌≤◌, List, length, vec_capacity};
    ghost use Rattle.survey.specs.Known.{max_known};

    ghost Value = { List T };

    ghost view = { λ f. f.items.items };

    ghost invariant = { λ f. (max_known ≤ vec_capacity f.items)
        × (length f.items.items ≤ max_known) };
}

impl<T: Copy + Drop> Few<T> {
    /// No items. Error: `Memory`.
    pub(crate) fn new(alloc: Global) -> Result<Few<T>, Error>
        ensures ok { IfOk result (λ f. f ≡ []) }
        ensures refused { IsOkUnless result Error.Memory }
    {
        Ok(Few {
            items: Vec::with_capacity(alloc, MAX_KNOWN)?,
        })
    }

    /// The items, in order.
    pub(crate) fn as_slice(&self) -> &[T]
        ensures value { result.now ≡ self.now }
        ensures few { length self.now ≤ max_known }
    {
        self.items.as_slice()
    }

    /// One item more, unless there are 1,024. Allocates nothing.
    pub(crate) fn push(&mut self, item: T)
        ensures { self.new ≡ pushed item self.old }
    {
        if self.items.len() < MAX_KNOWN {
            self.items.push_reserved(item);
        }
    }

    /// Another item in the place of the one with this index. Allocates nothing.
    pub(crate) fn set(&mut self, index: usize, item: T)
        ensures { self.new ≡ slice_set self.old index item }
    {
        if index < self.items.len() {
            self.items[index] = item;
        }
    }

    /// No items any more.
    pub(crate) fn clear(&mut self)
        ensures { self.new ≡ [] }
    {
        self.items.clear();
    }
}
