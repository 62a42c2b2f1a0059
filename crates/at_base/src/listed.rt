//! Items that own their memory, as contracts see them: a list.

ghost use Rattle.std.specs.Prelude.{◌≡◌, [], length, ◌==◌, IfOk, IsOkUnless};

use crate::error::Error;
use std::alloc::Global;
use std::marker::Model;

/// A vector that contracts see as a list.
#[derive(Debug, Drop)]
pub struct Listed<T> {
    items: Vec<T>,
}

/// Bytes that own their memory.
pub type Bytes = Listed<u8>;

impl<T> Model for Listed<T> {
    ghost use Rattle.std.specs.Prelude.{List};

    ghost Value = { List T };

    ghost view = { λ l. l.items.items };
}

impl<T> Listed<T> {
    /// No items. Allocates nothing.
    pub fn empty(alloc: Global) -> Listed<T>
        ensures { result ≡ [] }
    {
        Listed {
            items: Vec::new(alloc),
        }
    }

    /// The items of the vector. Allocates nothing.
    pub fn from_vec(items: Vec<T>) -> Listed<T>
        ensures { result ≡ items.items }
    {
        Listed { items }
    }

    /// The items as a vector. Allocates nothing.
    pub fn into_vec(self) -> Vec<T>
        ensures { result.items ≡ self }
    {
        let Listed { items } = self;
        items
    }

    /// The items.
    pub fn as_slice(&self) -> &[T]
        ensures { result.now ≡ self.now }
    {
        self.items.as_slice()
    }

    /// The number of items.
    pub fn len(&self) -> usize
        ensures { result ≡ length self.now }
    {
        self.items.len()
    }

    /// Whether there are no items.
    pub fn is_empty(&self) -> bool
        ensures { result ≡ (length self.now == 0) }
    {
        self.items.is_empty()
    }
}

impl Listed<u8> {
    /// A copy of the bytes. Error: `Memory`.
    pub fn copy(alloc: Global, bytes: &[u8]) -> Result<Bytes, Error>
        ensures ok { IfOk result (λ b. b ≡ bytes.now) }
        ensures err { IsOkUnless result Error.Memory }
    {
        Ok(Listed {
            items: Vec::from_slice(alloc, bytes)?,
        })
    }
}
