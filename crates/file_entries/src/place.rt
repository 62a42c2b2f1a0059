//! Places in a file.

ghost use Rattle.std.specs.Prelude.{◌≡◌, ◌+◌, ◌≤◌, length, min};

use at_base::{Part, Text32};

/// The kind of items that a list has.
#[derive(Clone, Copy, Debug, PartialEq, Eq)]
pub(crate) enum Items {
    /// The entries of a part.
    Entries,
    /// Tables within an entry.
    Tables,
    /// Values that are no tables.
    Values,
}

/// The place of a value in a file. Keys are cut to 32 bytes, and empty where there is none.
#[derive(Clone, Copy, Debug, PartialEq, Eq)]
pub struct Place {
    /// The part of the file.
    pub part: Part,
    /// The number of the entry, from 1; 0 at the top level.
    pub entry: u32,
    /// The key of the list within the entry that the value is in.
    pub outer: Text32,
    /// The number, from 1, of the table in that list.
    pub outer_number: u32,
    /// The key of the list within that table that the value is in.
    pub inner: Text32,
    /// The number, from 1, of the table in that list.
    pub inner_number: u32,
    /// The key of the value.
    pub key: Text32,
    /// The number, from 1, of the value in the list at the key; 0 for the whole value.
    pub value: u32,
}

/// The first `limit` bytes, or all if there are fewer.
fn front(limit: usize, bytes: &[u8]) -> &[u8]
    ensures { length result.now ≤ limit }
{
    if bytes.len() <= limit {
        bytes
    } else {
        &bytes[..limit]
    }
}

/// The first 32 bytes of a key.
fn short_key(key: &str) -> Text32 {
    match Text32::new(front(32, key.as_bytes())) {
        Ok(text) => text,
        Err(_) => unreachable!(),
    }
}

/// The number, from 1, of the item with this index; 4,294,967,295 where it would be greater.
pub(crate) fn number_of(index: usize) -> u32
    ensures { result ≡ min (index + 1) 4294967295 }
{
    if index < 4294967295 {
        index as u32 + 1
    } else {
        4294967295
    }
}

impl Place {
    ghost use Rattle.file_entries.specs.Faults.{spot, spot_of};

    /// The top level of a part, or the entry of it with this number, from 1.
    pub fn of(part: Part, entry: u32) -> Place
        ensures { spot result ≡ (part, entry) }
    {
        Place {
            part,
            entry,
            outer: short_key(""),
            outer_number: 0,
            inner: short_key(""),
            inner_number: 0,
            key: short_key(""),
            value: 0,
        }
    }

    /// The place of the value at this key.
    pub fn at(&self, key: &str) -> Place
        ensures { spot result ≡ spot self.now }
    {
        let mut place = *self;
        place.key = short_key(key);
        place.value = 0;
        place
    }

    /// The place of the table with this index, from 0, in the list that is here.
    pub fn table(&self, index: usize) -> Place
        ensures { spot result ≡ spot self.now }
    {
        let number = number_of(index);
        let mut place = *self;
        if self.outer_number == 0 {
            place.outer = self.key;
            place.outer_number = number;
        } else {
            place.inner = self.key;
            place.inner_number = number;
        }
        place.key = short_key("");
        place
    }

    /// The place of the value with this index, from 0, in the list that is here.
    fn value(&self, index: usize) -> Place
        ensures { spot result ≡ spot self.now }
    {
        let mut place = *self;
        place.value = number_of(index);
        place
    }

    /// The place of the item with this index, from 0, in the list that is here.
    pub(crate) fn item(&self, items: Items, index: usize) -> Place
        ensures { spot result ≡ spot_of items self.now index }
    {
        match items {
            Items::Entries => Place::of(self.part, number_of(index)),
            Items::Tables => self.table(index),
            Items::Values => self.value(index),
        }
    }
}
