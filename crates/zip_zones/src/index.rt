//! The index of a zone table: a number for each name of each list, in rising order.

ghost use Rattle.std.specs.Prelude.{◌≡◌, ◌+◌, ◌≤◌, fold, length, vec_capacity, vec_len};
ghost use Rattle.at_base.specs.Numbers.{AreRising, with_number, without_number};
ghost use Rattle.zip_zones.specs.Indexing as spec;
ghost use Rattle.zip_zones.specs.Indexing.{key_step, numbers_from, with_key, with_numbers};
ghost use Rattle.zip_zones.specs.Indexing.{with_start, without_numbers};

use at_base::{Name, numbers_between, put_number, take_number};

/// The factor of a key's steps. It is odd, so that no byte is lost.
const FACTOR: u32 = 16_777_619;

/// The key of a name. Names that are equal, ignoring case, have one key.
#[tactic(auto, unfolding(crate::specs::Indexing::key_of))]
fn key_of(name: &Name) -> u32
    ensures { result ≡ spec.key_of name.now }
{
    name.as_slice().iter().fold(0u32, |key, byte| {
        let lower = u32::from(byte.to_ascii_lowercase());
        key.wrapping_mul(FACTOR).wrapping_add(lower)
    })
}

/// The number of a name with a key, at a place of the list that starts at a network.
fn number_of(key: u32, start: u16, nth: u8) -> u64
    ensures { result ≡ spec.number_of key start nth }
{
    (u64::from(key) * 65536 + u64::from(start)) * 256 + u64::from(nth)
}

/// Puts the number of a name at a place of a list into the index, which must have room.
pub(crate) fn put_name(index: &mut Vec<u64>, start: u16, nth: u8, name: &Name)
    requires rising { AreRising 0 index.old.items }
    requires room { vec_len index.old + 1 ≤ vec_capacity index.old }
    ensures put { index.new.items
        ≡ with_number (spec.number_of (spec.key_of name.now) start nth) index.old.items }
    ensures rising { AreRising 0 index.new.items }
    ensures room { vec_capacity index.new ≡ vec_capacity index.old }
    ensures more { vec_len index.new ≡ vec_len index.old + 1 }
{
    put_number(index, number_of(key_of(name), start, nth));
}

/// Puts the numbers of names into the index, which must have room. The first is at place `nth`.
pub(crate) fn put_names(index: &mut Vec<u64>, start: u16, nth: u8, names: &[Name])
    requires rising { AreRising 0 index.old.items }
    requires few { nth + length names.now ≤ 255 }
    requires room { vec_len index.old + length names.now ≤ vec_capacity index.old }
    ensures put { index.new.items
        ≡ with_numbers (numbers_from start nth names.now) index.old.items }
    ensures rising { AreRising 0 index.new.items }
    ensures room { vec_capacity index.new ≡ vec_capacity index.old }
    ensures more { vec_len index.new ≡ vec_len index.old + length names.now }
{
    match names {
        [] => {}
        [name, rest @ ..] => {
            put_names(index, start, nth + 1, rest);
            put_name(index, start, nth, name);
        }
    }
}

/// Takes the number of a name at a place of a list out of the index.
fn take_name(index: &mut Vec<u64>, start: u16, nth: u8, name: &Name)
    requires { AreRising 0 index.old.items }
    ensures kept { index.new.items
        ≡ without_number (spec.number_of (spec.key_of name.now) start nth) index.old.items }
    ensures rising { AreRising 0 index.new.items }
    ensures room { vec_capacity index.new ≡ vec_capacity index.old }
    ensures fewer { vec_len index.new ≤ vec_len index.old }
{
    take_number(index, number_of(key_of(name), start, nth));
}

/// Takes the numbers of names out of the index. The first is at place `nth`.
pub(crate) fn take_names(index: &mut Vec<u64>, start: u16, nth: u8, names: &[Name])
    requires rising { AreRising 0 index.old.items }
    requires few { nth + length names.now ≤ 255 }
    ensures kept { index.new.items
        ≡ without_numbers (numbers_from start nth names.now) index.old.items }
    ensures rising { AreRising 0 index.new.items }
    ensures room { vec_capacity index.new ≡ vec_capacity index.old }
    ensures fewer { vec_len index.new ≤ vec_len index.old }
{
    match names {
        [] => {}
        [name, rest @ ..] => {
            take_name(index, start, nth, name);
            take_names(index, start, nth + 1, rest);
        }
    }
}

/// The numbers of names with the zone's key.
pub(crate) fn numbers_of<'a>(index: &'a [u64], zone: &Name) -> &'a [u64]
    requires { AreRising 0 index.now }
    ensures { result.now ≡ with_key (spec.key_of zone.now) index.now }
{
    let low = number_of(key_of(zone), 0, 0);
    numbers_between(index, low, low + 65536 * 256)
}

/// The numbers of names with the zone's key in the list that starts at a network.
fn numbers_at<'a>(index: &'a [u64], start: u16, zone: &Name) -> &'a [u64]
    requires { AreRising 0 index.now }
    ensures { result.now ≡ with_start (spec.key_of zone.now) start index.now }
{
    let low = number_of(key_of(zone), start, 0);
    numbers_between(index, low, low + 256)
}

/// Whether the name at a place is the zone, ignoring case.
pub(crate) fn is_named(names: &[Name], nth: usize, zone: &Name) -> bool
    ensures { result ≡ spec.is_named zone.now nth names.now }
{
    match names.get(nth) {
        Some(name) => zone.same(name),
        None => false,
    }
}

/// Whether the names at the places of numbers have the zone, ignoring case.
fn any_named(names: &[Name], numbers: &[u64], zone: &Name) -> bool
    ensures { result ≡ spec.any_named zone.now names.now numbers.now }
{
    numbers
        .iter()
        .any(|number| is_named(names, (*number % 256) as usize, zone))
}

/// Whether the list that starts at a network and has these names has the zone, ignoring case. The
/// index must have the numbers of its names.
pub(crate) fn has(index: &[u64], start: u16, names: &[Name], zone: &Name) -> bool
    requires { AreRising 0 index.now }
    ensures { result
        ≡ spec.any_named zone.now names.now (with_start (spec.key_of zone.now) start index.now) }
{
    any_named(names, numbers_at(index, start, zone), zone)
}
