//! The sizes, in bytes, of an image's fields, and of the parts whose size is fixed.

/// A count, an index, a flag or another number of one byte.
pub(crate) const BYTE_SIZE: usize = 1;

/// A network.
pub(crate) const NETWORK_SIZE: usize = 2;

/// The first and the last network of a range.
pub(crate) const RANGE_SIZE: usize = NETWORK_SIZE + NETWORK_SIZE;

/// A network and a node.
pub(crate) const ADDRESS_SIZE: usize = NETWORK_SIZE + BYTE_SIZE;

/// A hardware address.
pub(crate) const HARDWARE_SIZE: usize = 6;

/// A mapping: an address and its hardware address.
pub(crate) const MAPPING_SIZE: usize = ADDRESS_SIZE + HARDWARE_SIZE;

/// The index of a cable, a network address and a hardware address.
pub(crate) const SEAT_SIZE: usize = BYTE_SIZE + ADDRESS_SIZE + HARDWARE_SIZE;

/// A row: its range, distance, port, next router and state.
pub(crate) const ROW_SIZE: usize = RANGE_SIZE + BYTE_SIZE + BYTE_SIZE + ADDRESS_SIZE + BYTE_SIZE;

/// The magic number and the version.
pub(crate) const HEAD_SIZE: usize = 4 + BYTE_SIZE;

/// The router of a node that has one: the flag and the address.
pub(crate) const OWN_ROUTER_SIZE: usize = BYTE_SIZE + ADDRESS_SIZE;
