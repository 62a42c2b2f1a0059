//! The greatest numbers that several crates keep to. Contracts name them by `specs/Limits`.

/// The greatest number of cables of an internet.
pub const MAX_CABLES: usize = 200;

/// The greatest number of routers of an internet.
pub const MAX_ROUTERS: usize = 200;

/// The greatest number of nodes of an internet.
pub const MAX_NODES: usize = 200;

/// The greatest number of zones of a range.
pub const MAX_ZONES: usize = 255;

/// The greatest number of rows of a routing table.
pub const MAX_ROWS: usize = 200;

/// The greatest number of lists of a zone table.
pub const MAX_LISTS: usize = 200;

/// The greatest number of ports of a router.
pub const MAX_PORTS: usize = 16;

/// The greatest number of names that a node registers.
pub const MAX_NAMES: usize = 32;

/// The greatest length, in bytes, of the data of a datagram.
///
/// Inside AppleTalk, the chapter on DDP.
pub const MAX_DATA: usize = 586;

/// The greatest number of mappings that a port keeps.
pub const MAX_MAPPINGS: usize = 512;

/// The greatest number of datagrams that a port holds until a hardware address is known.
pub const MAX_HELD: usize = 16;
