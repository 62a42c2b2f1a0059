//! The greatest values of an image's fields. The greatest numbers of its parts are in
//! `at_base::limits`.

/// The greatest length, in bytes, of a zone name, an object or a type.
pub(crate) const MAX_TEXT: u8 = 32;

/// The greatest number of zones of a cable or of a zone list in an image of version 1.
pub(crate) const MAX_ZONES_OF_V1: usize = 64;

/// The greatest distance of a row, in routers.
pub(crate) const MAX_DISTANCE: u8 = 31;
