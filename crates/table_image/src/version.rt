//! Versions of the image's format.

ghost use Rattle.std.specs.Prelude.{◌≡◌, ◌≤◌};
ghost use Rattle.at_base.specs.Limits.{max_mappings, max_zones};
ghost use Rattle.table_image.specs.Versions as spec;

use crate::limits::MAX_ZONES_OF_V1;
use at_base::limits::{MAX_MAPPINGS, MAX_ZONES};

/// A version of the format of images.
#[derive(Clone, Copy, Debug, PartialEq, Eq)]
pub enum Version {
    /// A range has at most 64 zones. Ports and nodes have no mappings.
    V1,
    /// A range has at most 255 zones. Ports and nodes have the mappings that they know.
    V2,
}

impl Version {
    /// The number of the version in the head of an image.
    pub fn number(self) -> u8
        ensures { result ≡ spec.version_number self }
    {
        match self {
            Version::V1 => 1,
            Version::V2 => 2,
        }
    }

    /// The version with a number: 2 is version 2, and any other number version 1.
    pub fn of(number: u8) -> Version
        ensures { result ≡ spec.version_of number }
    {
        if number == 2 {
            Version::V2
        } else {
            Version::V1
        }
    }

    /// The greatest number of zones of a cable or of a zone list.
    pub fn zone_limit(self) -> usize
        ensures value { result ≡ spec.zone_limit self }
        ensures few { result ≤ max_zones }
    {
        match self {
            Version::V1 => MAX_ZONES_OF_V1,
            Version::V2 => MAX_ZONES,
        }
    }

    /// The greatest number of mappings of a port or a node.
    pub fn mapping_limit(self) -> usize
        ensures value { result ≡ spec.mapping_limit self }
        ensures few { result ≤ max_mappings }
    {
        match self {
            Version::V1 => 0,
            Version::V2 => MAX_MAPPINGS,
        }
    }
}
