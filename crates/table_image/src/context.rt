//! What a part of an image may refer to, and the version of the image.

ghost use Rattle.std.specs.Prelude.{◌≡◌};
ghost use Rattle.table_image.specs.Contexts as spec;

use crate::version::Version;

/// The version of an image, and the numbers of parts that a part of it may refer to by index: the
/// cables of the internet, and the ports of the router that the part belongs to.
#[derive(Clone, Copy, Debug)]
pub struct Context {
    pub version: Version,
    pub cables: usize,
    pub ports: usize,
}

impl Context {
    /// The context of a part of a version's image that refers to no other part.
    pub fn nothing(version: Version) -> Context
        ensures { result ≡ spec.nothing version }
    {
        Context {
            version,
            cables: 0,
            ports: 0,
        }
    }

    /// The context of the routers and nodes of an internet with this many cables.
    pub fn with_cables(self, cables: usize) -> Context
        ensures { result ≡ spec.with_cables cables self }
    {
        Context { cables, ..self }
    }

    /// The context of the rows of a router with this many ports.
    pub fn with_ports(self, ports: usize) -> Context
        ensures { result ≡ spec.with_ports ports self }
    {
        Context { ports, ..self }
    }
}
