//! Requests for routing data.

ghost use Rattle.std.specs.Prelude.{◌≡◌};
ghost use Rattle.at_base.specs.Packets.{packets};
ghost use Rattle.at_base.specs.Reading as spec;
ghost use Rattle.at_base.specs.Reading.{Gives, Reads};
ghost use Rattle.at_base.specs.Spelling.{Spells};
ghost use Rattle.rtmp.specs.Requests.{request, request_in, request_number, request_of};

use at_base::packet::byte_within;
use at_base::{Error, Field};

/// Which rows a router sends on a port.
///
/// Inside AppleTalk, the chapter on RTMP.
#[derive(Clone, Copy, Debug, PartialEq, Eq)]
pub enum Horizon {
    /// Those that leave by its other ports (split horizon).
    Split,
    /// All of them. The direct row of the port's own cable isn't sent once more: its range is the
    /// first in each packet.
    Whole,
}

/// A request to a router, as the data of a datagram of type 5.
///
/// Inside AppleTalk, the chapter on RTMP.
#[derive(Clone, Copy, Debug, PartialEq, Eq)]
pub enum Request {
    /// For its address, and the range of the cable.
    Router,
    /// For its routing data.
    Routes(Horizon),
}

/// The request of a function from 1 to 3.
fn named(function: u8) -> Request
    ensures { result ≡ request_of function }
{
    match function {
        1 => Request::Router,
        2 => Request::Routes(Horizon::Split),
        _ => Request::Routes(Horizon::Whole),
    }
}

/// A request, and the bytes after it.
#[tactic(auto, unfolding(crate::specs::Requests::request))]
fn request_at(bytes: &[u8]) -> Result<(Request, &[u8]), Error>
    ensures { Gives (λ x. (x.0, x.1.now)) result (spec.read packets request bytes.now) }
{
    let (function, rest) = byte_within(bytes, 1, 3, Field::Function)?;
    Ok((named(function), rest))
}

impl Request {
    /// The number in its byte.
    fn function(self) -> u8
        ensures { result ≡ request_number self }
    {
        match self {
            Request::Router => 1,
            Request::Routes(Horizon::Split) => 2,
            Request::Routes(Horizon::Whole) => 3,
        }
    }

    /// The request at the front of the bytes. What follows it is ignored. Allocates nothing.
    ///
    /// Errors: `Truncated` where there is no byte; `BadField` of `Function` where it isn't 1 to 3.
    pub fn read(bytes: &[u8]) -> Result<Request, Error>
        ensures { Reads packets request (λ r. r) (λ r. r) bytes.now result }
    {
        match request_at(bytes) {
            Ok((request, _)) => Ok(request),
            Err(error) => Err(error),
        }
    }

    /// The request at the front of the bytes, if there is one. Allocates nothing.
    pub fn at(bytes: &[u8]) -> Option<Request>
        ensures { result ≡ request_in bytes.now }
    {
        Request::read(bytes).ok()
    }

    /// The bytes of the request. Allocates nothing.
    pub fn write(self) -> [u8; 1]
        ensures { Spells request result self }
    {
        [self.function()]
    }
}
