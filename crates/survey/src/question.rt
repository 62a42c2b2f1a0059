//! Questions that a station asks, and how they go out.

ghost use Rattle.std.specs.Prelude.{◌≡◌};
ghost use Rattle.survey.specs.Questions as spec;

use at_base::{Addr, Text32};
use ddp::{Header, kind, socket};
use rtmp::Horizon;
use zip_zones::ZoneFunction;

/// The socket from which a station asks all its questions.
///
/// This project's own.
pub const ASKING: u8 = 251;

/// Names of services that are looked for.
///
/// Inside AppleTalk, the chapter on NBP.
#[derive(Clone, Copy, Debug, PartialEq, Eq)]
pub struct Sought {
    /// The object, or a pattern for it.
    pub object: Text32,
    /// The type, or a pattern for it.
    pub kind: Text32,
    /// The zone.
    pub zone: Text32,
}

/// What is asked.
///
/// Inside AppleTalk, the chapters on AEP, RTMP, ZIP and NBP.
#[derive(Clone, Copy, Debug, PartialEq, Eq)]
pub enum Wanted {
    /// An echo.
    Echo,
    /// The rows of a router.
    Routes(Horizon),
    /// The zones of a network.
    Zones(u16),
    /// A list of zones, from the name with this index on, counted from 1.
    List(ZoneFunction, u16),
    /// Names of services.
    Names(Sought),
}

/// A question: who is asked for what.
///
/// This project's own.
#[derive(Clone, Copy, Debug, PartialEq, Eq)]
pub struct Question {
    /// The station that is asked. Node 0 is any router of the network, and node 255 each of them.
    pub to: Addr,
    /// What is asked.
    pub wanted: Wanted,
}

impl Wanted {
    /// The type of the datagram that asks for it.
    fn kind(&self) -> u8
        ensures { result ≡ spec.kind_of self.now }
    {
        match self {
            Wanted::Echo => kind::AEP,
            Wanted::Routes(_) => kind::RTMP_REQUEST,
            Wanted::Zones(_) => kind::ZIP,
            Wanted::List(_, _) => kind::ATP,
            Wanted::Names(_) => kind::NBP,
        }
    }

    /// The socket that is asked.
    fn socket(&self) -> u8
        ensures { result ≡ spec.socket_of self.now }
    {
        match self {
            Wanted::Echo => socket::ECHO,
            Wanted::Routes(_) => socket::RTMP,
            Wanted::Zones(_) => socket::ZIP,
            Wanted::List(_, _) => socket::ZIP,
            Wanted::Names(_) => socket::NAMES,
        }
    }
}

impl Question {
    /// The header of the datagram that asks it from an address.
    pub(crate) fn header(&self, own: Addr) -> Header
        ensures { result ≡ spec.header_of self.now own }
    {
        Header {
            summed: false,
            target: self.to,
            source: own,
            target_socket: self.wanted.socket(),
            source_socket: ASKING,
            kind: self.wanted.kind(),
        }
    }

    /// Whether several stations may answer it: then it is asked three times, answered or not.
    pub fn is_plural(&self) -> bool
        ensures { result ≡ spec.is_plural self.now }
    {
        match self.wanted {
            Wanted::Names(_) => true,
            Wanted::Routes(_) => self.to.node == 255,
            Wanted::Echo | Wanted::Zones(_) | Wanted::List(_, _) => false,
        }
    }
}
