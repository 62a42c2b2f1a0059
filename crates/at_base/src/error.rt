//! The errors of calls, and their parts.

ghost use Rattle.std.specs.Prelude.{◌≡◌};
ghost use Rattle.at_base.specs.ErrorNumber.{number_of};
ghost use Rattle.at_base.specs.declared.error.Error.TheVariants.{Memory};

use std::alloc::{AllocError, AllocFailed};
use std::fmt;
use thiserror::Error as ErrorImpls;

/// The kind of thing that a call named and that doesn't exist.
#[derive(Clone, Copy, Debug, PartialEq, Eq)]
pub enum What {
    Cable,
    Node,
    Router,
    Station,
    Name,
    Transaction,
}

/// A field of a packet whose value is outside its range, or (`Taken`) a name that is registered
/// already.
#[derive(Clone, Copy, Debug, PartialEq, Eq)]
pub enum Field {
    HardwareType,
    ProtocolType,
    Lengths,
    Function,
    IdLength,
    Version,
    Count,
    NameLength,
    Network,
    Control,
    Sequence,
    Taken,
}

/// The cause of a flaw in an image.
#[derive(Clone, Copy, Debug, PartialEq, Eq)]
pub enum Cause {
    /// The input ends within a field.
    Cut,
    /// The first four bytes aren't `ATIM`.
    Magic,
    /// The version is neither 1 nor 2.
    Version,
    /// A list is longer than its limit.
    Count,
    /// The index of a cable or a port isn't below the length of its list.
    Index,
    /// A distance, state, flag, socket or enumerator is outside its range.
    Value,
    /// A text isn't a valid zone name, object or type.
    Name,
    /// A start, an enumerator or the address of a mapping isn't above the one before it.
    Order,
    /// Bytes follow the nodes.
    Trailing,
}

/// A part of an internet file.
#[derive(Clone, Copy, Debug, PartialEq, Eq)]
pub enum Part {
    Text,
    Top,
    Cable,
    Router,
    Node,
    Lose,
    Action,
}

/// The place where a rule is broken. All numbers count from 1, in the order of the image.
#[derive(Clone, Copy, Debug, PartialEq, Eq)]
pub enum Place {
    /// A cable.
    Cable(u32),
    /// A router, and one of its ports.
    Port(u32, u32),
    /// A node.
    Node(u32),
    /// A router, and a row of its routing table.
    Row(u32, u32),
    /// A router, and a cable for which it has no row or no zone list.
    Missing(u32, u32),
    /// A router, and one of its zone lists.
    List(u32, u32),
}

/// The place as the verdict line prints it, as `router 1 row 3`.
impl fmt::Display for Place {
    ghost use Rattle.std.specs.Prelude.{Some};
    ghost use Rattle.at_base.specs.Texts.{place_text};

    ghost output = { λ p. Some (place_text p) };

    fn fmt<W: fmt::Write>(&self, f: &mut fmt::Formatter<W>) -> fmt::Result {
        match self {
            Place::Cable(k) => write!(f, "cable {k}"),
            Place::Port(r, p) => write!(f, "router {r} port {p}"),
            Place::Node(k) => write!(f, "node {k}"),
            Place::Row(r, k) => write!(f, "router {r} row {k}"),
            Place::Missing(r, k) => write!(f, "router {r} cable {k}"),
            Place::List(r, k) => write!(f, "router {r} list {k}"),
        }
    }
}

/// The first rule that is broken, and the first place that breaks it.
#[derive(Clone, Copy, Debug, PartialEq, Eq)]
pub struct Fault {
    /// The number of the rule: 1 to 10, as in C1.
    pub rule: u8,
    pub place: Place,
}

/// Why a call fails. Each call's documentation names its errors in the order in which the call
/// checks for them.
#[derive(Clone, Copy, Debug, PartialEq, Eq, ErrorImpls)]
pub enum Error {
    #[error("truncated")]
    Truncated,
    #[error("bad length")]
    BadLength,
    #[error("bad checksum")]
    BadChecksum,
    #[error("bad field {0:?}")]
    BadField(Field),
    #[error("bad range")]
    BadRange,
    #[error("bad name")]
    BadName,
    #[error("too long")]
    TooLong,
    #[error("no such {0:?}")]
    NoSuch(What),
    #[error("not pending")]
    NotPending,
    #[error("no router")]
    NoRouter,
    #[error("full")]
    Full,
    #[error("bad image at {0}: {1:?}")]
    BadImage(u32, Cause),
    #[error("bad file: {0:?} {1}")]
    BadFile(Part, u32),
    #[error("out of memory")]
    Memory,
    #[error("a read failed")]
    ReadFault,
    #[error("a write failed")]
    WriteFault,
    #[error("bad script at line {0}")]
    BadScript(u32),
    #[error("not audited: {0:?}")]
    NotAudited(Fault),
    /// The block of a capture, counted from 1, at which it is wrong.
    #[error("bad capture at block {0}")]
    BadCapture(u32),
}

impl Error {
    /// The number by which the program names the error, 1 to 19, as in `refused: 12`.
    pub fn number(&self) -> u8
        ensures { result ≡ number_of self.now }
    {
        match self {
            Error::Truncated => 1,
            Error::BadLength => 2,
            Error::BadChecksum => 3,
            Error::BadField(_) => 4,
            Error::BadRange => 5,
            Error::BadName => 6,
            Error::TooLong => 7,
            Error::NoSuch(_) => 8,
            Error::NotPending => 9,
            Error::NoRouter => 10,
            Error::Full => 11,
            Error::BadImage(_, _) => 12,
            Error::BadFile(_, _) => 13,
            Error::Memory => 14,
            Error::ReadFault => 15,
            Error::WriteFault => 16,
            Error::BadScript(_) => 17,
            Error::NotAudited(_) => 18,
            Error::BadCapture(_) => 19,
        }
    }
}

impl From<AllocError> for Error {
    ghost from_gives = { λ _ e. e ≡ Memory };

    fn from(_e: AllocError) -> Error {
        Error::Memory
    }
}

impl<T: Drop> From<AllocFailed<T>> for Error {
    ghost from_gives = { λ _ e. e ≡ Memory };

    fn from(_e: AllocFailed<T>) -> Error {
        Error::Memory
    }
}
