//! The reasons why reading stops.

ghost use Rattle.std.specs.Prelude.{◌≡◌};
ghost use Rattle.image_feed.specs.declared.stop.Stop.TheVariants.{Memory, Refused};

use std::alloc::{AllocError, AllocFailed};
use table_image::parts::Fault;

/// An allocation failed, or a reader found a fault.
#[derive(Clone, Copy, Debug, PartialEq, Eq)]
pub(crate) enum Stop {
    Memory,
    Refused(Fault),
}

impl From<AllocError> for Stop {
    ghost from_gives = { λ _ e. e ≡ Memory };

    fn from(_e: AllocError) -> Stop {
        Stop::Memory
    }
}

impl<T: Drop> From<AllocFailed<T>> for Stop {
    ghost from_gives = { λ _ e. e ≡ Memory };

    fn from(_e: AllocFailed<T>) -> Stop {
        Stop::Memory
    }
}

impl From<Fault> for Stop {
    ghost from_gives = { λ f e. e ≡ Refused f };

    fn from(fault: Fault) -> Stop {
        Stop::Refused(fault)
    }
}
