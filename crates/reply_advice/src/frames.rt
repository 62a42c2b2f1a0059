//! The frames of a transcript that have replies.

ghost use Rattle.std.specs.Prelude.{IsOkUnless};

use at_base::Error;
use std::alloc::Global;

/// The frames of a transcript whose datagrams are replies.
#[derive(Drop)]
pub(crate) struct Frames {
    /// By its stamp, the number of each one's bytes.
    numbers: Vec<Option<u32>>,
}

impl Frames {
    /// No frames.
    pub(crate) fn new(alloc: Global) -> Frames {
        Frames {
            numbers: Vec::new(alloc),
        }
    }

    /// Notes a frame that was put. Error: `Memory`.
    pub(crate) fn put(&mut self, stamp: u32, number: u32) -> Result<(), Error>
        ensures { IsOkUnless result Error.Memory }
    {
        let place = stamp as usize;
        if self.numbers.len() <= place {
            self.numbers.resize(place + 1, None)?;
        }
        if let Some(noted) = self.numbers.get_mut(place) {
            *noted = Some(number);
        }
        Ok(())
    }

    /// The number of the bytes of the frame with this stamp, if that was noted.
    pub(crate) fn number(&self, stamp: u32) -> Option<u32> {
        match self.numbers.get(stamp as usize) {
            Some(noted) => *noted,
            None => None,
        }
    }
}
