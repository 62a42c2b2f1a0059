//! A reply, as a datagram has it.

ghost use Rattle.std.specs.Prelude.{IsOkUnless};

use crate::said::{Said, said_by};
use at_base::{Addr, Bytes, Error};
use std::alloc::Global;

/// A reply that a station received, or may receive.
#[derive(Drop)]
pub(crate) struct Reply {
    /// The station that sent it.
    pub(crate) source: Addr,
    /// Its DDP type.
    kind: u8,
    /// The data of the datagram.
    payload: Bytes,
}

impl Reply {
    /// The reply with this data, if the data are a reply. Error: `Memory`.
    pub(crate) fn new(
        alloc: Global,
        source: Addr,
        kind: u8,
        payload: &[u8],
    ) -> Result<Option<Reply>, Error>
        ensures { IsOkUnless result Error.Memory }
    {
        if said_by(kind, payload).is_none() {
            return Ok(None);
        }
        Ok(Some(Reply {
            source,
            kind,
            payload: Bytes::copy(alloc, payload)?,
        }))
    }

    /// What it says.
    pub(crate) fn said(&self) -> Option<Said<'_>> {
        said_by(self.kind, self.payload.as_slice())
    }
}
