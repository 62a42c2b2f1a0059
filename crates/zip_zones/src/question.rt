//! A writer of GetNetInfo requests.

ghost use Rattle.std.specs.Prelude.{◌≡◌, ◌∷◌, [], IfOk, IsOkUnless};
ghost use Rattle.at_base.specs.Spelling.{bytes_of};
ghost use Rattle.zip_zones.specs.Formats as spec;
ghost use Rattle.zip_zones.specs.Written.{question};

use crate::answer::put_text;
use crate::packet::Function;
use crate::writer::number;
use at_base::{Bytes, Error, Text32};
use std::alloc::Global;

/// The length of a request without the text of the requested zone.
const QUESTION_LEN: usize = 7;

/// The function of a request, and the five bytes after it.
fn front() -> [u8; 6]
    ensures { result ≡ 5 ∷ 0 ∷ 0 ∷ 0 ∷ 0 ∷ 0 ∷ [] }
{
    [number(Function::GetNetInfo), 0, 0, 0, 0, 0]
}

/// The GetNetInfo request of a node, with the zone that it wants, or an empty text if it has none.
/// Allocates exactly the request's length.
///
/// Inside AppleTalk, the chapter on ZIP. Error: `Memory`.
pub fn write_get_net_info(alloc: Global, asked: &Text32) -> Result<Bytes, Error>
    ensures ok { IfOk result (λ bytes. bytes ≡ bytes_of spec.packet (question asked.now)) }
    ensures refused { IsOkUnless result Error.Memory }
{
    let mut bytes = Vec::with_capacity(alloc, QUESTION_LEN + asked.as_slice().len())?;
    bytes.extend_from_slice(&front())?;
    put_text(&mut bytes, asked)?;
    Ok(Bytes::from_vec(bytes))
}
