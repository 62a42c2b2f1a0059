//! Reads the steps from the text of a script.

ghost use Rattle.std.specs.Prelude.{◌≡◌, ◌⊎◌, ℕ, IfErr, IfOk};
ghost use Rattle.script.specs.Scripts.{IsBadAt, IsScript, ReachesStep};

use crate::reader::Reader;
use crate::step::Step;
use at_base::Error;
use std::alloc::Global;

/// Reads a script. Each line has one step. A line ends with a line feed, which the last line may
/// lack. Empty lines and lines that begin with `#` are skipped.
///
/// - `send NODE VIA SOURCE-SOCKET TARGET SOCKET TYPE SUM HEX`: a node sends a datagram. VIA is the
///   address of a router, or `-` for the node's own; SUM is 1 if the datagram has a checksum, and
///   otherwise 0; HEX is its data in hexadecimal digits, or `-` for no data.
/// - `request NODE VIA ID OBJECT:TYPE@ZONE`: a node asks for names. The name is the rest of the
///   line, cut at its first `:` and its last `@`; the object and the type have 1 to 32 bytes, and
///   the zone at most 32.
/// - `take STAMP STATION`: the station with this address takes a frame.
/// - `drain MAX`: at most MAX frames are taken, each time the lowest pending one.
///
/// One space separates words. An address is a network and a node, as `10.7`. A number is decimal
/// digits, without a sign and without leading zeros; STAMP and MAX fit 32 bits.
///
/// Errors: `BadScript` with the number of the first line that is none of these, counted from 1, at
/// most 4,294,967,295; `Memory`, only for a step before which no line is bad.
pub fn read(alloc: Global, text: &[u8]) -> Result<Vec<Step>, Error>
    ensures script { IfOk result (λ steps. IsScript text.now steps.items) }
    ensures refused { IfErr result (λ e.
        ((n : ℕ) × (e ≡ Error.BadScript n) × IsBadAt text.now n) ⊎ (e ≡ Error.Memory)) }
    // Only a step needs memory, and it is read only where no line before it is bad.
    ensures needed { result ≡ Err Error.Memory → ReachesStep text.now }
{
    let mut reader = Reader::new(alloc);
    let last = reader.read_lines(text)?;
    reader.read_line(last)?;
    Ok(reader.into_steps())
}
