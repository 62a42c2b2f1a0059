//! The header and the records of classic captures.

ghost use Rattle.std.specs.Prelude.{◌≡◌, ◌+◌, ◌*◌};
ghost use Rattle.at_base.specs.Reading.{Gives};
ghost use Rattle.pcapng.specs.Classics as spec;
ghost use Rattle.pcapng.specs.Packets as packets_spec;
ghost use Rattle.pcapng.specs.Reads.{packed};

use crate::block::Seen;
use crate::fault::Fault;
use crate::interface::Interface;
use crate::item::Fraction;
use crate::order::{Order, run_of};

/// The version that is read.
const MAJOR: u16 = 2;

const MINOR: u16 = 4;

/// The resolution of times in nanoseconds.
const NANOS: u8 = 9;

/// The interface of a capture with this link type, of which the low 16 bits count.
fn interface_of(fraction: Fraction, link: u32) -> Interface
    ensures { result ≡ spec.classic_interface fraction link }
{
    let resolution = match fraction {
        Fraction::Micros => 6,
        Fraction::Nanos => NANOS,
    };
    Interface {
        ethernet: link % 0x1_0000 == 1,
        resolution,
        offset: 0,
    }
}

/// The interface of the capture that begins with this header. Errors: `Cut`, `Version`.
pub(crate) fn header(order: Order, fraction: Fraction, bytes: &[u8]) -> Result<Interface, Fault>
    ensures { Gives (λ i. i) result (spec.header_in order fraction bytes.now) }
{
    let (_, rest) = run_of(bytes, 4)?;
    let (major, rest) = order.two(rest)?;
    let (minor, rest) = order.two(rest)?;
    let (_, rest) = run_of(rest, 12)?;
    let (link, _) = order.four(rest)?;
    if major == MAJOR && minor == MINOR {
        Ok(interface_of(fraction, link))
    } else {
        Err(Fault::Version)
    }
}

/// The time of a record on the capture's interface.
fn time_of_record(interface: Interface, seconds: u32, fraction: u32) -> u64
    ensures { result
        ≡ packets_spec.time_on interface (seconds * spec.per_second interface + fraction) }
{
    let per_second = if interface.resolution == NANOS {
        1_000_000_000
    } else {
        1_000_000
    };
    interface.time(u64::from(seconds) * per_second + u64::from(fraction))
}

/// The packet of a record on the capture's interface. Error: `Cut`.
pub(crate) fn record(interface: Interface, order: Order, bytes: &[u8]) -> Result<Seen<'_>, Fault>
    ensures { Gives packed result (spec.record_in interface order bytes.now) }
{
    let (seconds, rest) = order.four(bytes)?;
    let (fraction, rest) = order.four(rest)?;
    let (captured, rest) = order.four(rest)?;
    let (len, rest) = order.four(rest)?;
    let (bytes, _) = run_of(rest, captured as usize)?;
    Ok(Seen {
        interface: 0,
        time: time_of_record(interface, seconds, fraction),
        ethernet: interface.ethernet,
        whole: captured >= len,
        lost: false,
        bytes,
    })
}
