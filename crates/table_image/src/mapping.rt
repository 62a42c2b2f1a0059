//! Mappings of addresses to hardware addresses, which ports and nodes know.

ghost use Rattle.std.specs.Prelude.{◌≡◌, ◌≤◌, ◌+◌, ◌++◌, ◌^◌, ◌<◌, length, IsTrue, MatchResult, OnOk};
ghost use Rattle.at_base.specs.Address.{address_number};
ghost use Rattle.at_base.specs.Reading.{read};
ghost use Rattle.at_base.specs.Spelling.{bytes_of};
ghost use Rattle.table_image.specs.Checking.{Checks};
ghost use Rattle.table_image.specs.Flaws.{faults, GoesPast};
ghost use Rattle.table_image.specs.Sizes.{mappings_size};
ghost use Rattle.table_image.specs.Spelling.{mapping_spelling, mappings_spelling};
ghost use Rattle.table_image.specs.Versions as spec;

use crate::checking::{CheckItem, check_counted};
use crate::context::Context;
use crate::count::CountSize;
use crate::flaw::{Fault, Flaw};
use crate::input::{address_node_at, hardware_at, u16_at};
use crate::item::{FlatItem, Item, WriteItem, pass_counted, put_counted};
use crate::listed::Listed;
use crate::output::{put_byte, put_u16};
use crate::sizes::MAPPING_SIZE;
use crate::version::Version;
use at_base::limits::MAX_MAPPINGS;
use at_base::{Addr, Cause, Hw};
use std::alloc::AllocError;

/// A mapping that a port or a node has learnt: an address of its cable, and the hardware address of
/// the station that has it.
///
/// Inside AppleTalk, the chapter on AARP.
#[derive(Clone, Copy, Debug, PartialEq, Eq)]
pub struct Mapping {
    /// The network address. The mappings of a port or a node rise strictly by it.
    pub address: Addr,
    /// The hardware address, 6 bytes.
    pub hardware: Hw,
}

/// The place of an address in the order of addresses.
fn number_of(address: Addr) -> u32
    ensures value { result ≡ address_number address }
    ensures near { result < 2 ^ 24 }
{
    u32::from(address.net) * 256 + u32::from(address.node)
}

impl Item for Mapping {
    ghost spelling = { λ context low. mapping_spelling low };

    ghost next = { λ m. address_number m.address + 1 };

    fn next_low(&self) -> u32 {
        number_of(self.address) + 1
    }

    #[tactic(auto, unfolding(crate::specs::Spelling::mapping_spelling))]
    fn written_alike() {}
}

impl FlatItem for Mapping {
    #[tactic(auto, unfolding(crate::specs::Spelling::mapping_spelling))]
    fn flat_at(_context: Context, low: u32, bytes: &[u8]) -> Result<(Mapping, &[u8]), Fault> {
        let (net, rest) = u16_at(bytes)?;
        let (node, rest) = address_node_at(rest, low, net)?;
        let (hardware, rest) = hardware_at(rest)?;
        Ok((
            Mapping {
                address: Addr { net, node },
                hardware,
            },
            rest,
        ))
    }
}

impl WriteItem for Mapping {
    #[tactic(auto, unfolding(crate::specs::Spelling::mapping_spelling))]
    fn write_one(&self, _version: Version, out: &mut Vec<u8>) -> Result<(), AllocError> {
        put_u16(out, self.address.net)?;
        put_byte(out, self.address.node)?;
        out.extend_from_slice(&self.hardware.0)
    }
}

impl CheckItem for Mapping {
    ghost use Rattle.std.specs.Prelude.{true};
    ghost use Rattle.table_image.specs.Sizes.{mapping_size};

    ghost short = { λ version mapping. true };

    ghost max_size = { mapping_size };

    fn check_one(&self, _context: Context, low: u32, at: usize) -> Result<usize, Flaw> {
        // Read only for the prover: a field that is read is known to fit its type.
        let (_net, _node) = (self.address.net, self.address.node);
        let _hardware = self.hardware.as_slice();
        if number_of(self.address) < low {
            return Err(Flaw {
                place: at,
                cause: Cause::Order,
            });
        }
        Ok(at + MAPPING_SIZE)
    }
}

/// Reads past the mappings of a port or a node, and returns their number.
#[tactic(auto, unfolding(crate::specs::Spelling::mappings_spelling))]
pub(crate) fn pass_mappings(version: Version, bytes: &[u8]) -> Result<(usize, &[u8]), Fault>
    ensures { GoesPast (λ xs. length xs) (λ x. (x.0, x.1.now)) result
        (read faults (mappings_spelling version) bytes.now) }
{
    match version {
        Version::V1 => Ok((0, bytes)),
        Version::V2 => {
            let context = Context::nothing(version);
            pass_counted::<Mapping>(CountSize::Two, MAX_MAPPINGS, context, bytes)
        }
    }
}

/// Appends the mappings of a port or a node.
#[tactic(auto, unfolding(crate::specs::Spelling::mappings_spelling))]
pub(crate) fn put_mappings(
    out: &mut Vec<u8>,
    version: Version,
    mappings: &Listed<Mapping>,
) -> Result<(), AllocError>
    ensures { OnOk result
        (out.new.items ≡ out.old.items ++ bytes_of (mappings_spelling version) mappings.now) }
{
    match version {
        Version::V1 => Ok(()),
        Version::V2 => {
            let context = Context::nothing(version);
            put_counted(out, CountSize::Two, MAX_MAPPINGS, context, mappings)
        }
    }
}

/// Checks the mappings of a port or a node at the offset `at`.
#[tactic(auto, unfolding(crate::specs::Spelling::mappings_spelling))]
pub(crate) fn check_mappings(
    version: Version,
    at: usize,
    mappings: &Listed<Mapping>,
) -> Result<usize, Flaw>
    requires few { length mappings.now ≤ spec.mapping_limit version }
    requires room { at + mappings_size < 2 ^ 40 }
    ensures checked { Checks (mappings_spelling version) mappings.now at result }
    ensures near { MatchResult result (λ end. end ≤ at + mappings_size)
        (λ m. m.place ≤ at + mappings_size) }
{
    match version {
        Version::V1 => Ok(at),
        Version::V2 => {
            let context = Context::nothing(version);
            check_counted(CountSize::Two, MAX_MAPPINGS, context, at, mappings)
        }
    }
}
