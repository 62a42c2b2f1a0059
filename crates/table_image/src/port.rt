//! Ports of routers.

ghost use Rattle.std.specs.Prelude.{◌+◌};
ghost use Rattle.table_image.specs.Spelling.{port_spelling};

use crate::checking::CheckItem;
use crate::context::Context;
use crate::flaw::{Fault, Flaw};
use crate::input::{address_at, hardware_at, index_at};
use crate::item::{Item, PassItem, WriteItem};
use crate::listed::Listed;
use crate::mapping::{Mapping, check_mappings, pass_mappings, put_mappings};
use crate::output::{put_address, put_byte};
use crate::sizes::SEAT_SIZE;
use crate::version::Version;
use at_base::{Addr, Cause, Hw};
use std::alloc::AllocError;

/// A port of a router, which attaches it to a cable.
///
/// Inside AppleTalk, the chapter on RTMP.
#[derive(Debug, PartialEq, Eq, Drop)]
pub struct Port {
    /// The 0-based index of its cable in the image's cables.
    pub cable: u8,
    /// The router's network address on that cable.
    pub address: Addr,
    /// The router's hardware address on that cable, 6 bytes.
    pub hardware: Hw,
    /// The mappings that it knows, strictly rising by their addresses; none in version 1.
    pub mappings: Listed<Mapping>,
}

impl Item for Port {
    ghost spelling = { λ context low. port_spelling context.version context.cables };

    ghost next = { λ _. 0 };

    fn next_low(&self) -> u32 {
        0
    }

    #[tactic(auto, unfolding(crate::specs::Spelling::port_spelling))]
    fn written_alike() {}
}

impl PassItem for Port {
    #[tactic(auto, unfolding(crate::specs::Spelling::port_spelling))]
    fn pass_one(context: Context, _low: u32, bytes: &[u8]) -> Result<(u32, &[u8]), Fault> {
        let (_cable, rest) = index_at(bytes, context.cables)?;
        let (_address, rest) = address_at(rest)?;
        let (_hardware, rest) = hardware_at(rest)?;
        let (_mappings, rest) = pass_mappings(context.version, rest)?;
        Ok((0, rest))
    }
}

impl WriteItem for Port {
    #[tactic(auto, unfolding(crate::specs::Spelling::port_spelling))]
    fn write_one(&self, version: Version, out: &mut Vec<u8>) -> Result<(), AllocError> {
        put_byte(out, self.cable)?;
        put_address(out, self.address)?;
        out.extend_from_slice(&self.hardware.0)?;
        put_mappings(out, version, &self.mappings)
    }
}

impl CheckItem for Port {
    ghost use Rattle.table_image.specs.Short.{short_port};
    ghost use Rattle.table_image.specs.Sizes.{port_size};

    ghost short = { short_port };

    ghost max_size = { port_size };

    fn check_one(&self, context: Context, _low: u32, at: usize) -> Result<usize, Flaw> {
        // Read only for the prover: a field that is read is known to fit its type.
        let (_net, _node) = (self.address.net, self.address.node);
        let _hardware = self.hardware.as_slice();
        if self.cable as usize >= context.cables {
            return Err(Flaw {
                place: at,
                cause: Cause::Index,
            });
        }
        check_mappings(context.version, at + SEAT_SIZE, &self.mappings)
    }
}
