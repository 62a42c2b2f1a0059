//! Nodes of an internet, and their names.

ghost use Rattle.std.specs.Prelude.{◌≡◌, ◌+◌, ◌^◌, ◌<◌, ◌≤◌, ◌++◌, length, OnOk, MatchResult};
ghost use Rattle.at_base.specs.Spelling.{bytes_of, IsValue};
ghost use Rattle.at_base.specs.Reading.{Gives, read};
ghost use Rattle.table_image.specs.Checking.{Checks};
ghost use Rattle.at_base.specs.Text as text_spec;
ghost use Rattle.table_image.specs.Flaws.{faults};
ghost use Rattle.table_image.specs.Spelling.{node_spelling, name_spelling, own_router_spelling};
ghost use Rattle.table_image.specs.Spelling.{text_spelling};
ghost use Rattle.table_image.specs.Sizes as spec;
ghost use Rattle.table_image.specs.Sizes.{text_size};

use crate::checking::{CheckItem, check_counted};
use crate::context::Context;
use crate::count::CountSize;
use crate::flaw::{Fault, Flaw};
use crate::input::{
    address_at, byte_within, entity_at, enumerator_at, hardware_at, index_at, name_at,
};
use crate::item::{FlatItem, Item, PassItem, WriteItem, pass_counted, put_counted};
use crate::listed::Listed;
use crate::mapping::{Mapping, check_mappings, pass_mappings, put_mappings};
use crate::output::{put_address, put_byte, put_text};
use crate::sizes::{BYTE_SIZE, OWN_ROUTER_SIZE, SEAT_SIZE};
use crate::version::Version;
use at_base::limits::MAX_NAMES;
use at_base::{Addr, Cause, Hw, Name, Text32, is_entity};
use std::alloc::AllocError;

/// A name registered for one of a node's sockets. Its zone is the node's.
///
/// Inside AppleTalk, the chapter on NBP.
#[derive(Clone, Copy, Debug, PartialEq, Eq)]
pub struct NodeName {
    /// The socket number, 1 to 254.
    pub socket: u8,
    /// The enumerator, 1 to 255. The names of a node rise strictly by it.
    pub enumerator: u8,
    /// The object: 1 to 32 bytes, without the wildcard C5, and not just `=`.
    pub object: Text32,
    /// The type: 1 to 32 bytes, without the wildcard C5, and not just `=`.
    pub kind: Text32,
}

/// A node: a station that isn't a router.
///
/// Inside AppleTalk, the chapters on DDP, ZIP and NBP.
#[derive(Debug, PartialEq, Eq, Drop)]
pub struct Node {
    /// The 0-based index of its cable in the image's cables.
    pub cable: u8,
    /// Its network address on that cable.
    pub address: Addr,
    /// Its hardware address on that cable, 6 bytes.
    pub hardware: Hw,
    /// The name of its zone.
    pub zone: Name,
    /// The address of the router that it sends through; `None` if it hasn't heard of one.
    pub router: Option<Addr>,
    /// The names registered on it, at most `MAX_NAMES`, strictly rising by enumerator.
    pub names: Listed<NodeName>,
    /// The mappings that it knows, strictly rising by their addresses; none in version 1.
    pub mappings: Listed<Mapping>,
}

impl Item for NodeName {
    ghost spelling = { λ context low. name_spelling low };

    ghost next = { λ n. n.enumerator + 1 };

    fn next_low(&self) -> u32 {
        u32::from(self.enumerator) + 1
    }

    #[tactic(auto, unfolding(crate::specs::Spelling::name_spelling))]
    fn written_alike() {}
}

impl FlatItem for NodeName {
    #[tactic(auto, unfolding(crate::specs::Spelling::name_spelling))]
    fn flat_at(_context: Context, low: u32, bytes: &[u8]) -> Result<(NodeName, &[u8]), Fault> {
        let (socket, rest) = byte_within(bytes, 1, 254, Cause::Value)?;
        let (enumerator, rest) = enumerator_at(rest, low)?;
        let (object, rest) = match entity_at(rest) {
            Ok(found) => found,
            Err(fault) => return Err(fault),
        };
        let (kind, rest) = match entity_at(rest) {
            Ok(found) => found,
            Err(fault) => return Err(fault),
        };
        Ok((
            NodeName {
                socket,
                enumerator,
                object,
                kind,
            },
            rest,
        ))
    }
}

impl WriteItem for NodeName {
    #[tactic(auto, unfolding(crate::specs::Spelling::name_spelling, crate::specs::Spelling::text_spelling))]
    fn write_one(&self, _version: Version, out: &mut Vec<u8>) -> Result<(), AllocError> {
        put_byte(out, self.socket)?;
        put_byte(out, self.enumerator)?;
        put_text(out, self.object.as_slice())?;
        put_text(out, self.kind.as_slice())
    }
}

/// A node's router: a flag, and its address if there is one.
#[tactic(auto, unfolding(crate::specs::Spelling::own_router_spelling))]
pub fn own_router_at(bytes: &[u8]) -> Result<(Option<Addr>, &[u8]), Fault>
    ensures { Gives (λ x. (x.0, x.1.now)) result (read faults own_router_spelling bytes.now) }
{
    let (flag, rest) = byte_within(bytes, 0, 1, Cause::Value)?;
    if flag == 0 {
        return Ok((None, rest));
    }
    let (router, rest) = address_at(rest)?;
    Ok((Some(router), rest))
}

#[tactic(auto, unfolding(crate::specs::Spelling::own_router_spelling))]
fn put_own_router(out: &mut Vec<u8>, router: Option<Addr>) -> Result<(), AllocError>
    ensures { OnOk result (out.new.items ≡ out.old.items ++ bytes_of own_router_spelling router) }
{
    match router {
        None => put_byte(out, 0),
        Some(router) => {
            put_byte(out, 1)?;
            put_address(out, router)
        }
    }
}

impl Item for Node {
    ghost spelling = { λ context low. node_spelling context.version context.cables };

    ghost next = { λ _. 0 };

    fn next_low(&self) -> u32 {
        0
    }

    #[tactic(auto, unfolding(crate::specs::Spelling::node_spelling))]
    fn written_alike() {}
}

impl PassItem for Node {
    #[tactic(auto, unfolding(crate::specs::Spelling::node_spelling))]
    fn pass_one(context: Context, _low: u32, bytes: &[u8]) -> Result<(u32, &[u8]), Fault> {
        let (_cable, rest) = index_at(bytes, context.cables)?;
        let (_address, rest) = address_at(rest)?;
        let (_hardware, rest) = hardware_at(rest)?;
        let (_zone, rest) = match name_at(rest) {
            Ok(found) => found,
            Err(fault) => return Err(fault),
        };
        let (_router, rest) = own_router_at(rest)?;
        let (_names, rest) = pass_counted::<NodeName>(CountSize::One, MAX_NAMES, context, rest)?;
        let (_mappings, rest) = pass_mappings(context.version, rest)?;
        Ok((0, rest))
    }
}

impl WriteItem for Node {
    #[tactic(auto, unfolding(crate::specs::Spelling::node_spelling, crate::specs::Spelling::text_spelling))]
    fn write_one(&self, version: Version, out: &mut Vec<u8>) -> Result<(), AllocError> {
        put_byte(out, self.cable)?;
        put_address(out, self.address)?;
        out.extend_from_slice(&self.hardware.0)?;
        put_text(out, self.zone.as_slice())?;
        put_own_router(out, self.router)?;
        let context = Context::nothing(version);
        put_counted(out, CountSize::One, MAX_NAMES, context, &self.names)?;
        put_mappings(out, version, &self.mappings)
    }
}

fn check_entity(text: &Text32, at: usize) -> Result<usize, Flaw>
    requires { at + text_size < 2 ^ 40 }
    ensures checked { Checks (text_spelling text_spec.is_entity) text.now at result }
    ensures near { MatchResult result (λ end. end ≤ at + text_size)
        (λ m. m.place ≤ at + text_size) }
{
    let bytes = text.as_slice();
    let wrong = Flaw {
        place: at,
        cause: Cause::Name,
    };
    if bytes.len() < 1 {
        return Err(wrong);
    }
    if !is_entity(bytes) {
        return Err(wrong);
    }
    Ok(at + BYTE_SIZE + bytes.len())
}

// The offsets of a name's enumerator and object from its first byte.
const ENUMERATOR_AT: usize = BYTE_SIZE;

const OBJECT_AT: usize = ENUMERATOR_AT + BYTE_SIZE;

impl CheckItem for NodeName {
    ghost use Rattle.std.specs.Prelude.{true};
    ghost use Rattle.table_image.specs.Sizes.{name_size};

    ghost short = { λ version name. true };

    ghost max_size = { name_size };

    fn check_one(&self, _context: Context, low: u32, at: usize) -> Result<usize, Flaw> {
        let wrong = Flaw {
            place: at,
            cause: Cause::Value,
        };
        if self.socket < 1 {
            return Err(wrong);
        }
        if self.socket > 254 {
            return Err(wrong);
        }
        if self.enumerator < 1 {
            return Err(Flaw {
                place: at + ENUMERATOR_AT,
                cause: Cause::Value,
            });
        }
        if u32::from(self.enumerator) < low {
            return Err(Flaw {
                place: at + ENUMERATOR_AT,
                cause: Cause::Order,
            });
        }
        match check_entity(&self.object, at + OBJECT_AT) {
            Ok(end) => check_entity(&self.kind, end),
            Err(flaw) => Err(flaw),
        }
    }
}

fn own_router_size(router: Option<Addr>) -> usize
    ensures size { result ≡ length (bytes_of own_router_spelling router) }
    ensures value { IsValue own_router_spelling router }
    ensures few { result ≤ spec.own_router_size }
{
    match router {
        None => BYTE_SIZE,
        Some(address) => {
            // Read only for the prover: a field that is read is known to fit its type.
            let (_net, _node) = (address.net, address.node);
            OWN_ROUTER_SIZE
        }
    }
}

// The offset of the text of a node's zone from the node's first byte. The length byte is before it.
const ZONE_TEXT_AT: usize = SEAT_SIZE + BYTE_SIZE;

impl CheckItem for Node {
    ghost use Rattle.table_image.specs.Short.{short_node};
    ghost use Rattle.table_image.specs.Sizes.{node_size};

    ghost short = { short_node };

    ghost max_size = { node_size };

    fn check_one(&self, context: Context, _low: u32, at: usize) -> Result<usize, Flaw> {
        // Read only for the prover: a field that is read is known to fit its type.
        let (_net, _node) = (self.address.net, self.address.node);
        let _hardware = self.hardware.as_slice();
        if self.cable as usize >= context.cables {
            return Err(Flaw {
                place: at,
                cause: Cause::Index,
            });
        }
        let zone = self.zone.as_slice();
        let end = at + ZONE_TEXT_AT + zone.len() + own_router_size(self.router);
        match check_counted(CountSize::One, MAX_NAMES, context, end, &self.names) {
            Ok(end) => check_mappings(context.version, end, &self.mappings),
            Err(flaw) => Err(flaw),
        }
    }
}
