//! Nodes that come in pieces.

ghost use Rattle.std.specs.Prelude.{◌≡◌, ◌&&◌};
ghost use Rattle.image_feed.specs.Growing.{Advances, none_left};
ghost use Rattle.image_feed.specs.Parts.{IsNewNode, node_head, names_part};
ghost use Rattle.image_feed.specs.declared.node.NodeHead.{NodeHead as HeadValue};

use crate::growth::Growing;
use crate::head::{Head, read_head};
use crate::mappings::advance_mappings;
use crate::several::Several;
use crate::stop::Stop;
use at_base::limits::MAX_NAMES;
use at_base::{Addr, Hw, Name};
use std::alloc::Global;
use table_image::parts::{
    Context, CountSize, Fault, address_at, hardware_at, index_at, name_at, own_router_at,
};
use table_image::{Mapping, Node, NodeName};

/// A node without its names and mappings.
#[derive(Clone, Copy, Debug)]
pub(crate) struct NodeHead {
    pub cable: u8,
    pub address: Addr,
    pub hardware: Hw,
    pub zone: Name,
    pub router: Option<Addr>,
}

/// A node of which the first fields may have been read.
#[derive(Drop)]
pub(crate) struct GrowingNode {
    /// Its head, if it was read.
    pub head: Option<NodeHead>,
    /// Its names.
    pub names: Several<NodeName>,
    /// Its mappings.
    pub mappings: Several<Mapping>,
}

impl Head for NodeHead {
    ghost spelling = { λ context low. node_head context.cables };

    #[tactic(auto, unfolding(crate::specs::Parts::node_head))]
    fn head_at(context: Context, _low: u32, bytes: &[u8]) -> Result<(NodeHead, &[u8]), Fault> {
        let (cable, rest) = index_at(bytes, context.cables)?;
        let (address, rest) = address_at(rest)?;
        let (hardware, rest) = hardware_at(rest)?;
        let (zone, rest) = match name_at(rest) {
            Ok(found) => found,
            Err(fault) => return Err(fault),
        };
        let (router, rest) = own_router_at(rest)?;
        Ok((
            NodeHead {
                cable,
                address,
                hardware,
                zone,
                router,
            },
            rest,
        ))
    }
}

impl GrowingNode {
    /// A node of which nothing was read.
    pub(crate) fn new(alloc: Global) -> GrowingNode
        ensures { IsNewNode result }
    {
        GrowingNode {
            head: None,
            names: Several::new(alloc),
            mappings: Several::new(alloc),
        }
    }

    // Reads what the bytes have of the names and the mappings.
    fn advance_lists<'a>(&mut self, context: Context, bytes: &'a [u8]) -> Result<&'a [u8], Stop>
        ensures head { self.new.head ≡ self.old.head }
        ensures next { (h : HeadValue) → Advances (λ rest. rest.now)
            (names_part context.version self.old h) bytes.now
            (names_part context.version self.new h)
            (none_left self.new.names.left && none_left self.new.mappings.left) result }
    {
        let rest = match self
            .names
            .advance(context, CountSize::One, MAX_NAMES, bytes)
        {
            Ok(rest) => rest,
            Err(stop) => return Err(stop),
        };
        if !self.names.is_whole() {
            return Ok(rest);
        }
        advance_mappings(&mut self.mappings, context.version, rest)
    }
}

impl Growing for GrowingNode {
    ghost use Rattle.std.specs.Prelude.{◌&&◌, is_some};
    ghost use Rattle.table_image.specs.Spelling.{node_spelling};
    ghost use Rattle.image_feed.specs.Growing.{none_left};
    ghost use Rattle.image_feed.specs.Parts.{node_on};

    type Whole = Node;

    ghost spelling = { λ context. node_spelling context.version context.cables };

    ghost goes_on = { λ context like n. node_on context.version context.cables n };

    ghost whole = { λ n. is_some n.head && (none_left n.names.left && none_left n.mappings.left) };

    fn is_whole(&self) -> bool {
        self.head.is_some() && (self.names.is_whole() && self.mappings.is_whole())
    }

    fn advance<'a>(
        &mut self,
        _alloc: Global,
        context: Context,
        _like: Option<&Node>,
        bytes: &'a [u8],
    ) -> Result<&'a [u8], Stop> {
        let rest = read_head(&mut self.head, context, 0, bytes)?;
        let Some(_) = self.head else {
            return Ok(rest);
        };
        self.advance_lists(context, rest)
    }

    // Nodes are a small part of an image.
    fn wants(&self, _bytes: &[u8]) -> usize {
        0
    }

    fn take(&mut self, alloc: Global, _like: Option<&Node>) -> Result<Node, Stop> {
        let Some(head) = self.head else {
            unreachable!()
        };
        self.head = None;
        Ok(Node {
            cable: head.cable,
            address: head.address,
            hardware: head.hardware,
            zone: head.zone,
            router: head.router,
            names: self.names.take(alloc),
            mappings: self.mappings.take(alloc),
        })
    }
}
