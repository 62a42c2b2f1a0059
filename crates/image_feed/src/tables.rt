//! The tables of an internet of which a part was read.

ghost use Rattle.std.specs.Prelude.{◌≡◌, ◌&&◌, [], ℕ, List, IfOk, true};
ghost use Rattle.table_image.specs.declared.cable.Cable.{Cable as CableValue};
ghost use Rattle.table_image.specs.declared.router.Router.{Router as RouterValue};
ghost use Rattle.table_image.specs.declared.version.Version.{Version as VersionValue};
ghost use Rattle.image_feed.specs.Growing.{Advances, Wants, none_left};
ghost use Rattle.image_feed.specs.Tables.{IsNew, cables_part, context_of, image_head, internet_of};
ghost use Rattle.image_feed.specs.Tables.{is_whole, nodes_part, parts_internet, routers_part};
ghost use Rattle.image_feed.specs.Tables.{tables_on, version_in};

use crate::cable::GrowingCable;
use crate::growth::Growth;
use crate::head::{Head, read_head};
use crate::node::GrowingNode;
use crate::router::{GrowingRouter, router_like};
use crate::stop::Stop;
use at_base::Cause;
use at_base::limits::{MAX_CABLES, MAX_NODES, MAX_ROUTERS};
use std::alloc::Global;
use table_image::parts::{Context, Fault, byte_within, magic_at, wrong};
use table_image::{Cable, Listed, Node, Router, Version};

/// The first fields of an image.
#[derive(Clone, Copy, Debug)]
pub(crate) struct ImageHead {
    pub version: Version,
}

impl Head for ImageHead {
    ghost spelling = { λ context low. image_head };

    #[tactic(auto, unfolding(crate::specs::Tables::image_head))]
    fn head_at(_context: Context, _low: u32, bytes: &[u8]) -> Result<(ImageHead, &[u8]), Fault> {
        let (_magic, rest) = magic_at(bytes)?;
        let (number, rest) = byte_within(rest, 1, 2, Cause::Version)?;
        let version = Version::of(number);
        Ok((ImageHead { version }, rest))
    }
}

/// The tables of an internet, all of which were read.
#[derive(Drop)]
pub(crate) struct TableParts {
    pub version: Version,
    pub cables: Listed<Cable>,
    pub routers: Listed<Router>,
    pub nodes: Listed<Node>,
}

/// The tables of an internet of which the first parts were read.
#[derive(Drop)]
pub(crate) struct Tables {
    /// The first fields, if they were read.
    pub head: Option<ImageHead>,
    pub cables: Growth<GrowingCable>,
    pub routers: Growth<GrowingRouter>,
    pub nodes: Growth<GrowingNode>,
}

impl Tables {
    /// The tables of an internet of which nothing was read.
    pub(crate) fn new(alloc: Global) -> Tables
        ensures { IsNew result }
    {
        Tables {
            head: None,
            cables: Growth::new(alloc, GrowingCable::new()),
            routers: Growth::new(alloc, GrowingRouter::new(alloc)),
            nodes: Growth::new(alloc, GrowingNode::new(alloc)),
        }
    }

    /// Whether all of it was read.
    pub(crate) fn is_whole(&self) -> bool
        ensures { result ≡ is_whole self.now }
    {
        self.head.is_some()
            && self.cables.is_whole()
            && self.routers.is_whole()
            && self.nodes.is_whole()
    }

    // The context of routers and nodes.
    fn context(&self, version: Version) -> Context
        ensures { result ≡ context_of version self.now.cables.items.items }
    {
        Context::nothing(version).with_cables(self.cables.items.as_slice().len())
    }

    // Reads what the bytes have of the nodes. Nothing follows them.
    fn advance_nodes<'a>(
        &mut self,
        alloc: Global,
        version: Version,
        bytes: &'a [u8],
    ) -> Result<&'a [u8], Stop>
        ensures others { (self.new.head ≡ self.old.head) × (self.new.cables ≡ self.old.cables)
            × (self.new.routers ≡ self.old.routers) }
        ensures next { (routers : List RouterValue) → Advances (λ rest. rest.now)
            (nodes_part version self.old self.old.cables.items.items routers) bytes.now
            (nodes_part version self.new self.old.cables.items.items routers)
            (none_left self.new.nodes.left) result }
        ensures end { IfOk result (λ rest. none_left self.new.nodes.left ≡ true
            → rest.now ≡ []) }
    {
        let context = self.context(version);
        let rest = match self.nodes.advance(alloc, context, MAX_NODES, bytes) {
            Ok(rest) => rest,
            Err(stop) => return Err(stop),
        };
        if !self.nodes.is_whole() {
            return Ok(rest);
        }
        if rest.is_empty() {
            return Ok(rest);
        }
        Err(Stop::Refused(wrong(rest, Cause::Trailing)))
    }

    // Reads what the bytes have of the routers and of what follows them.
    fn advance_routers<'a>(
        &mut self,
        alloc: Global,
        version: Version,
        bytes: &'a [u8],
    ) -> Result<&'a [u8], Stop>
        ensures others { (self.new.head ≡ self.old.head) × (self.new.cables ≡ self.old.cables) }
        ensures next { Advances (λ rest. rest.now)
            (routers_part version self.old self.old.cables.items.items) bytes.now
            (routers_part version self.new self.old.cables.items.items)
            (none_left self.new.routers.left && none_left self.new.nodes.left) result }
        ensures end { IfOk result (λ rest.
            (none_left self.new.routers.left && none_left self.new.nodes.left) ≡ true
            → rest.now ≡ []) }
    {
        let context = self.context(version);
        let rest = match self.routers.advance(alloc, context, MAX_ROUTERS, bytes) {
            Ok(rest) => rest,
            Err(stop) => return Err(stop),
        };
        if !self.routers.is_whole() {
            return Ok(rest);
        }
        self.advance_nodes(alloc, version, rest)
    }

    // The routers' zone lists are usually those of the cables.
    fn expect_lists(&mut self, alloc: Global)
        ensures others { (self.new.head ≡ self.old.head) × (self.new.cables ≡ self.old.cables)
            × (self.new.nodes ≡ self.old.nodes) }
        ensures same { (version : VersionValue) (cables : List CableValue) (bytes : List ℕ)
            → routers_part version self.old cables bytes ≡ routers_part version self.new cables bytes }
    {
        if self.routers.hint.is_none()
            && self.routers.left.is_none()
            && self.routers.next.is_new()
        {
            self.routers.hint = router_like(alloc, self.cables.items.as_slice());
        }
    }

    // Reads what the bytes have of the cables and of what follows them.
    fn advance_cables<'a>(
        &mut self,
        alloc: Global,
        version: Version,
        bytes: &'a [u8],
    ) -> Result<&'a [u8], Stop>
        ensures head { self.new.head ≡ self.old.head }
        ensures next { Advances (λ rest. rest.now) (cables_part version self.old) bytes.now
            (cables_part version self.new) (none_left self.new.cables.left
            && none_left self.new.routers.left && none_left self.new.nodes.left) result }
        ensures end { IfOk result (λ rest. (none_left self.new.cables.left
            && none_left self.new.routers.left && none_left self.new.nodes.left) ≡ true
            → rest.now ≡ []) }
    {
        let context = Context::nothing(version);
        let rest = match self.cables.advance(alloc, context, MAX_CABLES, bytes) {
            Ok(rest) => rest,
            Err(stop) => return Err(stop),
        };
        if !self.cables.is_whole() {
            return Ok(rest);
        }
        self.expect_lists(alloc);
        self.advance_routers(alloc, version, rest)
    }

    /// Reads what the bytes have of the tables. Returns the bytes after it.
    pub(crate) fn advance<'a>(&mut self, alloc: Global, bytes: &'a [u8]) -> Result<&'a [u8], Stop>
        ensures next { Advances (λ rest. rest.now) (tables_on self.old) bytes.now
            (tables_on self.new) (is_whole self.new) result }
        ensures end { IfOk result (λ rest. is_whole self.new ≡ true → rest.now ≡ []) }
    {
        let context = Context::nothing(Version::V1);
        let rest = match read_head(&mut self.head, context, 0, bytes) {
            Ok(rest) => rest,
            Err(stop) => return Err(stop),
        };
        let Some(head) = self.head else {
            return Ok(rest);
        };
        self.advance_cables(alloc, head.version, rest)
    }

    /// The bytes end within a name as long as they are fewer than this.
    pub(crate) fn wants(&self, bytes: &[u8]) -> usize
        ensures { Wants (tables_on self.now) bytes.now result }
    {
        if self.head.is_none() {
            return 0;
        }
        if !self.cables.is_whole() {
            return self.cables.wants(bytes);
        }
        if !self.routers.is_whole() {
            return self.routers.wants(bytes);
        }
        0
    }

    /// The version that was read; version 1 where none was.
    pub(crate) fn version(&self) -> Version
        ensures { result ≡ version_in self.now.head }
    {
        match self.head {
            Some(head) => head.version,
            None => Version::V1,
        }
    }

    /// The version, the cables, the routers and the nodes that were read.
    pub(crate) fn into_parts(self) -> TableParts
        ensures { parts_internet result ≡ internet_of self }
    {
        let version = self.version();
        let Tables {
            cables,
            routers,
            nodes,
            ..
        } = self;
        TableParts {
            version,
            cables: cables.into_listed(),
            routers: routers.into_listed(),
            nodes: nodes.into_listed(),
        }
    }
}
