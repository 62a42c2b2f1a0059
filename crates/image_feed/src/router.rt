//! Routers that come in pieces.

ghost use Rattle.std.specs.Prelude.{◌≡◌, ◌&&◌, [], None, true, unwrap_or};
ghost use Rattle.std.specs.Option.{option_copied};
ghost use Rattle.image_feed.specs.Parts as spec;
ghost use Rattle.image_feed.specs.Growing.{Advances, none_left};
ghost use Rattle.image_feed.specs.Parts.{IsNewPort, IsNewRouter, rows_on};

use crate::growth::{Growing, Growth};
use crate::lists::Lists;
use crate::port::GrowingPort;
use crate::several::Several;
use crate::stop::Stop;
use at_base::limits::{MAX_PORTS, MAX_ROWS};
use std::alloc::Global;
use table_image::parts::{Context, CountSize};
use table_image::{Cable, Listed, Router, Row, ZoneList};

/// A router of which the first parts may have been read.
#[derive(Drop)]
pub(crate) struct GrowingRouter {
    pub ports: Growth<GrowingPort>,
    pub rows: Several<Row>,
    pub lists: Lists,
}

/// The zone lists of the router, if there is one.
fn lists_of(router: Option<&Router>) -> Option<&Listed<ZoneList>>
    ensures { unwrap_or (option_copied result) [] ≡ spec.lists_of (option_copied router.entry) }
{
    match router {
        Some(router) => Some(&router.lists),
        None => None,
    }
}

/// A router whose zone lists are those of the cables, in order, which the first router's usually
/// are. `None` where a cable's zones can't be shared, or an allocation failed.
pub(crate) fn router_like(alloc: Global, cables: &[Cable]) -> Option<Router> {
    let mut lists = Vec::with_capacity(alloc, cables.len()).ok()?;
    for cable in cables {
        let list = ZoneList {
            start: cable.start,
            end: cable.end,
            complete: true,
            zones: cable.zones.again()?,
        };
        lists.push(list).ok()?;
    }
    Some(Router {
        ports: Listed::from_vec(Vec::new(alloc)),
        rows: Listed::from_vec(Vec::new(alloc)),
        lists: Listed::from_vec(lists),
    })
}

impl GrowingRouter {
    /// A router of which nothing was read.
    pub(crate) fn new(alloc: Global) -> GrowingRouter
        ensures { IsNewRouter result }
    {
        GrowingRouter {
            ports: Growth::new(alloc, GrowingPort::new(alloc)),
            rows: Several::new(alloc),
            lists: Lists::new(),
        }
    }

    // Whether nothing of its ports was read.
    fn has_no_ports(&self) -> bool
        ensures left { result ≡ true → self.now.ports.left ≡ None }
        ensures items { result ≡ true → self.now.ports.items.items ≡ [] }
        ensures next { result ≡ true → IsNewPort self.now.ports.next }
    {
        self.ports.left.is_none()
            && self.ports.items.as_slice().is_empty()
            && self.ports.next.is_new()
    }

    /// Whether nothing of it was read.
    pub(crate) fn is_new(&self) -> bool
        ensures { result ≡ true → IsNewRouter self.now }
    {
        self.has_no_ports() && self.rows.is_new() && self.lists.is_new()
    }

    // Reads what the bytes have of the rows and the zone lists.
    fn advance_rows<'a>(
        &mut self,
        alloc: Global,
        context: Context,
        like: Option<&Router>,
        bytes: &'a [u8],
    ) -> Result<&'a [u8], Stop>
        ensures ports { self.new.ports ≡ self.old.ports }
        ensures next { Advances (λ rest. rest.now)
            (rows_on context.version (option_copied like.entry) self.old self.old.ports.items.items)
            bytes.now
            (rows_on context.version (option_copied like.entry) self.new self.old.ports.items.items)
            (none_left self.new.rows.left && none_left self.new.lists.left) result }
    {
        let of_ports = context.with_ports(self.ports.items.as_slice().len());
        let rest = match self.rows.advance(of_ports, CountSize::One, MAX_ROWS, bytes) {
            Ok(rest) => rest,
            Err(stop) => return Err(stop),
        };
        if !self.rows.is_whole() {
            return Ok(rest);
        }
        self.lists
            .advance(alloc, context.version, lists_of(like), rest)
    }
}

impl Growing for GrowingRouter {
    ghost use Rattle.std.specs.Prelude.{◌&&◌, is_some};
    ghost use Rattle.table_image.specs.Spelling.{router_spelling};
    ghost use Rattle.image_feed.specs.Growing.{none_left};
    ghost use Rattle.image_feed.specs.Parts.{router_on};

    type Whole = Router;

    ghost spelling = { λ context. router_spelling context.version context.cables };

    ghost goes_on = { λ context like r. router_on context.version context.cables like r };

    ghost whole = { λ r. none_left r.ports.left && none_left r.rows.left && none_left r.lists.left };

    fn is_whole(&self) -> bool {
        self.ports.is_whole() && self.rows.is_whole() && self.lists.is_whole()
    }

    fn advance<'a>(
        &mut self,
        alloc: Global,
        context: Context,
        like: Option<&Router>,
        bytes: &'a [u8],
    ) -> Result<&'a [u8], Stop> {
        let rest = match self.ports.advance(alloc, context, MAX_PORTS, bytes) {
            Ok(rest) => rest,
            Err(stop) => return Err(stop),
        };
        if !self.ports.is_whole() {
            return Ok(rest);
        }
        self.advance_rows(alloc, context, like, rest)
    }

    fn wants(&self, bytes: &[u8]) -> usize {
        if self.ports.is_whole() && self.rows.is_whole() {
            self.lists.wants(bytes)
        } else {
            0
        }
    }

    fn take(&mut self, alloc: Global, like: Option<&Router>) -> Result<Router, Stop> {
        let lists = self.lists.take(alloc, lists_of(like))?;
        let anew = Growth::new(alloc, GrowingPort::new(alloc));
        let ports = std::mem::replace(&mut self.ports, anew);
        Ok(Router {
            ports: ports.into_listed(),
            rows: self.rows.take(alloc),
            lists,
        })
    }
}
