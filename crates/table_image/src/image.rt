//! The image of an internet's tables.

ghost use Rattle.std.specs.Prelude.{◌≡◌, ◌++◌, ◌⊎◌, ℕ, List, length, OnOk, IfOk};
ghost use Rattle.std.specs.Prelude.{IfErr, IsOkUnless, IsTrue, false, ◌↔◌, ◌≤◌, map};
ghost use Rattle.std.specs.Prelude.{Some, option_map};
ghost use Rattle.table_image.specs.RouteRows.{route_row, have_ranges, rows_at};
ghost use Rattle.std.specs.Result.{OkIff};
ghost use Rattle.table_image.specs.Short.{is_short};
ghost use Rattle.at_base.specs.Spelling.{bytes_of, IsValue, Spells};
ghost use Rattle.table_image.specs.Internet.{Internet, internet};
ghost use Rattle.table_image.specs.Bounds.{IsBounded};
ghost use Rattle.table_image.specs.Spelling.{front_spelling, image_spelling};
ghost use Rattle.table_image.specs.Reading.{IsFirstFlaw, refusal, RefusesFirst};
ghost use Rattle.table_image.specs.declared.flaw.Flaw.{Flaw};

use crate::cable::Cable;
use crate::context::Context;
use crate::count::CountSize;
use crate::item::put_counted;
use crate::listed::Listed;
use crate::making::{are_short, check_parts};
use crate::node::Node;
use crate::output::put_byte;
use crate::route_rows::{all_have_ranges, route_rows};
use crate::router::Router;
use crate::version::Version;
use at_base::limits::{MAX_CABLES, MAX_NODES, MAX_ROUTERS};
use at_base::{Bytes, Error, What};
use std::alloc::{AllocError, Global};
use std::marker::Model;

/// The tables of an internet: a value of the format, in one of its versions, with valid indices,
/// orders, texts and limits.
#[derive(Debug, Drop)]
pub struct Image {
    version: Version,
    cables: Listed<Cable>,
    routers: Listed<Router>,
    nodes: Listed<Node>,
}

impl Model for Image {
    ghost use Rattle.table_image.specs.Internet.{Internet, internet};
    ghost use Rattle.at_base.specs.Spelling.{IsValue};
    ghost use Rattle.table_image.specs.Spelling.{image_spelling};

    ghost Value = { Internet };

    ghost view = { λ i. internet i.version i.cables i.routers i.nodes };

    ghost invariant = { λ i. IsValue image_spelling
        (internet i.version i.cables i.routers i.nodes) };
}

impl Image {
    /// The image made of these parts, in a version of the format, without an allocation. Errors:
    /// `Full` where a list is longer than its limit in that version; else `BadImage`, the first flaw
    /// that reading would find if the parts were written in order, with its offset from the first
    /// byte.
    pub fn make(
        version: Version,
        cables: Vec<Cable>,
        routers: Vec<Router>,
        nodes: Vec<Node>,
    ) -> Result<Image, Error>
        ensures made { OkIff result
            (IsValue image_spelling (internet version cables.items routers.items nodes.items))
            (internet version cables.items routers.items nodes.items) }
        ensures full { is_short (internet version cables.items routers.items nodes.items) ≡ false
            → result ≡ Err Error.Full }
        // Parts within the limits are checked as reading checks their bytes.
        ensures first { IsTrue (is_short (internet version cables.items routers.items nodes.items))
            → (f : Flaw) → IsFirstFlaw
            (bytes_of image_spelling (internet version cables.items routers.items nodes.items)) f
            → result ≡ Err (refusal f) }
        ensures flaw { IsTrue (is_short (internet version cables.items routers.items nodes.items))
            → IfErr result (RefusesFirst
            (bytes_of image_spelling (internet version cables.items routers.items nodes.items))) }
    {
        let cables = Listed::from_vec(cables);
        let routers = Listed::from_vec(routers);
        let nodes = Listed::from_vec(nodes);
        if !are_short(version, &cables, &routers, &nodes) {
            return Err(Error::Full);
        }
        match check_parts(version, &cables, &routers, &nodes) {
            Ok(_) => Ok(Image {
                version,
                cables,
                routers,
                nodes,
            }),
            Err(flaw) => Err(Error::BadImage(flaw.place as u32, flaw.cause)),
        }
    }

    /// The image of parts that were read one by one. The caller ensures that they are an image's.
    pub fn of(
        version: Version,
        cables: Listed<Cable>,
        routers: Listed<Router>,
        nodes: Listed<Node>,
    ) -> Image
        requires { IsValue image_spelling (internet version cables routers nodes) }
        ensures { result ≡ internet version cables routers nodes }
    {
        Image {
            version,
            cables,
            routers,
            nodes,
        }
    }

    /// The version of the format in which the image is written.
    pub fn version(&self) -> Version
        ensures { result ≡ self.now.version }
    {
        self.version
    }

    /// The cables, at most `MAX_CABLES`. Ports and nodes refer to them by index, from 0.
    pub fn cables(&self) -> &[Cable]
        ensures value { result.now ≡ self.now.cables }
        ensures bounded { IsBounded self.now }
        ensures valid { IsValue image_spelling self.now }
    {
        self.cables.as_slice()
    }

    /// The routers, at most `MAX_ROUTERS`, in the order of the image.
    pub fn routers(&self) -> &[Router]
        ensures value { result.now ≡ self.now.routers }
        ensures bounded { IsBounded self.now }
        ensures valid { IsValue image_spelling self.now }
    {
        self.routers.as_slice()
    }

    /// The nodes, at most `MAX_NODES`, in the order of the image.
    pub fn nodes(&self) -> &[Node]
        ensures value { result.now ≡ self.now.nodes }
        ensures bounded { IsBounded self.now }
        ensures valid { IsValue image_spelling self.now }
    {
        self.nodes.as_slice()
    }

    /// The rows of a router, by its index from 0, as rows of a routing table, in order.
    ///
    /// Errors: `NoSuch(Router)`; else `BadRange` where the range of a row isn't valid; else
    /// `Memory`.
    pub fn rows_of(&self, alloc: Global, router: u8) -> Result<Vec<rtmp::Row>, Error>
        ensures ok { IfOk result
            (λ made. option_map (map route_row) (rows_at router self.now) ≡ Some made.items) }
        ensures none { (result ≡ Err (Error.NoSuch What.Router))
            ↔ (length self.now.routers ≤ router) }
        ensures range { (result ≡ Err Error.BadRange)
            ↔ (option_map have_ranges (rows_at router self.now) ≡ Some false) }
        ensures refused { IfErr result
            (λ e. (e ≡ Error.NoSuch What.Router) ⊎ (e ≡ Error.BadRange) ⊎ (e ≡ Error.Memory)) }
    {
        let Some(found) = self.routers.as_slice().get(router as usize) else {
            return Err(Error::NoSuch(What::Router));
        };
        let rows = found.rows.as_slice();
        if !all_have_ranges(rows) {
            return Err(Error::BadRange);
        }
        route_rows(alloc, rows)
    }
}

#[tactic(auto, unfolding(crate::specs::Spelling::front_spelling))]
fn put_front(out: &mut Vec<u8>, version: Version, cables: &Listed<Cable>) -> Result<(), AllocError>
    ensures { OnOk result (out.new.items ≡ out.old.items ++ bytes_of front_spelling (version, cables.now)) }
{
    out.extend_from_slice(&[0x41, 0x54, 0x49, 0x4D])?;
    put_byte(out, version.number())?;
    let context = Context::nothing(version);
    put_counted(out, CountSize::One, MAX_CABLES, context, cables)
}

#[tactic(auto, unfolding(crate::specs::Spelling::image_spelling))]
fn put_image(out: &mut Vec<u8>, image: &Image) -> Result<(), AllocError>
    ensures { OnOk result (out.new.items ≡ out.old.items ++ bytes_of image_spelling image.now) }
{
    put_front(out, image.version, &image.cables)?;
    let context = Context::nothing(image.version).with_cables(image.cables.len());
    put_counted(out, CountSize::One, MAX_ROUTERS, context, &image.routers)?;
    put_counted(out, CountSize::One, MAX_NODES, context, &image.nodes)
}

// The number of bytes of the written image: the check of its parts returns the offset of their end.
fn written_len(image: &Image) -> usize
    ensures len { result ≡ length (bytes_of image_spelling image.now) }
    ensures valid { IsValue image_spelling image.now }
{
    match check_parts(image.version, &image.cables, &image.routers, &image.nodes) {
        Ok(end) => end,
        Err(_) => 0,
    }
}

/// The bytes of an image, the only ones that spell it, in one allocation of their length. Error:
/// `Memory`.
pub fn write(alloc: Global, image: &Image) -> Result<Bytes, Error>
    ensures spelled { IfOk result (λ bytes. Spells image_spelling bytes image.now) }
    ensures refused { IsOkUnless result Error.Memory }
{
    let mut out = Vec::with_capacity(alloc, written_len(image))?;
    put_image(&mut out, image)?;
    Ok(Bytes::from_vec(out))
}

/// An image has only one spelling, and bytes spell at most one image.
pub fn one_spelling()
    ensures spelling { (a b : List ℕ) (i : Internet)
        → Spells image_spelling a i → Spells image_spelling b i → a ≡ b }
    ensures image { (a : List ℕ) (i j : Internet)
        → Spells image_spelling a i → Spells image_spelling a j → i ≡ j }
{}
