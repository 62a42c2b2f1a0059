//! The example of the README of `joined`.

use super::three_cables::IMAGE;
use at_base::{Error, What};
use audit::audit;
use image_feed::read;
use joined::join;
use std::alloc::Global;

/// The verdict line on the internet of which the bytes spell two parts.
fn verdict(alloc: Global, one: &[u8], other: &[u8]) -> Result<String, Error> {
    let image = join(alloc, &read(alloc, one)?, &read(alloc, other)?)?;
    audit(&image).line(alloc)
}

/// The bytes of an image of three cables, a router and a node.
fn part(alloc: Global, router: &[u8], node: &[u8]) -> Result<Vec<u8>, Error> {
    let mut bytes = Vec::from_slice(alloc, &IMAGE[..39])?;
    bytes.push(1)?;
    bytes.extend_from_slice(router)?;
    bytes.push(1)?;
    bytes.extend_from_slice(node)?;
    Ok(bytes)
}

/// Whether two parts are joined, and refused where a cable differs.
pub(super) fn parts_are_joined(alloc: Global) -> Result<bool, Error> {
    let first = part(alloc, &IMAGE[40..129], &IMAGE[219..238])?;
    let second = part(alloc, &IMAGE[129..218], &IMAGE[238..])?;
    let yes = "yes: 3 cables, 2 routers, 2 nodes, 6 rows, greatest distance 1";
    let passes = verdict(alloc, first.as_slice(), second.as_slice())?.as_str() == yes;
    // With Rod in place of Red on 10-19.
    let mut renamed = IMAGE;
    renamed[13] = b'o';
    match verdict(alloc, first.as_slice(), &renamed).err() {
        Some(Error::NoSuch(What::Cable)) => Ok(passes),
        Some(Error::Memory) => Err(Error::Memory),
        _ => Ok(false),
    }
}
