//! Images that come in pieces.

use at_base::Error;
use case_words::Stop;
use image_feed::{Feed, read};
use std::alloc::Global;
use table_image::{Image, write};

/// What a feed gives of the bytes, cut at this place, and after that into pieces of this length.
fn fed(alloc: Global, bytes: &[u8], cut: usize, piece: usize) -> Result<Image, Error> {
    let mut feed = Feed::new(alloc)?;
    let cut = cut.min(bytes.len());
    feed.feed(&bytes[..cut])?;
    let mut rest = &bytes[cut..];
    for _turn in 0..bytes.len() {
        let (front, after) = rest.split_at(piece.min(rest.len()));
        feed.feed(front)?;
        rest = after;
    }
    feed.finish()
}

/// Whether the bytes, cut so, give what they give as a whole.
fn is_alike(alloc: Global, bytes: &[u8], cut: usize, piece: usize) -> Result<bool, Stop> {
    match (fed(alloc, bytes, cut, piece), read(alloc, bytes)) {
        (Err(Error::Memory), _) | (_, Err(Error::Memory)) => Err(Error::Memory.into()),
        (Err(one), Err(other)) => Ok(one == other),
        (Ok(image), Ok(_)) => Ok(write(alloc, &image)?.as_slice() == bytes),
        _ => Ok(false),
    }
}

/// The first place at which the bytes can be cut so that they give something else: into two pieces,
/// or from there on byte by byte.
pub(crate) fn another(alloc: Global, bytes: &[u8]) -> Result<Option<usize>, Stop> {
    for cut in 0..bytes.len() {
        if !is_alike(alloc, bytes, cut, bytes.len())? {
            return Ok(Some(cut));
        }
    }
    if !is_alike(alloc, bytes, 0, 1)? {
        return Ok(Some(0));
    }
    Ok(None)
}
