//! The example of the README of `image_feed`.

use super::three_cables::IMAGE;
use at_base::{Cause, Error};
use image_feed::Feed;
use std::alloc::Global;
use table_image::{Image, write};

/// The image that two pieces are, one after the other.
fn image_of(alloc: Global, first: &[u8], second: &[u8]) -> Result<Image, Error> {
    let mut feed = Feed::new(alloc)?;
    feed.feed(first)?;
    feed.feed(second)?;
    feed.finish()
}

/// Does nothing, but only compiles for a type whose values may be sent to another thread.
fn is_send<T: Send>(_value: &T) {}

/// Whether two pieces are the example, and the first of them alone is cut.
pub(super) fn an_image_is_fed(alloc: Global) -> Result<bool, Error> {
    match image_of(alloc, &IMAGE[..100], &[]).err() {
        Some(Error::BadImage(100, Cause::Cut)) => {}
        Some(Error::Memory) => return Err(Error::Memory),
        _ => return Ok(false),
    }
    let image = image_of(alloc, &IMAGE[..100], &IMAGE[100..])?;
    is_send(&image);
    let bytes = write(alloc, &image);
    drop(image);
    Ok(bytes?.as_slice() == IMAGE.as_slice())
}
