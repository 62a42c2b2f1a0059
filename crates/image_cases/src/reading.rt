//! The image of a case's bytes.

use crate::edits::edited;
use case_words::{Stop, Words};
use image_feed::read;
use std::alloc::Global;
use table_image::Image;

/// The image in the bytes, with the changes that the words describe.
pub(crate) fn image(alloc: Global, bytes: &Vec<u8>, words: Words<'_>) -> Result<Image, Stop> {
    let bytes = edited(alloc, bytes, words)?;
    Ok(read(alloc, bytes.as_slice())?)
}
