//! One router of an internet file, over a capture: as it begins, and the image of its tables.
#![tactic(auto)]

mod beginning;
mod calls;
mod given;
mod image;

pub use beginning::{Begun, begin};
pub use given::{Given, name_in};
pub use image::image_of;
