//! The places of the standard streams.

use std::fs::File;
use std::rt::Files;

/// The root folder, opened for reading.
fn root<R: Files>(rt: &R) -> Option<R::File> {
    File::open(rt, "/").ok()
}

/// Takes the places of standard streams that are closed, as long as the result is kept.
///
/// A file gets the first number that is free. If the program was begun with a closed stream, a file
/// that it opens would take that stream's place: what it prints would go into the image that it
/// writes, or a script be read from the image. The root folder is opened in these places first. It
/// can be neither read nor written, so that a closed stream stays one that fails. Where no stream is
/// closed, it gets three numbers that nobody asks for.
pub fn take_places<R: Files>(rt: &R) -> [Option<R::File>; 3] {
    [root(rt), root(rt), root(rt)]
}
