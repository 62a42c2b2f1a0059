//! Tells what a yes doesn't cover.

use crate::joined::has_router;
use std::io;
use std::io::Write;
use table_image::{Cable, Image};

/// The greatest number of lines. Further ones are counted.
const MAX_LINES: usize = 40;

/// Counts lines.
#[derive(Drop)]
struct Lines {
    wanted: usize,
}

impl Lines {
    /// Counts one more line. Whether it is to be printed.
    fn take(&mut self) -> bool {
        self.wanted = self.wanted.saturating_add(1);
        self.wanted <= MAX_LINES
    }

    /// The number of lines that weren't printed.
    fn more(&self) -> usize {
        self.wanted.saturating_sub(MAX_LINES)
    }
}

/// Writes what a yes doesn't cover in this image, a line for each: that it has no cables, each cable
/// and each node without a router. At most 40 lines, and then how many more there are; nothing where
/// there is none of these.
///
/// What else may look uncovered can't be in an image that passes. Where there is a router, it has a
/// row for each cable, and the rows lead to a router on that cable, so that routers join all cables;
/// and each port and node has an address.
pub fn write_yes<W: Write>(writer: &mut W, image: &Image) -> io::Result<()> {
    let cables = image.cables();
    if cables.is_empty() {
        return writeln!(
            writer,
            "there are no cables: this yes says nothing of any network"
        );
    }
    let mut lines = Lines { wanted: 0 };
    for (index, cable) in cables.iter().enumerate() {
        if !has_router(image, index) {
            show_lone_cable(writer, image, &mut lines, index, cable)?;
        }
    }
    for (index, node) in image.nodes().iter().enumerate() {
        let on = node.cable as usize;
        if node.router.is_none() && has_router(image, on) && lines.take() {
            let (number, cable) = (index.saturating_add(1), on.saturating_add(1));
            writeln!(
                writer,
                "node {number}: {} on cable {cable}, no router: this yes doesn't say that it \
                 reaches other cables",
                node.address
            )?;
        }
    }
    match lines.more() {
        0 => Ok(()),
        more => writeln!(writer, "and {more} more"),
    }
}

/// Shows the cable with this index, on which no router has a port, and how many nodes there have no
/// router.
fn show_lone_cable<W: Write>(
    writer: &mut W,
    image: &Image,
    lines: &mut Lines,
    index: usize,
    cable: &Cable,
) -> io::Result<()> {
    let number = index.saturating_add(1);
    if image.cables().len() > 1 && lines.take() {
        writeln!(
            writer,
            "cable {number}: {}-{}, no router has a port on it: stations on other cables can't \
             reach it",
            cable.start, cable.end
        )?;
    }
    let nodes = image.nodes().iter();
    let count = nodes
        .filter(|node| node.cable as usize == index && node.router.is_none())
        .count();
    if count == 0 || !lines.take() {
        return Ok(());
    }
    let (mark, they) = if count == 1 {
        ("", "it reaches")
    } else {
        ("s", "they reach")
    };
    writeln!(
        writer,
        "cable {number}: {}-{}, {count} node{mark} without a router: {they} only stations on \
         this cable",
        cable.start, cable.end
    )
}
