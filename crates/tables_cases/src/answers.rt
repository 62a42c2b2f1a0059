//! What is answered of an image.

use at_base::Error;
use audit::audit;
use case_words::{Answer, Stop, put_line};
use drawing::print_drawing;
use settled::{Settling, nearer_offer, settled};
use std::alloc::{AllocError, Global};
use table_image::{Image, write};
use tables_text::print_tables;
use text::Output;

/// Room for a text in a case.
const ROOM: usize = 200_000;

/// Appends ASCII text.
fn put_ascii(text: &mut String, bytes: &[u8]) -> Result<(), AllocError> {
    for byte in bytes {
        text.push(*byte as char)?;
    }
    Ok(())
}

/// The tables file of an image.
fn shown(alloc: Global, image: &Image) -> Result<Vec<u8>, Stop> {
    let mut output = Output::new(alloc, Vec::with_capacity(alloc, ROOM)?);
    print_tables(&mut output, image)?;
    output.flush()?;
    Ok(output.writer)
}

/// Appends the drawing of an image, with its verdict and the ways to a network, if one is asked for.
pub(crate) fn draw(alloc: Global, image: &Image, to: Option<u16>, text: &mut String) -> Answer {
    let mut output = Output::new(alloc, Vec::with_capacity(alloc, ROOM)?);
    print_drawing(&mut output, image, &audit(image), settled(image), to)?;
    output.flush()?;
    put_ascii(text, output.writer.as_slice())?;
    Ok(())
}

/// Appends whether the tables of an image are settled, and who offers the range of the first row that
/// may change, nearer.
fn put_settling(image: &Image, text: &mut String) -> Answer {
    let settling = settled(image);
    writeln!(text, "{settling}")?;
    let Settling::No(place) = settling else {
        return Ok(());
    };
    match nearer_offer(image, place) {
        Some(offer) => writeln!(
            text,
            "router {} offers it at {} on cable {} by row {}",
            offer.router, offer.distance, offer.cable, offer.row
        )?,
        None => writeln!(text, "nobody offers it nearer")?,
    }
    Ok(())
}

/// The image that a tables file says.
pub(crate) fn image_of(alloc: Global, text: &[u8]) -> Result<Image, Error> {
    match tables_file::read(alloc, text) {
        Ok(image) => Ok(image),
        Err(refused) => Err(refused.error),
    }
}

/// Whether the tables file of an image says the same image.
fn is_again(alloc: Global, image: &Image) -> Result<bool, Stop> {
    let again = image_of(alloc, shown(alloc, image)?.as_slice())?;
    Ok(write(alloc, &again)?.as_slice() == write(alloc, image)?.as_slice())
}

/// Answers the question about the image that a word names.
pub(crate) fn answer(alloc: Global, image: &Image, question: &str, text: &mut String) -> Answer {
    match question {
        "make" => {
            let line = audit(image).line(alloc)?;
            writeln!(text, "{line}")?;
        }
        "settled" => put_settling(image, text)?,
        "image" => put_line(text, write(alloc, image)?.as_slice())?,
        "show" => put_ascii(text, shown(alloc, image)?.as_slice())?,
        _ => {
            let same = if is_again(alloc, image)? {
                "same"
            } else {
                "other"
            };
            writeln!(text, "{same}")?;
        }
    }
    Ok(())
}
