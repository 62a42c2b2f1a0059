//! The output of `audit`, `trace` and `play`.

use at_base::Error;
use case_words::{Answer, Stop, Words, put_line};
use command_line::status;
use commands::{audit_file, into_answer, play_bytes, run_frozen};
use frozen_trace::Refusals;
use playing::{Played, Silent, lines_of, play as play_plan, read_plan};
use std::alloc::{AllocError, Global};
use table_image::{Version, write};
use text::Output;

/// Room for the output of a command in a case.
const ROOM: usize = 200_000;

/// Appends ASCII text.
fn put_ascii(text: &mut String, bytes: &[u8]) -> Result<(), AllocError> {
    for byte in bytes {
        text.push(*byte as char)?;
    }
    Ok(())
}

/// Appends the status for a command's result, and its error, if it is one.
fn put_status(text: &mut String, answer: &Result<bool, Error>) -> Answer {
    let status = status(answer);
    match answer {
        Ok(_) => writeln!(text, "status {status}")?,
        Err(error) => writeln!(text, "status {status}, {error}")?,
    }
    Ok(())
}

/// The play of a file.
fn played(alloc: Global, bytes: &[u8], version: Option<Version>) -> Result<Played, Stop> {
    match read_plan(alloc, bytes) {
        Ok(plan) => Ok(play_plan(alloc, plan, &mut Silent, version)?),
        Err(refused) => Err(refused.error.into()),
    }
}

/// The lines of a play, and the bytes of its image.
fn told(alloc: Global, played: &Played) -> Result<(Vec<u8>, Vec<u8>), Error> {
    let lines = lines_of(alloc, played)?;
    Ok((lines, write(alloc, &played.image)?.into_vec()))
}

/// The lines of the play of a file, and the bytes of its image. The play is let go of in one place.
fn play_told(
    alloc: Global,
    bytes: &[u8],
    version: Option<Version>,
) -> Result<(Vec<u8>, Vec<u8>), Stop> {
    let played = played(alloc, bytes, version)?;
    match told(alloc, &played) {
        Ok(told) => Ok(told),
        Err(error) => Err(error.into()),
    }
}

/// Appends the lines of the play of a file, and returns the resulting image.
pub(crate) fn play(alloc: Global, bytes: &[u8], text: &mut String) -> Result<Vec<u8>, Stop> {
    let (lines, image) = play_told(alloc, bytes, None)?;
    put_ascii(text, lines.as_slice())?;
    Ok(image)
}

/// Appends the image that results from the play of a file, in a version if one is asked for.
pub(crate) fn frozen(
    alloc: Global,
    bytes: &[u8],
    version: Option<Version>,
    text: &mut String,
) -> Answer {
    let (_, image) = play_told(alloc, bytes, version)?;
    put_line(text, image.as_slice())?;
    Ok(())
}

/// Appends the output of `atalk audit` for the image, and its status.
pub(crate) fn audit(alloc: Global, image: &[u8], text: &mut String) -> Answer {
    let mut input = image;
    let mut output = Output::new(alloc, Vec::with_capacity(alloc, ROOM)?);
    let answer = into_answer(audit_file(alloc, &mut input, &mut output));
    if answer == Err(Error::Memory) {
        return Err(Error::Memory.into());
    }
    put_ascii(text, output.writer.as_slice())?;
    put_status(text, &answer)
}

/// The output of `atalk trace` for an image and a script, and its result.
fn traced(
    alloc: Global,
    image: &[u8],
    script: &[u8],
) -> Result<(Vec<u8>, Result<bool, Error>), Stop> {
    let mut image = image;
    let mut script = script;
    let mut output = Output::new(alloc, Vec::with_capacity(alloc, ROOM)?);
    let answer = into_answer(run_frozen(
        alloc,
        &mut image,
        &mut script,
        &mut output,
        &mut Refusals::new(alloc),
    ));
    if answer == Err(Error::Memory) {
        return Err(Error::Memory.into());
    }
    Ok((output.writer, answer))
}

/// Appends the output of `atalk trace` for the image and a script, and its status.
pub(crate) fn trace(
    alloc: Global,
    image: &[u8],
    mut words: Words<'_>,
    text: &mut String,
) -> Answer {
    let script = words.text(alloc)?;
    let (output, answer) = traced(alloc, image, script.as_slice())?;
    put_ascii(text, output.as_slice())?;
    put_status(text, &answer)
}

/// The number of line feeds.
fn line_count(bytes: &[u8]) -> u32 {
    let mut count = 0u32;
    for byte in bytes {
        if *byte == b'\n' {
            count = count.saturating_add(1);
        }
    }
    count
}

/// The bytes, so many times.
fn repeated(alloc: Global, bytes: &[u8], times: u32) -> Result<Vec<u8>, AllocError> {
    let mut whole = Vec::new(alloc);
    for _ in 0..times {
        whole.extend_from_slice(bytes)?;
    }
    Ok(whole)
}

/// Appends how many lines `atalk trace` prints for the image and a script that is repeated, and its
/// status.
pub(crate) fn trace_lines(
    alloc: Global,
    image: &[u8],
    mut words: Words<'_>,
    text: &mut String,
) -> Answer {
    let times = words.number()?;
    let once = words.text(alloc)?;
    let script = repeated(alloc, once.as_slice(), times)?;
    let (output, answer) = traced(alloc, image, script.as_slice())?;
    let lines = line_count(output.as_slice());
    writeln!(text, "{lines} lines")?;
    put_status(text, &answer)
}

/// Appends the output of `atalk play --image` for the file, its image, in a version if one is asked
/// for, and its status.
pub(crate) fn play_files(
    alloc: Global,
    bytes: &[u8],
    version: Option<Version>,
    text: &mut String,
) -> Answer {
    let mut input = bytes;
    let mut output = Output::new(alloc, Vec::with_capacity(alloc, ROOM)?);
    let mut image = Output::new(alloc, Vec::with_capacity(alloc, ROOM)?);
    let answer = into_answer(play_bytes(
        alloc,
        &mut input,
        &mut output,
        &mut image,
        &mut Silent,
        version,
    ));
    if answer == Err(Error::Memory) {
        return Err(Error::Memory.into());
    }
    put_ascii(text, output.writer.as_slice())?;
    put_line(text, image.writer.as_slice())?;
    put_status(text, &answer)
}
