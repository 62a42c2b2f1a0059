//! Prints the capture on standard input, block by block: a line for each section, interface, frame,
//! other packet and heartbeat, and at the end `end`, or `refused` with the number of the block. With
//! a number as argument the capture is fed in pieces of so many bytes, and with a second one, in
//! pieces of up to so many, whose lengths are made from that number. With the argument `hex` each
//! line of the input is a capture in hexadecimal digits.
#![tactic(auto)]

mod asked;
mod cuts;
mod hex;
mod lines;
mod wide;

use asked::{Input, asked_input};
use at_base::Error;
use capture_feed::{Feed, Forms};
use cuts::Cuts;
use hex::{bytes_in, line_of};
use lines::Lines;
use std::alloc::Global;
use std::io::{ErrorKind, Read, Write, writer};
use std::process::ExitCode;
use text::{Output, put_decimal};

/// The bytes of one read.
const PIECE: usize = 8_192;

/// Feeds a piece, cut as the arguments say.
fn feed_all<W: Write>(
    feed: &mut Feed,
    piece: &[u8],
    cuts: &mut Cuts,
    lines: &mut Lines<W>,
) -> Result<(), Error> {
    let mut rest = piece;
    for _turn in 0..piece.len() {
        if rest.is_empty() {
            break;
        }
        let (front, after) = rest.split_at(cuts.length(rest.len()));
        let fed = feed.feed(front, lines);
        lines.ended()?;
        fed?;
        rest = after;
    }
    Ok(())
}

/// Reads the input to its end.
fn read_all<R: Read, W: Write>(
    input: &mut R,
    feed: &mut Feed,
    mut cuts: Cuts,
    lines: &mut Lines<W>,
) -> Result<(), Error> {
    let mut buffer = [0; PIECE];
    for _turn in 0..u64::MAX {
        match input.read(buffer.as_mut_slice()) {
            Ok(count) => {
                if count == 0 {
                    return Ok(());
                }
                feed_all(feed, &buffer[..count], &mut cuts, lines)?;
            }
            Err(error) => {
                if error.kind() != ErrorKind::Interrupted {
                    return Err(Error::ReadFault);
                }
            }
        }
    }
    Ok(())
}

/// Prints how the capture ended: whether it did so well.
fn print_end<W: Write>(output: &mut Output<W>, ended: Result<(), Error>) -> Result<bool, Error> {
    match ended {
        Ok(()) => output.text.extend_from_slice(b"end\n")?,
        Err(Error::BadCapture(block)) => {
            output.text.extend_from_slice(b"refused ")?;
            put_decimal(&mut output.text, block)?;
            output.text.extend_from_slice(b"\n")?;
        }
        Err(error) => return Err(error),
    }
    output.flush()?;
    Ok(ended.is_ok())
}

/// Prints the capture on standard input: whether it is whole.
fn print_capture(rt: &HostRuntime, cuts: Cuts) -> Result<bool, Error> {
    let mut lines = Lines::new(Output::new(rt.alloc(), writer(rt)));
    let mut feed = Feed::new(rt.alloc(), Forms::Either)?;
    let ended = read_all(&mut rt.reader(), &mut feed, cuts, &mut lines);
    print_end(&mut lines.into_output(), ended)
}

/// All of the input.
fn text_of<R: Read>(alloc: Global, input: &mut R) -> Result<Vec<u8>, Error> {
    let mut text = Vec::new(alloc);
    let mut buffer = [0; PIECE];
    for _turn in 0..u64::MAX {
        match input.read(buffer.as_mut_slice()) {
            Ok(count) => {
                if count == 0 {
                    return Ok(text);
                }
                text.extend_from_slice(&buffer[..count])?;
            }
            Err(error) => {
                if error.kind() != ErrorKind::Interrupted {
                    return Err(Error::ReadFault);
                }
            }
        }
    }
    Ok(text)
}

/// Prints a line as it is.
fn print_line<W: Write>(output: &mut Output<W>, line: &[u8]) -> Result<(), Error> {
    output.text.extend_from_slice(line)?;
    output.text.extend_from_slice(b"\n")?;
    output.pass_on()
}

/// The forms that the capture of a line may have, and its digits: after the word `pcapng` it has to be
/// in that format.
fn forms_of(line: &[u8]) -> (Forms, &[u8]) {
    if line.starts_with(b"pcapng ") {
        return (Forms::Pcapng, line.get(7..).unwrap_or(&[]));
    }
    (Forms::Either, line)
}

/// Prints the capture that a line has in digits, and its end; an empty line and a remark as they are.
fn print_digits<W: Write + Drop>(
    alloc: Global,
    mut output: Output<W>,
    line: &[u8],
) -> Result<Output<W>, Error> {
    if line.is_empty() || line[0] == b'#' {
        print_line(&mut output, line)?;
        return Ok(output);
    }
    let (forms, digits) = forms_of(line);
    let Some(bytes) = bytes_in(alloc, digits)? else {
        print_line(&mut output, b"no digits")?;
        return Ok(output);
    };
    let mut lines = Lines::new(output);
    let mut feed = Feed::new(alloc, forms)?;
    let ended = feed.feed(bytes.as_slice(), &mut lines);
    lines.ended()?;
    let mut output = lines.into_output();
    print_end(&mut output, ended)?;
    Ok(output)
}

/// Prints the captures that the lines on standard input have in digits.
fn print_lines(rt: &HostRuntime) -> Result<bool, Error> {
    let text = text_of(rt.alloc(), &mut rt.reader())?;
    let mut output = Output::new(rt.alloc(), writer(rt));
    let mut rest = text.as_slice();
    for _turn in 0..text.len() {
        if rest.is_empty() {
            break;
        }
        let (line, after) = line_of(rest);
        output = print_digits(rt.alloc(), output, line)?;
        rest = after;
    }
    output.flush()?;
    Ok(true)
}

/// Prints what the arguments ask for: whether the capture is whole.
fn run(rt: &HostRuntime) -> Result<bool, Error> {
    match asked_input(rt) {
        Ok(Input::Capture(cuts)) => print_capture(rt, cuts),
        Ok(Input::Lines) => print_lines(rt),
        Err(_) => Err(Error::Memory),
    }
}

fn main(rt: HostRuntime) -> ExitCode {
    match run(&rt) {
        Ok(true) => ExitCode::SUCCESS,
        Ok(false) => ExitCode::from(1),
        Err(error) => {
            let number = error.number();
            let _ = eprintln!(&rt; "refused: {number}");
            ExitCode::from(2)
        }
    }
}
