//! `audit`, `trace` and `play`, with a mishap at each call of their streams in turn.

use crate::mishaps::{Kept, Mishap, Pieces, Turn};
use at_base::Error;
use case_words::{Answer, Stop, Words};
use commands::{audit_file, into_answer, play_bytes, run_frozen};
use frozen_trace::Refusals;
use playing::Silent;
use std::alloc::Global;
use text::Output;

/// Room for what is written.
const ROOM: usize = 4096;

/// A command with what it reads.
#[derive(Clone, Copy)]
pub(crate) enum Command<'a> {
    /// An audit of the image.
    Audit(&'a [u8]),
    /// A trace of the script over the image.
    Trace(&'a [u8], &'a [u8]),
    /// A play of the text.
    Play(&'a [u8]),
}

/// A stream of a command.
#[derive(Clone, Copy, PartialEq, Eq)]
enum Stream {
    /// Its only input, or the image of a trace.
    Input,
    /// The script of a trace.
    Script,
    /// What it prints.
    Lines,
    /// The image of a play.
    Image,
}

/// What a run came to: its answer, what it wrote, and how often the stream in question was called.
#[derive(Drop)]
struct Ran {
    answer: Result<bool, Error>,
    lines: Vec<u8>,
    image: Vec<u8>,
    calls: u32,
}

/// How the streams of a run are cut, and where a mishap happens.
#[derive(Clone, Copy)]
struct Course {
    piece: usize,
    stream: Stream,
    turn: Turn,
}

impl Course {
    fn turn_of(&self, stream: Stream) -> Turn {
        if self.stream == stream {
            self.turn
        } else {
            Turn::NEVER
        }
    }

    fn reader<'a>(&self, bytes: &'a [u8], stream: Stream) -> Pieces<'a> {
        Pieces {
            left: bytes,
            piece: self.piece,
            turn: self.turn_of(stream),
            calls: 0,
        }
    }

    fn writer(&self, alloc: Global, stream: Stream) -> Result<Output<Kept>, Stop> {
        let kept = Kept::new(alloc, ROOM, self.turn_of(stream))?;
        Ok(Output::new(alloc, kept))
    }

    /// The calls of the stream in question, of these.
    fn calls(&self, input: u32, script: u32, lines: u32, image: u32) -> u32 {
        match self.stream {
            Stream::Input => input,
            Stream::Script => script,
            Stream::Lines => lines,
            Stream::Image => image,
        }
    }

    fn audit(&self, alloc: Global, image: &[u8]) -> Result<Ran, Stop> {
        let mut input = self.reader(image, Stream::Input);
        let mut output = self.writer(alloc, Stream::Lines)?;
        let answer = into_answer(audit_file(alloc, &mut input, &mut output));
        Ok(Ran {
            answer,
            calls: self.calls(input.calls, 0, output.writer.calls, 0),
            lines: output.writer.bytes,
            image: Vec::new(alloc),
        })
    }

    fn trace(&self, alloc: Global, image: &[u8], script: &[u8]) -> Result<Ran, Stop> {
        let mut input = self.reader(image, Stream::Input);
        let mut script = self.reader(script, Stream::Script);
        let mut output = self.writer(alloc, Stream::Lines)?;
        let answer = into_answer(run_frozen(
            alloc,
            &mut input,
            &mut script,
            &mut output,
            &mut Refusals::new(alloc),
        ));
        Ok(Ran {
            answer,
            calls: self.calls(input.calls, script.calls, output.writer.calls, 0),
            lines: output.writer.bytes,
            image: Vec::new(alloc),
        })
    }

    fn play(&self, alloc: Global, text: &[u8]) -> Result<Ran, Stop> {
        let mut input = self.reader(text, Stream::Input);
        let mut output = self.writer(alloc, Stream::Lines)?;
        let mut image = self.writer(alloc, Stream::Image)?;
        let answer = into_answer(play_bytes(
            alloc,
            &mut input,
            &mut output,
            &mut image,
            &mut Silent,
            None,
        ));
        Ok(Ran {
            answer,
            calls: self.calls(input.calls, 0, output.writer.calls, image.writer.calls),
            lines: output.writer.bytes,
            image: image.writer.bytes,
        })
    }

    fn run(&self, alloc: Global, command: Command<'_>) -> Result<Ran, Stop> {
        let ran = match command {
            Command::Audit(image) => self.audit(alloc, image)?,
            Command::Trace(image, script) => self.trace(alloc, image, script)?,
            Command::Play(text) => self.play(alloc, text)?,
        };
        match ran.answer {
            Err(Error::Memory) => Err(Error::Memory.into()),
            _ => Ok(ran),
        }
    }
}

/// Appends what a mishap at each call leads to: the error, or `same` for the answer and the output
/// of a run without one.
fn put_each(
    alloc: Global,
    command: Command<'_>,
    usual: &Ran,
    mut course: Course,
    text: &mut String,
) -> Answer {
    for at in 1..1000 {
        course.turn.at = at;
        let ran = course.run(alloc, command)?;
        if ran.calls < at {
            break;
        }
        match ran.answer {
            Err(error) => write!(text, " {error}")?,
            Ok(_) => {
                let same = ran.answer == usual.answer
                    && ran.lines.as_slice() == usual.lines.as_slice()
                    && ran.image.as_slice() == usual.image.as_slice();
                write!(text, " {}", if same { "same" } else { "other" })?;
            }
        }
    }
    writeln!(text)?;
    Ok(())
}

/// Appends a line for each mishap of a stream.
fn put_stream(
    alloc: Global,
    command: Command<'_>,
    piece: usize,
    stream: Stream,
    name: &str,
    text: &mut String,
) -> Answer {
    let mishaps = [
        (Mishap::Fails, "fails"),
        (Mishap::IsShort, "is short"),
        (Mishap::IsInterrupted, "is interrupted"),
    ];
    let never = Course {
        piece,
        stream,
        turn: Turn::NEVER,
    };
    let usual = never.run(alloc, command)?;
    for (mishap, what) in mishaps {
        write!(text, "{name} {what}:")?;
        let turn = Turn { at: 0, mishap };
        let course = Course {
            piece,
            stream,
            turn,
        };
        put_each(alloc, command, &usual, course, text)?;
    }
    Ok(())
}

/// Appends, for each stream of the command and each mishap, what it leads to at each call in turn,
/// where inputs come in pieces of so many bytes.
pub(crate) fn put_turns(
    alloc: Global,
    command: Command<'_>,
    mut words: Words<'_>,
    text: &mut String,
) -> Answer {
    let piece = words.number()?;
    put_stream(alloc, command, piece, Stream::Input, "input", text)?;
    if let Command::Trace(_, _) = command {
        put_stream(alloc, command, piece, Stream::Script, "script", text)?;
    }
    put_stream(alloc, command, piece, Stream::Lines, "lines", text)?;
    if let Command::Play(_) = command {
        put_stream(alloc, command, piece, Stream::Image, "image", text)?;
    }
    Ok(())
}
