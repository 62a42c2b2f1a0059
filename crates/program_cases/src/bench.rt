//! The bench of a case, with which its commands are carried out.

use crate::turns::{Command, put_turns};
use crate::worlds::Begun;
use crate::{arguments, commands_run as run, exits, plans};
use case_words::{Answer, Bench, Stop, Words};
use rtmp::RouteTable;
use std::alloc::Global;
use table_image::Version;

/// The text of an internet file, the bytes of an image, and a world after a command that begins it. The world's routers have routing tables of type `T`.
#[derive(Drop)]
pub(crate) struct Program<T: RouteTable> {
    alloc: Global,
    text: Vec<u8>,
    image: Vec<u8>,
    world: Option<Begun<T>>,
}

/// The text with the text in the words after it.
fn longer(alloc: Global, text: &Vec<u8>, mut words: Words<'_>) -> Result<Vec<u8>, Stop> {
    let mut whole = text.clone()?;
    if !words.is_empty() {
        whole.extend_from_slice(words.text(alloc)?.as_slice())?;
    }
    Ok(whole)
}

impl<T: RouteTable> Program<T> {
    /// Appends a line to the text, the whole line or, if an allocation fails, nothing.
    fn add_line(&mut self, mut words: Words<'_>) -> Answer {
        let line = words.rest().as_bytes();
        self.text.reserve(line.len().saturating_add(1))?;
        self.text.extend_from_slice(line)?;
        self.text.push(b'\n')?;
        Ok(())
    }

    /// Appends bytes to the text.
    fn add_text(&mut self, mut words: Words<'_>) -> Answer {
        let more = words.text(self.alloc)?;
        self.text.extend_from_slice(more.as_slice())?;
        Ok(())
    }

    /// Appends bytes to the image.
    fn add_bytes(&mut self, mut words: Words<'_>) -> Answer {
        let more = words.bytes(self.alloc)?;
        self.image.extend_from_slice(more.as_slice())?;
        Ok(())
    }

    /// Answers a question about the text with the text in the words after it.
    fn ask_text(&self, question: &str, words: Words<'_>, text: &mut String) -> Answer {
        let whole = longer(self.alloc, &self.text, words)?;
        let bytes = whole.as_slice();
        match question {
            "read" => plans::read_it(self.alloc, bytes, text),
            "plan" => plans::plan(self.alloc, bytes, text),
            "frozen" => run::frozen(self.alloc, bytes, None, text),
            "frozen-v1" => run::frozen(self.alloc, bytes, Some(Version::V1), text),
            "frozen-v2" => run::frozen(self.alloc, bytes, Some(Version::V2), text),
            "files-v2" => run::play_files(self.alloc, bytes, Some(Version::V2), text),
            _ => run::play_files(self.alloc, bytes, None, text),
        }
    }

    /// Plays the text with the text in the words after it. The resulting image becomes the image of
    /// the case.
    fn play(&mut self, words: Words<'_>, text: &mut String) -> Answer {
        let whole = longer(self.alloc, &self.text, words)?;
        self.image = run::play(self.alloc, whole.as_slice(), text)?;
        Ok(())
    }

    /// Runs a command again and again: `turns audit 100`, `turns play 100`, or `turns trace 100`,
    /// for which the text of the case is the script.
    fn take_turns(&self, mut words: Words<'_>, text: &mut String) -> Answer {
        let (image, whole) = (self.image.as_slice(), self.text.as_slice());
        let command = match words.word() {
            "audit" => Command::Audit(image),
            "trace" => Command::Trace(image, whole),
            "play" => Command::Play(whole),
            _ => return Err(Stop::Unclear),
        };
        put_turns(self.alloc, command, words, text)
    }

    fn on_world(&mut self, words: Words<'_>, text: &mut String) -> Answer {
        match &mut self.world {
            Some(world) => world.act(self.alloc, words, text),
            None => Err(Stop::Unclear),
        }
    }

    fn begin_world(&mut self, words: Words<'_>) -> Answer {
        let whole = longer(self.alloc, &self.text, words)?;
        self.world = Some(Begun::new(self.alloc, whole)?);
        Ok(())
    }
}

impl<T: RouteTable> Bench for Program<T> {
    fn new(alloc: Global) -> Program<T> {
        Program {
            alloc,
            text: Vec::new(alloc),
            image: Vec::new(alloc),
            world: None,
        }
    }

    fn act(&mut self, mut words: Words<'_>, text: &mut String) -> Answer {
        let first = words.word();
        match first {
            "|" => self.add_line(words),
            "text" => self.add_text(words),
            "bytes" => self.add_bytes(words),
            "read" | "plan" => self.ask_text(first, words, text),
            "frozen" | "frozen-v1" | "frozen-v2" => self.ask_text(first, words, text),
            "files" | "files-v2" => self.ask_text(first, words, text),
            "play" => self.play(words, text),
            "audit" => run::audit(self.alloc, self.image.as_slice(), text),
            "trace" => run::trace(self.alloc, self.image.as_slice(), words, text),
            "trace-lines" => run::trace_lines(self.alloc, self.image.as_slice(), words, text),
            "turns" => self.take_turns(words, text),
            "begin" => self.begin_world(words),
            "world" => self.on_world(words, text),
            "arguments" => arguments::answer(self.alloc, words, text),
            "exit" => exits::answer(words, text),
            "status" => exits::status_of(words, text),
            _ => Err(Stop::Unclear),
        }
    }
}
