//! What is told of a result, and where.

ghost use Rattle.std.specs.Prelude.{◌≡◌, true};

use crate::performed::Performed;
use clap::error::ErrorKind as ParseError;
use command_line::{Job, Outcome, Request};
use std::env::{VarError, var};
use std::io::IsTerminal;
use std::rt::Env;

/// The variable that says when a person is told more, where the command line doesn't.
const VARIABLE: &str = "ATALK_EXPLAIN";

/// Which of the streams are terminals.
#[derive(Clone, Copy)]
pub struct Terminals {
    /// Standard input.
    pub input: bool,
    /// Standard error.
    pub errors: bool,
}

/// What is printed on standard output for each line of a command.
#[derive(Clone, Copy, Debug, PartialEq, Eq)]
pub enum Lines {
    /// The line.
    Text,
    /// A JSON object.
    Json,
    Nothing,
}

/// Where the objects of a refusal and of notes go.
#[derive(Clone, Copy, Debug, PartialEq, Eq)]
pub enum Objects {
    Output,
    /// Standard output carries a capture.
    Errors,
}

/// What is told of a result, and where.
#[derive(Clone, Copy)]
pub struct Telling {
    /// Whether an input that is read from a terminal has a prompt there.
    pub prompts: bool,
    /// Whether the progress of a long play is shown on standard error.
    pub watched: bool,
    /// Whether a person is told more on standard error.
    pub explains: bool,
    /// What is printed on standard output.
    pub lines: Lines,
    /// Where the objects of a refusal and of notes go.
    pub objects: Objects,
    /// Whether it is told of tables that pass whether they stay as they are.
    pub settled: bool,
}

/// When a person is told more on standard error.
#[derive(Clone, Copy, Debug, PartialEq, Eq)]
enum When {
    /// Where that is a terminal.
    Auto,
    Always,
    Never,
}

/// What a word says, if it is one of the three.
fn when_of(word: &str) -> Option<When> {
    match word {
        "auto" => Some(When::Auto),
        "always" => Some(When::Always),
        "never" => Some(When::Never),
        _ => None,
    }
}

/// Where the objects of a job's refusal and notes go.
fn objects_of(job: &Job<'_>) -> Objects {
    match job {
        Job::Route(_) | Job::Survey(_, _) | Job::Ask(_, _, _, _) => Objects::Errors,
        _ => Objects::Output,
    }
}

/// A word that is none of the three: a usage error.
fn refuse_word<'a>(rt: &impl Eprint, name: &str, word: &str) -> Performed<'a>
    ensures { result.outcome ≡ Outcome.NoJob ParseError.InvalidValue true }
{
    let _ = eprintln!(rt; "error: {name} is auto, always or never, and not {word:?}");
    Performed::misused(ParseError::InvalidValue)
}

/// What a word with this name says. Errors: a usage error.
fn read_word<'a>(rt: &impl Eprint, name: &str, word: &str) -> Result<When, Performed<'a>> {
    match when_of(word) {
        Some(when) => Ok(when),
        None => Err(refuse_word(rt, name, word)),
    }
}

/// What the variable says: nothing where it isn't set. Errors: a usage error.
fn of_variable<'a, R: Env + Eprint + AllocGlobal>(rt: &R) -> Result<When, Performed<'a>> {
    match var(rt, VARIABLE) {
        Ok(word) if word.is_empty() => Ok(When::Auto),
        Ok(word) => read_word(rt, VARIABLE, word.as_str()),
        Err(VarError::NotUnicode) => Err(refuse_word(rt, VARIABLE, "bytes that are no text")),
        // Without memory nothing more is told: what the command does next will say why.
        Err(VarError::NotPresent | VarError::OutOfMemory) => Ok(When::Auto),
    }
}

impl Terminals {
    /// Those among the streams of the program.
    pub fn of(rt: &HostRuntime) -> Terminals {
        Terminals {
            input: rt.stdin().is_terminal(),
            errors: rt.stderr().is_terminal(),
        }
    }

    /// What is told where nobody has said when.
    pub fn telling(self) -> Telling {
        Telling {
            prompts: self.input && self.errors,
            watched: self.errors,
            explains: self.errors,
            lines: Lines::Text,
            objects: Objects::Output,
            settled: false,
        }
    }
}

impl Telling {
    /// What is told of a request. Errors: a usage error.
    pub fn of<'a, R: Env + Eprint + AllocGlobal>(
        rt: &R,
        request: &Request<'_>,
        terminals: Terminals,
    ) -> Result<Telling, Performed<'a>> {
        let when = match request.explain {
            Some(word) => read_word(rt, "--explain", word)?,
            None => of_variable(rt)?,
        };
        let telling = terminals.telling();
        Ok(Telling {
            explains: match when {
                When::Auto => telling.explains,
                When::Always => true,
                When::Never => false,
            },
            lines: match (request.quiet, request.json) {
                (true, _) => Lines::Nothing,
                (false, true) => Lines::Json,
                (false, false) => Lines::Text,
            },
            objects: objects_of(&request.job),
            settled: request.settled,
            ..telling
        })
    }

    /// Whether notes are told, to a person or as objects.
    pub fn notes(self) -> bool {
        self.explains || self.lines == Lines::Json
    }
}
