//! A case file, line by line.

use crate::stop::{Answer, Stop};
use crate::words::Words;
use at_base::Error;
use std::alloc::{AllocError, Global};
use std::io;

/// Carries out the commands of a case.
pub trait Bench: Drop {
    /// A bench at the start of a case.
    fn new(alloc: Global) -> Self;

    /// Carries out a command, and appends the lines of its answer. At most one call changes the
    /// bench and allocates memory, and nothing is appended before it, so a command whose allocation
    /// failed can be carried out again.
    fn act(&mut self, words: Words<'_>, text: &mut String) -> Answer;
}

/// The number of lines of a file that were compared, and the number of differences.
#[derive(Clone, Copy, Debug, PartialEq, Eq)]
pub struct Counts {
    pub compared: u64,
    pub differ: u64,
}

/// Room for the lines that a command appends after a call that changes something.
const ROOM: usize = 4000;

/// The answer of the last command, and the number of its lines that were compared.
#[derive(Drop)]
struct Told {
    text: String,
    lines: usize,
}

fn act_once<B: Bench>(bench: &mut B, line: &str, text: &mut String) -> Answer {
    text.clear();
    text.reserve(ROOM)?;
    bench.act(Words::new(line), text)
}

/// Carries out the command of a line, and once again if an allocation failed.
fn act<B: Bench>(bench: &mut B, line: &str, text: &mut String) -> Answer {
    match act_once(bench, line, text) {
        Err(Stop::Refused(Error::Memory)) => act_once(bench, line, text),
        answer => answer,
    }
}

/// Carries out the command of a line. An error gives an answer of one line, after the lines that
/// were appended before it.
fn tell<B: Bench>(bench: &mut B, line: &str, told: &mut Told) -> Result<(), AllocError> {
    told.lines = 0;
    match act(bench, line, &mut told.text) {
        Ok(()) => Ok(()),
        Err(stop) => writeln!(told.text, "{stop}"),
    }
}

/// The next line of the answer that wasn't compared yet.
fn next_line(told: &mut Told) -> Option<&str> {
    let line = told.text.as_str().lines().nth(told.lines);
    told.lines = told.lines.saturating_add(1);
    line
}

/// Prints a difference.
fn report<R: Print>(
    rt: &R,
    name: &str,
    number: usize,
    wanted: Option<&str>,
    got: Option<&str>,
) -> Result<(), io::Error> {
    let wanted = wanted.unwrap_or("nothing more");
    let got = got.unwrap_or("nothing more");
    println!(rt; "{name}:{number}: wanted {wanted}, got {got}")
}

/// Compares the next line of the answer with the expected one, or with the end of the answer.
fn compare_line<R: Print>(
    rt: &R,
    name: &str,
    number: usize,
    told: &mut Told,
    wanted: Option<&str>,
    counts: &mut Counts,
) -> Result<(), io::Error> {
    let got = next_line(told);
    if wanted.is_some() {
        counts.compared = counts.compared.saturating_add(1);
    }
    if got != wanted {
        counts.differ = counts.differ.saturating_add(1);
        report(rt, name, number, wanted, got)?;
    }
    Ok(())
}

/// Carries out the cases of a text, and prints each difference.
pub fn compare<B: Bench, R: Print>(
    rt: &R,
    alloc: Global,
    name: &str,
    text: &str,
) -> Result<Counts, io::Error> {
    let mut counts = Counts {
        compared: 0,
        differ: 0,
    };
    let mut bench = B::new(alloc);
    let mut told = Told {
        text: String::new(alloc),
        lines: 0,
    };
    for (index, line) in text.lines().enumerate() {
        let number = index.saturating_add(1);
        if line.starts_with('#') {
            continue;
        }
        if let Some(wanted) = line.strip_prefix("> ") {
            compare_line(rt, name, number, &mut told, Some(wanted), &mut counts)?;
            continue;
        }
        compare_line(rt, name, number, &mut told, None, &mut counts)?;
        if line.is_empty() {
            bench = B::new(alloc);
        } else {
            tell(&mut bench, line, &mut told)?;
        }
    }
    let end = text.lines().count();
    compare_line(rt, name, end, &mut told, None, &mut counts)?;
    Ok(counts)
}
