//! A program that carries out the case files that its arguments name.

use crate::case_file::{Bench, compare};
use std::rt::{Env, Files};
use std::{env, fs, io};

/// The text of a file, read again if an allocation failed.
fn text_of<R: Files + AllocGlobal>(rt: &R, name: &str) -> Result<String, io::Error> {
    match fs::read_to_string(rt, name) {
        Ok(text) => Ok(text),
        Err(_) => fs::read_to_string(rt, name),
    }
}

/// Carries out the cases of a file, and prints how many lines were compared and how many differ.
fn run_file<B: Bench, R: Files + Print + AllocGlobal>(rt: &R, name: &str) -> Result<(), io::Error> {
    let text = text_of(rt, name)?;
    let counts = compare::<B, R>(rt, rt.alloc(), name, text.as_str())?;
    let (compared, differ) = (counts.compared, counts.differ);
    println!(rt; "{name}: {compared} lines compared, {differ} differ")
}

fn names_once<R: Env + AllocGlobal>(rt: &R) -> Result<Vec<String>, io::Error> {
    let mut names = Vec::new(rt.alloc());
    for name in env::args(rt)?.skip(1) {
        names.push(name)?;
    }
    Ok(names)
}

/// The arguments, read again if an allocation failed.
fn names<R: Env + AllocGlobal>(rt: &R) -> Result<Vec<String>, io::Error> {
    match names_once(rt) {
        Ok(names) => Ok(names),
        Err(_) => names_once(rt),
    }
}

/// Carries out the case files that the arguments name, in order.
pub fn run<B: Bench, R: Env + Files + Print + AllocGlobal>(rt: &R) -> Result<(), io::Error> {
    let names = names(rt)?;
    for name in names.iter() {
        run_file::<B, R>(rt, name.as_str())?;
    }
    Ok(())
}
