//! Carries out a script over the tables of an image, and prints the whole transcript: a line for each
//! entry, `refused N` for each step that has an error, and `pending N`. Arguments: the image, the
//! script, and the greatest number of entries, if it isn't that of a trace. `scripts/compare-runs`
//! compares the lines with those of another program.
#![tactic(auto)]

use at_base::Error;
use audit::Verdict;
use cable_model::Entry;
use dump_lines::{number_of, put_entry};
use frozen::Frozen;
use image_feed::read as image_in;
use rtmp::{RouteTable, Routes};
use script::{Step, read as steps_in};
use std::alloc::Global;
use std::io::{Write, writer};
use std::process::ExitCode;
use std::rt::{Env, Files};
use std::{env, fs};
use text::{Output, put_decimal};

/// The greatest number of entries of a trace.
const LIMIT: u32 = 4_000_000;

/// The bytes that an entry of a run names, and no bytes if it names none.
fn bytes_of<'a, T: RouteTable>(run: &'a Frozen<T>, entry: &Entry) -> &'a [u8] {
    match number_of(entry) {
        Some(number) => run.bytes(number),
        None => &[],
    }
}

/// Prints a word and a number.
fn print_number<W: Write>(output: &mut Output<W>, word: &[u8], number: u32) -> Result<(), Error> {
    output.text.extend_from_slice(word)?;
    put_decimal(&mut output.text, number)?;
    output.text.extend_from_slice(b"\n")?;
    output.pass_on()
}

/// Prints the entries of a run that come after this many.
fn print_from<T: RouteTable, W: Write>(
    run: &Frozen<T>,
    from: usize,
    output: &mut Output<W>,
) -> Result<(), Error> {
    for entry in run.transcript().iter().skip(from) {
        put_entry(&mut output.text, entry, bytes_of(run, entry))?;
        output.pass_on()?;
    }
    Ok(())
}

/// Carries out a step.
fn step<T: RouteTable>(run: &mut Frozen<T>, step: &Step) -> Result<(), Error> {
    match step {
        Step::Event(event) => run.event(event),
        Step::Drain(most) => match run.drain(*most) {
            Ok(_) => Ok(()),
            Err(error) => Err(error),
        },
    }
}

/// Carries out steps, and prints what each adds, and what is pending at the end.
fn print_steps<T: RouteTable, W: Write>(
    run: &mut Frozen<T>,
    steps: &[Step],
    output: &mut Output<W>,
) -> Result<(), Error> {
    for next in steps {
        let from = run.transcript().len();
        let answer = step(run, next);
        print_from(run, from, output)?;
        match answer {
            Ok(()) => {}
            Err(Error::Memory) => return Err(Error::Memory),
            Err(error) => print_number(output, b"refused ", u32::from(error.number()))?,
        }
    }
    let pending = u32::try_from(run.pending_count()).unwrap_or(u32::MAX);
    print_number(output, b"pending ", pending)?;
    output.flush()
}

/// Carries out steps over a run, and prints them. A run is dear to let go of: it has one way out.
fn print_all<T: RouteTable, W: Write>(
    run: Frozen<T>,
    steps: &[Step],
    output: &mut Output<W>,
) -> Result<bool, Error> {
    let mut run = run;
    match print_steps(&mut run, steps, output) {
        Ok(()) => Ok(true),
        Err(error) => Err(error),
    }
}

/// Carries out a script over an image, and prints the transcript, or the line of a no. The result is
/// whether the audit says yes.
fn print_run<W: Write>(
    alloc: Global,
    image: &[u8],
    script: &[u8],
    limit: u32,
    output: &mut Output<W>,
) -> Result<bool, Error> {
    let image = image_in(alloc, image)?;
    let steps = steps_in(alloc, script)?;
    match Frozen::<Routes>::start(alloc, image, limit) {
        Ok(run) => print_all(run, steps.as_slice(), output),
        Err(Error::NotAudited(fault)) => {
            let line = Verdict::No(fault).line(alloc)?;
            output.write_line(line.as_bytes())?;
            Ok(false)
        }
        Err(error) => Err(error),
    }
}

/// The bytes of a file.
fn bytes_in<R: Files + AllocGlobal>(rt: &R, name: Option<String>) -> Result<Vec<u8>, Error> {
    match name {
        Some(name) => match fs::read(rt, name.as_str()) {
            Ok(bytes) => Ok(bytes),
            Err(_) => Err(Error::ReadFault),
        },
        None => Err(Error::ReadFault),
    }
}

/// Carries out what the arguments say.
fn run<R: Print + AllocGlobal + Files + Env>(rt: &R) -> Result<bool, Error> {
    let mut words = match env::args(rt) {
        Ok(words) => words.skip(1),
        Err(_) => return Err(Error::Memory),
    };
    let image = bytes_in(rt, words.next())?;
    let script = bytes_in(rt, words.next())?;
    let limit = match words.next() {
        Some(word) => word.as_str().parse::<u32>().unwrap_or(LIMIT),
        None => LIMIT,
    };
    let mut output = Output::new(rt.alloc(), writer(rt));
    print_run(
        rt.alloc(),
        image.as_slice(),
        script.as_slice(),
        limit,
        &mut output,
    )
}

fn main(rt: HostRuntime) -> ExitCode {
    match run(&rt) {
        Ok(true) => ExitCode::SUCCESS,
        Ok(false) => ExitCode::from(1),
        Err(error) => {
            let number = error.number();
            let _ = eprintln!(&rt; "refused: {number}");
            ExitCode::from(2)
        }
    }
}
