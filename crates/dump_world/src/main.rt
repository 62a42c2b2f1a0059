//! Plays the internet file on standard input to its last tick, and prints its transcript: a line
//! for each entry. `scripts/compare-runs` compares the lines with those of another program.
#![tactic(auto)]

use at_base::Error;
use cable_model::Entry;
use dump_lines::{number_of, put_entry};
use internet_file::read;
use rtmp::{RouteTable, Routes};
use std::alloc::Global;
use std::io::{Read, Write, writer};
use std::process::ExitCode;
use text::Output;
use world::World;

/// Carries out all ticks of the plan, or those before the first that has an error.
fn play<T: RouteTable>(world: &mut World<T>) -> Result<(), Error> {
    for _tick in 0..world.plan().ticks() {
        match world.tick() {
            Ok(()) => {}
            Err(error) => return Err(error),
        }
    }
    Ok(())
}

/// The bytes that an entry of a world names, and no bytes if it names none.
fn bytes_of<'a, T: RouteTable>(world: &'a World<T>, entry: &Entry) -> &'a [u8] {
    match number_of(entry) {
        Some(number) => world.bytes(number),
        None => &[],
    }
}

/// Prints the transcript of a world.
fn print<T: RouteTable, W: Write>(world: &World<T>, output: &mut Output<W>) -> Result<(), Error> {
    for entry in world.transcript() {
        put_entry(&mut output.text, entry, bytes_of(world, entry))?;
        output.pass_on()?;
    }
    output.flush()
}

/// Plays a world to its last tick, and prints its transcript, also if a tick has an error. A world is
/// dear to let go of: it has one way out.
fn print_world<T: RouteTable, W: Write>(
    world: World<T>,
    output: &mut Output<W>,
) -> Result<(), Error> {
    let mut world = world;
    let answer = play(&mut world);
    match print(&world, output) {
        Ok(()) => answer,
        Err(error) => Err(error),
    }
}

/// Plays a file, and prints its transcript.
fn print_play<W: Write>(alloc: Global, text: &[u8], output: &mut Output<W>) -> Result<(), Error> {
    let plan = match read(alloc, text) {
        Ok(plan) => plan,
        Err(refused) => return Err(refused.error),
    };
    match World::<Routes>::new(alloc, plan) {
        Ok(world) => print_world(world, output),
        Err(error) => Err(error),
    }
}

/// Plays the internet file that the reader has, and prints its transcript.
fn run<R: Print + AllocGlobal + Input>(rt: &R) -> Result<(), Error> {
    let mut bytes = Vec::new(rt.alloc());
    if rt.reader().read_to_end(&mut bytes).is_err() {
        return Err(Error::ReadFault);
    }
    let mut output = Output::new(rt.alloc(), writer(rt));
    print_play(rt.alloc(), bytes.as_slice(), &mut output)
}

fn main(rt: HostRuntime) -> ExitCode {
    match run(&rt) {
        Ok(()) => ExitCode::SUCCESS,
        Err(error) => {
            let number = error.number();
            let _ = eprintln!(&rt; "refused: {number}");
            ExitCode::from(2)
        }
    }
}
