//! Runs a router of an internet file over the capture on standard input, and writes what it puts on
//! standard output, as another capture. The arguments are the file, the number of the router, the word
//! `played` or `real` for the rules that it follows towards other stations, and names of interfaces,
//! each as `3=eth0`. At the end its image is printed on standard error, in hexadecimal digits.
#![tactic(auto)]

mod asked;

use asked::{Asked, read_words};
use at_base::{Error, What};
use cabled::CabledRouter;
use file_router::{begin, image_of};
use internet_file::{Plan, read};
use planned_stations::router_at;
use routing::{Stream, Watch};
use rtmp::Routes;
use std::alloc::Global;
use std::fs::File;
use std::io::{Read, Write, writer};
use std::process::ExitCode;
use std::rt::Files;
use table_image::write;
use text::{Output, put_hex};

/// Nobody watches.
#[derive(Drop)]
struct Nobody;

impl Watch<CabledRouter<Routes>> for Nobody {
    fn ticked(&mut self, _station: &CabledRouter<Routes>, _time: u64, _ticks: u64, _dropped: u64) {}

    fn heard(&mut self, _station: &CabledRouter<Routes>, _time: u64, _bytes: &[u8]) {}
}

/// The plan in a file.
fn plan_in<R: Files + AllocGlobal>(rt: &R, path: &str) -> Result<Plan, Error> {
    let Ok(mut file) = File::open(rt, path) else {
        return Err(Error::ReadFault);
    };
    let mut text = Vec::new(rt.alloc());
    if file.read_to_end(&mut text).is_err() {
        return Err(Error::ReadFault);
    }
    match read(rt.alloc(), text.as_slice()) {
        Ok(plan) => Ok(plan),
        Err(refused) => Err(refused.error),
    }
}

/// The image of a router, in hexadecimal digits.
fn image_line(
    alloc: Global,
    plan: &Plan,
    index: usize,
    router: &CabledRouter<Routes>,
) -> Result<String, Error> {
    let Some(planned) = router_at(plan, index) else {
        return Err(Error::NoSuch(What::Router));
    };
    let mut line = Vec::new(alloc);
    if planned.port.len() == router.router().router().ports_now().len() {
        let image = image_of(alloc, plan, planned, router)?;
        let bytes = write(alloc, &image)?;
        put_hex(&mut line, bytes.as_slice())?;
    }
    Ok(String::from_utf8_lossy(alloc, line.as_slice())?)
}

/// Runs a router of a plan over the capture that the reader has: the line of its image at the end.
fn run<I: Read, W: Write + Drop>(
    alloc: Global,
    plan: &Plan,
    asked: &Asked,
    input: &mut I,
    output: Output<W>,
) -> Result<String, Error> {
    let Some(planned) = router_at(plan, asked.router) else {
        return Err(Error::NoSuch(What::Router));
    };
    let begun = begin(alloc, plan, planned, asked.names.as_slice(), asked.peers)?;
    let mut stream = Stream::new(begun.routing, output, Nobody);
    stream.begin(begun.cables.as_slice())?;
    stream.run(alloc, input)?;
    image_line(alloc, plan, asked.router, stream.routing.station())
}

/// Runs what the arguments ask for.
fn run_asked(rt: &HostRuntime) -> Result<String, Error> {
    let asked = read_words(rt)?;
    let plan = plan_in(rt, asked.file.as_str())?;
    let output = Output::new(rt.alloc(), writer(rt));
    run(rt.alloc(), &plan, &asked, &mut rt.reader(), output)
}

fn main(rt: HostRuntime) -> ExitCode {
    match run_asked(&rt) {
        Ok(line) => {
            let _ = eprintln!(&rt; "{line}");
            ExitCode::SUCCESS
        }
        Err(error) => {
            let number = error.number();
            let _ = eprintln!(&rt; "refused: {number}");
            ExitCode::from(2)
        }
    }
}
