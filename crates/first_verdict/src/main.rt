//! Audits the image on standard input, and prints the line of the verdict, or why there is no image.
//! It stands on few crates, so `make audit` runs it before anything is proved.
#![tactic(auto)]

use at_base::Error;
use image_verdict::audit_bytes;
use std::alloc::Global;
use std::io;
use std::io::Read;

/// The line of the verdict on the image that the bytes spell.
fn verdict_line(alloc: Global, bytes: &[u8]) -> Result<String, Error> {
    let verdict = audit_bytes(alloc, bytes)?;
    verdict.line(alloc)
}

fn main(rt: HostRuntime) -> Result<(), io::Error> {
    let mut bytes = Vec::new(rt.alloc());
    rt.reader().read_to_end(&mut bytes)?;
    match verdict_line(rt.alloc(), bytes.as_slice()) {
        Ok(line) => println!(rt; "{line}"),
        Err(error) => println!(rt; "{error}"),
    }
}
