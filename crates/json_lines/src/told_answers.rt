//! The objects of answers to questions, and of questions that nobody answered.

use crate::members::Members;
use std::alloc::{AllocError, Global};

/// A service that has a name, its texts as they are shown.
#[derive(Clone, Copy)]
pub struct NamedService<'a> {
    pub object: &'a str,
    pub kind: &'a str,
    pub zone: &'a str,
    /// The address of its node.
    pub address: &'a str,
    pub socket: u8,
}

/// A range that a router told of.
#[derive(Clone, Copy)]
pub struct ToldRange<'a> {
    pub start: u16,
    pub end: u16,
    pub distance: u8,
    /// The address of the router.
    pub from: &'a str,
}

/// The line of the object of an echo from an address, which took so many microseconds. Error:
/// `AllocError`.
pub fn echo(alloc: Global, from: &str, microseconds: u32) -> Result<String, AllocError> {
    let mut members = Members::new(alloc);
    members.text("kind", "echo")?;
    members.text("from", from)?;
    members.number("microseconds", microseconds)?;
    members.into_line()
}

/// The line of the object of a service. Error: `AllocError`.
pub fn service(alloc: Global, it: &NamedService<'_>) -> Result<String, AllocError> {
    let mut members = Members::new(alloc);
    members.text("kind", "name")?;
    members.text("object", it.object)?;
    members.text("type", it.kind)?;
    members.text("zone", it.zone)?;
    members.text("address", it.address)?;
    members.number("socket", u32::from(it.socket))?;
    members.into_line()
}

/// The line of the object of a zone, whose name is as it is shown. Error: `AllocError`.
pub fn zone(alloc: Global, name: &str) -> Result<String, AllocError> {
    let mut members = Members::new(alloc);
    members.text("kind", "zone")?;
    members.text("zone", name)?;
    members.into_line()
}

/// The line of the object of a range that a router told of. Error: `AllocError`.
pub fn range(alloc: Global, it: &ToldRange<'_>) -> Result<String, AllocError> {
    let mut members = Members::new(alloc);
    members.text("kind", "route")?;
    members.number("start", u32::from(it.start))?;
    members.number("end", u32::from(it.end))?;
    members.number("distance", u32::from(it.distance))?;
    members.text("from", it.from)?;
    members.into_line()
}

/// The line of the object of a question that this address didn't answer. Error: `AllocError`.
pub fn silence(alloc: Global, to: &str, question: &str) -> Result<String, AllocError> {
    let mut members = Members::new(alloc);
    members.text("kind", "silence")?;
    members.text("to", to)?;
    members.text("question", question)?;
    members.into_line()
}
