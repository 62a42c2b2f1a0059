//! Errors, their numbers, and the places of faults.

use at_base::{Cause, Error, Fault, Field, Part, Place, What};
use case_words::{Answer, Stop, Words, yes_or_no};

fn what(words: &mut Words<'_>) -> Result<What, Stop> {
    Ok(match words.word() {
        "Cable" => What::Cable,
        "Node" => What::Node,
        "Router" => What::Router,
        "Station" => What::Station,
        "Name" => What::Name,
        "Transaction" => What::Transaction,
        _ => return Err(Stop::Unclear),
    })
}

/// A field of a packet.
pub(crate) fn field(words: &mut Words<'_>) -> Result<Field, Stop> {
    Ok(match words.word() {
        "HardwareType" => Field::HardwareType,
        "ProtocolType" => Field::ProtocolType,
        "Lengths" => Field::Lengths,
        "Function" => Field::Function,
        "IdLength" => Field::IdLength,
        "Version" => Field::Version,
        "Count" => Field::Count,
        "NameLength" => Field::NameLength,
        "Network" => Field::Network,
        "Control" => Field::Control,
        "Sequence" => Field::Sequence,
        "Taken" => Field::Taken,
        _ => return Err(Stop::Unclear),
    })
}

fn cause(words: &mut Words<'_>) -> Result<Cause, Stop> {
    Ok(match words.word() {
        "Cut" => Cause::Cut,
        "Magic" => Cause::Magic,
        "Version" => Cause::Version,
        "Count" => Cause::Count,
        "Index" => Cause::Index,
        "Value" => Cause::Value,
        "Name" => Cause::Name,
        "Order" => Cause::Order,
        "Trailing" => Cause::Trailing,
        _ => return Err(Stop::Unclear),
    })
}

fn part(words: &mut Words<'_>) -> Result<Part, Stop> {
    Ok(match words.word() {
        "Text" => Part::Text,
        "Top" => Part::Top,
        "Cable" => Part::Cable,
        "Router" => Part::Router,
        "Node" => Part::Node,
        "Lose" => Part::Lose,
        "Action" => Part::Action,
        _ => return Err(Stop::Unclear),
    })
}

/// A place in a router, after the router's number.
fn router_place(words: &mut Words<'_>) -> Result<Place, Stop> {
    let router = words.number()?;
    let kind = words.word();
    let number = words.number()?;
    Ok(match kind {
        "port" => Place::Port(router, number),
        "row" => Place::Row(router, number),
        "cable" => Place::Missing(router, number),
        "list" => Place::List(router, number),
        _ => return Err(Stop::Unclear),
    })
}

fn place_of(words: &mut Words<'_>) -> Result<Place, Stop> {
    Ok(match words.word() {
        "cable" => Place::Cable(words.number()?),
        "node" => Place::Node(words.number()?),
        "router" => router_place(words)?,
        _ => return Err(Stop::Unclear),
    })
}

fn fault_of(words: &mut Words<'_>) -> Result<Fault, Stop> {
    Ok(Fault {
        rule: words.named("rule")?,
        place: place_of(words)?,
    })
}

fn error_of(words: &mut Words<'_>) -> Result<Error, Stop> {
    Ok(match words.word() {
        "Truncated" => Error::Truncated,
        "BadLength" => Error::BadLength,
        "BadChecksum" => Error::BadChecksum,
        "BadField" => Error::BadField(field(words)?),
        "BadRange" => Error::BadRange,
        "BadName" => Error::BadName,
        "TooLong" => Error::TooLong,
        "NoSuch" => Error::NoSuch(what(words)?),
        "NotPending" => Error::NotPending,
        "NoRouter" => Error::NoRouter,
        "Full" => Error::Full,
        "BadImage" => Error::BadImage(words.number()?, cause(words)?),
        "BadFile" => Error::BadFile(part(words)?, words.number()?),
        "Memory" => Error::Memory,
        "ReadFault" => Error::ReadFault,
        "WriteFault" => Error::WriteFault,
        "BadScript" => Error::BadScript(words.number()?),
        "NotAudited" => Error::NotAudited(fault_of(words)?),
        "BadCapture" => Error::BadCapture(words.number()?),
        _ => return Err(Stop::Unclear),
    })
}

/// Appends an error's number and its text.
pub(crate) fn error(mut words: Words<'_>, text: &mut String) -> Answer {
    let error = error_of(&mut words)?;
    let number = error.number();
    writeln!(text, "{number} {error}")?;
    Ok(())
}

/// Whether two errors are equal.
pub(crate) fn errors(mut words: Words<'_>, text: &mut String) -> Answer {
    let error = error_of(&mut words)?;
    words.expect("equals")?;
    let equal = error == error_of(&mut words)? && error.clone()? == error;
    writeln!(text, "{}", yes_or_no(equal))?;
    Ok(())
}

/// Appends a place.
pub(crate) fn place(mut words: Words<'_>, text: &mut String) -> Answer {
    let place = place_of(&mut words)?;
    writeln!(text, "{place}")?;
    Ok(())
}

/// Whether two faults are equal.
pub(crate) fn faults(mut words: Words<'_>, text: &mut String) -> Answer {
    let fault = fault_of(&mut words)?;
    words.expect("equals")?;
    let equal = fault == fault_of(&mut words)? && fault.clone()? == fault;
    writeln!(text, "{}", yes_or_no(equal))?;
    Ok(())
}
