//! Verdicts.

use crate::edits::edited;
use crate::equal::put_equal;
use audit::{Fault, MAX_DISTANCE, Place, Rule, Summary, Verdict};
use case_words::{Answer, Stop, Words};
use image_verdict::audit_bytes;
use std::alloc::Global;

/// Appends the verdict line for the bytes with the changes that the words describe.
pub(crate) fn audited(
    alloc: Global,
    bytes: &Vec<u8>,
    words: Words<'_>,
    text: &mut String,
) -> Answer {
    let bytes = edited(alloc, bytes, words)?;
    let line = audit_bytes(alloc, bytes.as_slice())?.line(alloc)?;
    writeln!(text, "{line}")?;
    Ok(())
}

fn place(words: &mut Words<'_>) -> Result<Place, Stop> {
    let kind = words.word();
    let first = words.number()?;
    Ok(match kind {
        "cable" => Place::Cable(first),
        "node" => Place::Node(first),
        "port" => Place::Port(first, words.number()?),
        "row" => Place::Row(first, words.number()?),
        "missing" => Place::Missing(first, words.number()?),
        "list" => Place::List(first, words.number()?),
        _ => return Err(Stop::Unclear),
    })
}

fn summary(words: &mut Words<'_>) -> Result<Summary, Stop> {
    Ok(Summary {
        cables: words.number()?,
        routers: words.number()?,
        nodes: words.number()?,
        rows: words.number()?,
        greatest: words.number()?,
    })
}

/// A verdict, as `yes 3 2 2 6 1` with cables, routers, nodes, rows and the greatest distance, or
/// `no 7 row 1 3`.
fn verdict_of(words: &mut Words<'_>) -> Result<Verdict, Stop> {
    match words.word() {
        "yes" => Ok(Verdict::Yes(summary(words)?)),
        "no" => {
            let rule = words.number()?;
            let place = place(words)?;
            Ok(Verdict::No(Fault { rule, place }))
        }
        _ => Err(Stop::Unclear),
    }
}

/// Appends the line of a verdict, its text, and the length and the capacity of the line.
pub(crate) fn verdict(alloc: Global, mut words: Words<'_>, text: &mut String) -> Answer {
    let verdict = verdict_of(&mut words)?;
    let line = verdict.line(alloc)?;
    let (len, room) = (line.len(), line.capacity());
    writeln!(text, "{line}")?;
    writeln!(text, "{verdict}")?;
    writeln!(text, "{len} bytes, room for {room}")?;
    Ok(())
}

/// Compares verdicts with each other.
pub(crate) fn equal_verdicts(alloc: Global, mut words: Words<'_>, text: &mut String) -> Answer {
    let verdicts = words.list(alloc, verdict_of)?;
    put_equal(text, verdicts.as_slice())?;
    Ok(())
}

const RULES: [Rule; 10] = [
    Rule::CablesInOrder,
    Rule::StationsAddressed,
    Rule::RowsCoverCables,
    Rule::DirectRowsDirect,
    Rule::DistancesFit,
    Rule::NextRoutersExist,
    Rule::DistancesFall,
    Rule::ZoneListsAgree,
    Rule::NodesServed,
    Rule::MappingsTrue,
];

/// Appends the rules with their numbers, the pairs of rules that are equal, and the greatest
/// distance that they allow.
pub(crate) fn rules(text: &mut String) -> Answer {
    for rule in &RULES {
        let number = rule.number();
        writeln!(text, "C{number} {rule:?}")?;
    }
    put_equal(text, &RULES)?;
    writeln!(text, "greatest distance {MAX_DISTANCE}")?;
    Ok(())
}
