//! What a question asks for, in words.

use crate::shown::put_text;
use rtmp::Horizon;
use std::alloc::AllocError;
use survey::{Sought, Wanted};
use text::put_decimal;
use zip_zones::ZoneFunction;

/// Appends the names that are looked for.
fn put_sought(lines: &mut Vec<u8>, sought: &Sought) -> Result<(), AllocError> {
    put_text(lines, sought.object.as_slice())?;
    lines.extend_from_slice(b":")?;
    put_text(lines, sought.kind.as_slice())?;
    lines.extend_from_slice(b"@")?;
    put_text(lines, sought.zone.as_slice())
}

/// Appends whose zones are listed, from which one on.
fn put_list(lines: &mut Vec<u8>, function: ZoneFunction, start: u16) -> Result<(), AllocError> {
    match function {
        ZoneFunction::GetMyZone => return lines.extend_from_slice(b"its zone"),
        ZoneFunction::GetZoneList => lines.extend_from_slice(b"all zones")?,
        ZoneFunction::GetLocalZones => lines.extend_from_slice(b"the zones of its cable")?,
    }
    if start > 1 {
        lines.extend_from_slice(b" from number ")?;
        put_decimal(lines, u32::from(start))?;
        lines.extend_from_slice(b" on")?;
    }
    Ok(())
}

/// Appends what is asked for.
pub(crate) fn put_wanted(lines: &mut Vec<u8>, wanted: &Wanted) -> Result<(), AllocError> {
    match wanted {
        Wanted::Echo => lines.extend_from_slice(b"an echo"),
        Wanted::Routes(Horizon::Whole) => lines.extend_from_slice(b"its rows"),
        Wanted::Routes(Horizon::Split) => lines.extend_from_slice(b"its rows by its other ports"),
        Wanted::Zones(net) => {
            lines.extend_from_slice(b"the zones of ")?;
            put_decimal(lines, u32::from(*net))
        }
        Wanted::List(function, start) => put_list(lines, *function, *start),
        Wanted::Names(sought) => put_sought(lines, sought),
    }
}

/// Appends the question for it, after `no answer to`.
pub(crate) fn put_question(lines: &mut Vec<u8>, wanted: &Wanted) -> Result<(), AllocError> {
    match wanted {
        Wanted::Echo => return lines.extend_from_slice(b"an echo"),
        Wanted::Names(_) => lines.extend_from_slice(b"a lookup of ")?,
        Wanted::Routes(_) | Wanted::Zones(_) | Wanted::List(_, _) => {
            lines.extend_from_slice(b"a request for ")?
        }
    }
    put_wanted(lines, wanted)
}
