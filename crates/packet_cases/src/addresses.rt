//! Ranges of networks, addresses and hardware addresses.

use at_base::{Addr, Hw};
use case_words::{Answer, Stop, Words, put_hw, yes_or_no};

/// Appends a range, or whether it holds a network, or overlaps or equals another range.
pub(crate) fn range(mut words: Words<'_>, text: &mut String) -> Answer {
    let range = words.range()?;
    let holds = match words.word() {
        "" => {
            let (start, end) = (range.start(), range.end());
            writeln!(text, "{range} start {start} end {end}")?;
            return Ok(());
        }
        "holds" => range.holds(words.number()?),
        "overlaps" => range.overlaps(&words.range()?),
        "equals" => range == words.range()? && range.clone()? == range,
        _ => return Err(Stop::Unclear),
    };
    writeln!(text, "{}", yes_or_no(holds))?;
    Ok(())
}

/// Appends an address, or how it compares with another one.
pub(crate) fn address(mut words: Words<'_>, text: &mut String) -> Answer {
    let addr = if words.passes("none") {
        Addr::NONE
    } else {
        words.addr()?
    };
    let holds = match words.word() {
        "" => {
            let none = yes_or_no(addr.is_none());
            writeln!(text, "{addr} none {none}")?;
            return Ok(());
        }
        "equals" => addr == words.addr()? && addr.clone()? == addr,
        "below" => addr < words.addr()?,
        _ => return Err(Stop::Unclear),
    };
    writeln!(text, "{}", yes_or_no(holds))?;
    Ok(())
}

/// Appends the hardware address of every station, or whether two are equal.
pub(crate) fn hardware(mut words: Words<'_>, text: &mut String) -> Answer {
    if words.passes("all") {
        put_hw(text, Hw::ALL)?;
        writeln!(text)?;
        return Ok(());
    }
    let hw = words.hw()?;
    words.expect("equals")?;
    let equal = hw == words.hw()? && hw.clone()? == hw;
    writeln!(text, "{}", yes_or_no(equal))?;
    Ok(())
}

/// Appends the hardware address of a zone's group.
pub(crate) fn group(mut words: Words<'_>, text: &mut String) -> Answer {
    let group: u8 = words.number()?;
    if group >= 253 {
        return Err(Stop::Unclear);
    }
    put_hw(text, Hw::zone(group))?;
    writeln!(text)?;
    Ok(())
}
