//! The object that a line of a command is.

use crate::members::Members;
use std::alloc::{AllocError, Global};

/// The kind of a line with this first word, and what its further words are, each by its key: `#`
/// behind a key is for a number, `.` for hexadecimal digits, and `-` stands for a word that says
/// nothing.
#[derive(Clone, Copy)]
struct Form {
    kind: &'static str,
    keys: &'static str,
}

/// The form of a line with this first word and so many further words, if it has one.
fn form_of(first: &str, more: usize) -> Option<Form> {
    let (kind, keys) = match first {
        "yes:" => (
            "verdict",
            "cables# - routers# - nodes# - rows# - - - distance#",
        ),
        "node" => ("received", "node# - source socket# type# data."),
        "action" => ("refused", "action# - error#"),
        "sent" => ("sent", "from bytes."),
        // To a group of nodes, `group` and its number stand in the place of an address.
        "put" if more > 7 => ("put", "stamp# - cable# from - to group# bytes."),
        "put" => ("put", "stamp# - cable# from - to bytes."),
        "took" => ("took", "stamp# by"),
        "reached" => ("reached", "- cable# by how bytes."),
        "dropped" => ("dropped", "by cause bytes."),
        "hold" => ("hold", "stamp# - cable# from - to bytes."),
        "lost" => ("lost", "stamp#"),
        "refused" => ("refused", "error#"),
        "pending" => ("pending", "pairs#"),
        _ => return None,
    };
    Some(Form { kind, keys })
}

/// The object of a line with a form, whose further words these are.
fn formed(alloc: Global, first: &str, words: &str, form: &Form) -> Result<Members, AllocError> {
    let mut members = Members::new(alloc);
    members.text("kind", form.kind)?;
    if first == "yes:" {
        members.text("verdict", "yes")?;
    }
    let mut keys = form.keys.split(' ');
    for word in words.split(' ') {
        match keys.next() {
            Some(key) => members.word(key, word)?,
            None => return Ok(members),
        }
    }
    Ok(members)
}

/// The object of a line that says yes or no, as the member of this name, of a no after what comes
/// first: the place, each number by what it counts.
fn placed(
    alloc: Global,
    kind: &str,
    said: &str,
    first: Option<&str>,
    words: &str,
) -> Result<Members, AllocError> {
    let mut members = Members::new(alloc);
    members.text("kind", kind)?;
    members.text(kind, said)?;
    let mut words = words.split(' ');
    if let Some(first) = first {
        if let Some(word) = words.next() {
            members.text(first, word)?;
        }
    }
    while let Some(what) = words.next() {
        match words.next() {
            Some(number) => members.count(what, number)?,
            None => return Ok(members),
        }
    }
    Ok(members)
}

/// The object that a line of a command is, if it has a form.
pub(crate) fn object_of(alloc: Global, line: &str) -> Result<Option<Members>, AllocError> {
    let (first, words) = line.split_once(' ').unwrap_or((line, ""));
    if first == "no:" {
        return Ok(Some(placed(alloc, "verdict", "no", Some("rule"), words)?));
    }
    if first == "settled:" {
        let (said, words) = words.split_once(' ').unwrap_or((words, ""));
        return Ok(Some(placed(alloc, "settled", said, None, words)?));
    }
    match form_of(first, words.split(' ').count()) {
        Some(form) => Ok(Some(formed(alloc, first, words, &form)?)),
        None => Ok(None),
    }
}
