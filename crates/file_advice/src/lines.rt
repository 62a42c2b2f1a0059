//! The lines of a text on which the values of a document are.

use crate::found::{key_text, list_key};
use at_base::{Part, Text32};
use file_entries::Place;

/// What a line is for a place.
#[derive(Clone, Copy, Debug, PartialEq, Eq)]
enum Line {
    /// The header of a table in the list of the place's entry.
    Entry,
    /// The header of a table in the first list within the entry.
    Outer,
    /// The header of a table in the list within that table.
    Inner,
    /// Another header.
    Other,
    /// No header.
    Within,
}

/// How far a scan has come.
#[derive(Clone, Copy, Debug)]
struct Scan {
    /// The numbers of the tables at hand, from 1.
    numbers: (u32, u32, u32),
    /// Whether the table at hand is the place's.
    is_here: bool,
    /// The line of the place's table, or of what is known to have it.
    found: Option<usize>,
}

/// The text without spaces and tabs in front.
fn unindented(line: &str) -> &str {
    let mut rest = line;
    for _ in 0..line.len() {
        match rest.strip_prefix(' ') {
            Some(after) => rest = after,
            None => match rest.strip_prefix('\t') {
                Some(after) => rest = after,
                None => return rest,
            },
        }
    }
    rest
}

/// What a line is for the place.
fn kind_of(line: &str, place: &Place) -> Line {
    let line = unindented(line);
    if line.strip_prefix('[').is_none() {
        return Line::Within;
    }
    let Some(header) = line.strip_prefix("[[") else {
        return Line::Other;
    };
    let Some(rest) = header.strip_prefix(list_key(place.part).unwrap_or("]")) else {
        return Line::Other;
    };
    if rest.strip_prefix("]]").is_some() {
        return Line::Entry;
    }
    let Some(rest) = within(rest, &place.outer) else {
        return Line::Other;
    };
    if rest.strip_prefix("]]").is_some() {
        return Line::Outer;
    }
    match within(rest, &place.inner) {
        Some(rest) if rest.strip_prefix("]]").is_some() => Line::Inner,
        _ => Line::Other,
    }
}

/// What follows a dot and this key.
fn within<'a>(text: &'a str, key: &Text32) -> Option<&'a str> {
    text.strip_prefix('.')?.strip_prefix(key_text(key))
}

/// Whether the line is that of the key.
fn is_of_key(line: &str, key: &Text32) -> bool {
    match unindented(line).strip_prefix(key_text(key)) {
        Some(rest) => unindented(rest).strip_prefix('=').is_some(),
        None => false,
    }
}

/// The numbers of the tables at hand after a line.
fn numbers_after(numbers: (u32, u32, u32), line: Line) -> (u32, u32, u32) {
    let (entry, outer, inner) = numbers;
    match line {
        Line::Entry => (entry.saturating_add(1), 0, 0),
        Line::Outer => (entry, outer.saturating_add(1), 0),
        Line::Inner => (entry, outer, inner.saturating_add(1)),
        Line::Other | Line::Within => numbers,
    }
}

/// Whether the tables at hand are the place's, or have it within.
fn leads_to(numbers: (u32, u32, u32), place: &Place) -> bool {
    let (entry, outer, inner) = numbers;
    entry == place.entry
        && (outer == 0 || outer == place.outer_number)
        && (inner == 0 || inner == place.inner_number)
}

impl Scan {
    /// The scan after a header with this number of its line.
    fn after(self, line: Line, number: usize, place: &Place) -> Scan {
        let numbers = numbers_after(self.numbers, line);
        let leads = line != Line::Other && leads_to(numbers, place);
        Scan {
            numbers,
            is_here: leads && numbers.1 == place.outer_number && numbers.2 == place.inner_number,
            found: if leads { Some(number) } else { self.found },
        }
    }
}

/// The line of the text, from 1, on which the value at the place is, or the header of its table, as
/// far as headers tell.
pub(crate) fn line_of(text: &str, place: &Place) -> Option<usize> {
    let mut scan = Scan {
        numbers: (0, 0, 0),
        is_here: place.part == Part::Top,
        found: None,
    };
    let mut number = 0usize;
    for line in text.lines() {
        number = number.saturating_add(1);
        match kind_of(line, place) {
            Line::Within => {
                if scan.is_here && is_of_key(line, &place.key) {
                    return Some(number);
                }
            }
            header => scan = scan.after(header, number, place),
        }
    }
    scan.found
}

/// Whether a scan of headers tells the lines of a text: it has no texts of several lines.
pub(crate) fn tells_lines(text: &str) -> bool {
    let mut windows = text.as_bytes().windows(3);
    !windows.any(|quotes| matches!(quotes, b"\"\"\"" | b"'''"))
}
