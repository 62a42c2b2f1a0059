//! The examples of the README of `script`.

use at_base::Error;
use script::{ScriptFeed, Step, read};
use std::alloc::Global;

/// How many frames the drains of a script take at most.
fn most_drained(alloc: Global, text: &[u8]) -> Result<u64, Error> {
    let steps = read(alloc, text)?;
    let mut most = 0u64;
    for step in &steps {
        if let Step::Drain(frames) = step {
            most = most.saturating_add(u64::from(*frames));
        }
    }
    Ok(most)
}

/// The steps of a script that comes in two pieces, cut anywhere.
fn steps_of(alloc: Global, first: &[u8], second: &[u8]) -> Result<Vec<Step>, Error> {
    let mut feed = ScriptFeed::new(alloc);
    feed.feed(first)?;
    feed.feed(second)?;
    feed.finish()
}

/// A script in which two drains have a taking between them.
const DRAINS: &[u8] = b"# two drains\ndrain 10\n\ntake 0 10.1\n#\ndrain 2";

/// Whether two drains take at most 12 frames, and a script is the same wherever it is cut.
pub(super) fn a_script_may_be_cut_anywhere(alloc: Global) -> Result<bool, Error> {
    for place in 0..=DRAINS.len() {
        let are_three = matches!(
            steps_of(alloc, &DRAINS[..place], &DRAINS[place..])?.as_slice(),
            [Step::Drain(10), Step::Event(_), Step::Drain(2)]
        );
        if !are_three {
            return Ok(false);
        }
    }
    Ok(most_drained(alloc, b"# two drains\ndrain 10\ntake 0 10.1\ndrain 2\n")? == 12)
}

/// Texts whose third line is bad.
const BAD_THIRD_LINES: [&[u8]; 4] = [
    b"drain 1\n# a remark\ndrain x\ndrain 2\n",
    b"drain 1\n# a remark\nd",
    b"\n\nrequest 10.7 - 1 =:=",
    b"\n\nsend\n",
];

/// Whether a bad line is refused wherever the text is cut.
pub(super) fn a_bad_line_is_refused_wherever_it_is_cut(alloc: Global) -> Result<bool, Error> {
    for text in BAD_THIRD_LINES {
        for place in 0..=text.len() {
            match steps_of(alloc, &text[..place], &text[place..]).err() {
                Some(Error::BadScript(3)) => {}
                Some(Error::Memory) => return Err(Error::Memory),
                _ => return Ok(false),
            }
        }
    }
    Ok(true)
}

/// Beginnings of a text, and what a feed says of each before the text's end is known.
const BEGINNINGS: [(&[u8], Result<(), Error>); 12] = [
    (b"\0", Err(Error::BadScript(1))),
    (b"takes", Err(Error::BadScript(1))),
    (b"sand", Err(Error::BadScript(1))),
    (b" ", Err(Error::BadScript(1))),
    (b"Drain 1", Err(Error::BadScript(1))),
    (b"requests", Err(Error::BadScript(1))),
    (b"", Ok(())),
    (b"#\0", Ok(())),
    (b"s", Ok(())),
    (b"request", Ok(())),
    (b"drain ", Ok(())),
    (b"take x", Ok(())),
];

/// Whether a first word that is no command is refused at once.
pub(super) fn a_first_word_is_refused_at_once(alloc: Global) -> Result<bool, Error> {
    for (piece, want) in BEGINNINGS {
        let said = ScriptFeed::new(alloc).feed(piece);
        if said == Err(Error::Memory) {
            return Err(Error::Memory);
        }
        if said != want {
            return Ok(false);
        }
    }
    Ok(true)
}
