//! The bench of a case, with which its commands are carried out.

use crate::{answers, changes, equal, verdicts};
use case_words::{Answer, Bench, Stop, Words};
use std::alloc::Global;

/// The bytes of a case, and the lines of the parts that it describes.
#[derive(Drop)]
pub(crate) struct Images {
    alloc: Global,
    bytes: Vec<u8>,
    parts: String,
}

impl Images {
    /// Appends bytes.
    fn add_bytes(&mut self, mut words: Words<'_>) -> Answer {
        let more = words.bytes(self.alloc)?;
        self.bytes.extend_from_slice(more.as_slice())?;
        Ok(())
    }

    /// Appends the line of a part, the whole line or, if an allocation fails, nothing.
    fn add_part(&mut self, mut line: Words<'_>) -> Answer {
        let line = line.rest();
        self.parts.reserve(line.len().saturating_add(1))?;
        self.parts.push_str(line)?;
        self.parts.push('\n')?;
        Ok(())
    }
}

impl Bench for Images {
    fn new(alloc: Global) -> Images {
        Images {
            alloc,
            bytes: Vec::new(alloc),
            parts: String::new(alloc),
        }
    }

    fn act(&mut self, words: Words<'_>, text: &mut String) -> Answer {
        let mut rest = words;
        let (bytes, parts) = (&self.bytes, self.parts.as_str());
        match rest.word() {
            "bytes" => self.add_bytes(rest),
            "version" | "cable" | "router" | "port" | "row" | "list" | "node" | "name" | "knows" =>
                { self.add_part(words) }
            "read" => answers::image(self.alloc, bytes, rest, text),
            "made" => answers::made(self.alloc, parts, rest, text),
            "each-byte" => changes::changed(self.alloc, bytes, text),
            "audit" => verdicts::audited(self.alloc, bytes, rest, text),
            "equal" => equal::answer(self.alloc, parts, rest, text),
            "verdict" => verdicts::verdict(self.alloc, rest, text),
            "verdicts" => verdicts::equal_verdicts(self.alloc, rest, text),
            "rules" => verdicts::rules(text),
            "limits" => answers::limits(text),
            "listed" => answers::listed(self.alloc, rest, text),
            _ => Err(Stop::Unclear),
        }
    }
}
