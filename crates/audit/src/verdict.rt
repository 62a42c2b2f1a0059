//! Verdicts, and the line that the program prints for a verdict.

ghost use Rattle.std.specs.Prelude.{◌≡◌, IfOk, IsOkUnless, string_bytes};
ghost use Rattle.audit.specs.Verdicts as spec;
ghost use Rattle.audit.specs.Verdicts.{verdict_line};

use at_base::{Error, Fault};
use std::alloc::Global;
use std::fmt;

/// The size of an internet, and the greatest distance in its routing tables.
#[derive(Clone, Copy, Debug, PartialEq, Eq)]
pub struct Summary {
    /// The number of cables, at most 200.
    pub cables: u32,
    /// The number of routers, at most 200.
    pub routers: u32,
    /// The number of nodes, at most 200.
    pub nodes: u32,
    /// The number of rows in the routing tables of all routers together, at most 40,000.
    pub rows: u32,
    /// The greatest distance of a row, in routers between its router and its cable; 0 without rows.
    pub greatest: u8,
}

/// The result of the audit of an internet.
#[derive(Clone, Copy, Debug, PartialEq, Eq)]
pub enum Verdict {
    /// Each rule is kept.
    Yes(Summary),
    /// The first rule that is broken, and the first place that breaks it.
    No(Fault),
}

/// The greatest length of a line, in bytes: that of a summary with the greatest numbers.
const MAX_LINE: usize = 100;

/// The line, as `yes: 3 cables, ..` or `no: C7 router 1 row 3`, without a line feed.
impl fmt::Display for Verdict {
    ghost use Rattle.std.specs.Prelude.{Some};

    ghost output = { λ v. Some (verdict_line v) };

    fn fmt<W: fmt::Write>(&self, f: &mut fmt::Formatter<W>) -> fmt::Result {
        match self {
            Verdict::Yes(s) => write!(
                f,
                "yes: {} cables, {} routers, {} nodes, {} rows, greatest distance {}",
                s.cables, s.routers, s.nodes, s.rows, s.greatest
            ),
            Verdict::No(fault) => write!(f, "no: C{} {}", fault.rule, fault.place),
        }
    }
}

impl Verdict {
    /// Whether the verdict is yes: each rule is kept.
    pub fn is_yes(&self) -> bool
        ensures { result ≡ spec.is_yes self.now }
    {
        matches!(self, Verdict::Yes(_))
    }

    /// The line of the verdict, without a line feed: at most 100 bytes, in one allocation. Error:
    /// `Memory`.
    pub fn line(&self, alloc: Global) -> Result<String, Error>
        ensures ok { IfOk result (λ text. string_bytes text ≡ verdict_line self.now) }
        ensures err { IsOkUnless result Error.Memory }
    {
        let mut text = String::with_capacity(alloc, MAX_LINE)?;
        write!(text, "{self}")?;
        Ok(text)
    }
}
