//! Explains why an image fails the audit.

use crate::finding::{finding_at, show_finding};
use crate::place::explain_place;
use crate::rule::{meaning, what_to_change};
use at_base::Fault;
use std::io;
use table_image::Image;

/// Explains the place at which an image breaks a rule.
pub fn explain_no(rt: &impl Eprint, image: &Image, fault: Fault) -> io::Result<()> {
    let finding = finding_at(image, fault);
    eprintln!(rt; "C{}: {}", fault.rule, meaning(fault.rule))?;
    explain_place(rt, image, fault.rule, fault.place)?;
    show_finding(rt, image, finding)?;
    // Rules are tried in their order, and the first seven are those of the ways.
    if fault.rule > 7 {
        eprintln!(rt; "C1 to C7 hold: no datagram goes in circles.")?;
    }
    eprintln!(rt; "What to change: {}", what_to_change(fault.rule, finding))
}
