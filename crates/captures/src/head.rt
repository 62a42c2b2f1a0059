//! What stands in a capture before the packets.

ghost use Rattle.std.specs.Prelude.{◌≡◌, ◌≤◌, ◌+◌, length, OnOk};
ghost use Rattle.captures.specs.Packets.{cables_bytes, head_bytes};
ghost use Rattle.pcapng.specs.Captures.{interface_bytes};
ghost use Rattle.text.specs.Going.{Goes};
ghost use Rattle.text.specs.Writing.{Prints};

use at_base::Error;
use pcapng::{print_interface, print_section};
use std::io::Write;
use text::Output;

/// The range of a cable, whether or not it is one that a cable may have.
#[derive(Clone, Copy, Debug, PartialEq, Eq)]
pub struct Extent {
    /// The first network.
    pub start: u16,
    /// The last network.
    pub end: u16,
}

/// Prints the interface of a cable with an index.
fn print_cable<W: Write>(output: &mut Output<W>, cable: u8, range: &Extent) -> Result<(), Error>
    ensures gone { OnOk result (Goes (W.contents output.old.writer) output.old.text.items
        (interface_bytes cable range.now.start range.now.end)
        (W.contents output.new.writer) output.new.text.items) }
    ensures prints { Prints output.old.faults output.new.faults result }
{
    print_interface(output, cable, range.start, range.end)
}

/// Prints the interfaces of cables, of which the first has this index.
fn print_cables<W: Write>(output: &mut Output<W>, cable: u8, cables: &[Extent]) -> Result<(), Error>
    requires few { cable + length cables.now ≤ 255 }
    ensures gone { OnOk result (Goes (W.contents output.old.writer) output.old.text.items
        (cables_bytes cable cables.now) (W.contents output.new.writer) output.new.text.items) }
    ensures prints { Prints output.old.faults output.new.faults result }
{
    match cables {
        [] => Ok(()),
        [first, rest @ ..] => {
            print_cable(output, cable, first)?;
            print_cables(output, cable + 1, rest)
        }
    }
}

/// Prints what a capture begins with: the section header, and each cable as an interface, which has
/// the cable's index.
pub(crate) fn print_head<W: Write>(output: &mut Output<W>, cables: &[Extent]) -> Result<(), Error>
    requires few { length cables.now ≤ 255 }
    ensures gone { OnOk result (Goes (W.contents output.old.writer) output.old.text.items
        (head_bytes cables.now) (W.contents output.new.writer) output.new.text.items) }
    ensures prints { Prints output.old.faults output.new.faults result }
{
    print_section(output)?;
    print_cables(output, 0, cables)
}
