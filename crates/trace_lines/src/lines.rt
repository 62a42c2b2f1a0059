//! The lines of a transcript's entries.

ghost use Rattle.std.specs.Prelude.{◌≡◌, ◌++◌, ◌∷◌, List, ℕ, [], IfOk, OnErr, OnOk};
ghost use Rattle.cable_model.specs.Logs.{entry_at};
ghost use Rattle.trace_lines.specs.Lines.{line, with_cable, IsNamed};
ghost use Rattle.trace_lines.specs.Said.{entry_with};
ghost use Rattle.trace_lines.specs.Stations.{addresses_of};

use crate::entries::put_entry;
use crate::stations::Stations;
use cable_model::Entry;
use std::alloc::{AllocError, Global};
use std::marker::Model;
use table_image::Image;

/// Prints the entries of a transcript over an image, in order. It keeps the cable of each stamp,
/// because a taken frame is printed with the station's address on that cable.
#[derive(Drop)]
pub struct Lines {
    stations: Stations,
    cables: Vec<u8>,
}

impl Model for Lines {
    ghost use Rattle.trace_lines.specs.Lines.{Printed};

    ghost Value = { Printed };

    ghost view = { λ l. record { addresses = l.stations; cables = l.cables.items } };
}

/// Appends the line of an entry, with a line feed at its end.
fn put_line(
    text: &mut Vec<u8>,
    stations: &Stations,
    cables: &[u8],
    entry: &Entry,
    bytes: &[u8],
) -> Result<(), AllocError>
    ensures { OnOk result (text.new.items ≡ text.old.items
        ++ line stations.now cables.now (entry_with bytes.now entry.now) ++ 10 ∷ []) }
{
    put_entry(text, stations, cables, entry, bytes)?;
    text.extend_from_slice(b"\n")
}

/// Appends the cable of an entry that takes a stamp: a held datagram, and a frame that none was.
fn note_cable(cables: &mut Vec<u8>, entry: &Entry) -> Result<(), AllocError>
    ensures ok { OnOk result ((kept : List (List ℕ)) → cables.new.items
        ≡ with_cable cables.old.items (entry_at kept entry.now)) }
    ensures stays { OnErr result (cables.new.items ≡ cables.old.items) }
{
    match *entry {
        Entry::Put { stamp, cable, .. } => {
            if (stamp as usize) < cables.len() {
                return Ok(());
            }
            cables.push(cable)?;
            Ok(())
        }
        Entry::Hold { cable, .. } => {
            cables.push(cable)?;
            Ok(())
        }
        _ => Ok(()),
    }
}

impl Lines {
    /// A printer over this image that has printed nothing yet.
    pub fn new(alloc: Global, image: &Image) -> Result<Lines, AllocError>
        ensures { IfOk result (λ l. l ≡ record { addresses = addresses_of image.now; cables = [] }) }
    {
        let stations = Stations::new(alloc, image)?;
        Ok(Lines {
            stations,
            cables: Vec::new(alloc),
        })
    }

    /// Appends the line of an entry, with a line feed at its end. `bytes` are those of the number
    /// that the entry names.
    ///
    /// - `sent ADDR HEX`
    /// - `put STAMP cable K ADDR to WHO HEX`, where WHO is an address, `all` or `group G`
    /// - `took STAMP ADDR`
    /// - `reached cable K ADDR HOW HEX`, where HOW is `station`, `all`, `own`, `absent` or `held`
    /// - `dropped ADDR CAUSE HEX`, where CAUSE is `NoRoute` or `HopLimit`
    /// - `lost STAMP`
    /// - `hold STAMP cable K ADDR to ADDR HEX`, where the second ADDR is the next station's
    ///
    /// A station's ADDR is its address on the cable of the frame, or on the cable that the line
    /// names. A line without a cable has the address of the router's first port, or of the node.
    /// Cables are counted from 1. HEX is in upper case. The hop count in HEX is 0 except in `put` and
    /// `hold`.
    ///
    /// Error: out of memory; then the text may end with the line, or with a part of it.
    pub fn append(
        &mut self,
        text: &mut Vec<u8>,
        entry: &Entry,
        bytes: &[u8],
    ) -> Result<(), AllocError>
        ensures line { OnOk result ((kept : List (List ℕ)) → IsNamed kept entry.now bytes.now
            → text.new.items ≡ text.old.items ++ line self.old.addresses self.old.cables
            (entry_at kept entry.now) ++ 10 ∷ []) }
        ensures further { OnOk result ((kept : List (List ℕ)) → self.new ≡ record {
          addresses = self.old.addresses;
          cables = with_cable self.old.cables (entry_at kept entry.now);
        }) }
        ensures stays { OnErr result (self.new ≡ self.old) }
    {
        put_line(text, &self.stations, self.cables.as_slice(), entry, bytes)?;
        note_cable(&mut self.cables, entry)
    }
}
