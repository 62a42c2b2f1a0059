//! The lines of a capture's blocks.

use crate::wide::put_wide;
use at_base::{Error, Hw};
use capture_feed::{Block, Clock, Listen};
use ethertalk::{Fault, Frame};
use pcapng::{Described, Interface, Seen};
use station::Kind;
use std::alloc::AllocError;
use std::io::Write;
use text::{Output, put_decimal, put_hex};

/// Prints the lines of a capture.
#[derive(Drop)]
pub(crate) struct Lines<W: Write> {
    output: Output<W>,
    clock: Clock,
    // How many interfaces the section has.
    interfaces: u32,
    // Why no more can be printed.
    failed: Option<Error>,
}

/// Appends a word and a number.
fn put_number(text: &mut Vec<u8>, word: &[u8], number: u32) -> Result<(), AllocError> {
    text.extend_from_slice(word)?;
    put_decimal(text, number)
}

/// Appends who gets a frame: all, a group, or a hardware address.
fn put_who(text: &mut Vec<u8>, to: &Hw) -> Result<(), AllocError> {
    if to.is_all() {
        return text.extend_from_slice(b"all");
    }
    match to.group() {
        Some(group) => put_number(text, b"group ", u32::from(group)),
        None => put_hex(text, &to.0),
    }
}

/// Appends what the packets and the times of an interface are in.
fn put_units(text: &mut Vec<u8>, interface: &Interface) -> Result<(), AllocError> {
    text.extend_from_slice(if interface.ethernet {
        b" ethernet"
    } else {
        b" other"
    })?;
    put_number(text, b" ", u32::from(interface.resolution))?;
    text.extend_from_slice(b" ")?;
    put_wide(text, interface.offset)
}

/// Appends an interface: its number, what its packets and times are in, and the name, which is in
/// hexadecimal digits where it isn't of printable ASCII.
fn put_interface(text: &mut Vec<u8>, number: u32, it: &Described) -> Result<(), AllocError> {
    put_number(text, b"interface ", number)?;
    put_units(text, &it.interface)?;
    match it.name {
        None => Ok(()),
        Some(name) => {
            text.extend_from_slice(b" ")?;
            if name.iter().all(|byte| (0x20..0x7F).contains(byte)) {
                text.extend_from_slice(name)
            } else {
                put_hex(text, name)
            }
        }
    }
}

/// Appends the interface and the time of a block, in microseconds, and the ticks that pass by it.
fn put_time(
    text: &mut Vec<u8>,
    word: &[u8],
    interface: u32,
    time: u64,
    clock: &mut Clock,
) -> Result<(), AllocError> {
    put_number(text, word, interface)?;
    text.extend_from_slice(b" ")?;
    put_wide(text, time)?;
    put_number(text, b" ", u32::from(clock.pass(time)))
}

/// Appends a frame: who sends it, who gets it, and what it holds.
fn put_frame(text: &mut Vec<u8>, frame: &Frame) -> Result<(), AllocError> {
    text.extend_from_slice(b" ")?;
    put_hex(text, &frame.from.0)?;
    text.extend_from_slice(b" ")?;
    put_who(text, &frame.to)?;
    text.extend_from_slice(match frame.kind {
        Kind::Ddp => b" ddp ",
        Kind::Aarp => b" aarp ",
    })?;
    put_hex(text, frame.packet)
}

/// Why bytes are no frame of EtherTalk.
fn why(fault: Fault) -> &'static [u8] {
    match fault {
        Fault::Cut => b" cut ",
        Fault::Length => b" length ",
        Fault::Header => b" header ",
        Fault::Protocol => b" protocol ",
    }
}

/// Appends a packet: a frame, or why it is none, with its bytes.
fn put_packet(text: &mut Vec<u8>, seen: &Seen, clock: &mut Clock) -> Result<(), AllocError> {
    let frame = Frame::read(seen.bytes);
    let no_frame: &[u8] = if !seen.ethernet {
        b" other "
    } else if !seen.whole {
        b" part "
    } else if seen.lost {
        b" lost "
    } else {
        match frame {
            Ok(frame) => {
                put_time(text, b"frame ", seen.interface, seen.time, clock)?;
                return put_frame(text, &frame);
            }
            Err(fault) => why(fault),
        }
    };
    put_time(text, b"packet ", seen.interface, seen.time, clock)?;
    text.extend_from_slice(no_frame)?;
    put_hex(text, seen.bytes)
}

impl<W: Write> Lines<W> {
    /// Lines for this output.
    pub(crate) fn new(output: Output<W>) -> Lines<W> {
        Lines {
            output,
            clock: Clock::new(),
            interfaces: 0,
            failed: None,
        }
    }

    /// The output.
    pub(crate) fn into_output(self) -> Output<W> {
        self.output
    }

    /// Whether all could be printed so far.
    pub(crate) fn ended(&self) -> Result<(), Error> {
        match self.failed {
            Some(error) => Err(error),
            None => Ok(()),
        }
    }

    /// Appends the line of a block.
    fn put(&mut self, block: &Block) -> Result<(), AllocError> {
        let text = &mut self.output.text;
        match block {
            Block::Section => {
                self.interfaces = 0;
                text.extend_from_slice(b"section")?;
            }
            Block::Classic(interface) => {
                text.extend_from_slice(b"classic")?;
                put_units(text, interface)?;
            }
            Block::Interface(described) => {
                put_interface(text, self.interfaces, described)?;
                self.interfaces = self.interfaces.saturating_add(1);
            }
            Block::Packet(seen) => put_packet(text, seen, &mut self.clock)?,
            Block::Heartbeat(interface, time) => {
                put_time(text, b"heartbeat ", *interface, *time, &mut self.clock)?;
            }
            Block::TooLong => text.extend_from_slice(b"passed over")?,
            Block::Other => return Ok(()),
        }
        text.extend_from_slice(b"\n")
    }

    /// Prints the line of a block.
    fn print(&mut self, block: &Block) -> Result<(), Error> {
        self.put(block)?;
        self.output.pass_on()
    }
}

impl<W: Write> Listen for Lines<W> {
    ghost heard = { λ before block after. Unit {0} };

    fn hear(&mut self, block: &Block) {
        if self.failed.is_none() {
            if let Err(error) = self.print(block) {
                self.failed = Some(error);
            }
        }
    }
}
