//! The hardware addresses that a port knows, and the datagrams that wait for one.

use crate::spelling::put_data;
use aarp::{Addresses, Asks, Held, Mapper};
use at_base::{Addr, Bytes, Error, Hw};
use case_words::{Answer, Stop, Words, put_hw, yes_or_no};
use std::alloc::{AllocError, Global};

/// The mapper of a port.
#[derive(Drop)]
pub(crate) struct Mapping {
    alloc: Global,
    mapper: Mapper,
}

fn put_mapping(text: &mut String, hw: Option<Hw>) -> Result<(), AllocError> {
    match hw {
        Some(hw) => put_hw(text, hw)?,
        None => write!(text, "none")?,
    }
    writeln!(text)
}

/// Appends all mappings, each in a line of its own, or that there is none.
fn put_all(text: &mut String, all: &[(Addr, Hw)]) -> Result<(), AllocError> {
    if all.is_empty() {
        return writeln!(text, "none");
    }
    for mapping in all {
        let (addr, hw) = *mapping;
        write!(text, "{addr} ")?;
        put_hw(text, hw)?;
        writeln!(text)?;
    }
    Ok(())
}

/// Appends a datagram that is released, or that there is none.
fn put_out(text: &mut String, held: &Option<Held>) -> Result<(), AllocError> {
    match held {
        Some(held) => {
            let (next, asked) = (held.next, held.asked);
            write!(text, "for {next} asked {asked}:")?;
            put_data(text, held.bytes.as_slice())
        }
        None => writeln!(text, "none"),
    }
}

/// Appends the addresses of a list after a word. An address that `contains` doesn't find in the
/// list is left out.
fn put_addresses(text: &mut String, word: &str, addresses: &Addresses) -> Result<(), AllocError> {
    if addresses.is_empty() && addresses.len() == 0 {
        return Ok(());
    }
    write!(text, "{word}")?;
    for addr in addresses.as_slice() {
        let addr = *addr;
        if addresses.contains(addr) {
            write!(text, " {addr}")?;
        }
    }
    writeln!(text)
}

/// Appends the addresses for which a tick sends requests, and those that it gives up.
fn put_asks(text: &mut String, asks: &Asks) -> Result<(), AllocError> {
    if asks.ask.is_empty() && asks.given_up.is_empty() {
        return writeln!(text, "none");
    }
    put_addresses(text, "ask", &asks.ask)?;
    put_addresses(text, "give up", &asks.given_up)?;
    put_stamps(text, asks.shed.as_slice())
}

/// Appends the stamps of the datagrams that are gone, if there are any.
fn put_stamps(text: &mut String, stamps: &[u32]) -> Result<(), AllocError> {
    if stamps.is_empty() {
        return Ok(());
    }
    write!(text, "shed")?;
    for stamp in stamps {
        write!(text, " {stamp}")?;
    }
    writeln!(text)
}

fn learn(mapper: &mut Mapper, mut words: Words<'_>) -> Answer {
    let addr = words.addr()?;
    mapper.learn(addr, words.hw()?)?;
    Ok(())
}

/// Learns one hardware address for a node of each network, as `1-256 node 1 020000000006`. Learning
/// a mapping twice has the same effect as once.
fn learn_each(mapper: &mut Mapper, mut words: Words<'_>) -> Answer {
    let (first, last) = words.bounds()?;
    let node = words.named("node")?;
    let hw = words.hw()?;
    for net in first..=last {
        mapper.learn(Addr { net, node }, hw)?;
    }
    Ok(())
}

/// Learns a mapping, and then another one ahead, if its address isn't known, as
/// `10.2 020000000007 after 10.1 020000000006`.
fn meet(mapper: &mut Mapper, mut words: Words<'_>) -> Answer {
    let addr = words.addr()?;
    let hw = words.hw()?;
    words.expect("after")?;
    mapper.learn(words.addr()?, words.hw()?)?;
    if mapper.look(addr).is_none() {
        mapper.meet(addr, hw)?;
    }
    Ok(())
}

/// The datagram that the next command holds, with its stamp, if it has one.
fn held(alloc: Global, stamp: Option<u32>, mut words: Words<'_>) -> Result<Held, Stop> {
    Ok(Held {
        next: words.addr()?,
        asked: 0,
        stamp,
        bytes: Bytes::from_vec(words.bytes(alloc)?),
    })
}

fn put_holds(text: &mut String, mapper: &Mapper, addr: Addr) -> Result<(), AllocError> {
    let holds = yes_or_no(mapper.holds(addr));
    writeln!(text, "{holds}")
}

impl Mapping {
    /// A mapper without mappings and datagrams.
    pub(crate) fn new(alloc: Global) -> Result<Mapping, Error> {
        Ok(Mapping {
            alloc,
            mapper: Mapper::new(alloc)?,
        })
    }

    /// Carries out a command.
    pub(crate) fn act(&mut self, mut words: Words<'_>, text: &mut String) -> Answer {
        match words.word() {
            "learn" => learn(&mut self.mapper, words)?,
            "learn-each" => learn_each(&mut self.mapper, words)?,
            "look" => put_mapping(text, self.mapper.look(words.addr()?))?,
            "all" => put_all(text, self.mapper.all()?.as_slice())?,
            "meet" => meet(&mut self.mapper, words)?,
            "forget" => self.mapper.forget(words.addr()?),
            "hold" => put_out(text, &self.mapper.hold(held(self.alloc, None, words)?))?,
            "hold-as" => {
                let stamp = words.number()?;
                put_out(
                    text,
                    &self.mapper.hold(held(self.alloc, Some(stamp), words)?),
                )?
            }
            "holds" => put_holds(text, &self.mapper, words.addr()?)?,
            "release" => put_out(text, &self.mapper.release(words.addr()?))?,
            "tick" => put_asks(text, &self.mapper.tick())?,
            _ => return Err(Stop::Unclear),
        }
        Ok(())
    }
}
