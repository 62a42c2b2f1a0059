//! The options of blocks.

ghost use Rattle.std.specs.Prelude.{◌≡◌, drop, fold};
ghost use Rattle.std.specs.List.{list_any};
ghost use Rattle.at_base.specs.Reading.{Gives};
ghost use Rattle.at_base.specs.Text.{same_bytes};
ghost use Rattle.pcapng.specs.Fields as fields_spec;
ghost use Rattle.pcapng.specs.Options as spec;
ghost use Rattle.pcapng.specs.Options.{options_within};
ghost use Rattle.pcapng.specs.Reads.{described};

use crate::fault::Fault;
use crate::fields::gap;
use crate::interface::Interface;
use crate::order::{Order, run_of};

/// The most options that are looked at: more than a block of 2,048 bytes can have.
pub(crate) const MAX_OPTIONS: u32 = 512;

/// The codes of the options that are read: a comment, and of an interface its name, the resolution
/// of its times, and their offset.
const COMMENT: u16 = 1;

const NAME: u16 = 2;

const RESOLUTION: u16 = 9;

const OFFSET: u16 = 14;

/// The comment of a frame that was lost.
const LOST: [u8; 4] = *b"lost";

/// An interface that a block describes.
#[derive(Clone, Copy, Debug)]
pub struct Described<'a> {
    /// What its times and packets are read by.
    pub interface: Interface,
    /// Its name, if it has one.
    pub name: Option<&'a [u8]>,
}

/// What follows the padding after so many bytes.
fn past_padding(len: u32, bytes: &[u8]) -> &[u8]
    ensures { result.now ≡ drop (fields_spec.gap len) bytes.now }
{
    bytes.get(gap(len) as usize..).unwrap_or(&[])
}

/// The code and the value of the option at the front, and what follows its padding. Error: `Cut` at
/// the end of the options, and where the option isn't whole.
fn option_at(order: Order, bytes: &[u8]) -> Result<(u16, &[u8], &[u8]), Fault>
    ensures { Gives (λ x. ((x.0, x.1.now), x.2.now)) result (spec.option_at order bytes.now) }
{
    let (code, rest) = order.two(bytes)?;
    let (len, rest) = order.two(rest)?;
    let (value, rest) = run_of(rest, usize::from(len))?;
    if code == 0 {
        return Err(Fault::Cut);
    }
    Ok((code, value, past_padding(u32::from(len), rest)))
}

/// The interface with one option more. Of an option that comes twice the later one counts.
fn with_option<'a>(order: Order, before: Described<'a>, code: u16, value: &'a [u8]) -> Described<'a>
    ensures { described result ≡ spec.with_option order (described before.entry) (code, value.now) }
{
    let Described { interface, name } = before;
    if code == NAME {
        return Described {
            interface,
            name: Some(value),
        };
    }
    if code == RESOLUTION && value.len() == 1 {
        return Described {
            interface: Interface {
                resolution: value[0],
                ..interface
            },
            name,
        };
    }
    if code == OFFSET && value.len() == 8 {
        return Described {
            interface: Interface {
                offset: order.eight_in(value),
                ..interface
            },
            name,
        };
    }
    before
}

/// The interface with its options, at most so many.
fn chosen<'a>(order: Order, most: u32, before: Described<'a>, bytes: &'a [u8]) -> Described<'a>
    ensures { described result
        ≡ fold (spec.with_option order) (described before.entry) (options_within most order bytes.now) }
{
    if most == 0 {
        return before;
    }
    match option_at(order, bytes) {
        Ok((code, value, rest)) => {
            let one = with_option(order, before, code, value);
            chosen(order, most - 1, one, rest)
        }
        Err(_) => before,
    }
}

/// The interface with its options.
pub(crate) fn with_options(order: Order, ethernet: bool, bytes: &[u8]) -> Described<'_>
    ensures { described result
        ≡ fold (spec.with_option order) (spec.plain ethernet) (spec.options_of order bytes.now) }
{
    let plain = Described {
        interface: Interface::plain(ethernet),
        name: None,
    };
    chosen(order, MAX_OPTIONS, plain, bytes)
}

fn is_word(word: &[u8], other: &[u8]) -> bool
    ensures { result ≡ same_bytes word.now other.now }
{
    word == other
}

fn is_lost(code: u16, value: &[u8]) -> bool
    ensures { result ≡ spec.is_lost (code, value.now) }
{
    code == COMMENT && is_word(value, &LOST)
}

/// Whether one of the options, at most so many, is the comment of a frame that was lost.
fn any_lost(order: Order, most: u32, bytes: &[u8]) -> bool
    ensures { result ≡ list_any spec.is_lost (options_within most order bytes.now) }
{
    if most == 0 {
        return false;
    }
    match option_at(order, bytes) {
        Ok((code, value, rest)) => is_lost(code, value) || any_lost(order, most - 1, rest),
        Err(_) => false,
    }
}

/// Whether a packet's options say that its frame was lost. They come after so many bytes and their
/// padding.
#[inline(always)]
pub(crate) fn says_lost(order: Order, len: u32, bytes: &[u8]) -> bool
    ensures { result
        ≡ list_any spec.is_lost (spec.options_of order (drop (fields_spec.gap len) bytes.now)) }
{
    any_lost(order, MAX_OPTIONS, past_padding(len, bytes))
}
