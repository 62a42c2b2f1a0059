//! The words of a line.

use crate::hex;
use crate::stop::Stop;
use at_base::{Addr, Hw, Name, Range, Text32};
use std::alloc::Global;
use std::str::FromStr;

/// The remaining words of a line.
#[derive(Clone, Copy)]
pub struct Words<'a> {
    rest: &'a str,
}

fn parsed<T: FromStr>(text: &str) -> Result<T, Stop>
where
    T::Err: Drop,
{
    match text.parse() {
        Ok(value) => Ok(value),
        Err(_) => Err(Stop::Unclear),
    }
}

/// Appends the bytes of hexadecimal digits, as `00FF`, or several copies of them, as `00FF*587`.
fn put_bytes(bytes: &mut Vec<u8>, word: &str) -> Result<(), Stop> {
    match word.split_once('*') {
        Some((digits, count)) => {
            let count: u32 = parsed(count)?;
            for _ in 0..count {
                hex::read(bytes, digits.as_bytes())?;
            }
            Ok(())
        }
        None => hex::read(bytes, word.as_bytes()),
    }
}

/// Appends the bytes of a text, in which a backslash and two digits mean a byte.
fn put_escaped(bytes: &mut Vec<u8>, text: &[u8]) -> Result<(), Stop> {
    match text {
        [] => Ok(()),
        [b'\\', high, low, rest @ ..] => {
            bytes.push(hex::byte(*high, *low)?)?;
            put_escaped(bytes, rest)
        }
        [byte, rest @ ..] => {
            bytes.push(*byte)?;
            put_escaped(bytes, rest)
        }
    }
}

impl<'a> Words<'a> {
    /// The words of a line.
    pub fn new(line: &'a str) -> Words<'a> {
        Words { rest: line }
    }

    /// The next word; empty at the end of the line.
    pub fn word(&mut self) -> &'a str {
        match self.rest.split_once(' ') {
            Some((word, rest)) => {
                self.rest = rest;
                word
            }
            None => {
                let word = self.rest;
                self.rest = "";
                word
            }
        }
    }

    /// The rest of the line.
    pub fn rest(&mut self) -> &'a str {
        let rest = self.rest;
        self.rest = "";
        rest
    }

    /// Whether no word is left.
    pub fn is_empty(&self) -> bool {
        self.rest.is_empty()
    }

    /// Skips the next word if it is this one. Returns whether it was.
    pub fn passes(&mut self, word: &str) -> bool {
        let mut after = *self;
        if after.word() != word {
            return false;
        }
        *self = after;
        true
    }

    /// Skips the next word, which must be this one.
    pub fn expect(&mut self, word: &str) -> Result<(), Stop> {
        if self.passes(word) {
            Ok(())
        } else {
            Err(Stop::Unclear)
        }
    }

    /// A decimal number.
    pub fn number<T: FromStr>(&mut self) -> Result<T, Stop>
    where
        T::Err: Drop,
    {
        parsed(self.word())
    }

    /// A number after a word that names it, as `port 1`.
    pub fn named<T: FromStr>(&mut self, name: &str) -> Result<T, Stop>
    where
        T::Err: Drop,
    {
        self.expect(name)?;
        self.number()
    }

    /// `yes` or `no`.
    pub fn yes_or_no(&mut self) -> Result<bool, Stop> {
        match self.word() {
            "yes" => Ok(true),
            "no" => Ok(false),
            _ => Err(Stop::Unclear),
        }
    }

    /// An address, as `10.7`.
    pub fn addr(&mut self) -> Result<Addr, Stop> {
        match self.word().split_once('.') {
            Some((net, node)) => Ok(Addr {
                net: parsed(net)?,
                node: parsed(node)?,
            }),
            None => Err(Stop::Unclear),
        }
    }

    /// Two numbers, as `10-19`.
    pub fn bounds(&mut self) -> Result<(u16, u16), Stop> {
        match self.word().split_once('-') {
            Some((start, end)) => Ok((parsed(start)?, parsed(end)?)),
            None => Err(Stop::Unclear),
        }
    }

    /// A range of networks, as `10-19`.
    pub fn range(&mut self) -> Result<Range, Stop> {
        let (start, end) = self.bounds()?;
        Ok(Range::new(start, end)?)
    }

    /// A byte in two hexadecimal digits.
    pub fn byte(&mut self) -> Result<u8, Stop> {
        match self.word().as_bytes() {
            [high, low] => hex::byte(*high, *low),
            _ => Err(Stop::Unclear),
        }
    }

    /// The bytes of one word, as `00FF`, `00*587`, or `-` for none.
    pub fn hex(&mut self, alloc: Global) -> Result<Vec<u8>, Stop> {
        let mut bytes = Vec::new(alloc);
        let word = self.word();
        if word != "-" {
            put_bytes(&mut bytes, word)?;
        }
        Ok(bytes)
    }

    /// The bytes up to the end of the line, as `00FF 0102 00*3`.
    pub fn bytes(&mut self, alloc: Global) -> Result<Vec<u8>, Stop> {
        let mut bytes = Vec::new(alloc);
        for word in self.rest.split_whitespace() {
            put_bytes(&mut bytes, word)?;
        }
        self.rest = "";
        Ok(bytes)
    }

    /// A hardware address, as `020000000005`.
    pub fn hw(&mut self) -> Result<Hw, Stop> {
        match self.word().as_bytes() {
            [a, b, c, d, e, f, g, h, i, j, k, l] => Ok(Hw([
                hex::byte(*a, *b)?,
                hex::byte(*c, *d)?,
                hex::byte(*e, *f)?,
                hex::byte(*g, *h)?,
                hex::byte(*i, *j)?,
                hex::byte(*k, *l)?,
            ])),
            _ => Err(Stop::Unclear),
        }
    }

    /// The bytes of a text in quotation marks, as `"Lab \C5"`, or of one word.
    pub fn text(&mut self, alloc: Global) -> Result<Vec<u8>, Stop> {
        let mut bytes = Vec::new(alloc);
        let text = match self.rest.strip_prefix('"') {
            Some(quoted) => match quoted.split_once('"') {
                Some((text, rest)) => {
                    self.rest = rest.strip_prefix(' ').unwrap_or(rest);
                    text
                }
                None => return Err(Stop::Unclear),
            },
            None => self.word(),
        };
        put_escaped(&mut bytes, text.as_bytes())?;
        Ok(bytes)
    }

    /// A zone's name.
    pub fn name(&mut self, alloc: Global) -> Result<Name, Stop> {
        let bytes = self.text(alloc)?;
        Ok(Name::new(bytes.as_slice())?)
    }

    /// An object, a type or a zone of a name.
    pub fn text32(&mut self, alloc: Global) -> Result<Text32, Stop> {
        let bytes = self.text(alloc)?;
        Ok(Text32::new(bytes.as_slice())?)
    }

    /// The items, separated by semicolons, up to the end of the line or to a word `/`.
    pub fn list<T: Drop, F: Fn(&mut Words<'a>) -> Result<T, Stop> + Drop>(
        &mut self,
        alloc: Global,
        item: F,
    ) -> Result<Vec<T>, Stop>
        requires { F.IsAlwaysCallable item }
    {
        let mut items = Vec::new(alloc);
        for _ in 0..u64::MAX {
            if self.is_empty() || self.passes("/") {
                break;
            }
            items.push(item(self)?)?;
            let _ = self.passes(";");
        }
        Ok(items)
    }
}
