//! Prints the result of reading the image on standard input: `image`, or the place and the cause of
//! its first fault. `scripts/compare` compares that with another reader of images. With an argument
//! the image is fed in pieces of so many bytes, and with a second one, in pieces of up to so many,
//! whose lengths are made from that number.
#![tactic(auto)]

use at_base::Error;
use image_feed::{Feed, read};
use std::alloc::Global;
use std::io::Read;
use std::rt::Env;
use std::{env, io};

/// How an image is cut.
#[derive(Clone, Copy)]
struct Cuts {
    /// The bytes of a piece, or 0 where the image is read as a whole.
    piece: usize,
    /// What lengths are made from, if they aren't all alike.
    chance: Option<u32>,
}

impl Cuts {
    /// The length of the next piece.
    fn length(&mut self) -> usize {
        match self.chance {
            None => self.piece,
            Some(before) => {
                let chance = before.wrapping_mul(1_664_525).wrapping_add(1_013_904_223);
                self.chance = Some(chance);
                1 + (chance >> 8) as usize % self.piece.max(1)
            }
        }
    }
}

/// How the arguments say that the image is cut.
fn given_cuts<R: Env + AllocGlobal>(rt: &R) -> Result<Cuts, io::Error> {
    let mut cuts = Cuts {
        piece: 0,
        chance: None,
    };
    for (place, argument) in env::args(rt)?.enumerate() {
        let number = argument.as_str().parse::<u32>().ok();
        match place {
            1 => cuts.piece = number.unwrap_or(1) as usize,
            2 => cuts.chance = number,
            _ => {}
        }
    }
    Ok(cuts)
}

/// Feeds the bytes in pieces.
fn fed(alloc: Global, bytes: &[u8], mut cuts: Cuts) -> Result<(), Error> {
    let mut feed = Feed::new(alloc)?;
    let mut rest = bytes;
    for _turn in 0..bytes.len() {
        if rest.is_empty() {
            break;
        }
        let (front, after) = rest.split_at(cuts.length().min(rest.len()));
        feed.feed(front)?;
        rest = after;
    }
    feed.finish()?;
    Ok(())
}

/// Prints the result as a line.
fn print<R: Print>(rt: &R, answer: Result<(), Error>) -> Result<(), io::Error> {
    match answer {
        Ok(()) => println!(rt; "image"),
        Err(Error::BadImage(place, cause)) => println!(rt; "{place} {cause:?}"),
        Err(error) => println!(rt; "{error}"),
    }
}

fn main(rt: HostRuntime) -> Result<(), io::Error> {
    let cuts = given_cuts(&rt)?;
    let mut bytes = Vec::new(rt.alloc());
    rt.reader().read_to_end(&mut bytes)?;
    let answer = if cuts.piece == 0 {
        read(rt.alloc(), bytes.as_slice()).map(|_| ())
    } else {
        fed(rt.alloc(), bytes.as_slice(), cuts)
    };
    print(&rt, answer)
}
