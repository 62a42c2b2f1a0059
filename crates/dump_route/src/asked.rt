//! What the arguments ask for.

use at_base::Error;
use cabled::Peers;
use file_router::{Given, name_in};
use std::env;
use std::rt::Env;

/// A router of a file.
#[derive(Drop)]
pub(crate) struct Asked {
    /// The path of the internet file.
    pub(crate) file: String,
    /// The index of the router, from 0.
    pub(crate) router: usize,
    pub(crate) peers: Peers,
    pub(crate) names: Vec<Given>,
}

/// What the words of the arguments ask for; a word that isn't understood asks for nothing.
pub(crate) fn read_words<R: Env + AllocGlobal>(rt: &R) -> Result<Asked, Error> {
    let mut asked = Asked {
        file: String::new(rt.alloc()),
        router: 0,
        peers: Peers::Real,
        names: Vec::new(rt.alloc()),
    };
    let Ok(arguments) = env::args(rt) else {
        return Err(Error::Memory);
    };
    for (place, argument) in arguments.enumerate() {
        let word = argument.as_str();
        match place {
            0 => {}
            1 => asked.file.push_str(word)?,
            2 => asked.router = word.parse::<usize>().unwrap_or(0).wrapping_sub(1),
            3 if word == "played" => asked.peers = Peers::Played,
            _ => {
                if let Some(name) = name_in(rt.alloc(), word.as_bytes())? {
                    asked.names.push(name)?;
                }
            }
        }
    }
    Ok(asked)
}
