//! Numbers of protocols and sockets, and limits.

use case_words::{Answer, Stop, Words};
use ddp::{kind, socket};

/// The number of a DDP type, a socket or a first byte of an echo.
fn number_of(name: &str) -> Option<u8> {
    Some(match name {
        "type RTMP data" => kind::RTMP_DATA,
        "type NBP" => kind::NBP,
        "type ATP" => kind::ATP,
        "type AEP" => kind::AEP,
        "type RTMP request" => kind::RTMP_REQUEST,
        "type ZIP" => kind::ZIP,
        "socket RTMP" => socket::RTMP,
        "socket names" => socket::NAMES,
        "socket echoer" => socket::ECHO,
        "socket ZIP" => socket::ZIP,
        "echo request" => echo::REQUEST,
        "echo reply" => echo::REPLY,
        _ => return None,
    })
}

/// A length in bytes, or another limit.
fn limit_of(name: &str) -> Option<usize> {
    Some(match name {
        "DDP header" => ddp::HEADER_LEN,
        "DDP data" => at_base::limits::MAX_DATA,
        "DDP datagram" => ddp::MAX_LEN,
        "AARP packet" => aarp::PACKET_LEN,
        "ATP header" => atp::HEADER_LEN,
        "ATP data" => atp::MAX_DATA,
        "ATP parts" => atp::MAX_PARTS,
        "ZIP page" => zip_zones::MAX_PAGE,
        "ZIP networks" => zip_zones::MAX_NETWORKS,
        _ => return None,
    })
}

/// Appends a number or a limit by its name.
pub(crate) fn number(mut words: Words<'_>, text: &mut String) -> Answer {
    let name = words.rest();
    let limit = match number_of(name) {
        Some(number) => Some(usize::from(number)),
        None => limit_of(name),
    };
    match limit {
        Some(limit) => writeln!(text, "{limit}")?,
        None => return Err(Stop::Unclear),
    }
    Ok(())
}
