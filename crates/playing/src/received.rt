//! The lines of received datagrams.

ghost use Rattle.std.specs.Prelude.{◌≡◌, ◌++◌, OnErr, OnOk};
ghost use Rattle.playing.specs.Lines.{data_text, received_line, received_lines};

use end_node::Datagram;
use std::alloc::AllocError;
use text::{put_address, put_decimal, put_hex};

/// Appends data in hexadecimal digits, or a dash if there is none.
fn put_data(text: &mut Vec<u8>, payload: &[u8]) -> Result<(), AllocError>
    ensures { OnOk result (text.new.items ≡ text.old.items ++ data_text payload.now) }
{
    if payload.is_empty() {
        text.push(b'-')?;
        Ok(())
    } else {
        put_hex(text, payload)
    }
}

/// Appends the line of a datagram.
fn put_line(text: &mut Vec<u8>, node: u16, datagram: &Datagram) -> Result<(), AllocError>
    ensures { OnOk result (text.new.items ≡ text.old.items ++ received_line node datagram.now) }
{
    text.extend_from_slice(b"node ")?;
    put_decimal(text, u32::from(node))?;
    text.extend_from_slice(b" received ")?;
    put_address(text, datagram.source)?;
    text.push(b' ')?;
    put_decimal(text, u32::from(datagram.target_socket))?;
    text.push(b' ')?;
    put_decimal(text, u32::from(datagram.kind))?;
    text.push(b' ')?;
    put_data(text, datagram.payload.as_slice())?;
    text.push(b'\n')?;
    Ok(())
}

/// Appends a line for each datagram, the oldest first.
fn put_lines(text: &mut Vec<u8>, node: u16, datagrams: &[Datagram]) -> Result<(), AllocError>
    ensures { OnOk result
        (text.new.items ≡ text.old.items ++ received_lines node datagrams.now) }
{
    match datagrams {
        [] => Ok(()),
        [first, rest @ ..] => {
            put_line(text, node, first)?;
            put_lines(text, node, rest)
        }
    }
}

/// Appends a line for each datagram that a node received, the oldest first: `node K received SOURCE
/// SOCKET TYPE DATA`. Nodes are counted from 1, SOCKET is the target socket, and DATA is in
/// hexadecimal digits, or a dash if there is none. Error: `AllocError`; the text then stays as it
/// was.
pub fn put_received(text: &mut Vec<u8>, node: u16, datagrams: &[Datagram]) -> Result<(), AllocError>
    ensures ok { OnOk result
        (text.new.items ≡ text.old.items ++ received_lines node datagrams.now) }
    ensures kept { OnErr result (text.new.items ≡ text.old.items) }
{
    let mut lines = Vec::new(*text.allocator());
    put_lines(&mut lines, node, datagrams)?;
    text.extend_from_slice(lines.as_slice())
}
