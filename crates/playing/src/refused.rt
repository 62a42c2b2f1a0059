//! The lines of refused actions.

ghost use Rattle.std.specs.Prelude.{◌≡◌, ◌++◌, OnErr, OnOk};
ghost use Rattle.playing.specs.Lines.{refused_line, refused_lines};

use std::alloc::AllocError;
use text::put_decimal;

/// Appends the line of an action that had an error: its number, from 1, and the number of the
/// error.
fn put_line(text: &mut Vec<u8>, refused: (u32, u8)) -> Result<(), AllocError>
    ensures { OnOk result (text.new.items ≡ text.old.items ++ refused_line refused) }
{
    text.extend_from_slice(b"action ")?;
    put_decimal(text, refused.0)?;
    text.extend_from_slice(b" refused ")?;
    put_decimal(text, u32::from(refused.1))?;
    text.push(b'\n')?;
    Ok(())
}

/// Appends a line for each action that had an error, in order.
fn put_lines(text: &mut Vec<u8>, refused: &[(u32, u8)]) -> Result<(), AllocError>
    ensures { OnOk result (text.new.items ≡ text.old.items ++ refused_lines refused.now) }
{
    match refused {
        [] => Ok(()),
        [first, rest @ ..] => {
            put_line(text, *first)?;
            put_lines(text, rest)
        }
    }
}

/// Appends a line for each action that had an error, in order: `action K refused N`, where actions
/// are counted from 1, and N is the number of the error. Error: `AllocError`; the text then stays
/// as it was.
pub fn put_refused(text: &mut Vec<u8>, refused: &[(u32, u8)]) -> Result<(), AllocError>
    ensures ok { OnOk result (text.new.items ≡ text.old.items ++ refused_lines refused.now) }
    ensures kept { OnErr result (text.new.items ≡ text.old.items) }
{
    let mut lines = Vec::new(*text.allocator());
    put_lines(&mut lines, refused)?;
    text.extend_from_slice(lines.as_slice())
}
