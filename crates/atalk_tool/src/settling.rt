//! Whether tables that pass stay as they are: the line that says so, after that of the verdict.

ghost use Rattle.std.specs.Prelude.{◌≡◌, false};

use crate::printing::Printing;
use crate::telling::Telling;
use at_base::Error;
use settled::{Settling, settled};
use table_image::Image;
use text::Output;

/// Prints the line, and returns whether the tables are settled. Errors: `Memory`; `WriteFault`.
fn print_settling<R: Print + AllocGlobal>(
    rt: &R,
    image: &Image,
    name: Option<&str>,
    telling: Telling,
) -> Result<bool, Error> {
    let settling = settled(image);
    let line = format!(in rt.alloc(); "{settling}")?;
    let mut output = Output::new(rt.alloc(), Printing::named(rt, telling, name));
    output.write_line(line.as_bytes())?;
    Ok(settling == Settling::Yes)
}

/// The answer of a command that judged this image, if it judged one. Where a yes is to say whether
/// the tables are settled too, that line is printed, and the answer is whether they are. Errors:
/// those of the command; `Memory`; `WriteFault`.
pub fn settle<R: Print + AllocGlobal>(
    rt: &R,
    answer: Result<bool, Error>,
    image: Option<&Image>,
    name: Option<&str>,
    telling: Telling,
) -> Result<bool, Error>
    ensures plain { telling.settled ≡ false → result ≡ answer }
{
    match (answer, image) {
        (Ok(true), Some(image)) if telling.settled => print_settling(rt, image, name, telling),
        (answer, _) => answer,
    }
}
