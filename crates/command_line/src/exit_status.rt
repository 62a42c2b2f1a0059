//! The exit status of a result.

ghost use Rattle.std.specs.Prelude.{◌≡◌};
ghost use Rattle.command_line.specs.Status.{status_of};

use at_base::Error;

/// The exit status of a result: 0 if the image passes the audit, 1 if it fails, 2 for invalid
/// input, 3 if memory, reading or writing failed.
pub fn status(answer: &Result<bool, Error>) -> u8
    ensures { result ≡ status_of answer.now }
{
    match answer {
        Ok(true) => 0,
        Ok(false) => 1,
        Err(Error::Memory | Error::ReadFault | Error::WriteFault) => 3,
        Err(_) => 2,
    }
}
