//! Why an input is invalid.

use at_base::Cause;
use std::io;
use std::io::ErrorKind;

/// Why a file can't be opened or read.
pub fn explain_kind(kind: ErrorKind) -> &'static str {
    match kind {
        ErrorKind::NotFound => "there is no such file",
        ErrorKind::PermissionDenied => "permission denied",
        ErrorKind::IsADirectory => "it is a folder",
        ErrorKind::NotADirectory => "a part of its path is no folder",
        ErrorKind::FilesystemLoop => "its symbolic links form a loop",
        ErrorKind::InvalidFilename => "its name is too long",
        ErrorKind::OutOfMemory => "out of memory",
        ErrorKind::StorageFull => "the disk is full",
        ErrorKind::QuotaExceeded => "the disk quota is used up",
        ErrorKind::FileTooLarge => "the file would be too large",
        ErrorKind::ReadOnlyFilesystem => "the disk is read-only",
        ErrorKind::BrokenPipe => "its reader is gone",
        _ => "the system reports an error",
    }
}

/// The fault of an image, in words.
fn explain_cause(cause: Cause) -> &'static str {
    match cause {
        Cause::Cut => "it ends within a field; was it cut short?",
        Cause::Magic => {
            "it does not begin with ATIM; is it an internet file, for atalk play, \
             or a tables file, for atalk make?"
        }
        Cause::Version => "its version is neither 1 nor 2, and this atalk reads no other",
        Cause::Count => "this count is above its limit",
        Cause::Index => "there is no cable or port of this index",
        Cause::Value => "this distance, state, flag, socket or enumerator is outside its range",
        Cause::Name => "this length or text is that of no zone, object or type",
        Cause::Order => "this first network, address or enumerator is not above the one before it",
        Cause::Trailing => "bytes follow the last node",
    }
}

/// Prints the place and the cause of an image's first fault, with the byte at that place.
pub fn explain_flaw(
    rt: &impl Eprint,
    place: u32,
    cause: Cause,
    byte: Option<u8>,
) -> io::Result<()> {
    eprint!(rt; "is no image: at byte {place}")?;
    if let Some(byte) = byte {
        eprint!(rt; " (0x{byte:02X})")?;
    }
    eprintln!(rt; ", counted from 0, {}", explain_cause(cause))?;
    eprintln!(rt; "The format of images: man atalk-image")
}
