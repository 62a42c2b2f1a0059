//! The file that a path names as an output.

ghost use Rattle.std.specs.Prelude.{◌≡◌, ◌==◌, ◌&&◌};

use std::fs::Metadata;
use std::io;
use std::io::ErrorKind;
use std::os::unix::fs::MetadataExt;
use std::path::{Path, PathBuf};
use std::rt::Files;

/// The greatest number of links that are followed from a path to a file that isn't there, as Linux
/// has it.
const MAX_LINKS: u32 = 40;

/// What tells a regular file that exists from every other: its device and inode.
#[derive(Clone, Copy)]
pub struct FileId {
    pub device: u64,
    pub inode: u64,
}

impl FileId {
    /// The identity of a regular file; `None` for a pipe, a device and all else.
    pub fn of(metadata: &Metadata) -> Option<FileId> {
        if metadata.is_file() {
            Some(FileId {
                device: metadata.dev(),
                inode: metadata.ino(),
            })
        } else {
            None
        }
    }

    /// Whether the two are one file.
    pub(crate) fn is(self, other: FileId) -> bool
        ensures { result ≡ (self.device == other.device) && (self.inode == other.inode) }
    {
        self.device == other.device && self.inode == other.inode
    }

    /// The identity of the regular file at a path, if there is one.
    pub fn at(rt: &HostRuntime, path: &str) -> Option<FileId> {
        match found(rt, path) {
            Ok(id) => id,
            Err(_) => None,
        }
    }
}

/// Where the bytes of an output go.
#[derive(Drop)]
pub enum Target {
    /// A pipe, a device: what isn't a regular file.
    Stream,
    /// A regular file, with its path where no link is left in it, if it has one.
    Existing(FileId, Option<PathBuf>),
    /// A file that isn't there yet, with its path where no link is left in it.
    New(PathBuf),
}

impl Target {
    /// The target that a path names; links are followed to their ends. Errors: those of the system,
    /// and `OutOfMemory`.
    pub fn at(rt: &HostRuntime, path: &str) -> io::Result<Target> {
        match found(rt, path) {
            Ok(Some(id)) => existing(rt, path, id),
            Ok(None) => Ok(Target::Stream),
            Err(error) => match error.kind() {
                ErrorKind::NotFound => new(rt, path),
                _ => Err(error),
            },
        }
    }
}

/// What is at a path: the identity of a regular file, `None` for all else.
fn found(rt: &HostRuntime, path: &str) -> io::Result<Option<FileId>> {
    match rt.metadata(path) {
        Ok(metadata) => Ok(FileId::of(&metadata)),
        Err(error) => Err(error),
    }
}

/// The target of a file that exists, with its path without any link, if that can be told: a file that
/// was deleted, and is reached through its descriptor, has none. Error: `OutOfMemory`.
fn existing(rt: &HostRuntime, path: &str, id: FileId) -> io::Result<Target> {
    match rt.canonicalize(rt.alloc(), path) {
        Ok(path) => Ok(Target::Existing(id, Some(path))),
        Err(error) => match error.kind() {
            ErrorKind::OutOfMemory => Err(error),
            _ => Ok(Target::Existing(id, None)),
        },
    }
}

/// The target of a file that isn't there: its folder must exist.
fn new(rt: &HostRuntime, path: &str) -> io::Result<Target> {
    let Ok(mut path) = PathBuf::from_str(rt.alloc(), path) else {
        return Err(io::Error::from(ErrorKind::OutOfMemory));
    };
    match follow_all(rt, &mut path) {
        Ok(()) => in_its_folder(rt, path.as_path()),
        Err(error) => Err(error),
    }
}

/// Follows a path to where there is no link.
fn follow_all(rt: &HostRuntime, path: &mut PathBuf) -> io::Result<()> {
    for _ in 0..MAX_LINKS {
        match follow(rt, path) {
            Ok(true) => {}
            Ok(false) => return Ok(()),
            Err(error) => return Err(error),
        }
    }
    Err(io::Error::from(ErrorKind::FilesystemLoop))
}

/// Puts the path that a symbolic link leads to in the place of its own, if this is a link.
fn follow(rt: &HostRuntime, path: &mut PathBuf) -> io::Result<bool> {
    match rt.read_link(rt.alloc(), path.as_str()) {
        Ok(to) => {
            path.pop();
            match path.push(to.as_str()) {
                Ok(()) => Ok(true),
                Err(error) => Err(io::Error::from(error)),
            }
        }
        Err(error) => match error.kind() {
            ErrorKind::OutOfMemory => Err(error),
            _ => Ok(false),
        },
    }
}

/// The new file at a path, whose folder's links are followed. Error: `NotFound` where the path
/// doesn't end in the name of a file, as `folder/` and `folder/..` do.
fn in_its_folder(rt: &HostRuntime, path: Path<'_>) -> io::Result<Target> {
    match path.file_name() {
        Some(name) if path.as_str().ends_with(name) => {
            match rt.canonicalize(rt.alloc(), folder_of(path)) {
                Ok(mut whole) => match whole.push(name) {
                    Ok(()) => Ok(Target::New(whole)),
                    Err(error) => Err(io::Error::from(error)),
                },
                Err(error) => Err(error),
            }
        }
        _ => Err(io::Error::from(ErrorKind::NotFound)),
    }
}

/// The folder of a path: where the path is only a name, the current one.
fn folder_of<'a>(path: Path<'a>) -> &'a str {
    match path.parent() {
        Some(folder) if !folder.as_str().is_empty() => folder.as_str(),
        _ => ".",
    }
}
