//! Parts: what is written beside a target until it is whole.

ghost use Rattle.std.specs.Io.{WritesAtMost};

use std::alloc::AllocError;
use std::fs::{File, OpenOptions, Permissions};
use std::io;
use std::io::{ErrorKind, Write};
use std::os::unix::fs::{MetadataExt, OpenOptionsExt, PermissionsExt};
use std::path::PathBuf;
use std::rt::Files;

/// The number of names for parts in one folder.
const PARTS: u32 = 100;

/// What is to replace a target. Its part is created by the first write.
#[derive(Drop)]
pub(crate) struct Part {
    target: PathBuf,
    /// The permissions of the target, if it exists.
    mode: Option<u32>,
    /// The path of the part, if it was created.
    path: PathBuf,
    /// The part, if it was created.
    file: Option<File>,
}

/// What the system says of a file.
#[derive(Clone, Copy)]
pub(crate) struct Told {
    user: u32,
    group: u32,
    links: u64,
    mode: u32,
}

/// How a part is created: where the target exists, nobody else may read the part before it has the
/// target's permissions.
fn options(exists: bool) -> OpenOptions {
    let mut options = OpenOptions::new();
    options.write(true).create_new(true);
    if exists {
        options.mode(0o600);
    }
    options
}

/// Waits until a file is on the disk, where the disk can say so.
pub(crate) fn settle(file: &File) -> io::Result<()> {
    match file.sync_all() {
        Ok(()) => Ok(()),
        Err(error) => match error.kind() {
            ErrorKind::InvalidInput | ErrorKind::Unsupported => Ok(()),
            _ => Err(error),
        },
    }
}

impl Told {
    /// What it says of an open file.
    fn of(file: &File) -> io::Result<Told> {
        match file.metadata() {
            Ok(metadata) => Ok(Told {
                user: metadata.uid(),
                group: metadata.gid(),
                links: metadata.nlink(),
                mode: metadata.mode(),
            }),
            Err(error) => Err(error),
        }
    }

    /// Whether a file like this can be replaced by a part like that: it has the same owner and group,
    /// and no other link leads to it.
    fn is_alike(self, part: Told) -> bool {
        self.user == part.user && self.group == part.group && self.links <= 1
    }
}

impl Part {
    /// The part for a target, as for one that doesn't exist: `can_replace` says more of one that does.
    pub(crate) fn new(rt: &HostRuntime, target: PathBuf) -> Part {
        Part {
            target,
            mode: None,
            path: PathBuf::new(rt.alloc()),
            file: None,
        }
    }

    /// Whether the part can replace the target, which exists and is open. It then gets the permissions
    /// of the target. Error: `OutOfMemory`.
    pub(crate) fn can_replace(&mut self, rt: &HostRuntime, file: &File) -> io::Result<bool> {
        let target = match Told::of(file) {
            Ok(target) => target,
            Err(error) => return Err(error),
        };
        self.mode = Some(target.mode);
        match self.try_out(rt) {
            Ok(part) => Ok(target.is_alike(part)),
            Err(error) => match error.kind() {
                ErrorKind::OutOfMemory => Err(error),
                _ => Ok(false),
            },
        }
    }

    /// Creates the part and removes it, and returns what the system says of it.
    pub(crate) fn try_out(&mut self, rt: &HostRuntime) -> io::Result<Told> {
        match self.begun(rt) {
            Ok(file) => {
                let told = Told::of(file);
                match self.remove(rt) {
                    Ok(()) => told,
                    Err(error) => Err(error),
                }
            }
            Err(error) => Err(error),
        }
    }

    /// The part. It is created, if that wasn't done yet, with the permissions of the target if that
    /// exists; one that can't have them is removed.
    fn begun(&mut self, rt: &HostRuntime) -> io::Result<&mut File> {
        match self.begin(rt) {
            Ok(()) => match &mut self.file {
                Some(file) => Ok(file),
                None => Err(io::Error::from(ErrorKind::NotFound)),
            },
            Err(error) => Err(error),
        }
    }

    /// Creates the part, if that wasn't done yet.
    fn begin(&mut self, rt: &HostRuntime) -> io::Result<()> {
        if self.file.is_some() {
            return Ok(());
        }
        match self.create(rt) {
            Ok(()) => self.permit(rt),
            Err(error) => Err(error),
        }
    }

    /// Creates the part beside the target, under the first name that nothing has.
    fn create(&mut self, rt: &HostRuntime) -> io::Result<()> {
        for number in 0..PARTS {
            self.set_number(rt, number)?;
            match self.create_here(rt) {
                Ok(()) => return Ok(()),
                Err(error) => match error.kind() {
                    ErrorKind::AlreadyExists => {}
                    _ => return Err(error),
                },
            }
        }
        Err(io::Error::from(ErrorKind::AlreadyExists))
    }

    /// Gives the part the name with this number.
    fn set_number(&mut self, rt: &HostRuntime, number: u32) -> Result<(), AllocError> {
        let name = format!(in rt.alloc(); "atalk-part-{number}")?;
        self.path = self.target.with_file_name(rt.alloc(), name.as_str())?;
        Ok(())
    }

    /// Creates the part at its path.
    fn create_here(&mut self, rt: &HostRuntime) -> io::Result<()> {
        match rt.open_file(&options(self.mode.is_some()), self.path.as_str()) {
            Ok(file) => {
                self.file = Some(file);
                Ok(())
            }
            Err(error) => Err(error),
        }
    }

    /// Gives the part the permissions of the target, if that exists. A part that can't have them is
    /// removed.
    fn permit(&mut self, rt: &HostRuntime) -> io::Result<()> {
        let (Some(file), Some(mode)) = (&self.file, self.mode) else {
            return Ok(());
        };
        match file.set_permissions(Permissions::from_mode(mode)) {
            Ok(()) => Ok(()),
            Err(error) => {
                let _ = self.remove(rt);
                Err(error)
            }
        }
    }

    /// Writes bytes to the part.
    pub(crate) fn write(&mut self, rt: &HostRuntime, bytes: &[u8]) -> io::Result<usize>
        ensures { WritesAtMost result bytes.now }
    {
        match self.begun(rt) {
            Ok(file) => file.write(bytes),
            Err(error) => Err(error),
        }
    }

    /// Waits until the part is on the disk. It is created if nothing was written.
    pub(crate) fn finish(&mut self, rt: &HostRuntime) -> io::Result<()> {
        match self.begun(rt) {
            Ok(file) => settle(file),
            Err(error) => Err(error),
        }
    }

    /// Puts the part in the place of its target.
    pub(crate) fn rename(&self, rt: &HostRuntime) -> io::Result<()> {
        rt.rename(self.path.as_str(), self.target.as_str())
    }

    /// Removes the part, if it was created.
    pub(crate) fn remove(&mut self, rt: &HostRuntime) -> io::Result<()> {
        if self.file.is_none() {
            return Ok(());
        }
        self.file = None;
        rt.remove_file(self.path.as_str())
    }
}
