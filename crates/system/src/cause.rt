// Why the system refuses a call.
use std::io::Error;

#[derive(Clone, Copy, PartialEq, Eq, Debug)]
pub enum Cause {
    Missing,
    Denied,
    Exists,
    Folder,
    Full,
    Pipe,
    Closed,
    ReadOnly,
    DiskFailed,
    Other,
}

impl From<Error> for Cause {
    fn from(e: Error) -> Cause {
        // The numbers that the system has for errors.
        match e.raw_os_error() {
            Some(2) => Cause::Missing,
            Some(9) => Cause::Closed,
            Some(13) => Cause::Denied,
            Some(17) => Cause::Exists,
            Some(21) => Cause::Folder,
            Some(28) => Cause::Full,
            Some(29) => Cause::Pipe,
            Some(30) => Cause::ReadOnly,
            Some(0) | Some(5) | None => Cause::DiskFailed,
            Some(_) => Cause::Other,
        }
    }
}

impl Cause {
    // In words.
    pub fn meaning(self) -> &'static [u8] {
        match self {
            Cause::Missing => b"it is missing",
            Cause::Denied => b"no permission",
            Cause::Folder => b"it is a folder",
            Cause::Full => b"the disk is full",
            Cause::Pipe => b"it is a pipe",
            Cause::Closed => b"it is closed",
            Cause::ReadOnly => b"the disk cannot be written",
            Cause::DiskFailed => b"the disk failed",
            Cause::Exists | Cause::Other => b"the system refused it",
        }
    }
}
