// Whole files by name.
ghost use Rattle.std.specs.Prelude.{◌≤◌, length};

use crate::cause::Cause;
use crate::say;
use crate::text::{Text, line_with};
use std::fs;
use std::fs::{File, OpenOptions};
use std::io::{Error, Read, Seek, SeekFrom, Write};
use std::os::fd::{AsRawFd, IntoRawFd};

// Why a file is not open: one in which there is no going back is a pipe.
#[derive(Clone, Copy, PartialEq, Eq, Debug)]
pub enum OpenError {
    Missing,
    Pipe,
    Failed(Cause),
}

impl From<Cause> for OpenError {
    fn from(cause: Cause) -> OpenError {
        match cause {
            Cause::Missing => OpenError::Missing,
            _ => OpenError::Failed(cause),
        }
    }
}

// Why it is not known what a file holds.
#[derive(Clone, Copy, PartialEq, Eq, Debug)]
pub enum ReadError {
    Missing,
    TooLarge,
    Failed(Cause),
}

impl From<Error> for ReadError {
    fn from(e: Error) -> ReadError {
        ReadError::Failed(Cause::from(e))
    }
}

impl From<OpenError> for ReadError {
    fn from(e: OpenError) -> ReadError {
        match e {
            OpenError::Missing => ReadError::Missing,
            OpenError::Pipe => ReadError::Failed(Cause::Pipe),
            OpenError::Failed(cause) => ReadError::Failed(cause),
        }
    }
}

// A name as a text; one that is none names no file.
fn path(name: &[u8]) -> &str {
    std::str::from_utf8(name).unwrap_or("")
}

// Opens a file to read it. To open a pipe waits for somebody who writes to it, but not where it is opened to write too: so the file is,
// where that is allowed. Nothing is written.
fn open_any(rt: HostRuntime, name: &[u8]) -> Result<File, Cause> {
    match OpenOptions::new()
        .read(true)
        .write(true)
        .open(&rt, path(name))
    {
        Ok(file) => Ok(file),
        Err(e) => match Cause::from(e) {
            Cause::Missing => Err(Cause::Missing),
            _ => open_to_read(rt, name),
        },
    }
}

fn open_to_read(rt: HostRuntime, name: &[u8]) -> Result<File, Cause> {
    Ok(File::open(&rt, path(name))?)
}

// Opens a file to read it from its start. It is closed where it is let go.
pub fn open(rt: HostRuntime, name: &[u8]) -> Result<File, OpenError> {
    let mut file = open_any(rt, name)?;
    match file.seek(SeekFrom::Start(0)) {
        Ok(_) => Ok(file),
        Err(_) => Err(OpenError::Pipe),
    }
}

// Reads until the room is full, the input ends or a read fails; how many bytes there are at the start of the room.
fn read_full<R: Read>(from: &mut R, room: &mut [u8]) -> usize
    ensures { result ≤ length room.new }
{
    // So many are read.
    let mut n = 0;
    while n < room.len() {
        match from.read(&mut room[n..]) {
            Ok(0) | Err(_) => {
                return n;
            }
            Ok(got) => {
                n += got;
            }
        }
    }
    n
}

// Reads the whole of an open file, which is shorter than the room: the next read gives nothing.
pub fn read_open<'a, R: Read>(from: &mut R, room: &'a mut [u8]) -> Result<&'a [u8], ReadError> {
    let n = read_full(from, room);
    if n == room.len() {
        return Err(ReadError::TooLarge);
    }
    let mut more = [0u8; 1];
    if from.read(&mut more)? != 0 {
        return Err(ReadError::Failed(Cause::DiskFailed));
    }
    Ok(&room[..n])
}

// Reads the whole of the standard input, which is shorter than the room.
pub fn read_input(rt: HostRuntime, room: &mut [u8]) -> Result<&[u8], ReadError> {
    let mut input = rt.stdin();
    read_open(&mut input, room)
}

// Reads a whole file, which is shorter than the room.
pub fn read<'a>(rt: HostRuntime, name: &[u8], room: &'a mut [u8]) -> Result<&'a [u8], ReadError> {
    let mut file = open(rt, name)?;
    read_open(&mut file, room)
}

// Whether there is a file of this name.
pub fn is_there(rt: HostRuntime, name: &[u8]) -> bool {
    !matches!(open(rt, name), Err(OpenError::Missing))
}

// What a file of /proc tells, in lent room; nothing where there is no such file.
pub fn read_told<'a>(rt: HostRuntime, name: &[u8], room: &'a mut [u8]) -> &'a [u8]
    ensures { length result.now ≤ length room.old }
{
    match open_to_read(rt, name) {
        Ok(file) => {
            let mut file = file;
            let n = read_full(&mut file, room);
            &room[..n]
        }
        Err(_) => b"",
    }
}

// What the system says of an open file, in lent room.
fn read_info(rt: HostRuntime, fd: i32, room: &mut [u8]) -> &[u8]
    ensures { length result.now ≤ length room.old }
{
    let mut path = Text::<48>::new();
    path.add(b"/proc/self/fdinfo/");
    path.add_decimal(u64::try_from(fd).unwrap_or(0));
    read_told(rt, path.as_slice(), room)
}

// Whether two descriptors are of one file, by the number that the system has for it; yes where the system does not tell.
fn is_same(rt: HostRuntime, one: i32, other: i32) -> bool {
    let mut first = [0u8; 512];
    let mut second = [0u8; 512];
    let one = read_info(rt, one, &mut first);
    let other = read_info(rt, other, &mut second);
    line_with(one, b"ino:") == line_with(other, b"ino:")
}

// Whether a name leads to the file that is open.
pub fn leads_to(rt: HostRuntime, name: &[u8], file: &File) -> bool {
    match open(rt, name) {
        Ok(now) => is_same(rt, file.as_raw_fd(), now.as_raw_fd()),
        Err(_) => false,
    }
}

// Has the disk keep a file or a folder that is open.
fn keep(file: &File) -> Result<(), Cause> {
    Ok(file.sync_all()?)
}

// Writes a whole file, and has the disk keep its bytes.
pub fn write(rt: HostRuntime, name: &[u8], bytes: &[u8]) -> Result<(), Cause> {
    let mut file = File::create(&rt, path(name))?;
    file.write_all(bytes)?;
    keep(&file)
}

// Opens a file that is there to add to it.
fn open_at_end(rt: HostRuntime, name: &[u8]) -> Result<File, Cause> {
    Ok(OpenOptions::new().append(true).open(&rt, path(name))?)
}

// Makes a file that is missing.
fn make(rt: HostRuntime, name: &[u8]) -> Result<(), Cause> {
    let _made = OpenOptions::new()
        .write(true)
        .create_new(true)
        .open(&rt, path(name))?;
    Ok(())
}

// Opens a file to add to it, and makes it where it is missing.
fn open_to_add(rt: HostRuntime, name: &[u8]) -> Result<File, Cause> {
    match open_at_end(rt, name) {
        Err(Cause::Missing) => match make(rt, name) {
            // Where it is there now, another process made it in between.
            Ok(()) | Err(Cause::Exists) => open_at_end(rt, name),
            Err(e) => Err(e),
        },
        opened => opened,
    }
}

// Adds bytes at the end of a file, in one write, so that they stand together.
pub fn append(rt: HostRuntime, name: &[u8], bytes: &[u8]) -> Result<(), Cause> {
    let mut file = open_to_add(rt, name)?;
    if file.write(bytes)? != bytes.len() {
        return Err(Cause::Full);
    }
    Ok(())
}

// Puts a file where another may stand.
pub fn rename(rt: HostRuntime, from: &[u8], to: &[u8]) -> Result<(), Cause> {
    Ok(fs::rename(&rt, path(from), path(to))?)
}

// Takes a file away.
pub fn remove(rt: HostRuntime, name: &[u8]) -> Result<(), Cause> {
    Ok(fs::remove_file(&rt, path(name))?)
}

// Has the disk keep the names of this folder.
pub fn keep_names(rt: HostRuntime) -> Result<(), Cause> {
    keep(&open_to_read(rt, b".")?)
}

// Says that a file of this folder could not be read, or that the folder cannot be.
pub fn say_unread(rt: HostRuntime, name: &[u8], cause: Cause) {
    let what: &[u8] = match open_to_read(rt, b".") {
        Ok(_) => name,
        Err(_) => b"this folder",
    };
    say::failed(b"cannot read", what, cause);
}

// Opens a file in the place of the lowest free descriptor, if that is 0, 1 or 2: nothing can be read from it, and what is written to it
// is gone. Whether it did.
fn fill_lowest(rt: HostRuntime) -> bool {
    let Ok(lowest) = open_to_read(rt, b"/dev/null").map(|file| file.as_raw_fd()) else {
        return false;
    };
    if (lowest < 0) | (2 < lowest) {
        return false;
    }
    match open_at_end(rt, b"/dev/null") {
        Ok(file) => {
            // It stays open.
            file.into_raw_fd();
            true
        }
        Err(_) => false,
    }
}

// Fills descriptors 0 to 2 where they are closed: else a block's file would get such a number, and what is printed would go there.
pub fn fill_standard(rt: HostRuntime) {
    for _ in 0..3 {
        if !fill_lowest(rt) {
            return;
        }
    }
}
