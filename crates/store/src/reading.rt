// What a reader sees of a basin: one state, the old one or the new one, whatever save goes on beside it. Nothing is written.
//
// While a commit stands the state is what it commits: of each block the new file or the one under its name, whichever has the committed length
// and digest. Without a commit it is what stands under the names. Those files are opened one after the other and held; where there is no
// commit afterwards, and each name still leads to the file that was opened, all of them stood under their names at one moment at which
// no save was between its commit and its end.
use crate::disk::text_of;
use answers::{Answer, Refusal};
use commands::names::File;
use commands::{names, viewers};
use memory::header::{BLOCKS, Header};
use saving::{commit, look};
use std::fs::File as Open;
use system::cause::Cause;
use system::files::{OpenError, ReadError};
use system::say::{Failure, Told};
use system::{files, process, say};

// What is wrong with a file.
#[derive(Clone, Copy)]
pub enum Fault {
    Refused(Refusal),
    TooLarge,
    Pipe,
    Failed(Cause),
}

// Why a block is not read.
#[derive(Clone, Copy)]
enum Unread {
    Missing,
    Wrong(Fault),
}

impl From<Fault> for Unread {
    fn from(fault: Fault) -> Unread {
        Unread::Wrong(fault)
    }
}

impl From<OpenError> for Unread {
    fn from(e: OpenError) -> Unread {
        match e {
            OpenError::Missing => Unread::Missing,
            OpenError::Pipe => Unread::Wrong(Fault::Pipe),
            OpenError::Failed(cause) => Unread::Wrong(Fault::Failed(cause)),
        }
    }
}

impl From<ReadError> for Unread {
    fn from(e: ReadError) -> Unread {
        match e {
            ReadError::Missing => Unread::Missing,
            ReadError::TooLarge => Unread::Wrong(Fault::TooLarge),
            ReadError::Failed(cause) => Unread::Wrong(Fault::Failed(cause)),
        }
    }
}

// Why no basin is seen: a block's file is wrong; a block is missing before another; a commit is none, or cannot be read; a save goes on.
#[derive(Clone, Copy)]
enum Unseen {
    Wrong(usize, Fault),
    Gap(usize, usize),
    NoCommit,
    Unread(Cause),
    Moving,
}

// The bytes of a file, into block b of a mesh.
fn take(b: usize, file: &[u8], mesh: &mut [u64]) -> Result<(), Fault> {
    if mesh.len() / Header::WORDS <= b {
        return Err(Fault::TooLarge);
    }
    readfile::read_file(file, mesh::part_mut(mesh, b)).map_err(Fault::Refused)
}

// An open file, into block b of a mesh.
fn take_open(b: usize, open: &mut Open, mesh: &mut [u64], room: &mut [u8]) -> Result<(), Unread> {
    take(b, files::read_open(open, room)?, mesh)?;
    Ok(())
}

// The file under a block's name, opened, held in `held` and read; where there is no place for it there, it is closed.
fn take_named(
    rt: HostRuntime,
    b: usize,
    held: &mut [Option<Open>],
    mesh: &mut [u64],
    room: &mut [u8],
) -> Result<(), Unread> {
    let mut open = files::open(rt, &names::block(b))?;
    let taken = take_open(b, &mut open, mesh, room);
    if b < held.len() {
        held[b] = Some(open);
    }
    taken
}

// The blocks once block k is not found: none behind it is there.
fn counted(rt: HostRuntime, k: usize) -> Result<usize, Unseen> {
    for b in k..BLOCKS {
        if files::is_there(rt, &names::block(b)) {
            return Err(Unseen::Gap(k, b));
        }
    }
    Ok(k)
}

// The files under the names, from block 0 on; how many.
fn take_names(
    rt: HostRuntime,
    held: &mut [Option<Open>],
    mesh: &mut [u64],
    room: &mut [u8],
) -> Result<usize, Unseen> {
    for b in 0..BLOCKS {
        match take_named(rt, b, held, mesh, room) {
            Ok(()) => {}
            Err(Unread::Missing) => {
                return counted(rt, b);
            }
            Err(Unread::Wrong(fault)) => {
                return Err(Unseen::Wrong(b, fault));
            }
        }
    }
    Ok(BLOCKS)
}

// Whether each name still leads to the file that is held.
fn all_stand(rt: HostRuntime, held: &[Option<Open>]) -> bool {
    for (b, file) in held.iter().enumerate() {
        if let Some(open) = file {
            if !files::leads_to(rt, &names::block(b), open) {
                return false;
            }
        }
    }
    true
}

// What stands under the names, if it stood there at one moment without a commit.
fn see_names(rt: HostRuntime, mesh: &mut [u64], room: &mut [u8]) -> Result<usize, Unseen> {
    let mut held: [Option<Open>; BLOCKS] = std::array::from_fn(|_| None);
    let seen = take_names(rt, &mut held, mesh, room);
    let quiet = !files::is_there(rt, b"basin.commit");
    let steady = all_stand(rt, &held);
    if quiet & steady {
        return seen;
    }
    Err(Unseen::Moving)
}

// The bytes of a file that has the length and the digest that a commit gives block b.
fn committed<'a>(
    rt: HostRuntime,
    file: File,
    b: usize,
    bytes: &[u8],
    room: &'a mut [u8],
) -> Option<&'a [u8]> {
    let found = files::read(rt, text_of(&names::name_of(file)), room).ok()?;
    if look::same(commit::entry_of(found), commit::entry_in(bytes, b)) {
        return Some(found);
    }
    None
}

// The same read into the mesh; whether it is there.
fn take_committed(
    rt: HostRuntime,
    file: File,
    b: usize,
    bytes: &[u8],
    mesh: &mut [u64],
    room: &mut [u8],
) -> bool {
    match committed(rt, file, b, bytes, room) {
        Some(found) => take(b, found, mesh).is_ok(),
        None => false,
    }
}

// What a commit of k blocks commits, if all of it is there: of each block the new file, or the one under its name.
fn see_committed(
    rt: HostRuntime,
    k: usize,
    bytes: &[u8],
    mesh: &mut [u64],
    room: &mut [u8],
) -> Result<usize, Unseen> {
    for b in 0..k {
        if !take_committed(rt, File::NewBlock(b), b, bytes, mesh, room)
            && !take_committed(rt, File::Block(b), b, bytes, mesh, room)
        {
            return Err(Unseen::Moving);
        }
    }
    Ok(k)
}

// What is seen with the commit that was read.
fn see_commit(
    rt: HostRuntime,
    bytes: &[u8],
    mesh: &mut [u64],
    room: &mut [u8],
) -> Result<usize, Unseen> {
    let k = commit::committed(bytes);
    if k == 0 {
        return Err(Unseen::NoCommit);
    }
    see_committed(rt, k, bytes, mesh, room)
}

// One look; how many blocks.
fn see(rt: HostRuntime, mesh: &mut [u64], room: &mut [u8]) -> Result<usize, Unseen> {
    let mut bytes = [0u8; 512];
    match files::read(rt, b"basin.commit", &mut bytes) {
        Ok(commit) => see_commit(rt, commit, mesh, room),
        Err(ReadError::Missing) => see_names(rt, mesh, room),
        Err(ReadError::TooLarge) => Err(Unseen::NoCommit),
        Err(ReadError::Failed(e)) => Err(Unseen::Unread(e)),
    }
}

// Looks until no save is in the way, a thousand times at most.
fn look_again(rt: HostRuntime, mesh: &mut [u64], room: &mut [u8]) -> Result<usize, Unseen> {
    for _ in 0..1000 {
        match see(rt, mesh, room) {
            Err(Unseen::Moving) => process::pause(rt),
            seen => {
                return seen;
            }
        }
    }
    Err(Unseen::Moving)
}

// By which question block b's file is refused, and why.
pub fn say_refused(b: usize, r: Refusal) {
    let question = answers::refusal_number(r);
    say::refused(question);
    say::text(&names::block(b));
    say::text(b": ");
    say::meaning(question);
    say::text(b"\n");
}

// What is wrong with block b's file.
fn say_fault(rt: HostRuntime, b: usize, fault: Fault) -> Failure {
    match fault {
        Fault::Refused(r) => {
            say_refused(b, r);
            return Failure::Refused;
        }
        Fault::TooLarge => {
            say::complain(b"error: too large for a block: ");
            say::complain(&names::block(b));
            say::complain(b"\n");
        }
        Fault::Pipe => {
            say::complain(b"error: not a file but a pipe: ");
            say::complain(&names::block(b));
            say::complain(b"\n");
        }
        Fault::Failed(e) => files::say_unread(rt, &names::block(b), e),
    }
    Failure::Error
}

// Why no basin is seen.
fn say_unseen(rt: HostRuntime, unseen: Unseen) -> Failure {
    match unseen {
        Unseen::Wrong(b, fault) => {
            return say_fault(rt, b, fault);
        }
        Unseen::Gap(k, b) => {
            say::complain(b"error: ");
            say::complain(&names::block(k));
            say::complain(b" is missing, and ");
            say::complain(&names::block(b));
            say::complain(b" is there\n");
        }
        Unseen::NoCommit => say::error(b"basin.commit is no commit"),
        Unseen::Unread(e) => files::say_unread(rt, b"basin.commit", e),
        Unseen::Moving => say::error(b"the files are not those that basin.commit tells of"),
    }
    Failure::Error
}

// A basin has one block at least, and none behind the sixteenth.
fn check_count(rt: HostRuntime, k: usize) -> Result<(), Failure> {
    if k == 0 {
        say::error(b"there is no block-00.dmap in this folder");
        return Err(Failure::Error);
    }
    if files::is_there(rt, b"block-16.dmap") {
        say::error(b"there is a block-16.dmap: a basin has at most sixteen blocks, 00 to 15");
        return Err(Failure::Error);
    }
    Ok(())
}

// Reads the blocks of a basin into a mesh; how many. What is wrong is said.
pub fn look(rt: HostRuntime, mesh: &mut [u64], room: &mut [u8]) -> Result<usize, Failure> {
    match look_again(rt, mesh, room) {
        Ok(k) => {
            check_count(rt, k)?;
            Ok(k)
        }
        Err(unseen) => Err(say_unseen(rt, unseen)),
    }
}

// The file `viewers` is no line of block numbers.
fn wrong_viewers() -> Told {
    say::error(
        b"viewers is not a line of ascending block numbers, 0 to 15, with one blank between two",
    );
    Told
}

// Which blocks are viewers', by the file `viewers`; none where there is no such file. What is wrong with it is said.
pub fn viewers(rt: HostRuntime) -> Result<u32, Told> {
    let mut text = [0u8; 64];
    match files::read(rt, b"viewers", &mut text) {
        Ok(line) => match viewers::viewers_in(line) {
            Some(v) => Ok(v),
            None => Err(wrong_viewers()),
        },
        Err(ReadError::Missing) => Ok(0),
        Err(ReadError::TooLarge) => Err(wrong_viewers()),
        Err(ReadError::Failed(e)) => {
            files::say_unread(rt, b"viewers", e);
            Err(Told)
        }
    }
}

// Block b's file by a commit: the new one, or the one under its name.
fn file_by<'a>(rt: HostRuntime, bytes: &[u8], b: usize, room: &'a mut [u8]) -> Option<&'a [u8]> {
    let new = committed(rt, File::NewBlock(b), b, bytes, room).map(|found| found.len());
    match new {
        Some(n) => room.get(..n),
        None => committed(rt, File::Block(b), b, bytes, room),
    }
}

// Block b's file, in lent room, in the state that a reader sees.
pub fn file_of<'a>(rt: HostRuntime, b: usize, room: &'a mut [u8]) -> Result<&'a [u8], ReadError> {
    let mut bytes = [0u8; 512];
    if let Ok(commit) = files::read(rt, b"basin.commit", &mut bytes) {
        if b < commit::committed(commit) {
            return file_by(rt, commit, b, room).ok_or(ReadError::Missing);
        }
    }
    files::read(rt, &names::block(b), room)
}

// Says why block b's file was not read.
pub fn say_unread(rt: HostRuntime, b: usize, e: ReadError) {
    match e {
        ReadError::Missing => {
            say::complain(b"error: there is no ");
            say::complain(&names::block(b));
            say::complain(b" in this folder\n");
        }
        ReadError::TooLarge => {
            say::complain(b"error: too large for a block: ");
            say::complain(&names::block(b));
            say::complain(b"\n");
        }
        ReadError::Failed(cause) => files::say_unread(rt, &names::block(b), cause),
    }
}
