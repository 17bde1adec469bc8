// The blocks of a basin: block-00.dmap and so on, as many as there are. What a save writes under which name, and in which order, is told
// by `saving`.
use commands::names;
use commands::names::{File, Name};
use memory::header::{BLOCKS, Header};
use saving::commit::Entry;
use saving::look::Look;
use saving::plan::Step;
use saving::prepare::Act;
use saving::{commit, look, plan, prepare};
use system::cause::Cause;
use system::files::ReadError;
use system::say::Told;
use system::{files, say};

// A name without the zeros behind it.
pub(crate) fn text_of(name: &Name) -> &[u8] {
    let bytes = &name.bytes[..];
    bytes.get(..name.size).unwrap_or(b"")
}

fn is_there(rt: HostRuntime, file: File) -> bool {
    files::is_there(rt, text_of(&names::name_of(file)))
}

fn read<'a>(rt: HostRuntime, file: File, room: &'a mut [u8]) -> Result<&'a [u8], ReadError> {
    files::read(rt, text_of(&names::name_of(file)), room)
}

// Says that a file could not be read.
fn say_unread(rt: HostRuntime, file: File, cause: Cause) {
    files::say_unread(rt, text_of(&names::name_of(file)), cause);
}

// One step, with the names and the bytes that `prepare` gives.
fn carry_out(rt: HostRuntime, step: Step, mesh: &[u64], room: &mut [u8]) -> Result<(), Cause> {
    let deed = prepare::prepare(step, mesh, room);
    let name = text_of(&deed.name);
    match deed.act {
        Act::Write(n) if n <= room.len() => files::write(rt, name, &room[..n]),
        Act::Rename => files::rename(rt, name, text_of(&deed.other)),
        Act::Remove => files::remove(rt, name),
        Act::Keep => files::keep_names(rt),
        Act::Nothing => Ok(()),
        Act::Write(_) | Act::Cannot => Err(Cause::DiskFailed),
    }
}

// What stands under a name, if anything does; none where it cannot be read.
fn see(rt: HostRuntime, file: File, room: &mut [u8]) -> Option<Option<Entry>> {
    match read(rt, file, room) {
        Ok(bytes) => Some(Some(commit::entry_of(bytes))),
        Err(ReadError::Missing) => Some(None),
        Err(ReadError::TooLarge) => None,
        Err(ReadError::Failed(e)) => {
            say_unread(rt, file, e);
            None
        }
    }
}

// Whether the files of block b are those of a commit; none where they cannot be read.
fn look_at_block(rt: HostRuntime, bytes: &[u8], b: usize, room: &mut [u8]) -> Option<Look> {
    let new = see(rt, File::NewBlock(b), room)?;
    let named = see(rt, File::Block(b), room)?;
    Some(look::look_at(commit::entry_in(bytes, b), new, named))
}

// Whether the files of k blocks are; says where not.
fn are_right(rt: HostRuntime, bytes: &[u8], k: usize, room: &mut [u8]) -> Result<(), Told> {
    for b in 0..k {
        match look_at_block(rt, bytes, b, room) {
            Some(Look::Place | Look::Placed) => {}
            Some(Look::Wrong) | None => {
                say::complain(b"error: the files of ");
                say::complain(&names::block(b));
                say::complain(b" are not those of basin.commit: nothing is changed\n");
                return Err(Told);
            }
        }
    }
    Ok(())
}

// Which new files are there, and at 16 whether the new commit is.
fn new_files(rt: HostRuntime) -> [bool; 17] {
    let mut there = [false; 17];
    for b in 0..BLOCKS {
        there[b] = is_there(rt, File::NewBlock(b));
    }
    there[16] = is_there(rt, File::NewCommit);
    there
}

// The steps of a recovery, with a commit of k blocks or, where k is 0, with none.
fn recover_steps(rt: HostRuntime, k: usize, there: &[bool]) -> Result<(), Told> {
    let mut nothing = [0u8; 1];
    for i in 0..plan::RECOVERY_STEPS {
        if let Err(e) = carry_out(rt, plan::recover(k, there, i), &[], &mut nothing) {
            say::failed(b"cannot finish a save in", b"this folder", e);
            return Err(Told);
        }
    }
    Ok(())
}

// The same with what is there; where nothing is, the folder is left alone.
fn recover_found(rt: HostRuntime, k: usize) -> Result<(), Told> {
    let there = new_files(rt);
    if k == 0 && !there.contains(&true) {
        return Ok(());
    }
    recover_steps(rt, k, &there)
}

// The file under the commit's name is none.
fn no_commit() -> Told {
    say::error(b"basin.commit is no commit: nothing is changed");
    Told
}

// Finishes the save of a commit whose files are all right.
fn finish(rt: HostRuntime, bytes: &[u8], room: &mut [u8]) -> Result<(), Told> {
    let k = commit::committed(bytes);
    if k == 0 {
        return Err(no_commit());
    }
    are_right(rt, bytes, k, room)?;
    recover_found(rt, k)?;
    say::text(b"# finished a save that was cut short\n");
    Ok(())
}

// Finishes a save that was cut short if it was committed and its files are there, and forgets it if it was not; then the basin can be read.
pub fn recover(rt: HostRuntime, room: &mut [u8]) -> Result<(), Told> {
    let mut bytes = [0u8; 512];
    match read(rt, File::Commit, &mut bytes) {
        Ok(committed) => finish(rt, committed, room),
        Err(ReadError::Missing) => recover_found(rt, 0),
        Err(ReadError::TooLarge) => Err(no_commit()),
        Err(ReadError::Failed(e)) => {
            say_unread(rt, File::Commit, e);
            Err(Told)
        }
    }
}

// Saves the blocks of a mesh, which is said. A save that fails is forgotten, or finished where it was committed.
pub fn save(rt: HostRuntime, mesh: &[u64], room: &mut [u8]) -> Result<(), Told> {
    let k = mesh.len() / Header::WORDS;
    for i in 0..plan::SAVE_STEPS {
        if let Err(e) = carry_out(rt, plan::save(k, i), mesh, room) {
            say::failed(b"cannot save the blocks in", b"this folder", e);
            let _ = recover(rt, room);
            return Err(Told);
        }
    }
    say::text(b"# saved ");
    say::number(k as u64);
    say::text(b" blocks\n");
    Ok(())
}
