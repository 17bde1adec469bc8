// What a step hands to the disk: the names, and the bytes of the file that is written.
ghost use Rattle.std.specs.Prelude.{◌≡◌, ◌++◌, ◌*◌, ◌+◌, ◌≤◌, length, take, drop};
ghost use Rattle.saving.specs.Prepare.{contents, StepPut, known, BlockEntered, Prepared};

use crate::commit;
use crate::commit::Entry;
use crate::plan::Step;
use answers::Written;
use commands::names;
use commands::names::{File, Name};
use memory::header::Header;

// What is to be done: so many bytes written under the name; the name changed to the other; the name taken away; the folder's names kept.
#[derive(Clone, Copy)]
pub enum Act {
    Write(usize),
    Rename,
    Remove,
    Keep,
    Nothing,
    Cannot,
}

#[derive(Clone, Copy)]
pub struct Deed {
    pub act: Act,
    pub name: Name,
    pub other: Name,
}

// The file of block b of a mesh: how many bytes were put, where they can be.
fn put_file(mesh: &[u64], b: usize, out: &mut [u8]) -> Option<usize>
    ensures { StepPut (contents mesh.now (File.NewBlock b)) out.old out.new result }
{
    if mesh.len() / Header::WORDS <= b {
        return None;
    }
    savefile::save_file(mesh::part_of(mesh, b), out).ok()
}

// The entry of the file of block b, where it has one; there is room for the file.
fn entry_in_room(mesh: &[u64], b: usize, room: &mut [u8]) -> Option<Entry>
    requires { 245775 ≤ length room.old }
    ensures { result ≡ known mesh.now b }
{
    let n = put_file(mesh, b, room)?;
    Some(commit::entry_of(&room[0..n]))
}

// The same with room of its own.
fn entry_of_block(mesh: &[u64], b: usize) -> Option<Entry>
    ensures { result ≡ known mesh.now b }
{
    let mut room = [0u8; 245775];
    entry_in_room(mesh, b, &mut room)
}

// The entries of k blocks behind the first word; whether all of them have one.
fn put_entries(mesh: &[u64], k: usize, out: &mut [u8]) -> bool
    requires { (k ≤ 16) × (8 + 16 * k ≤ length out.old) }
    ensures { BlockEntered mesh.now k out.old out.new result }
{
    let mut past = groups::put_coordinate(out, 0, k as u64);
    // The entries of the blocks below b are put, up to past.
    for b in 0..k {
        let Some(e) = entry_of_block(mesh, b) else {
            return false;
        };
        past = commit::put_entry(e, out, past);
    }
    true
}

// The first n bytes of a commit.
fn put_bytes(commit: &[u8], n: usize, room: &mut [u8])
    requires { (n ≤ length commit.now) × (n ≤ length room.old) }
    ensures { room.new ≡ take n commit.now ++ drop n room.old }
{
    room[0..n].copy_from_slice(&commit[0..n]);
}

// The commit of all blocks of a mesh: how many bytes were put, where each block has a file.
fn put_commit(mesh: &[u64], room: &mut [u8]) -> Option<usize>
    ensures { StepPut (contents mesh.now File.NewCommit) room.old room.new result }
{
    let k = mesh.len() / Header::WORDS;
    if k < 1 {
        return None;
    }
    if memory::header::BLOCKS < k {
        return None;
    }
    let n = 8 + 16 * k;
    if room.len() < n {
        return None;
    }
    let mut commit = [0u8; 264];
    if !put_entries(mesh, k, &mut commit) {
        return None;
    }
    put_bytes(&commit, n, room);
    Some(n)
}

// What is written under a name, a new file or a new commit and nothing else: how many bytes were put, where they can be.
fn put_contents(file: File, mesh: &[u64], room: &mut [u8]) -> Option<usize>
    ensures { StepPut (contents mesh.now file) room.old room.new result }
{
    match file {
        File::NewBlock(b) => put_file(mesh, b, room),
        File::NewCommit => put_commit(mesh, room),
        File::Block(_) => None,
        File::Commit => None,
    }
}

// What a step hands to the disk.
pub fn prepare(step: Step, mesh: &[u64], room: &mut [u8]) -> Deed
    ensures { Prepared mesh.now step room.old result room.new }
{
    match step {
        Step::Write(f) => match put_contents(f, mesh, room) {
            Some(n) => Deed {
                act: Act::Write(n),
                name: names::name_of(f),
                other: names::no_name(),
            },
            None => Deed {
                act: Act::Cannot,
                name: names::no_name(),
                other: names::no_name(),
            },
        },
        Step::Rename(f, g) => Deed {
            act: Act::Rename,
            name: names::name_of(f),
            other: names::name_of(g),
        },
        Step::Remove(f) => Deed {
            act: Act::Remove,
            name: names::name_of(f),
            other: names::no_name(),
        },
        Step::Keep => Deed {
            act: Act::Keep,
            name: names::no_name(),
            other: names::no_name(),
        },
        Step::Nothing => Deed {
            act: Act::Nothing,
            name: names::no_name(),
            other: names::no_name(),
        },
    }
}
