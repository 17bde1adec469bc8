// The questions at the door of a whole mesh: its blocks' images one after the other, and a scratch that is zero before and after.
#![tactic(auto)]

pub mod serials; // serials.rt: question 24, the serials of all blocks
pub mod makers; // makers.rt: question 27, the makers of labels

ghost use Rattle.std.specs.Prelude.{◌≡◌, ◌<◌, eqb, length, map};
ghost use Rattle.model.specs.Lists.{all};
ghost use Rattle.model.specs.Sound.{blocks_right as right-blocks};
ghost use Rattle.model.specs.Image.{words, block_in};
ghost use Rattle.model.specs.Calls.{memories, mesh_lent as lent, scratch_entries};
ghost use Rattle.columns.specs.Columns.{all_below};
ghost use Rattle.mesh.specs.Parts.{block_count, part, sound_memory, number_test};

use memory::header::{Header, Limits};

// Whether all entries are zero.
fn zeros(scratch: &[u64]) -> bool
    ensures { result ≡ all (eqb 0) scratch.now }
{
    // The entries before `word` are zero, if ok; with no branch, so that many are looked at at once.
    let mut ok = true;
    for word in scratch {
        ok = ok & (*word == 0);
    }
    ok
}

// 1: whole images, and a scratch of 65,536 entries, all zero.
pub fn mesh_lent(mesh: &[u64], scratch: &[u64]) -> bool
    ensures { result ≡ lent scratch_entries mesh.now scratch.now }
{
    if mesh.len() / Header::WORDS * Header::WORDS != mesh.len() {
        return false;
    }
    if scratch.len() != Header::SCRATCH {
        return false;
    }
    zeros(scratch)
}

// The memory of block i.
pub fn part_of<'a>(mesh: &'a [u64], i: usize) -> &'a [u64]
    requires { i < block_count mesh.now }
    ensures { result.now ≡ part mesh.now i }
{
    let from = i * Header::WORDS;
    let to = from + Header::WORDS;
    &mesh[from..to]
}

// The same, lent to be written. What the mesh is then no contract of it can say: a caller that promises it cuts the part itself.
pub fn part_mut<'a>(mesh: &'a mut [u64], i: usize) -> &'a mut [u64]
    requires { i < block_count mesh.old }
    ensures { result.now ≡ part mesh.old i }
{
    let from = i * Header::WORDS;
    let to = from + Header::WORDS;
    &mut mesh[from..to]
}

// Whether memory of a block's size is sound by the limits that its number has among these viewers.
fn sound_among(block: &[u64], viewers: u32) -> bool
    requires { length block.now ≡ words }
    ensures { result ≡ sound_memory viewers block.now }
{
    if !sound::is_sound(block) {
        return false;
    }
    let limits = Limits::among(viewers, block[Header::NUMBER]);
    block[Header::COUNT] <= limits.block as u64
}

// Whether block i is sound.
fn sound_at(mesh: &[u64], viewers: u32, i: usize) -> bool
    requires { i < block_count mesh.now }
    ensures { result ≡ sound_memory viewers (part mesh.now i) }
{
    sound_among(part_of(mesh, i), viewers)
}

// 2: is each part a sound block's image, by the limits of its number?
pub fn all_sound(mesh: &[u64], viewers: u32) -> bool
    ensures { result ≡ all (sound_memory viewers) (memories mesh.now) }
{
    let k = mesh.len() / Header::WORDS;
    (0..k).all(|i| sound_at(mesh, viewers, i))
}

// Whether each of k blocks has its place as its number.
fn numbered(mesh: &[u64], k: usize) -> bool
    requires { k ≡ block_count mesh.now }
    ensures { result ≡ all_below (number_test mesh.now) k }
{
    (0..k).all(|i| mesh[i * Header::WORDS] == i as u64)
}

// 23: one block to 16, numbered in order.
pub fn blocks_right(mesh: &[u64]) -> bool
    ensures { result ≡ right-blocks (map block_in (memories mesh.now)) }
{
    let k = mesh.len() / Header::WORDS;
    if k < 1 {
        return false;
    }
    if memory::header::BLOCKS < k {
        return false;
    }
    numbered(mesh, k)
}
