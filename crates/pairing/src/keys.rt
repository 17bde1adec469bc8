// The keys of all critical darts, label and number, gathered into the scratch and put in order.
ghost use Rattle.std.specs.Prelude.{◌≡◌, ◌+◌, ◌≤◌, ◌<◌, length, get_or, take};
ghost use Rattle.model.specs.Lists.{sorted};
ghost use Rattle.model.specs.Image.{words_for};
ghost use Rattle.model.specs.Values.{room, blocks};
ghost use Rattle.mesh.specs.Parts.{block_count, part, PutAfter};
ghost use Rattle.pairing.specs.Numbers.{MeshAsked};
ghost use Rattle.pairing.specs.Keys.{Short, key_of, keys_of, all_keys};

use memory::header::Header;
use memory::record::{Place, Record};
use memory::{kind, record};

// Puts the key of the dart at place p of block i, if it is critical; where the keys end.
fn put_key(block: &[u64], i: usize, p: Place, out: &mut [u64], at: usize) -> usize
    requires { (words_for (get_or block.now 2 0) ≤ length block.now) × (get_or block.now 2 0 ≤ room) × Short block.now × (i < blocks) × (p.0 < get_or block.now 2 0) × (at < length out.old) }
    ensures { (result ≤ at + 1) × PutAfter at (key_of block.now i p.0) out.old out.new result }
{
    let kind = record::field(block, p, Record::KIND);
    if !kind::is_critical(kind) {
        return at;
    }
    let link = record::field(block, p, Record::LINK);
    out[at] = link * Header::MESH + (i * Header::DARTS + p.0) as u64;
    at + 1
}

// Puts a block's keys from `at` on; where they end.
fn put_keys(block: &[u64], i: usize, out: &mut [u64], at: usize) -> usize
    requires { (words_for (get_or block.now 2 0) ≤ length block.now) × (get_or block.now 2 0 ≤ room) × Short block.now × (i < blocks) × (at + room ≤ length out.old) }
    ensures { (result ≤ at + room) × PutAfter at (keys_of block.now i (get_or block.now 2 0)) out.old out.new result }
{
    let n = block[Header::COUNT] as usize;
    // The keys of the darts below p stand from `at` up to the end.
    let mut end = at;
    for p in 0..n {
        end = put_key(block, i, Place(p), out, end);
    }
    end
}

// The same of block i of a mesh.
fn put_part(mesh: &[u64], i: usize, out: &mut [u64], at: usize) -> usize
    requires { MeshAsked mesh.now × (i < block_count mesh.now) × (at + room ≤ length out.old) }
    ensures { (result ≤ at + room) × PutAfter at (keys_of (part mesh.now i) i (get_or (part mesh.now i) 2 0)) out.old out.new result }
{
    put_keys(mesh::part_of(mesh, i), i, out, at)
}

// Puts the keys of all blocks; how many there are.
pub fn gather(mesh: &[u64], out: &mut [u64]) -> usize
    requires { MeshAsked mesh.now × (length out.old ≡ 65536) }
    ensures { (result ≤ 65536) × (length out.new ≡ 65536) × (take result out.new ≡ all_keys mesh.now (block_count mesh.now)) }
{
    let k = mesh.len() / Header::WORDS;
    // The first c entries are the keys of the blocks below i.
    let mut c = 0;
    for i in 0..k {
        c = put_part(mesh, i, out, c);
    }
    c
}

// Puts the first c keys in order.
pub fn order(keys: &mut [u64], other: &mut [u64], c: usize)
    requires { (c ≤ length keys.old) × (c ≤ length other.old) }
    ensures { (take c keys.new ≡ sorted (take c keys.old)) × (length keys.new ≡ length keys.old) × (length other.new ≡ length other.old) }
{
    sort::sort(&mut keys[..c], &mut other[..c]);
}
