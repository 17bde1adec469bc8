// Question 24: the serials of all blocks are gathered into the scratch, put in order and compared, and the scratch is cleared.
ghost use Rattle.std.specs.Prelude.{◌≡◌, true, map, ◌+◌, ◌≤◌, ◌<◌, eqb, length, take};
ghost use Rattle.model.specs.Lists.{all, distinct};
ghost use Rattle.model.specs.Values.{room};
ghost use Rattle.model.specs.Sound.{blocks_right, serials_distinct as distinct_serials};
ghost use Rattle.model.specs.Image.{words_for, count_in, block_in, holds_block};
ghost use Rattle.model.specs.Calls.{memories, mesh_lent, scratch_entries};
ghost use Rattle.mesh.specs.Parts.{block_count, part, Roomy, serials_of, gathered, PutAfter};

use memory::header::Header;
use memory::record;
use memory::record::{Place, Record};

// Puts a block's serials from `at` on; where they end.
fn put_serials(block: &[u64], out: &mut [u64], at: usize) -> usize
    requires { (words_for (count_in block.now) ≤ length block.now) × (at + count_in block.now ≤ length out.old) }
    ensures { (result ≡ at + count_in block.now) × PutAfter at (serials_of block.now) out.old out.new result }
{
    let n = block[Header::COUNT] as usize;
    // The serials of the darts below i are put.
    for i in 0..n {
        out[at + i] = record::field(block, Place(i), Record::SERIAL);
    }
    at + n
}

// The same of block i of a mesh.
fn put_part(mesh: &[u64], i: usize, out: &mut [u64], at: usize) -> usize
    requires { (i < block_count mesh.now) × Roomy mesh.now × (at + room ≤ length out.old) }
    ensures { (result ≤ at + room) × PutAfter at (serials_of (part mesh.now i)) out.old out.new result }
{
    put_serials(crate::part_of(mesh, i), out, at)
}

// Puts the serials of all blocks, one block after the other; how many there are.
fn gather(mesh: &[u64], out: &mut [u64]) -> usize
    requires { (block_count mesh.now ≤ 16) × Roomy mesh.now × (length out.old ≡ 65536) }
    ensures { (result ≤ 65536) × (length out.new ≡ 65536) × (take result out.new ≡ gathered mesh.now (block_count mesh.now)) }
{
    let k = mesh.len() / Header::WORDS;
    // The first c entries are the serials of the blocks below i.
    let mut c = 0;
    for i in 0..k {
        c = put_part(mesh, i, out, c);
    }
    c
}

// Whether no key stands twice among the first c. Sorts them.
fn differ(keys: &mut [u64], other: &mut [u64], c: usize) -> bool
    requires { (c ≤ length keys.old) × (c ≤ length other.old) }
    ensures { (result ≡ distinct (take c keys.old)) × (length keys.new ≡ length keys.old) }
{
    sort::distinct(&mut keys[..c], &mut other[..c])
}

// The same, with room for the sort.
fn apart(keys: &mut [u64], c: usize) -> bool
    requires { (c ≤ 65536) × (length keys.old ≡ 65536) }
    ensures { (result ≡ distinct (take c keys.old)) × (length keys.new ≡ 65536) }
{
    let mut other = [0u64; Header::SCRATCH];
    differ(keys, &mut other, c)
}

// 24: whether no two darts of the mesh have one serial; asked after 1, 2 and 23.
pub fn serials_distinct(mesh: &[u64], scratch: &mut [u64]) -> bool
    requires { (mesh_lent scratch_entries mesh.now scratch.old ≡ true) × (all (λ b. holds_block b) (memories mesh.now) ≡ true) × (blocks_right (map block_in (memories mesh.now)) ≡ true) }
    ensures { (result ≡ distinct_serials (map block_in (memories mesh.now))) × (scratch.new ≡ scratch.old) }
{
    let c = gather(mesh, scratch);
    let ok = apart(scratch, c);
    memory::header::clear(scratch);
    ok
}
