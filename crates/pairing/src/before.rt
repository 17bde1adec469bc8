// Where each dart's previous one stands, by the dart's number.
ghost use Rattle.std.specs.Prelude.{◌≡◌, ◌+◌, ◌<◌, length, get_or};
ghost use Rattle.model.specs.Values.{room};
ghost use Rattle.model.specs.Image.{column};
ghost use Rattle.mesh.specs.Parts.{block_count, part};
ghost use Rattle.pairing.specs.Numbers.{MeshAsked, PlacesBefore, BeforeBelow};

use crate::dart;
use memory::header::Header;
use memory::record::{Place, Record};

// The place of the dart next to the one at place p of block i.
fn next_place(mesh: &[u64], i: usize, p: Place) -> Place
    requires { MeshAsked mesh.now × (i < block_count mesh.now) × (p.0 < get_or (part mesh.now i) 2 0) }
    ensures { (result.0 ≡ column (part mesh.now i) 1 p.0) × (result.0 < room) }
{
    Place(dart::word(mesh, i * Header::DARTS + p.0, Record::NEXT) as usize)
}

// Of block i; the blocks below it are done.
fn fill_part(mesh: &[u64], i: usize, table: &mut [u64])
    requires { MeshAsked mesh.now × (i < block_count mesh.now) × BeforeBelow mesh.now table.old i 0 }
    ensures { BeforeBelow mesh.now table.new (i + 1) 0 }
{
    let n = mesh[i * Header::WORDS + Header::COUNT] as usize;
    // The darts below p are done.
    for p in 0..n {
        let next = next_place(mesh, i, Place(p));
        table[i * Header::DARTS + next.0] = p as u64;
    }
}

// Of all blocks.
pub fn fill(mesh: &[u64], table: &mut [u64])
    requires { MeshAsked mesh.now × (length table.old ≡ 65536) }
    ensures { PlacesBefore mesh.now table.new }
{
    let k = mesh.len() / Header::WORDS;
    // The blocks below i are done.
    for i in 0..k {
        fill_part(mesh, i, table);
    }
}
