// Questions 25 and 26 of a whole mesh: the keys of its critical darts, put in order and tested two by two.
#![tactic(auto)]

pub mod dart; // dart.rt: the darts of a mesh by number, and tests of two
pub mod keys; // keys.rt: the keys of all critical darts, in order
pub mod before; // before.rt: where each dart's previous one stands
pub mod pairs; // pairs.rt: keys in order, two by two

ghost use Rattle.std.specs.Prelude.{◌≡◌, true, map, ◌≤◌, length, take};
ghost use Rattle.model.specs.Lists.{sorted};
ghost use Rattle.model.specs.Sound.{labels_paired, points_across};
ghost use Rattle.model.specs.Image.{block_in};
ghost use Rattle.model.specs.Calls.{memories, mesh_lent, scratch_entries};
ghost use Rattle.mesh.specs.Parts.{block_count};
ghost use Rattle.pairing.specs.Numbers.{MeshAsked, PlacesBefore};
ghost use Rattle.pairing.specs.Keys.{all_keys};
ghost use Rattle.pairing.specs.Told.{pairing_of};

use memory::header::Header;

// What questions 25 and 26 say.
#[derive(Clone, Copy)]
pub enum Pairing {
    Right,
    Unpaired,
    Apart,
}

// Of keys in order.
fn tested(mesh: &[u64], table: &[u64], keys: &[u64]) -> Pairing
    requires { MeshAsked mesh.now × PlacesBefore mesh.now table.now × (keys.now ≡ sorted (all_keys mesh.now (block_count mesh.now))) }
    ensures { result ≡ pairing_of (labels_paired (map block_in (memories mesh.now))) (points_across (map block_in (memories mesh.now))) }
{
    if !pairs::labels(mesh, table, keys) {
        return Pairing::Unpaired;
    }
    if !pairs::points(mesh, keys) {
        return Pairing::Apart;
    }
    Pairing::Right
}

// Of the first c keys.
fn front(mesh: &[u64], table: &[u64], keys: &[u64], c: usize) -> Pairing
    requires { MeshAsked mesh.now × PlacesBefore mesh.now table.now × (c ≤ length keys.now) × (take c keys.now ≡ sorted (all_keys mesh.now (block_count mesh.now))) }
    ensures { result ≡ pairing_of (labels_paired (map block_in (memories mesh.now))) (points_across (map block_in (memories mesh.now))) }
{
    tested(mesh, table, &keys[..c])
}

// Of the first c keys in any order, with as much room again.
fn ordered(mesh: &[u64], keys: &mut [u64], other: &mut [u64], c: usize) -> Pairing
    requires { MeshAsked mesh.now × (c ≤ 65536) × (length keys.old ≡ 65536) × (length other.old ≡ 65536) × (take c keys.old ≡ all_keys mesh.now (block_count mesh.now)) }
    ensures { (result ≡ pairing_of (labels_paired (map block_in (memories mesh.now))) (points_across (map block_in (memories mesh.now)))) × (length keys.new ≡ 65536) }
{
    keys::order(keys, other, c);
    before::fill(mesh, other);
    front(mesh, other, keys, c)
}

// The same, with room for the sort and the table.
fn with_room(mesh: &[u64], keys: &mut [u64], c: usize) -> Pairing
    requires { MeshAsked mesh.now × (c ≤ 65536) × (length keys.old ≡ 65536) × (take c keys.old ≡ all_keys mesh.now (block_count mesh.now)) }
    ensures { (result ≡ pairing_of (labels_paired (map block_in (memories mesh.now))) (points_across (map block_in (memories mesh.now)))) × (length keys.new ≡ 65536) }
{
    let mut other = [0u64; Header::SCRATCH];
    ordered(mesh, keys, &mut other, c)
}

// 25 and 26; asked after 1, 2 and 23.
pub fn paired(mesh: &[u64], scratch: &mut [u64]) -> Pairing
    requires { (mesh_lent scratch_entries mesh.now scratch.old ≡ true) × MeshAsked mesh.now }
    ensures { (result ≡ pairing_of (labels_paired (map block_in (memories mesh.now))) (points_across (map block_in (memories mesh.now)))) × (scratch.new ≡ scratch.old) }
{
    let c = keys::gather(mesh, scratch);
    let r = with_room(mesh, scratch, c);
    memory::header::clear(scratch);
    r
}
