// The darts of a mesh by number, a block's number × 4,096 + a place; and tests of two that have one label.
ghost use Rattle.std.specs.Prelude.{◌≡◌, ◌/◌, ◌%◌, ◌<◌};
ghost use Rattle.model.specs.Values.{room};
ghost use Rattle.mesh.specs.Parts.{block_count};
ghost use Rattle.pairing.specs.Numbers.{MeshAsked, Held, PlacesBefore, word as word_of, next_number, before_of, point_by, side_test, meet_test};
ghost use Rattle.pairing.specs.Keys.{label_pair, point_pair};

use memory::header::Header;
use memory::point::Point;
use memory::record::{Place, Record};
use memory::{kind, point};

// Word f of dart g.
pub fn word(mesh: &[u64], g: usize, f: usize) -> u64
    requires { (g / room < block_count mesh.now) × (f < 8) }
    ensures { result ≡ word_of mesh.now f g }
{
    mesh[g / Header::DARTS * Header::WORDS + (8 + g % Header::DARTS * 8 + f)]
}

// The next dart.
pub fn next(mesh: &[u64], g: usize) -> usize
    requires { MeshAsked mesh.now × Held mesh.now g }
    ensures { result ≡ next_number mesh.now g }
{
    g / Header::DARTS * Header::DARTS + word(mesh, g, Record::NEXT) as usize
}

// The one before, by the table of places.
pub fn previous(mesh: &[u64], table: &[u64], g: usize) -> usize
    requires { MeshAsked mesh.now × PlacesBefore mesh.now table.now × Held mesh.now g }
    ensures { result ≡ before_of table.now g }
{
    g / Header::DARTS * Header::DARTS + table[g] as usize
}

// 25: g names the block of h, and next of g has the label of the dart before h.
fn side(mesh: &[u64], table: &[u64], g: usize, h: usize) -> bool
    requires { MeshAsked mesh.now × PlacesBefore mesh.now table.now × Held mesh.now g × Held mesh.now h }
    ensures { result ≡ side_test mesh.now table.now g h }
{
    let named = kind::other_of(word(mesh, g, Record::KIND));
    let after = word(mesh, next(mesh, g), Record::LINK);
    let last = word(mesh, previous(mesh, table, h), Record::LINK);
    (named == (h / Header::DARTS) as u64) & (after == last)
}

// 25, of the darts of two keys.
pub fn labels_pair(mesh: &[u64], table: &[u64], x: u64, y: u64) -> bool
    requires { MeshAsked mesh.now × PlacesBefore mesh.now table.now × Held mesh.now (x % 65536) × Held mesh.now (y % 65536) }
    ensures { result ≡ label_pair mesh.now table.now x y }
{
    let g = (x % Header::MESH) as usize;
    let h = (y % Header::MESH) as usize;
    let there = side(mesh, table, g, h);
    let back = side(mesh, table, h, g);
    there & back
}

// The point of dart g.
fn point_of(mesh: &[u64], g: usize) -> Point
    requires { MeshAsked mesh.now × Held mesh.now g }
    ensures { result ≡ point_by mesh.now g }
{
    point::point_at(
        mesh::part_of(mesh, g / Header::DARTS),
        Place(g % Header::DARTS),
    )
}

// 26: g and next of h have one point.
fn meet(mesh: &[u64], g: usize, h: usize) -> bool
    requires { MeshAsked mesh.now × Held mesh.now g × Held mesh.now h }
    ensures { result ≡ meet_test mesh.now g h }
{
    let here = point_of(mesh, g);
    let there = point_of(mesh, next(mesh, h));
    point::same_point(here, there)
}

// 26, of the darts of two keys.
pub fn points_pair(mesh: &[u64], x: u64, y: u64) -> bool
    requires { MeshAsked mesh.now × Held mesh.now (x % 65536) × Held mesh.now (y % 65536) }
    ensures { result ≡ point_pair mesh.now x y }
{
    let g = (x % Header::MESH) as usize;
    let h = (y % Header::MESH) as usize;
    let there = meet(mesh, g, h);
    let back = meet(mesh, h, g);
    there & back
}
