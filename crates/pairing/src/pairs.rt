// Keys in order, two by two: each code stands exactly twice, and the two darts pass the tests.
ghost use Rattle.std.specs.Prelude.{◌≡◌, ◌+◌, ◌/◌, ◌<◌, length, get_or, drop};
ghost use Rattle.pairing.specs.Numbers.{MeshAsked, PlacesBefore};
ghost use Rattle.pairing.specs.Keys.{HeldKeys, fresh as fresh_in, in_pairs, each_pair, label_pair, point_pair, two_test};

use crate::dart;
use memory::header::Header;

// Whether key t, if there is one, has another label than x.
fn fresh(keys: &[u64], x: u64, t: usize) -> bool
    ensures { result ≡ fresh_in (x / 65536) (drop t keys.now) }
{
    if keys.len() <= t {
        return true;
    }
    x / Header::MESH != keys[t] / Header::MESH
}

// 25, of keys t and t + 1.
fn two(mesh: &[u64], table: &[u64], keys: &[u64], t: usize) -> bool
    requires { MeshAsked mesh.now × PlacesBefore mesh.now table.now × HeldKeys mesh.now keys.now × (t + 1 < length keys.now) }
    ensures { result ≡ two_test (label_pair mesh.now table.now) (get_or keys.now t 0) (get_or keys.now (t + 1) 0) (drop (t + 2) keys.now) }
{
    let x = keys[t];
    let y = keys[t + 1];
    let apart = fresh(keys, x, t + 2);
    let pair = dart::labels_pair(mesh, table, x, y);
    (x / Header::MESH == y / Header::MESH) & apart & pair
}

// 25, of all keys.
pub fn labels(mesh: &[u64], table: &[u64], keys: &[u64]) -> bool
    requires { MeshAsked mesh.now × PlacesBefore mesh.now table.now × HeldKeys mesh.now keys.now }
    ensures { result ≡ in_pairs (label_pair mesh.now table.now) keys.now }
{
    let n = keys.len();
    // The first h pairs pass.
    for h in 0..n / 2 {
        if !two(mesh, table, keys, 2 * h) {
            return false;
        }
    }
    n % 2 == 0
}

// 26, of all keys.
pub fn points(mesh: &[u64], keys: &[u64]) -> bool
    requires { MeshAsked mesh.now × HeldKeys mesh.now keys.now }
    ensures { result ≡ each_pair (point_pair mesh.now) keys.now }
{
    // The first h pairs pass.
    for h in 0..keys.len() / 2 {
        if !dart::points_pair(mesh, keys[2 * h], keys[2 * h + 1]) {
            return false;
        }
    }
    true
}
