// Whether every ordered vertex pair of a volume occurs once, with different ends (question 13): the edges of each vertex, along
// its ring, end at different vertices and none at itself.
ghost use Rattle.std.specs.Prelude.{◌≡◌, true, not, ◌∷◌, ℕ, ◌+◌, ◌≤◌, ◌<◌, eqb, length, get_or, replicate, set};
ghost use Rattle.model.specs.Lists.{distinct, mem};
ghost use Rattle.model.specs.Cells.{ring};
ghost use Rattle.model.specs.Image.{column};
ghost use Rattle.model.specs.Values.{room};
ghost use Rattle.cells.specs.Places.{Ended, Linked, ends_of, ends_once};

use crate::{reset, vertex};
use memory::record;
use memory::record::{Place, Record};

// Gives entry b a colour. Returns whether it had another.
fn give_colour(colours: &mut [usize], b: usize, colour: usize) -> bool
    requires { (length colours.old ≤ room) × (b < length colours.old) }
    ensures fresh { result ≡ not (eqb (get_or colours.old b 0) colour) }
    ensures coloured { colours.new ≡ set colours.old b colour }
{
    let old = colours[b];
    colours[b] = colour;
    old != colour
}

// Whether the edges of vertex `a`, which is that of the dart at place `start`, end at different vertices and none at `a`.
fn ends_differ(
    block: &[u64],
    n: usize,
    start: Place,
    a: usize,
    numbers: &[usize],
    colours: &mut [usize],
) -> bool
    requires linked { Linked block.now n × (start.0 < n) × (a < length colours.old) × (length colours.old ≤ room) }
    requires by_index { (q : ℕ) → mem q (ring (column block.now 1) (column block.now 2) start.0) ≡ true → (column block.now 1 q < length numbers.now) × (get_or numbers.now (column block.now 1 q) 0 < length colours.old) }
    requires by_index_2 { (b : ℕ) → get_or colours.old b 0 ≤ a }
    ensures differ { result ≡ distinct (a ∷ ends_of (column block.now 1) (column block.now 2) numbers.now start.0) }
    ensures bound { (b : ℕ) → get_or colours.new b 0 ≤ a + 1 }
    ensures size { length colours.new ≡ length colours.old }
{
    // `a` and the ends of the edges before p's, `steps` of them, differ, and have the colour.
    let colour = a + 1;
    give_colour(colours, a, colour);
    let first = start.0;
    let mut steps: usize = 0;
    let mut p = first;
    loop {
        let q = record::field(block, Place(p), Record::NEXT) as usize;
        let b = numbers[q];
        if !give_colour(colours, b, colour) {
            return false;
        }
        steps += 1;
        p = vertex::ring_step(block, n, Place(p)).0;
        if p == first {
            return true;
        }
    }
}

// Whether the edges of each of `count` vertices end at different vertices, none at itself, with a clear table of as many colours.
fn each_once(
    block: &[u64],
    n: usize,
    numbers: &[usize],
    firsts: &[usize],
    count: usize,
    colours: &mut [usize],
) -> bool
    requires { Linked block.now n × Ended n (column block.now 1) (column block.now 2) numbers.now firsts.now count × (colours.old ≡ replicate count 0) }
    ensures { result ≡ ends_once (column block.now 1) (column block.now 2) numbers.now firsts.now count }
{
    // The edges of the vertices before a do; no colour is above a.
    for a in 0..count {
        let p = firsts[a];
        if !ends_differ(block, n, Place(p), a, numbers, colours) {
            return false;
        }
    }
    true
}

// Whether the edges of each of `count` vertices end at different vertices, none at itself. `firsts` has a dart of each vertex; `colours`
// may hold anything.
pub fn pairs_once(
    block: &[u64],
    n: usize,
    numbers: &[usize],
    firsts: &[usize],
    count: usize,
    colours: &mut [usize],
) -> bool
    requires { Linked block.now n × Ended n (column block.now 1) (column block.now 2) numbers.now firsts.now count × (count ≤ length colours.old) }
    ensures { result ≡ ends_once (column block.now 1) (column block.now 2) numbers.now firsts.now count }
{
    let used = &mut colours[0..count];
    reset::clear(used);
    each_once(block, n, numbers, firsts, count, used)
}
