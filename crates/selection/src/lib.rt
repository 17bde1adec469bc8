// The picked volumes of a block: one walk over all darts, volume by volume.
#![tactic(auto)]

ghost use Rattle.std.specs.Prelude.{◌≡◌, true, ℕ, ◌+◌, ◌≤◌, ◌<◌, ltb, length, get_or};
ghost use Rattle.model.specs.Lists.{keep, tab};
ghost use Rattle.model.specs.Values.{room};
ghost use Rattle.model.specs.Image.{words_for, column, count_in, block_in, holds_block};
ghost use Rattle.model.specs.Balance.{picked as model-picked};
ghost use Rattle.oracle.specs.Oracle.{oracle_of};
ghost use Rattle.cells.specs.Places.{Clear, Linked, volume_of};
ghost use Rattle.selection.specs.Picked.{Walkable, SomePicked, holds_at, Marking, Added, Through, Measures, Sizes};

use cells::walk;
use memory::header::Header;
use memory::record::Place;
use memory::{point, record};
use oracle::Oracle;

// The place at index k of the queue.
fn place_at(order: &[usize], k: usize) -> Place
    requires { (k < room) × (k < length order.now) }
    ensures { result.0 ≡ get_or order.now k 0 }
{
    Place(order[k])
}

// The place that word f of the dart at place p leads to.
fn along(block: &[u64], p: Place, f: usize) -> Place
    requires { (words_for (p.0 + 1) ≤ length block.now) × (f < 8) }
    ensures { result.0 ≡ column block.now f p.0 }
{
    Place(record::field(block, p, f) as usize)
}

// Marks the volume of the dart at place `start`, which is not marked, beside those marked before. Returns the queue's new length.
fn add_volume(
    block: &[u64],
    n: usize,
    start: Place,
    order: &mut [usize],
    tail: usize,
    marks: &mut [u8],
) -> usize
    requires { Linked block.now n × (start.0 < n) × Marking n (column block.now 1) (column block.now 2) marks.old order.old tail × (get_or marks.old start.0 0 ≡ 0) }
    ensures marking { Marking n (column block.now 1) (column block.now 2) marks.new order.new result }
    ensures added { Added n (volume_of block.now start.0) marks.old tail marks.new order.new result }
{
    // Both links of what stands before `head` lead to what is marked.
    let mut end = walk::visit(marks, order, tail, start);
    let mut head = tail;
    while head < end {
        let p = place_at(order, head);
        head += 1;
        let a = along(block, p, 1);
        end = walk::visit(marks, order, end, a);
        let b = along(block, p, 2);
        end = walk::visit(marks, order, end, b);
    }
    end
}

// Whether the oracle's test holds at some of the places that stand in the queue from one index on up to another.
fn some(block: &[u64], o: Oracle, second: bool, order: &[usize], from: usize, to: usize) -> bool
    requires { Walkable block.now × (to ≤ room) × (to ≤ length order.now) × ((k : ℕ) → k < to → get_or order.now k 0 < get_or block.now 2 0) }
    ensures { SomePicked (holds_at (oracle_of o) second block.now) order.now from to result }
{
    // It holds at none before i.
    for i in from..to {
        let p = place_at(order, i);
        let x = point::point_at(block, p);
        if oracle::holds(o, second, x) {
            return true;
        }
    }
    false
}

// The queue's length, and the size of a picked volume.
#[derive(Clone, Copy)]
struct Measured {
    tail: usize,
    size: usize,
}

// The size of the picked volume that place p starts, 0 where it starts none. A volume that p starts is marked.
fn measure(
    block: &[u64],
    o: Oracle,
    p: Place,
    order: &mut [usize],
    tail: usize,
    marks: &mut [u8],
) -> Measured
    requires { Walkable block.now × (p.0 < get_or block.now 2 0) × Through block.now p.0 marks.old order.old tail }
    ensures { Measures (oracle_of o) block.now p.0 result marks.new order.new }
{
    let i = p.0;
    if marks[i] != 0 {
        return Measured { tail, size: 0 };
    }
    let n = block[2] as usize;
    let end = add_volume(block, n, p, order, tail, marks);
    if !some(block, o, false, order, tail, end) {
        return Measured { tail: end, size: 0 };
    }
    if !some(block, o, true, order, tail, end) {
        return Measured { tail: end, size: 0 };
    }
    Measured {
        tail: end,
        size: end - tail,
    }
}

// The same for all places.
fn measure_all(block: &[u64], o: Oracle, sizes: &mut [usize], order: &mut [usize], marks: &mut [u8])
    requires walkable { Walkable block.now × (count_in block.now ≤ length sizes.old) × (count_in block.now ≤ length order.old) }
    requires block_in_bounds { (count_in block.now ≤ length marks.old) × Clear marks.old }
    ensures { Sizes (oracle_of o) block.now sizes.new }
{
    let n = block[2] as usize;
    // The volumes of the places below p are marked, and the sizes there are told.
    let mut tail = 0;
    for p in 0..n {
        let m = measure(block, o, Place(p), order, tail, marks);
        tail = m.tail;
        sizes[p] = m.size;
    }
}

// The sizes of a block's picked volumes, each at the least place of the volume.
pub fn sizes_of(block: &[u64], o: Oracle, sizes: &mut [usize])
    requires { (holds_block block.now ≡ true) × (count_in block.now ≤ length sizes.old) }
    ensures { Sizes (oracle_of o) block.now sizes.new }
{
    let mut order = [0usize; Header::DARTS];
    let mut marks = [0u8; Header::DARTS];
    measure_all(block, o, sizes, &mut order, &mut marks);
}

// How many of the first n sizes are not 0.
pub fn count_of(sizes: &[usize], n: usize) -> usize
    requires { (n ≤ room) × (n ≤ length sizes.now) }
    ensures { result ≡ length (keep (λ p. ltb 0 (get_or sizes.now p 0)) (tab (λ p. p) n)) }
{
    // Of those before s, c are not 0.
    let mut c = 0;
    for s in &sizes[..n] {
        if *s != 0 {
            c += 1;
        }
    }
    c
}

// How many volumes of a block are picked.
pub fn count(block: &[u64], o: Oracle) -> usize
    requires { holds_block block.now ≡ true }
    ensures { (result ≡ length (model-picked (oracle_of o) (block_in block.now).darts)) × (result ≤ room) }
{
    let mut sizes = [0usize; Header::DARTS];
    sizes_of(block, o, &mut sizes);
    let n = block[2] as usize;
    count_of(&sizes, n)
}
