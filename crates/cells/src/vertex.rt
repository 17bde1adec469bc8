// The vertices of a volume: the rings of its darts, numbered by first use.
ghost use Rattle.std.specs.Prelude.{◌≡◌, ℕ, ◌≤◌, ◌<◌, length, get_or, take, true};
ghost use Rattle.model.specs.Lists.{mem};
ghost use Rattle.model.specs.Cells.{ring};
ghost use Rattle.model.specs.Image.{column};
ghost use Rattle.model.specs.Values.{room};
ghost use Rattle.cells.specs.Places.{Linked, Numbered, Assigned};

use crate::reset;
use memory::record;
use memory::record::{Place, Record};

// The next dart of a ring: next of opposite.
pub fn ring_step(block: &[u64], n: usize, p: Place) -> Place
    requires { Linked block.now n × (p.0 < n) }
    ensures { result.0 ≡ column block.now 1 (column block.now 2 p.0) }
{
    let q = record::field(block, p, Record::OPPOSITE) as usize;
    let r = record::field(block, Place(q), Record::NEXT) as usize;
    Place(r)
}

// Gives the darts of the ring of the dart at place `start` a number.
fn assign_ring(block: &[u64], n: usize, start: Place, number: usize, numbers: &mut [usize])
    requires { Linked block.now n × (start.0 < n) × (n ≤ length numbers.old) }
    ensures { Assigned number (ring (column block.now 1) (column block.now 2) start.0) numbers.old numbers.new }
{
    // The darts from `start` up to the one before p, `steps` of them, have the number.
    let first = start.0;
    let mut steps: usize = 0;
    let mut p = first;
    loop {
        numbers[p] = number;
        steps += 1;
        p = ring_step(block, n, Place(p)).0;
        if p == first {
            return;
        }
    }
}

// Numbers the vertices of the first `darts` darts of `order`, none of which has a number, 4,096 in `numbers`.
fn number_all(
    block: &[u64],
    n: usize,
    order: &[usize],
    darts: usize,
    numbers: &mut [usize],
    firsts: &mut [usize],
) -> usize
    requires linked { Linked block.now n × (darts ≤ room) × (darts ≤ length order.now) × ((k : ℕ) → k < darts → get_or order.now k 0 < n) }
    requires n_in_bounds { (n ≤ length numbers.old) × ((q : ℕ) → mem q (take darts order.now) ≡ true → get_or numbers.old q 0 ≡ room) × (darts ≤ length firsts.old) }
    ensures { Numbered (column block.now 1) (column block.now 2) (take darts order.now) numbers.new firsts.new result }
{
    // The vertices of the darts before i have their numbers, at every dart of their rings.
    let mut count = 0;
    for i in 0..darts {
        let p = order[i];
        if numbers[p] != 4096 {
            continue;
        }
        assign_ring(block, n, Place(p), count, numbers);
        firsts[count] = p;
        count += 1;
    }
    count
}

// Numbers the vertices of the first `darts` darts of `order` by first use, in `numbers` by place, whatever stood there. `firsts` gets the
// first dart of each. Returns how many there are.
pub fn number_vertices(
    block: &[u64],
    n: usize,
    order: &[usize],
    darts: usize,
    numbers: &mut [usize],
    firsts: &mut [usize],
) -> usize
    requires linked { Linked block.now n × (darts ≤ room) × (darts ≤ length order.now) × ((k : ℕ) → k < darts → get_or order.now k 0 < n) }
    requires n_in_bounds { (n ≤ length numbers.old) × (darts ≤ length firsts.old) }
    ensures { Numbered (column block.now 1) (column block.now 2) (take darts order.now) numbers.new firsts.new result }
{
    reset::unnumber(order, darts, numbers);
    number_all(block, n, order, darts, numbers, firsts)
}
