// The volume of a dart: a walk along next and opposite that marks what it meets.
ghost use Rattle.std.specs.Prelude.{◌≡◌, ◌≤◌, ◌<◌, length, get_or, take};
ghost use Rattle.model.specs.Lists.{least};
ghost use Rattle.model.specs.Values.{room};
ghost use Rattle.cells.specs.Places.{Clear, Linked, Listed, Marked, Visited, places_in, volume_of};

use memory::record;
use memory::record::{Place, Record};

// A place that is not marked is marked and put at the end of the queue. Returns the queue's new length.
pub fn visit(marks: &mut [u8], order: &mut [usize], tail: usize, p: Place) -> usize
    requires { (p.0 < length marks.old) × (tail ≤ room) × (get_or marks.old p.0 0 ≡ 0 → tail < length order.old) }
    ensures { Visited p.0 marks.old order.old tail marks.new order.new result }
{
    let i = p.0;
    if marks[i] != 0 {
        return tail;
    }
    marks[i] = 1;
    order[tail] = i;
    tail + 1
}

// Marks the volume of the dart at place `start`; `order` lists it. Returns how many darts it has (question 11).
pub fn volume(block: &[u64], n: usize, start: Place, order: &mut [usize], marks: &mut [u8]) -> usize
    requires { Linked block.now n × (start.0 < n) × (n ≤ length order.old) × (n ≤ length marks.old) × Clear marks.old }
    ensures marked { Marked (volume_of block.now start.0) marks.new }
    ensures count { result ≡ length (places_in n (volume_of block.now start.0)) }
    ensures listed { Listed n (volume_of block.now start.0) order.new result }
{
    // What is queued is in the volume and marked; both links of what stands before `head` lead to what is marked.
    let first = start.0;
    let mut tail = visit(marks, order, 0, Place(first));
    let mut head = 0;
    while head < tail {
        let p = order[head];
        head += 1;
        let a = record::field(block, Place(p), Record::NEXT) as usize;
        tail = visit(marks, order, tail, Place(a));
        let b = record::field(block, Place(p), Record::OPPOSITE) as usize;
        tail = visit(marks, order, tail, Place(b));
    }
    tail
}

// The least of the first `count` places of a list, which has some.
pub fn least_place(order: &[usize], count: usize) -> Place
    requires { (0 < count) × (count ≤ room) × (count ≤ length order.now) }
    ensures { result.0 ≡ least (take count order.now) }
{
    // The least of the places before i.
    let mut low = order[0];
    for i in 1..count {
        let p = order[i];
        if p < low {
            low = p;
        }
    }
    Place(low)
}
