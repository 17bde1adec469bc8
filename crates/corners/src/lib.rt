// The corners of a cell and the mean of their points. The corners are the cell's vertices, each once, in message order; their coordinates
// are added in this order as floats, and divided by how many there are.
#![tactic(auto)]

ghost use Rattle.std.specs.Prelude.{◌≡◌, ℕ, ◌<◌, ◌≤◌, true, map, length, take, slice_index};
ghost use Rattle.model.specs.Values.{room};
ghost use Rattle.model.specs.Image.{dart_in, holds_block};
ghost use Rattle.selection.specs.Picked.{Walkable};
ghost use Rattle.corners.specs.Corners.{plus_point, over_number, sum_of, Cornered, mean_in};

use memory::header::Header;
use memory::point::Point;
use memory::record::Place;
use memory::{lookup, point};

pub mod thousandths; // thousandths.rt: a float as whole thousandths

// The sum of two points, by coordinates.
fn plus(a: Point, b: Point) -> Point
    ensures { result ≡ plus_point a b }
{
    Point {
        x: a.x + b.x,
        y: a.y + b.y,
        z: a.z + b.z,
    }
}

// A point's coordinates over a number.
fn over(a: Point, n: usize) -> Point
    ensures { result ≡ over_number a n }
{
    let d = std::num::nearest_u64_to_f64(n as u64);
    Point {
        x: a.x / d,
        y: a.y / d,
        z: a.z / d,
    }
}

// The points of the first `count` places of a list, added up.
fn sum_at(block: &[u64], places: &[usize], count: usize) -> Point
    requires { Walkable block.now × (count ≤ length places.now) × (count ≤ room) × ((k : ℕ) → k < count → slice_index places.now k < slice_index block.now 2) }
    ensures { result ≡ sum_of (map (λ p. (dart_in block.now p).point) (take count places.now)) }
{
    // Those before p are added.
    let mut sum = Point {
        x: 0.0,
        y: 0.0,
        z: 0.0,
    };
    for p in &places[..count] {
        sum = plus(sum, point::point_at(block, Place(*p)));
    }
    sum
}

// The corners of the cell of the dart at place p: `firsts` gets a dart of each. Returns how many there are.
fn corners_at(block: &[u64], p: Place, firsts: &mut [usize]) -> usize
    requires { (holds_block block.now ≡ true) × (p.0 < slice_index block.now 2) × (slice_index block.now 2 ≤ length firsts.old) }
    ensures { Cornered block.now p.0 firsts.new result }
{
    let n = block[Header::COUNT] as usize;
    let mut marks = [0u8; Header::DARTS];
    let mut out = [0usize; Header::DARTS];
    let mut starts = [0usize; Header::DARTS];
    let mut seen = [0u8; Header::DARTS];
    let mut numbers = [0usize; Header::DARTS];
    let size = cells::walk::volume(block, n, p, &mut out, &mut marks);
    let order = cells::order::message_order(
        block,
        n,
        size,
        &marks,
        &mut out,
        &mut starts,
        &mut seen,
    );
    let darts = order.darts;
    cells::vertex::number_vertices(block, n, &out, darts, &mut numbers, firsts)
}

// The mean of the corners of the cell that has a serial; none where no cell has it, or the memory is no sound block's image.
pub fn mean_of(block: &[u64], serial: u64) -> Option<Point>
    ensures { result ≡ mean_in block.now serial }
{
    if !sound::is_sound(block) {
        return None;
    }
    let n = block[Header::COUNT] as usize;
    let place = lookup::place_of(block, n, serial)?;
    let mut firsts = [0usize; Header::DARTS];
    let count = corners_at(block, place, &mut firsts);
    let sum = sum_at(block, &firsts, count);
    Some(over(sum, count))
}
