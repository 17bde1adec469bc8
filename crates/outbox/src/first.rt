// Part 1: the points of the vertices, and the faces with vertex and serial of each dart.
ghost use Rattle.std.specs.Prelude.{◌≡◌, ◌+◌, ◌≤◌, ◌<◌, ◌^◌, length};
ghost use Rattle.model.specs.Values.{room};
ghost use Rattle.groups.specs.Slices.{Stored};
ghost use Rattle.outbox.specs.Runs.{run};
ghost use Rattle.outbox.specs.Bytes.{DartsListed, Pointed, FacesStarted, Vertexed, dart_put, end_of, face_put, faces_put, point_put};

use codec::entry;
use memory::record::{MessageIndex, Place, Record};
use memory::{point, record};

// The index after face f: where the next face starts, or the number of darts.
pub fn face_end(starts: &[usize], count: usize, darts: usize, f: usize) -> usize
    requires { (count ≤ length starts.now) × (count ≤ room) × (f < count) }
    ensures { result ≡ end_of starts.now count darts f }
{
    if f + 1 < count {
        return starts[f + 1];
    }
    darts
}

// The points of the first darts of `count` vertices.
pub fn put_points(
    block: &[u64],
    firsts: &[usize],
    count: usize,
    out: &mut [u8],
    from: usize,
) -> usize
    requires pointed { Pointed block.now firsts.now count }
    requires count_bound { from + length (run (point_put block.now firsts.now) count) < 2 ^ 63 }
    ensures { Stored out.old from (run (point_put block.now firsts.now) count) out.new result }
{
    // The points before k are put, up to `at`.
    let mut at = from;
    for k in 0..count {
        let p = firsts[k];
        at = entry::put_point(out, at, point::point_at(block, Place(p)));
    }
    at
}

// The `size` darts of a face from index `start` of the order on.
fn put_darts(
    block: &[u64],
    numbers: &[usize],
    order: &[usize],
    start: MessageIndex,
    size: usize,
    out: &mut [u8],
    from: usize,
) -> usize
    requires darts_listed { DartsListed block.now order.now (start.0 + size) × Vertexed numbers.now order.now (start.0 + size) }
    requires size_bound { from + length (run (dart_put block.now numbers.now order.now start.0) size) < 2 ^ 63 }
    ensures { Stored out.old from (run (dart_put block.now numbers.now order.now start.0) size) out.new result }
{
    // The darts before k are put, up to `at`.
    let first = start.0;
    let mut at = from;
    for k in 0..size {
        let p = order[first + k];
        at = entry::put_dart(
            out,
            at,
            numbers[p],
            record::field(block, Place(p), Record::SERIAL),
        );
    }
    at
}

// A face: its size, then its darts.
fn put_face(
    block: &[u64],
    numbers: &[usize],
    order: &[usize],
    start: MessageIndex,
    size: usize,
    out: &mut [u8],
    at: usize,
) -> usize
    requires darts_listed { DartsListed block.now order.now (start.0 + size) × Vertexed numbers.now order.now (start.0 + size) }
    requires size_bound { at + length (face_put block.now numbers.now order.now start.0 size) < 2 ^ 63 }
    ensures { Stored out.old at (face_put block.now numbers.now order.now start.0 size) out.new result }
{
    let past = groups::put_group(out, at, size as u32);
    put_darts(block, numbers, order, start, size, out, past)
}

// The faces one after the other.
pub fn put_faces(
    block: &[u64],
    numbers: &[usize],
    order: &[usize],
    starts: &[usize],
    darts: usize,
    count: usize,
    out: &mut [u8],
    from: usize,
) -> usize
    requires darts_listed { DartsListed block.now order.now darts × Vertexed numbers.now order.now darts × FacesStarted starts.now darts count }
    requires count_bound { from + length (run (faces_put block.now numbers.now order.now starts.now darts count) count) < 2 ^ 63 }
    ensures { Stored out.old from (run (faces_put block.now numbers.now order.now starts.now darts count) count) out.new result }
{
    // The faces before f are put, up to `at`.
    let mut at = from;
    for f in 0..count {
        let start = starts[f];
        let end = face_end(starts, count, darts, f);
        at = put_face(
            block,
            numbers,
            order,
            MessageIndex(start),
            end - start,
            out,
            at,
        );
    }
    at
}
