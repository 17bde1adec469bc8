// Parts 2, 3 and 4: the faces critical with the destination, the sewn faces, the other critical faces.
ghost use Rattle.std.specs.Prelude.{◌≡◌, ◌+◌, ◌≤◌, ◌<◌, ◌^◌, length};
ghost use Rattle.model.specs.Values.{last_block};
ghost use Rattle.model.specs.Image.{words_for, count_in};
ghost use Rattle.groups.specs.Slices.{Stored};
ghost use Rattle.cells.specs.Places.{Linked};
ghost use Rattle.departure.specs.ByPlaces.{critical_with, critical_beside};
ghost use Rattle.outbox.specs.Runs.{run, tally};
ghost use Rattle.outbox.specs.Bytes.{DartsListed, Opened, FacesStarted, beside_put, in_part2, in_part3, in_part4, label_put, part2_put, part3_put, part4_put};

use crate::first;
use cells::sewn;
use codec::entry;
use memory::record::{MessageIndex, Place, Record};
use memory::{kind, record};

// Whether the dart at place p is critical with block `to`.
fn critical_with(block: &[u64], to: u64, p: Place) -> bool
    requires { (words_for (p.0 + 1) ≤ length block.now) × (to ≤ last_block) }
    ensures { result ≡ critical_with block.now to p.0 }
{
    record::field(block, p, Record::KIND) == kind::critical_with(to)
}

// Whether it is critical with another one.
fn critical_beside(block: &[u64], to: u64, p: Place) -> bool
    requires { (words_for (p.0 + 1) ≤ length block.now) × (to ≤ last_block) }
    ensures { result ≡ critical_beside block.now to p.0 }
{
    let word = record::field(block, p, Record::KIND);
    kind::is_critical(word) & (word != kind::critical_with(to))
}

// How many entries part 2 has.
pub fn part2_count(block: &[u64], to: u64, order: &[usize], starts: &[usize], count: usize) -> usize
    requires { (words_for (count_in block.now) ≤ length block.now) × Opened (count_in block.now) order.now starts.now count × (to ≤ last_block) }
    ensures { result ≡ tally (in_part2 block.now to order.now starts.now) count }
{
    // The faces before f have so many entries.
    let mut entries = 0;
    for f in 0..count {
        let i = starts[f];
        let p = order[i];
        if critical_with(block, to, Place(p)) {
            entries += 1;
        }
    }
    entries
}

// Part 2.
pub fn put_part2s(
    block: &[u64],
    to: u64,
    order: &[usize],
    starts: &[usize],
    count: usize,
    out: &mut [u8],
    from: usize,
) -> usize
    requires block_in_bounds { (words_for (count_in block.now) ≤ length block.now) × Opened (count_in block.now) order.now starts.now count × (to ≤ last_block) }
    requires count_bound { from + length (run (part2_put block.now to order.now starts.now) count) < 2 ^ 63 }
    ensures { Stored out.old from (run (part2_put block.now to order.now starts.now) count) out.new result }
{
    // The entries of the faces before f are put, up to `at`.
    let mut at = from;
    for f in 0..count {
        let i = starts[f];
        let p = order[i];
        if !critical_with(block, to, Place(p)) {
            continue;
        }
        at = entry::put_part2(
            out,
            at,
            record::field(block, Place(p), Record::LINK),
            MessageIndex(i),
        );
    }
    at
}

// Part 3; `counter` is the first number.
pub fn put_part3s(
    block: &[u64],
    n: usize,
    marks: &[u8],
    counter: u64,
    order: &[usize],
    starts: &[usize],
    count: usize,
    out: &mut [u8],
    from: usize,
) -> usize
    requires linked { Linked block.now n × (n ≤ length marks.now) × Opened n order.now starts.now count }
    requires count_bound { counter + tally (in_part3 block.now marks.now order.now starts.now) count < 2 ^ 32 }
    requires count_bound_2 { from + length (run (part3_put block.now marks.now counter order.now starts.now) count) < 2 ^ 63 }
    ensures { Stored out.old from (run (part3_put block.now marks.now counter order.now starts.now) count) out.new result }
{
    // The entries of the faces before f are put, up to `at`; the next has `number`.
    let mut at = from;
    let mut number = counter;
    for f in 0..count {
        let i = starts[f];
        let p = order[i];
        if !sewn::sewn_away(block, n, marks, Place(p)) {
            continue;
        }
        at = entry::put_part3(out, at, number, MessageIndex(i));
        number += 1;
    }
    at
}

// The labels of the `size` darts of a face from index `start` of the order on.
fn put_labels(
    block: &[u64],
    order: &[usize],
    start: MessageIndex,
    size: usize,
    out: &mut [u8],
    from: usize,
) -> usize
    requires darts_listed { DartsListed block.now order.now (start.0 + size) }
    requires size_bound { from + length (run (label_put block.now order.now start.0) size) < 2 ^ 63 }
    ensures { Stored out.old from (run (label_put block.now order.now start.0) size) out.new result }
{
    // The labels before k are put, up to `at`.
    let first = start.0;
    let mut at = from;
    for k in 0..size {
        let p = order[first + k];
        at = groups::put_label(out, at, record::field(block, Place(p), Record::LINK));
    }
    at
}

// A whole entry of part 4: index, other block and labels of a face.
fn put_beside(
    block: &[u64],
    order: &[usize],
    start: MessageIndex,
    size: usize,
    out: &mut [u8],
    at: usize,
) -> usize
    requires darts_listed { DartsListed block.now order.now (start.0 + size) × (0 < size) }
    requires size_bound { at + length (beside_put block.now order.now start.0 size) < 2 ^ 63 }
    ensures { Stored out.old at (beside_put block.now order.now start.0 size) out.new result }
{
    let first = start.0;
    let p = order[first];
    let other = kind::other_of(record::field(block, Place(p), Record::KIND));
    let past = entry::put_part4(out, at, start, other);
    put_labels(block, order, start, size, out, past)
}

// How many entries part 4 has.
pub fn part4_count(block: &[u64], to: u64, order: &[usize], starts: &[usize], count: usize) -> usize
    requires { (words_for (count_in block.now) ≤ length block.now) × Opened (count_in block.now) order.now starts.now count × (to ≤ last_block) }
    ensures { result ≡ tally (in_part4 block.now to order.now starts.now) count }
{
    // The faces before f have so many entries.
    let mut entries = 0;
    for f in 0..count {
        let i = starts[f];
        let p = order[i];
        if critical_beside(block, to, Place(p)) {
            entries += 1;
        }
    }
    entries
}

// Part 4.
pub fn put_part4s(
    block: &[u64],
    to: u64,
    order: &[usize],
    starts: &[usize],
    darts: usize,
    count: usize,
    out: &mut [u8],
    from: usize,
) -> usize
    requires darts_listed { DartsListed block.now order.now darts × FacesStarted starts.now darts count × (to ≤ last_block) }
    requires count_bound { from + length (run (part4_put block.now to order.now starts.now darts count) count) < 2 ^ 63 }
    ensures { Stored out.old from (run (part4_put block.now to order.now starts.now darts count) count) out.new result }
{
    // The entries of the faces before f are put, up to `at`.
    let mut at = from;
    for f in 0..count {
        let start = starts[f];
        let end = first::face_end(starts, count, darts, f);
        let p = order[start];
        if !critical_beside(block, to, Place(p)) {
            continue;
        }
        at = put_beside(block, order, MessageIndex(start), end - start, out, at);
    }
    at
}
