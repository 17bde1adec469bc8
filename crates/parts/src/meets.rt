// The faces of part 2: each meets a face of the block.
ghost use Rattle.std.specs.Prelude.{◌≡◌, ℕ, ◌+◌, ◌≤◌, ◌<◌, ◌&&◌, ltb, eqb, length, get_or, take};
ghost use Rattle.model.specs.Values.{last_block};
ghost use Rattle.model.specs.Lists.{all, tab};
ghost use Rattle.cells.specs.Places.{Linked, Assigned};
ghost use Rattle.parts.specs.Meets.{Walked, Meetable, Trailed, met_at, meets_at, EntryRight};
ghost use Rattle.parts.specs.Faces.{Over};
ghost use Rattle.parts.specs.Sewing.{Entered, Sewable, Part2Told};

use crate::{faces, meet};
use memory::record;
use memory::record::{MessageIndex, Place, Record};

// Walks the face of the dart at place `start` into `trail`, at most `size` steps. Whether it has `size` darts.
fn walk_face(block: &[u64], n: usize, start: Place, size: usize, trail: &mut [usize]) -> bool
    requires { Linked block.now n × (start.0 < n) × (size ≤ length trail.old) }
    ensures { Walked block.now start.0 size trail.new result }
{
    let first = start.0;
    // The darts from `first` up to the one before p are put; none of the steps led back.
    let mut p = first;
    for i in 0..size {
        trail[i] = p;
        let next = place::next_of(block, Place(p));
        p = next.0;
        if p == first {
            return i + 1 == size;
        }
    }
    false
}

// The place that dart j of a new face meets: the face of the block goes the other way.
fn met(trail: &[usize], size: usize, j: usize) -> Place
    requires { (size ≤ length trail.now) × (j < size) }
    ensures { result.0 ≡ met_at trail.now size j }
{
    if j == 0 {
        return place::place_at(trail, 0);
    }
    place::place_at(trail, size - j)
}

// Whether the points of dart j of the new face from index `at` on agree.
fn meets(
    block: &[u64],
    n: usize,
    draft: &[u64],
    k: usize,
    ranks: &[usize],
    at: MessageIndex,
    size: usize,
    trail: &[usize],
    j: usize,
) -> bool
    requires { Meetable block.now n draft.now k ranks.now × (at.0 + size ≤ k) × (j < size) × Trailed n size trail.now }
    ensures { result ≡ meets_at block.now draft.now ranks.now at.0 size trail.now j }
{
    let w = met(trail, size, j);
    let i = at.0 + j;
    let p = place::rank_at(ranks, MessageIndex(i));
    meet::meet_at(block, draft, p, w)
}

// Whether those of all its darts do.
fn all_meet(
    block: &[u64],
    n: usize,
    draft: &[u64],
    k: usize,
    ranks: &[usize],
    at: MessageIndex,
    size: usize,
    trail: &[usize],
) -> bool
    requires { Meetable block.now n draft.now k ranks.now × (at.0 + size ≤ k) × Trailed n size trail.now }
    ensures { result ≡ all (meets_at block.now draft.now ranks.now at.0 size trail.now) (tab (λ j. j) size) }
{
    let first = at.0;
    // Those before j do.
    let mut ok = true;
    for j in 0..size {
        ok = ok
            & meets(
                block,
                n,
                draft,
                k,
                ranks,
                MessageIndex(first),
                size,
                trail,
                j,
            );
    }
    ok
}

// Whether the face of `size` new darts from index `at` on meets that of the dart at place y, critical with block `from`. A yes leaves the met face in `trail`.
pub fn entry_right(
    block: &[u64],
    n: usize,
    draft: &[u64],
    k: usize,
    ranks: &[usize],
    from: u64,
    y: Place,
    at: MessageIndex,
    size: usize,
    trail: &mut [usize],
) -> bool
    requires { Meetable block.now n draft.now k ranks.now × (from ≤ last_block) × (y.0 < n) × (at.0 + size ≤ k) × (size ≤ length trail.old) }
    ensures { EntryRight block.now draft.now ranks.now from y.0 at.0 size trail.new result }
{
    if record::field(block, y, Record::KIND) != 2 + 4 * from {
        return false;
    }
    if !walk_face(block, n, y, size, trail) {
        return false;
    }
    all_meet(block, n, draft, k, ranks, at, size, trail)
}

// The places that the darts of a new face meet, from index `at` on.
fn put_met(trail: &[usize], size: usize, links: &mut [u64], at: MessageIndex)
    requires { (size ≤ length trail.now) × (at.0 + size ≤ length links.old) }
    ensures { Over at.0 size (met_at trail.now size) links.old links.new }
{
    let first = at.0;
    // The first j are put.
    for j in 0..size {
        let there = met(trail, size, j);
        links[first + j] = there.0 as u64;
    }
}

// Assigns the first `size` places of a trail.
fn assign(trail: &[usize], size: usize, seen: &mut [u8])
    requires { Trailed (length seen.old) size trail.now }
    ensures { Assigned 1 (take size trail.now) seen.old seen.new }
{
    // The first j are assigned.
    for j in 0..size {
        let place = place::place_at(trail, j);
        let p = place.0;
        seen[p] = 1;
    }
}

// Whether y is one of the n places, and not yet seen.
fn is_new(seen: &[u8], n: usize, y: Place) -> bool
    requires { n ≤ length seen.now }
    ensures { result ≡ (ltb y.0 n && eqb (get_or seen.now y.0 0) 0) }
{
    let p = y.0;
    if p >= n {
        return false;
    }
    seen[p] == 0
}

// Sews the face of `size` new darts from index `at` on to that of the dart at place y, if it is right and that was not seen before.
fn enter(
    block: &[u64],
    n: usize,
    draft: &[u64],
    k: usize,
    ranks: &[usize],
    from: u64,
    y: Place,
    at: MessageIndex,
    size: usize,
    trail: &mut [usize],
    seen: &mut [u8],
    kinds: &mut [u64],
    links: &mut [u64],
) -> bool
    requires { Meetable block.now n draft.now k ranks.now × (from ≤ last_block) × (at.0 + size ≤ k) × (size ≤ length trail.old) × (n ≤ length seen.old) × (k ≤ length kinds.old) × (k ≤ length links.old) }
    ensures { Entered block.now draft.now ranks.now n from y.0 at.0 size trail.new seen.old seen.new kinds.old kinds.new links.old links.new result }
{
    if !is_new(seen, n, y) {
        return false;
    }
    if !entry_right(block, n, draft, k, ranks, from, y, at, size, trail) {
        return false;
    }
    faces::fill(kinds, at, size, 1);
    put_met(trail, size, links, at);
    assign(trail, size, seen);
    true
}

// Whether each face of part 2 meets a face of its own; then its darts are sewn to the places that they meet. `trail` and `seen`, which
// is clear, are lent to work in.
pub fn part2_right(
    block: &[u64],
    n: usize,
    draft: &[u64],
    k: usize,
    ranks: &[usize],
    from: u64,
    places: &[usize],
    indices: &[u64],
    c: usize,
    sizes: &[usize],
    trail: &mut [usize],
    seen: &mut [u8],
    kinds: &mut [u64],
    links: &mut [u64],
) -> bool
    requires sewable { Sewable block.now draft.now ranks.now sizes.now places.now indices.now n k from c }
    requires k_in_bounds { (k ≤ length trail.old) × (n ≤ length seen.old) × ((q : ℕ) → get_or seen.old q 0 ≡ 0) × (k ≤ length kinds.old) × (k ≤ length links.old) }
    ensures { Part2Told block.now draft.now ranks.now sizes.now places.now indices.now n from c kinds.old kinds.new links.old links.new result }
{
    // Those before e are right, and the faces that they meet are seen.
    for e in 0..c {
        let y = place::place_at(places, e);
        let at = place::entry_index(indices, e);
        let size = place::size_at(sizes, at);
        if !enter(
            block, n, draft, k, ranks, from, y, at, size, trail, seen, kinds, links,
        ) {
            return false;
        }
    }
    true
}
