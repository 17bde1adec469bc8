// Two darts are opposite when their ordered vertex pairs are reversed: pairs are ranked so that a pair and its reverse are neighbours.
ghost use Rattle.std.specs.Prelude.{◌≡◌, ℕ, ◌≤◌, ◌<◌, length, get_or, take};
ghost use Rattle.laws.specs.Order.{Ascending};
ghost use Rattle.model.specs.Lists.{all, tab};
ghost use Rattle.model.specs.Values.{message_darts};
ghost use Rattle.ranking.specs.Ranks.{value_at, index_at};
ghost use Rattle.arrival.specs.Sides.{next_index, edge_code, edge_at, ends_differ, Segments, VerticesSmall};
ghost use Rattle.arrival.specs.Draft.{Edged, EdgesPaired};

use memory::record::MessageIndex;

// The index of the next dart along a face.
pub fn next_index(starts: &[usize], sizes: &[usize], i: MessageIndex) -> MessageIndex
    requires { (i.0 < length starts.now) × (i.0 < length sizes.now) × (get_or starts.now i.0 0 ≤ message_darts) × (get_or sizes.now i.0 0 ≤ message_darts) }
    ensures { result.0 ≡ next_index starts.now sizes.now i.0 }
{
    let start = place::index_at(starts, i);
    let size = place::size_at(sizes, i);
    let next = i.0 + 1;
    if next == start.0 + size {
        return start;
    }
    MessageIndex(next)
}

// A pair as one number: twice that of its ends, the lesser first, and 1 more where that turned it round.
fn edge(a: u64, c: u64) -> u64
    requires { (a ≤ message_darts) × (c ≤ message_darts) }
    ensures { result ≡ edge_code a c }
{
    if c < a {
        return (c * 1024 + a) * 2 + 1;
    }
    (a * 1024 + c) * 2
}

// The pairs of the first k darts; whether the ends of each differ.
pub fn put_pairs(
    vertex: &[u64],
    starts: &[usize],
    sizes: &[usize],
    k: usize,
    pairs: &mut [u64],
) -> bool
    requires k_in_bounds { (k ≤ length vertex.now) × (k ≤ length starts.now) × (k ≤ length sizes.now) × (k ≤ length pairs.old) × (k ≤ message_darts) }
    requires segments { Segments starts.now sizes.now k × VerticesSmall vertex.now k }
    ensures { (result ≡ all (ends_differ vertex.now starts.now sizes.now) (tab (λ i. i) k)) × (take k pairs.new ≡ tab (edge_at vertex.now starts.now sizes.now) k) }
{
    // The pairs before i are put; `ok` says whether their ends differ.
    let mut ok = true;
    for i in 0..k {
        let next = next_index(starts, sizes, MessageIndex(i));
        let j = next.0;
        ok = ok & (vertex[i] != vertex[j]);
        pairs[i] = edge(vertex[i], vertex[j]);
    }
    ok
}

// Whether the first k keys, whose values ascend, are edges, two by two; then `opposite` has the index of each one's other.
fn edges(keys: &[u64], k: usize, opposite: &mut [usize]) -> bool
    requires k_in_bounds { (k ≤ length keys.now) × ((p : ℕ) → p < k → index_at keys.now p < length opposite.old) × Ascending k (value_at keys.now) }
    requires by_index { (p s : ℕ) → p < k → s < k → index_at keys.now p ≡ index_at keys.now s → p ≡ s }
    ensures { Edged keys.now k opposite.new result }
{
    // The first h pairs of keys are.
    for h in 0..k / 2 {
        let a = keys[2 * h];
        let b = keys[2 * h + 1];
        if a / 1024 != b / 1024 {
            return false;
        }
        opposite[(a % ranking::INDICES) as usize] = (b % ranking::INDICES) as usize;
        opposite[(b % ranking::INDICES) as usize] = (a % ranking::INDICES) as usize;
    }
    k % 2 == 0
}

// Whether every ordered vertex pair is there once, with different ends and with its reverse; then `opposite` has the index of each
// dart's opposite. The arrays behind it are lent to work in.
pub fn paired(
    vertex: &[u64],
    starts: &[usize],
    sizes: &[usize],
    k: usize,
    opposite: &mut [usize],
    pairs: &mut [u64],
    keys: &mut [u64],
    scratch: &mut [u64],
    ranks: &mut [usize],
) -> bool
    requires k_in_bounds { (k ≤ length vertex.now) × (k ≤ length starts.now) × (k ≤ length sizes.now) × (k ≤ length opposite.old) × (1 ≤ k) × (k ≤ message_darts) }
    requires k_in_bounds_2 { (k ≤ length pairs.old) × (k ≤ length keys.old) × (k ≤ length scratch.old) × (k ≤ length ranks.old) }
    requires segments { Segments starts.now sizes.now k × VerticesSmall vertex.now k }
    ensures { EdgesPaired vertex.now starts.now sizes.now k opposite.new result }
{
    if !put_pairs(vertex, starts, sizes, k, pairs) {
        return false;
    }
    if !ranking::rank(pairs, k, keys, scratch, ranks) {
        return false;
    }
    edges(keys, k, opposite)
}
