// Question 19: no face of size 0, one volume, each ordered vertex pair once with its reverse, order and numbering those of send.
ghost use Rattle.std.specs.Prelude.{◌≡◌, true, ℕ, ◌≤◌, ◌<◌, eqb, length, get_or};
ghost use Rattle.model.specs.Lists.{all, tab};
ghost use Rattle.model.specs.Values.{finite, message_darts};
ghost use Rattle.model.specs.Image.{words_for};
ghost use Rattle.model.specs.Messages.{Transfer};
ghost use Rattle.model.specs.Arrival.{volume_right};
ghost use Rattle.cells.specs.Places.{Clear, Linked, places_in, volume_of};
ghost use Rattle.inbox.specs.Inbox.{points_in};
ghost use Rattle.ranking.specs.Ranks.{Ranked};
ghost use Rattle.arrival.specs.Draft.{Compared, TransferTold, Draft};

use crate::{draft, order, pairs};
use memory::record::{MessageIndex, Place};
use place::DraftPlace;

// Whether the k darts of a draft are the volume of the one at place `first`. `marks` are clear, and so again.
fn one_volume(
    draft: &[u64],
    k: usize,
    first: DraftPlace,
    queue: &mut [usize],
    marks: &mut [u8],
) -> bool
    requires { Linked draft.now k × (first.0 < k) × (k ≤ length queue.old) × (k ≤ length marks.old) × Clear marks.old }
    ensures answer { result ≡ eqb (length (places_in k (volume_of draft.now first.0))) k }
    ensures unmarked { Clear marks.new }
{
    let size = cells::walk::volume(draft, k, Place(first.0), queue, marks);
    cells::reset::unmark(queue, size, marks);
    size == k
}

// Whether each dart has the number of its vertex.
fn numbers_same(vertex: &[u64], ranks: &[usize], k: usize, numbers: &[usize]) -> bool
    requires { (k ≤ length vertex.now) × (k ≤ length ranks.now) × (k ≤ length numbers.now) × ((i : ℕ) → i < k → get_or ranks.now i 0 < k) }
    ensures { result ≡ all (λ i. eqb (get_or vertex.now i 0) (get_or numbers.now (get_or ranks.now i 0) 0)) (tab (λ i. i) k) }
{
    // Those before i have.
    for i in 0..k {
        let place = place::rank_at(ranks, MessageIndex(i));
        let p = place.0;
        if vertex[i] != numbers[p] as u64 {
            return false;
        }
    }
    true
}

// Whether the vertices are numbered from 0 by first use, `count` of them.
fn numbered(
    draft: &[u64],
    k: usize,
    vertex: &[u64],
    count: u64,
    ranks: &[usize],
    numbers: &mut [usize],
    firsts: &mut [usize],
) -> bool
    requires { Linked draft.now k × (k ≤ length vertex.now) × (k ≤ length ranks.now) × (k ≤ message_darts) × ((i : ℕ) → i < k → get_or ranks.now i 0 < k) × (k ≤ length numbers.old) × (k ≤ length firsts.old) }
    ensures { Compared vertex.now ranks.now count k draft.now result }
{
    let found = cells::vertex::number_vertices(draft, k, ranks, k, numbers, firsts);
    numbers_same(vertex, ranks, k, numbers) & (count == found as u64)
}

// 19, of a transfer whose points are finite and whose serials are ranked; on a yes its darts are drafted. The arrays behind `draft` are lent to
// work in; `marks` are clear, and so again.
pub fn volume_right(
    message: &[u8],
    from: usize,
    count: u64,
    hollow: bool,
    vertex: &[u64],
    serial: &[u64],
    starts: &[usize],
    sizes: &[usize],
    k: usize,
    keys: &[u64],
    ranks: &[usize],
    opposite: &mut [usize],
    draft: &mut [u64],
    queue: &mut [usize],
    firsts: &mut [usize],
    pairs: &mut [u64],
    sorted: &mut [u64],
    scratch: &mut [u64],
    marks: &mut [u8],
) -> bool
    requires k_in_bounds { (k ≤ length vertex.now) × (k ≤ length serial.now) × (k ≤ length starts.now) × (k ≤ length sizes.now) × (k ≤ length keys.now) × (k ≤ length ranks.now) × (k ≤ length opposite.old) × (words_for k ≤ length draft.old) }
    requires k_in_bounds_2 { (k ≤ length queue.old) × (k ≤ length firsts.old) × (k ≤ length pairs.old) × (k ≤ length sorted.old) × (k ≤ length scratch.old) × (k ≤ length marks.old) × Clear marks.old }
    requires ranked { Ranked serial.now k keys.now ranks.now × (all finite (points_in message.now from count) ≡ true) × ((t : Transfer) × TransferTold t vertex.now serial.now starts.now sizes.now message.now from count k hollow) }
    ensures answer { (t : Transfer) → TransferTold t vertex.now serial.now starts.now sizes.now message.now from count k hollow → result ≡ volume_right t }
    ensures drafted { result ≡ true → Draft vertex.now serial.now starts.now sizes.now keys.now ranks.now opposite.new message.now from k draft.new }
    ensures unmarked { Clear marks.new }
{
    if hollow {
        return false;
    }
    if !order::ordered(serial, starts, k) {
        return false;
    }
    if !order::vertices_fit(vertex, k, count) {
        return false;
    }
    if !pairs::paired(
        vertex, starts, sizes, k, opposite, pairs, sorted, scratch, queue,
    ) {
        return false;
    }
    draft::put_draft(
        message, from, vertex, starts, sizes, k, keys, ranks, opposite, draft,
    );
    let first = place::rank_at(ranks, MessageIndex(0));
    if !one_volume(draft, k, first, queue, marks) {
        return false;
    }
    numbered(draft, k, vertex, count, ranks, queue, firsts)
}
