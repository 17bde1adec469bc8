// An update for each relative, by ascending block, each into what is left of the outbox.
ghost use Rattle.std.specs.Prelude.{◌≡◌, true, List, map, ℕ, ◌≤◌, ◌<◌, ◌^◌, length, get_or, replicate};
ghost use Rattle.model.specs.Values.{last_block};
ghost use Rattle.model.specs.Lists.{concat};
ghost use Rattle.model.specs.Layouts.{framed};
ghost use Rattle.model.specs.Messages.{update};
ghost use Rattle.model.specs.Image.{holds_block};
ghost use Rattle.groups.specs.Slices.{Stored};
ghost use Rattle.departure.specs.ByPlaces.{updates_at};
ghost use Rattle.departure.specs.Asked.{Surveyed, faces_at};
ghost use Rattle.outbox.specs.Runs.{run};
ghost use Rattle.outbox.specs.Bytes.{DartsListed, FacesStarted};
ghost use Rattle.outbox.specs.ByBlocks.{Few, Shares, sizes_for, told_put};

use crate::{labels, update};
use departure::Counts;

// The bytes of the messages for all blocks.
fn sum_sizes(to: u64, labels: &[usize], bytes: &[usize]) -> usize
    requires { Few labels.now bytes.now }
    ensures { (result ≡ sizes_for to labels.now bytes.now 16) × (result < 2 ^ 32) }
{
    // The messages before block k take `size` bytes.
    let mut size = 0;
    for k in 0..memory::header::BLOCKS {
        size += update::update_size(to, k as u64, labels[k], bytes[k]);
    }
    size
}

// What send asks for (question 15): the bytes of all updates. On the way each block's labels are counted.
pub fn updates_size(
    block: &[u64],
    to: u64,
    order: &[usize],
    starts: &[usize],
    counts: Counts,
    labels: &mut [usize],
    bytes: &mut [usize],
) -> usize
    requires darts_listed { DartsListed block.now order.now counts.darts × FacesStarted starts.now counts.darts counts.faces }
    requires block_bound { (get_or block.now 0 0 ≤ last_block) × (to ≤ last_block) × (labels.old ≡ replicate 16 0) × (bytes.old ≡ replicate 16 0) }
    ensures { (result ≡ length (run (told_put block.now to order.now starts.now counts.darts counts.faces) 16)) × (result < 2 ^ 32) × Shares block.now order.now starts.now counts.darts counts.faces counts.faces labels.new bytes.new }
{
    labels::count_labels(
        block,
        order,
        starts,
        counts.darts,
        counts.faces,
        labels,
        bytes,
    );
    sum_sizes(to, labels, bytes)
}

// The updates of a surveyed volume that goes to block `to`, one after the other from the first byte of what is lent on.
pub fn put_updates(
    block: &[u64],
    to: u64,
    order: &[usize],
    starts: &[usize],
    counts: Counts,
    labels: &[usize],
    bytes: &[usize],
    out: &mut [u8],
) -> usize
    requires block_value { (holds_block block.now ≡ true) × (to ≤ last_block) }
    requires darts_listed { DartsListed block.now order.now counts.darts × FacesStarted starts.now counts.darts counts.faces }
    requires shares { Shares block.now order.now starts.now counts.darts counts.faces counts.faces labels.now bytes.now }
    requires faces_in_bounds { length (run (told_put block.now to order.now starts.now counts.darts counts.faces) 16) ≤ length out.old }
    ensures { (marks numbers firsts : List ℕ) → Surveyed block.now counts marks order.now starts.now numbers firsts → Stored out.old 0 (concat (map (framed update) (updates_at block.now to (faces_at block.now marks)))) out.new result }
{
    let darts = counts.darts;
    let faces = counts.faces;
    // The messages before block k are put, up to `at`.
    let mut at = 0;
    for k in 0..memory::header::BLOCKS {
        let other = k as u64;
        let n = labels[k];
        let b = bytes[k];
        if !update::relative(to, other, n) {
            continue;
        }
        let rest = &mut out[at..];
        at += update::put_update(block, to, other, order, starts, darts, faces, n, b, rest, 0);
    }
    at
}
