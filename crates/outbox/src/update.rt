// One update: 2, from, to, new block, count and labels, after a number that says how long they are.
ghost use Rattle.std.specs.Prelude.{◌≡◌, not, ◌&&◌, ◌+◌, ◌≤◌, ◌<◌, ◌^◌, ltb, eqb, length, get_or};
ghost use Rattle.model.specs.Values.{last_block};
ghost use Rattle.groups.specs.Slices.{Stored};
ghost use Rattle.outbox.specs.Runs.{run, tally};
ghost use Rattle.outbox.specs.Bytes.{DartsListed, FacesStarted, in_part2};
ghost use Rattle.outbox.specs.ByBlocks.{head_bytes, least_put, rest_for, size_for, update_bytes};

use crate::labels;
use memory::header::Header;

// Whether block k is told, when the volume goes to block `to`: it shares `n` faces.
pub fn relative(to: u64, k: u64, n: usize) -> bool
    ensures { result ≡ (ltb 0 n && not (eqb k to)) }
{
    (0 < n) & (k != to)
}

// The bytes after the first number: `n` labels take `bytes`, kind and blocks one each.
fn rest_size(n: usize, bytes: usize) -> usize
    requires { (n < 2 ^ 16) × (bytes < 2 ^ 16) }
    ensures { (result ≡ rest_for n bytes) × (result < 2 ^ 17) }
{
    4 + groups::group_count(n as u32) + bytes
}

// The bytes of the whole message for block k, none if it is not told.
pub fn update_size(to: u64, k: u64, n: usize, bytes: usize) -> usize
    requires { (n < 2 ^ 16) × (bytes < 2 ^ 16) }
    ensures { (result ≡ size_for to k n bytes) × (result < 2 ^ 18) }
{
    if !relative(to, k, n) {
        return 0;
    }
    let rest = rest_size(n, bytes);
    groups::group_count(rest as u32) + rest
}

// What stands before the labels: the length of the rest, kind, blocks and count.
fn put_head(
    block: &[u64],
    to: u64,
    k: u64,
    n: usize,
    rest: usize,
    out: &mut [u8],
    at: usize,
) -> usize
    requires block_nonzero { (0 < length block.now) × (get_or block.now 0 0 ≤ last_block) × (to ≤ last_block) × (k ≤ last_block) × (n < 2 ^ 32) × (rest < 2 ^ 32) }
    requires rest_bound { at + length (head_bytes block.now to k n rest) < 2 ^ 63 }
    ensures { Stored out.old at (head_bytes block.now to k n rest) out.new result }
{
    let past_length = groups::put_group(out, at, rest as u32);
    let past_kind = groups::put_group(out, past_length, 2);
    let past_from = groups::put_group(out, past_kind, block[Header::NUMBER] as u32);
    let past_to = groups::put_group(out, past_from, k as u32);
    let past_new = groups::put_group(out, past_to, to as u32);
    groups::put_group(out, past_new, n as u32)
}

// The message for block k.
pub fn put_update(
    block: &[u64],
    to: u64,
    k: u64,
    order: &[usize],
    starts: &[usize],
    darts: usize,
    count: usize,
    n: usize,
    bytes: usize,
    out: &mut [u8],
    at: usize,
) -> usize
    requires darts_listed { DartsListed block.now order.now darts × FacesStarted starts.now darts count }
    requires block_bound { (get_or block.now 0 0 ≤ last_block) × (to ≤ last_block) × (k ≤ last_block) × (n < 2 ^ 16) × (bytes < 2 ^ 16) }
    requires n_value { (n ≡ tally (in_part2 block.now k order.now starts.now) count) × (bytes ≡ length (run (least_put block.now k order.now starts.now darts count) count)) }
    requires k_bound { at + length (update_bytes block.now to order.now starts.now darts count k) < 2 ^ 63 }
    ensures { Stored out.old at (update_bytes block.now to order.now starts.now darts count k) out.new result }
{
    let past = put_head(block, to, k, n, rest_size(n, bytes), out, at);
    labels::put_leasts(block, k, order, starts, darts, count, out, past)
}
