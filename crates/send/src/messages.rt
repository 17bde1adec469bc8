// The messages of a surveyed volume: counted, then the transfer put, and the updates into what is left of the outbox.
ghost use Rattle.std.specs.Prelude.{◌≡◌, true, [], ◌+◌, ◌≤◌, ◌<◌, ◌^◌, length, get_or, replicate};
ghost use Rattle.model.specs.Values.{last_block};
ghost use Rattle.model.specs.Image.{holds_block};
ghost use Rattle.model.specs.Calls.{writing};
ghost use Rattle.answers.specs.Answers.{Gives, written_of};
ghost use Rattle.groups.specs.Slices.{Stored};
ghost use Rattle.departure.specs.Asked.{Surveyed};
ghost use Rattle.outbox.specs.Runs.{run};
ghost use Rattle.outbox.specs.Whole.{TransferSized, transfer_for};
ghost use Rattle.outbox.specs.ByBlocks.{Shares, told_put};
ghost use Rattle.send.specs.Sent.{messages_at};

use answers::{Refusal, Written};
use departure::Counts;
use outbox::transfer::Sizes;
use outbox::{transfer, updates};

// The transfer from the first byte on, the updates into what is left.
fn put_both(
    block: &[u64],
    to: u64,
    marks: &[u8],
    order: &[usize],
    starts: &[usize],
    numbers: &[usize],
    firsts: &[usize],
    counts: Counts,
    sizes: Sizes,
    labels: &[usize],
    bytes: &[usize],
    outbox: &mut [u8],
) -> usize
    requires block_value { holds_block block.now ≡ true }
    requires surveyed { Surveyed block.now counts marks.now order.now starts.now numbers.now firsts.now }
    requires to_le_last_block { (to ≤ last_block) × (get_or block.now 1 0 + counts.sewn < 2 ^ 32) }
    requires transfer_sized { TransferSized (transfer_for block.now to counts marks.now numbers.now firsts.now) sizes × Shares block.now order.now starts.now counts.darts counts.faces counts.faces labels.now bytes.now }
    requires faces_in_bounds { sizes.whole + length (run (told_put block.now to order.now starts.now counts.darts counts.faces) 16) ≤ length outbox.old }
    ensures { Stored outbox.old 0 (messages_at block.now to counts marks.now numbers.now firsts.now) outbox.new result }
{
    let past = transfer::put_transfer(
        block, to, marks, order, starts, numbers, firsts, counts, sizes, outbox, 0,
    );
    let rest = &mut outbox[past..];
    past + updates::put_updates(block, to, order, starts, counts, labels, bytes, rest)
}

// 15: is the outbox long enough? A refusal leaves it.
pub fn put_messages(
    block: &[u64],
    to: u64,
    marks: &[u8],
    order: &[usize],
    starts: &[usize],
    numbers: &[usize],
    firsts: &[usize],
    counts: Counts,
    labels: &mut [usize],
    bytes: &mut [usize],
    outbox: &mut [u8],
) -> Written
    requires block_value { holds_block block.now ≡ true }
    requires surveyed { Surveyed block.now counts marks.now order.now starts.now numbers.now firsts.now }
    requires to_le_last_block { (to ≤ last_block) × (get_or block.now 1 0 + counts.sewn < 2 ^ 32) }
    requires labels_value { (labels.old ≡ replicate 16 0) × (bytes.old ≡ replicate 16 0) }
    ensures { Gives (writing [] outbox.old (messages_at block.now to counts marks.now numbers.now firsts.now)) (written_of result) outbox.new }
{
    let sizes = transfer::transfer_sizes(block, to, marks, order, starts, numbers, firsts, counts);
    let more = updates::updates_size(block, to, order, starts, counts, labels, bytes);
    if outbox.len() < sizes.whole + more {
        return Err(Refusal::OutputTooShort);
    }
    let n = put_both(
        block, to, marks, order, starts, numbers, firsts, counts, sizes, labels, bytes, outbox,
    );
    Ok(n)
}
