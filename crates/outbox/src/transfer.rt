// The transfer: kind, blocks, points, faces and parts, after a number that says how long they are.
ghost use Rattle.std.specs.Prelude.{◌≡◌, true, ◌+◌, ◌≤◌, ◌<◌, ◌^◌, length, get_or};
ghost use Rattle.model.specs.Values.{last_block};
ghost use Rattle.model.specs.Layouts.{framed};
ghost use Rattle.model.specs.Messages.{transfer};
ghost use Rattle.model.specs.Image.{holds_block};
ghost use Rattle.groups.specs.Slices.{Stored};
ghost use Rattle.cells.specs.Places.{Linked};
ghost use Rattle.departure.specs.Asked.{Surveyed};
ghost use Rattle.outbox.specs.Runs.{tally};
ghost use Rattle.outbox.specs.Bytes.{DartsListed, Opened, Pointed, FacesStarted, Vertexed, in_part2, in_part3, in_part4};
ghost use Rattle.outbox.specs.Whole.{TransferSized, first_bytes, parts_bytes, transfer_for};

use crate::{first, parts};
use departure::Counts;
use memory::header::Header;

// How many entries parts 2 and 4 have, the bytes of the message after its first number, and those of the whole message.
#[derive(Clone, Copy)]
pub struct Sizes {
    pub part2: usize,
    pub part4: usize,
    pub rest: usize,
    pub whole: usize,
}

// Kind, blocks, points and faces.
fn put_part1(
    block: &[u64],
    to: u64,
    order: &[usize],
    starts: &[usize],
    numbers: &[usize],
    firsts: &[usize],
    counts: Counts,
    out: &mut [u8],
    at: usize,
) -> usize
    requires darts_listed { DartsListed block.now order.now counts.darts × Vertexed numbers.now order.now counts.darts × FacesStarted starts.now counts.darts counts.faces }
    requires pointed { Pointed block.now firsts.now counts.vertices × (get_or block.now 0 0 ≤ last_block) × (to ≤ last_block) }
    requires firsts_bound { at + length (first_bytes block.now to counts order.now starts.now numbers.now firsts.now) < 2 ^ 63 }
    ensures { Stored out.old at (first_bytes block.now to counts order.now starts.now numbers.now firsts.now) out.new result }
{
    let past_kind = groups::put_group(out, at, 1);
    let past_from = groups::put_group(out, past_kind, block[Header::NUMBER] as u32);
    let past_to = groups::put_group(out, past_from, to as u32);
    let vertices = counts.vertices;
    let past_count = groups::put_group(out, past_to, vertices as u32);
    let past_points = first::put_points(block, firsts, vertices, out, past_count);
    let faces = counts.faces;
    let past_faces = groups::put_group(out, past_points, faces as u32);
    first::put_faces(
        block,
        numbers,
        order,
        starts,
        counts.darts,
        faces,
        out,
        past_faces,
    )
}

// Parts 2, 3 and 4, each after its count.
fn put_parts(
    block: &[u64],
    to: u64,
    marks: &[u8],
    order: &[usize],
    starts: &[usize],
    counts: Counts,
    part2: usize,
    part4: usize,
    out: &mut [u8],
    at: usize,
) -> usize
    requires darts_listed { DartsListed block.now order.now counts.darts × FacesStarted starts.now counts.darts counts.faces × (to ≤ last_block) }
    requires linked { Linked block.now (get_or block.now 2 0) × (get_or block.now 2 0 ≤ length marks.now) × Opened (get_or block.now 2 0) order.now starts.now counts.faces }
    requires part2_value { (part2 ≡ tally (in_part2 block.now to order.now starts.now) counts.faces) × (counts.sewn ≡ tally (in_part3 block.now marks.now order.now starts.now) counts.faces) × (part4 ≡ tally (in_part4 block.now to order.now starts.now) counts.faces) }
    requires sewn_bound { (get_or block.now 1 0 + counts.sewn < 2 ^ 32) × (at + length (parts_bytes block.now to counts marks.now order.now starts.now) < 2 ^ 63) }
    ensures { Stored out.old at (parts_bytes block.now to counts marks.now order.now starts.now) out.new result }
{
    let n = block[Header::COUNT] as usize;
    let faces = counts.faces;
    let past_two = groups::put_group(out, at, part2 as u32);
    let past_part2 = parts::put_part2s(block, to, order, starts, faces, out, past_two);
    let past_three = groups::put_group(out, past_part2, counts.sewn as u32);
    let past_part3 = parts::put_part3s(
        block,
        n,
        marks,
        block[Header::COUNTER],
        order,
        starts,
        faces,
        out,
        past_three,
    );
    let past_four = groups::put_group(out, past_part3, part4 as u32);
    parts::put_part4s(
        block,
        to,
        order,
        starts,
        counts.darts,
        faces,
        out,
        past_four,
    )
}

// What send asks for (question 15) before it puts a byte: the transfer is put into no output.
pub fn transfer_sizes(
    block: &[u64],
    to: u64,
    marks: &[u8],
    order: &[usize],
    starts: &[usize],
    numbers: &[usize],
    firsts: &[usize],
    counts: Counts,
) -> Sizes
    requires block_value { holds_block block.now ≡ true }
    requires surveyed { Surveyed block.now counts marks.now order.now starts.now numbers.now firsts.now }
    requires to_le_last_block { (to ≤ last_block) × (get_or block.now 1 0 + counts.sewn < 2 ^ 32) }
    ensures { TransferSized (transfer_for block.now to counts marks.now numbers.now firsts.now) result }
{
    let faces = counts.faces;
    let part2 = parts::part2_count(block, to, order, starts, faces);
    let part4 = parts::part4_count(block, to, order, starts, faces);
    let mut none = [0u8; 0];
    let first = put_part1(
        block, to, order, starts, numbers, firsts, counts, &mut none, 0,
    );
    let rest = put_parts(
        block, to, marks, order, starts, counts, part2, part4, &mut none, first,
    );
    let whole = groups::group_count(rest as u32) + rest;
    Sizes {
        part2,
        part4,
        rest,
        whole,
    }
}

// The message: its length, then the transfer.
pub fn put_transfer(
    block: &[u64],
    to: u64,
    marks: &[u8],
    order: &[usize],
    starts: &[usize],
    numbers: &[usize],
    firsts: &[usize],
    counts: Counts,
    sizes: Sizes,
    out: &mut [u8],
    at: usize,
) -> usize
    requires block_value { holds_block block.now ≡ true }
    requires surveyed { Surveyed block.now counts marks.now order.now starts.now numbers.now firsts.now }
    requires to_le_last_block { (to ≤ last_block) × (get_or block.now 1 0 + counts.sewn < 2 ^ 32) }
    requires transfer_sized { TransferSized (transfer_for block.now to counts marks.now numbers.now firsts.now) sizes × (at + sizes.whole < 2 ^ 63) }
    ensures { Stored out.old at (framed transfer (transfer_for block.now to counts marks.now numbers.now firsts.now)) out.new result }
{
    let past_length = groups::put_group(out, at, sizes.rest as u32);
    let past_first = put_part1(
        block,
        to,
        order,
        starts,
        numbers,
        firsts,
        counts,
        out,
        past_length,
    );
    put_parts(
        block,
        to,
        marks,
        order,
        starts,
        counts,
        sizes.part2,
        sizes.part4,
        out,
        past_first,
    )
}
