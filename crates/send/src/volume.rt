// A sound block's volume is asked to leave (9 to 14), and its messages are put (15).
ghost use Rattle.std.specs.Prelude.{◌≡◌, true, ◌≤◌, length, replicate};
ghost use Rattle.model.specs.Values.{message_darts};
ghost use Rattle.model.specs.Image.{words_of, count_in, is_image, holds_block};
ghost use Rattle.model.specs.Calls as calls;
ghost use Rattle.answers.specs.Answers.{Gives, written_of};
ghost use Rattle.memory.specs.Header.{limits_of};
ghost use Rattle.cells.specs.Places.{Clear};

use crate::messages;
use answers::Written;
use memory::header::Limits;

// The arrays are lent: seven of a block's places, two of the blocks.
pub fn send_volume(
    block: &[u64],
    limits: Limits,
    to: u64,
    serial: u64,
    marks: &mut [u8],
    order: &mut [usize],
    starts: &mut [usize],
    seen: &mut [u8],
    numbers: &mut [usize],
    firsts: &mut [usize],
    colours: &mut [usize],
    labels: &mut [usize],
    bytes: &mut [usize],
    outbox: &mut [u8],
) -> Written
    requires block_len { (length block.now ≡ words_of (limits_of limits)) × (is_image (limits_of limits) block.now ≡ true) × (holds_block block.now ≡ true) × (limits.volume ≤ message_darts) }
    requires block_in_bounds { (count_in block.now ≤ length marks.old) × Clear marks.old × (count_in block.now ≤ length seen.old) × Clear seen.old }
    requires block_in_bounds_2 { (count_in block.now ≤ length order.old) × (count_in block.now ≤ length starts.old) × (count_in block.now ≤ length numbers.old) }
    requires block_in_bounds_3 { (count_in block.now ≤ length firsts.old) × (limits.volume ≤ length colours.old) }
    requires labels_value { (labels.old ≡ replicate 16 0) × (bytes.old ≡ replicate 16 0) }
    ensures { Gives (calls.send (limits_of limits) block.now to serial outbox.old) (written_of result) outbox.new }
{
    match departure::leaves(
        block, limits, to, serial, marks, order, starts, seen, numbers, firsts, colours,
    ) {
        Err(q) => Err(q),
        Ok(counts) => messages::put_messages(
            block, to, marks, order, starts, numbers, firsts, counts, labels, bytes, outbox,
        ),
    }
}
