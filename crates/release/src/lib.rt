// Release, the paper's let go: a volume is taken out of a block, and the faces that it leaves behind are labelled.
#![tactic(auto)]

ghost use Rattle.std.specs.Prelude.{◌≡◌, true, ◌≤◌, length, replicate};
ghost use Rattle.model.specs.Values.{room, rack, message_darts};
ghost use Rattle.model.specs.Image.{words_of, count_in, is_image, holds_block};
ghost use Rattle.model.specs.Calls as calls;
ghost use Rattle.answers.specs.Answers.{answer_of, Gives};
ghost use Rattle.memory.specs.Header.{limits_of};
ghost use Rattle.keyset.specs.Slots.{slot_count};
ghost use Rattle.cells.specs.Places.{Clear};
ghost use Rattle.release.specs.LetGo.{released_at};
ghost use Rattle.release.specs.Asks.{MayGo};

mod label; // label.rt: the labels of the faces left behind
mod remove; // remove.rt: the records taken out, the others renumbered

use answers::{Answer, Refusal};
use departure::Counts;
use memory::header::{Header, Limits};

// The marked volume goes to block `to`. The table may hold anything.
fn let_go(
    block: &mut [u64],
    to: u64,
    marks: &[u8],
    order: &[usize],
    starts: &[usize],
    counts: Counts,
    table: &mut [usize],
)
    requires block_value { holds_block block.old ≡ true }
    requires may_go { MayGo block.old to counts marks.now order.now starts.now }
    requires block_in_bounds { count_in block.old ≤ length table.old }
    ensures { block.new ≡ released_at block.old marks.now to }
{
    let counter = block[Header::COUNTER] + counts.sewn as u64;
    let darts = counts.darts;
    let faces = counts.faces;
    label::label_faces(block, marks, order, starts, darts, faces, to);
    remove::remove(block, marks, counter, table);
}

// 9 to 14, and release on a yes to each. A volume that may leave needs the numbers of its vertices no more.
fn release_asked(
    block: &mut [u64],
    limits: Limits,
    to: u64,
    serial: u64,
    marks: &mut [u8],
    order: &mut [usize],
    starts: &mut [usize],
    seen: &mut [u8],
    numbers: &mut [usize],
    firsts: &mut [usize],
    colours: &mut [usize],
) -> Answer
    requires block_len { (length block.old ≡ words_of (limits_of limits)) × (is_image (limits_of limits) block.old ≡ true) × (holds_block block.old ≡ true) × (limits.volume ≤ message_darts) }
    requires block_in_bounds { (count_in block.old ≤ length marks.old) × Clear marks.old × (count_in block.old ≤ length seen.old) × Clear seen.old }
    requires block_in_bounds_2 { (count_in block.old ≤ length order.old) × (count_in block.old ≤ length starts.old) × (count_in block.old ≤ length numbers.old) }
    requires block_in_bounds_3 { (count_in block.old ≤ length firsts.old) × (limits.volume ≤ length colours.old) }
    ensures { Gives (calls.release (limits_of limits) block.old to serial) (answer_of result) block.new }
{
    match departure::leaves(
        block, limits, to, serial, marks, order, starts, seen, numbers, firsts, colours,
    ) {
        Err(r) => Err(r),
        Ok(counts) => {
            let_go(block, to, marks, order, starts, counts, numbers);
            Ok(())
        }
    }
}

// Lets by limits the volume of the dart with this serial go to block `to`. 1: is the memory of a block's size? 2: is it a sound block's
// image? 9 to 14: may the volume leave? A refused call leaves the memory. The arrays are lent: for 2 `met`, the keys, the slots and the
// scratch, then seven of a block's places; `met`, the slots, `marks` and `seen` cleared.
pub fn release_by(
    block: &mut [u64],
    limits: Limits,
    to: u64,
    serial: u64,
    met: &mut [u8],
    keys: &mut [u64],
    slots: &mut [u16; keyset::SLOTS],
    scratch: &mut [u64],
    marks: &mut [u8],
    order: &mut [usize],
    starts: &mut [usize],
    seen: &mut [u8],
    numbers: &mut [usize],
    firsts: &mut [usize],
    colours: &mut [usize],
) -> Answer
    requires block_le_room { (limits.block ≤ room) × (limits.volume ≤ message_darts) × (limits.volume ≤ length colours.old) }
    requires block_in_bounds { (limits.block ≤ length met.old) × (limits.block ≤ length keys.old) × (limits.block ≤ length scratch.old) × Clear met.old × (slots.old ≡ replicate slot_count 0) }
    requires block_in_bounds_2 { (limits.block ≤ length marks.old) × Clear marks.old × (limits.block ≤ length seen.old) × Clear seen.old }
    requires block_in_bounds_3 { (limits.block ≤ length order.old) × (limits.block ≤ length starts.old) × (limits.block ≤ length numbers.old) × (limits.block ≤ length firsts.old) }
    ensures { Gives (calls.release (limits_of limits) block.old to serial) (answer_of result) block.new }
{
    if block.len() != limits.words() {
        return Err(Refusal::MemorySize);
    }
    if !sound::is_sound_by(block, limits, met, keys, slots, scratch) {
        return Err(Refusal::NotAnImage);
    }
    release_asked(
        block, limits, to, serial, marks, order, starts, seen, numbers, firsts, colours,
    )
}

// Lets a volume go by limits, with arrays of so many places and of a volume of so many darts.
pub fn release_in<const PLACES: usize, const VOLUME: usize>(
    block: &mut [u64],
    limits: Limits,
    to: u64,
    serial: u64,
) -> Answer
    requires { (limits.block ≤ PLACES) × (PLACES ≤ room) × (limits.volume ≤ VOLUME) × (VOLUME ≤ message_darts) }
    ensures { Gives (calls.release (limits_of limits) block.old to serial) (answer_of result) block.new }
{
    let mut met = [0u8; PLACES];
    let mut keys = [0u64; PLACES];
    let mut slots = [0u16; keyset::SLOTS];
    let mut scratch = [0u64; PLACES];
    let mut marks = [0u8; PLACES];
    let mut order = [0usize; PLACES];
    let mut starts = [0usize; PLACES];
    let mut seen = [0u8; PLACES];
    let mut numbers = [0usize; PLACES];
    let mut firsts = [0usize; PLACES];
    let mut colours = [0usize; VOLUME];
    release_by(
        block,
        limits,
        to,
        serial,
        &mut met,
        &mut keys,
        &mut slots,
        &mut scratch,
        &mut marks,
        &mut order,
        &mut starts,
        &mut seen,
        &mut numbers,
        &mut firsts,
        &mut colours,
    )
}

// Lets a volume of a block of the rack go.
pub fn release(block: &mut [u64], to: u64, serial: u64) -> Answer
    ensures { Gives (calls.release rack block.old to serial) (answer_of result) block.new }
{
    release_in::<{ Header::DARTS }, { Header::VOLUME }>(block, Limits::rack(), to, serial)
}
