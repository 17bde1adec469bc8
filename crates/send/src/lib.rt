// Send, the paper's write: the block stays, and the messages of a volume that leaves go into the outbox.
#![tactic(auto)]

pub mod messages; // messages.rt: the transfer and the updates of a surveyed volume
pub mod volume; // volume.rt: questions 9 to 15 of a sound block

ghost use Rattle.std.specs.Prelude.{◌≡◌, ◌≤◌, length, replicate};
ghost use Rattle.model.specs.Values.{room, rack, message_darts};
ghost use Rattle.model.specs.Calls as calls;
ghost use Rattle.answers.specs.Answers.{Gives, written_of};
ghost use Rattle.memory.specs.Header.{limits_of};
ghost use Rattle.keyset.specs.Slots.{slot_count};
ghost use Rattle.cells.specs.Places.{Clear};

use answers::{Refusal, Written};
use memory::header::{Header, Limits};

// Sends by limits the volume of the dart with this serial to another block. 1: is the memory of a block's size? 2: is it a sound block's
// image? 9 to 14: may the volume leave? 15: is the outbox long enough? Bytes past the messages stay; a refused call leaves the outbox.
// The arrays are lent: for 2 `met`, the keys, the slots and the scratch, then seven of a block's places; `met`, the slots, `marks` and
// `seen` cleared.
pub fn send_by(
    block: &[u64],
    limits: Limits,
    to: u64,
    serial: u64,
    outbox: &mut [u8],
    met: &mut [u8],
    keys: &mut [u64],
    slots: &mut [u16; keyset::SLOTS],
    scratch: &mut [u64],
    marks: &mut [u8],
    order: &mut [usize],
    starts: &mut [usize],
    seen: &mut [u8],
    numbers: &mut [usize],
    firsts: &mut [usize],
    colours: &mut [usize],
) -> Written
    requires block_le_room { (limits.block ≤ room) × (limits.volume ≤ message_darts) × (limits.volume ≤ length colours.old) }
    requires block_in_bounds { (limits.block ≤ length met.old) × (limits.block ≤ length keys.old) × (limits.block ≤ length scratch.old) × Clear met.old × (slots.old ≡ replicate slot_count 0) }
    requires block_in_bounds_2 { (limits.block ≤ length marks.old) × Clear marks.old × (limits.block ≤ length seen.old) × Clear seen.old }
    requires block_in_bounds_3 { (limits.block ≤ length order.old) × (limits.block ≤ length starts.old) × (limits.block ≤ length numbers.old) × (limits.block ≤ length firsts.old) }
    ensures { Gives (calls.send (limits_of limits) block.now to serial outbox.old) (written_of result) outbox.new }
{
    if block.len() != limits.words() {
        return Err(Refusal::MemorySize);
    }
    if !sound::is_sound_by(block, limits, met, keys, slots, scratch) {
        return Err(Refusal::NotAnImage);
    }
    let mut labels = [0usize; memory::header::BLOCKS];
    let mut bytes = [0usize; memory::header::BLOCKS];
    volume::send_volume(
        block,
        limits,
        to,
        serial,
        marks,
        order,
        starts,
        seen,
        numbers,
        firsts,
        colours,
        &mut labels,
        &mut bytes,
        outbox,
    )
}

// Sends by limits, with arrays of so many places and of a volume of so many darts.
pub fn send_in<const PLACES: usize, const VOLUME: usize>(
    block: &[u64],
    limits: Limits,
    to: u64,
    serial: u64,
    outbox: &mut [u8],
) -> Written
    requires { (limits.block ≤ PLACES) × (PLACES ≤ room) × (limits.volume ≤ VOLUME) × (VOLUME ≤ message_darts) }
    ensures { Gives (calls.send (limits_of limits) block.now to serial outbox.old) (written_of result) outbox.new }
{
    let mut met = [0u8; PLACES];
    let mut keys = [0u64; PLACES];
    let mut slots = [0u16; keyset::SLOTS];
    let mut scratch = [0u64; PLACES];
    let mut marks = [0u8; PLACES];
    let mut order = [0usize; PLACES];
    let mut starts = [0usize; PLACES];
    let mut seen = [0u8; PLACES];
    let mut numbers = [0usize; PLACES];
    let mut firsts = [0usize; PLACES];
    let mut colours = [0usize; VOLUME];
    send_by(
        block,
        limits,
        to,
        serial,
        outbox,
        &mut met,
        &mut keys,
        &mut slots,
        &mut scratch,
        &mut marks,
        &mut order,
        &mut starts,
        &mut seen,
        &mut numbers,
        &mut firsts,
        &mut colours,
    )
}

// Sends from a block of the rack.
pub fn send(block: &[u64], to: u64, serial: u64, outbox: &mut [u8]) -> Written
    ensures { Gives (calls.send rack block.now to serial outbox.old) (written_of result) outbox.new }
{
    send_in::<{ Header::DARTS }, { Header::VOLUME }>(block, Limits::rack(), to, serial, outbox)
}
