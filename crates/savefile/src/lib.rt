// Saves a block as a file: where the output could be too short it is put into no output first, which counts its bytes, so that a refusal leaves the output as it was.
#![tactic(auto)]

pub mod links; // links.rt: what a dart's links name, by serial
pub mod put; // put.rt: its bytes counted and written

ghost use Rattle.std.specs.Prelude.{◌≡◌, true, ℕ, ◌≤◌, leb, length, get_or, replicate};
ghost use Rattle.model.specs.Values.{room, rack, Limits as AnyLimits};
ghost use Rattle.model.specs.Image.{block_in, holds_block};
ghost use Rattle.model.specs.Messages.{file};
ghost use Rattle.model.specs.Calls.{save_file};
ghost use Rattle.answers.specs.Answers.{Gives, written_of};
ghost use Rattle.memory.specs.Header.{limits_of};
ghost use Rattle.keyset.specs.Slots.{slot_count};

use answers::{Refusal, Written};
use memory::header::{Header, Limits};

// Bytes that a file has at the most: before its darts, and for each dart.
const BEFORE: usize = 8;

const EACH: usize = 49;

// 15: is an output of so many bytes long enough? The file is counted only where it could be too short.
fn long_enough(block: &[u64], room: usize) -> bool
    requires { holds_block block.now ≡ true }
    ensures { (lim : AnyLimits) → result ≡ leb (length ((file lim).put (block_in block.now))) room }
{
    let darts = block[Header::COUNT] as usize;
    if BEFORE + darts * EACH <= room {
        return true;
    }
    let mut none = [0u8; 0];
    let size = put::put_file(block, &mut none);
    size <= room
}

// Saves a block by limits. 1: is the memory of a block's size? 2: is it a sound block's image? 15: is the output long enough?
// Bytes past those written stay; a refused call leaves the output. The arrays are lent for 2, `seen` and the table cleared.
pub fn save_file_by(
    block: &[u64],
    limits: Limits,
    out: &mut [u8],
    seen: &mut [u8],
    keys: &mut [u64],
    table: &mut [u16; keyset::SLOTS],
    scratch: &mut [u64],
) -> Written
    requires block_le_room { (limits.block ≤ room) × (limits.block ≤ length seen.old) × (limits.block ≤ length keys.old) × (limits.block ≤ length scratch.old) }
    requires by_index { ((p : ℕ) → get_or seen.old p 0 ≡ 0) × (table.old ≡ replicate slot_count 0) }
    ensures { Gives (save_file (limits_of limits) block.now out.old) (written_of result) out.new }
{
    if block.len() != limits.words() {
        return Err(Refusal::MemorySize);
    }
    if !sound::is_sound_by(block, limits, seen, keys, table, scratch) {
        return Err(Refusal::NotAnImage);
    }
    if !long_enough(block, out.len()) {
        return Err(Refusal::OutputTooShort);
    }
    let n = put::put_file(block, out);
    Ok(n)
}

// Saves a block by limits, with arrays of so many places.
pub fn save_file_in<const PLACES: usize>(block: &[u64], limits: Limits, out: &mut [u8]) -> Written
    requires { (limits.block ≤ PLACES) × (PLACES ≤ room) }
    ensures { Gives (save_file (limits_of limits) block.now out.old) (written_of result) out.new }
{
    let mut seen = [0u8; PLACES];
    let mut keys = [0u64; PLACES];
    let mut table = [0u16; keyset::SLOTS];
    let mut scratch = [0u64; PLACES];
    save_file_by(
        block,
        limits,
        out,
        &mut seen,
        &mut keys,
        &mut table,
        &mut scratch,
    )
}

// Saves a block of the rack.
pub fn save_file(block: &[u64], out: &mut [u8]) -> Written
    ensures { Gives (save_file rack block.now out.old) (written_of result) out.new }
{
    save_file_in::<{ Header::DARTS }>(block, Limits::rack(), out)
}
