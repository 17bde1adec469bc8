// Reads a block from a file into its memory.
#![tactic(auto)]

ghost use Rattle.std.specs.Prelude.{◌≡◌, ℕ, ◌≤◌, length, get_or, replicate};
ghost use Rattle.model.specs.Values.{room, rack};
ghost use Rattle.model.specs.Image.{words_of};
ghost use Rattle.model.specs.Calls.{read_file};
ghost use Rattle.answers.specs.Answers.{answer_of, Gives};
ghost use Rattle.memory.specs.Header.{limits_of};
ghost use Rattle.keyset.specs.Slots.{slot_count};

mod raw; // raw.rt: the whole file, with serials where memory has places

use answers::{Answer, Refusal};
use memory::header::{Header, Limits};

// Reads a file by limits. 1: is the memory of a block's size? 3: the layout, to the last byte, and the ranges? 4 to 8: is the block
// sound? A refused call leaves the memory. `made` and the other arrays are lent to work in: `made`, `seen` and the table cleared.
pub fn read_file_by(
    file: &[u8],
    limits: Limits,
    made: &mut [u64],
    block: &mut [u64],
    seen: &mut [u8],
    keys: &mut [u64],
    table: &mut [u16; keyset::SLOTS],
    scratch: &mut [u64],
) -> Answer
    requires block_le_room { (limits.block ≤ room) × (made.old ≡ replicate (words_of (limits_of limits)) 0) }
    requires block_in_bounds { (limits.block ≤ length seen.old) × ((p : ℕ) → get_or seen.old p 0 ≡ 0) }
    requires block_in_bounds_2 { (limits.block ≤ length keys.old) × (limits.block ≤ length scratch.old) × (table.old ≡ replicate slot_count 0) }
    ensures { Gives (read_file (limits_of limits) file.now block.old) (answer_of result) block.new }
{
    if block.len() != limits.words() {
        return Err(Refusal::MemorySize);
    }
    if !raw::read_raw(file, limits, made) {
        return Err(Refusal::FileLayout);
    }
    newblock::put_block(made, block, seen, keys, table, scratch)
}

// Reads a file by limits, with arrays of so many places and a block of so many words.
pub fn read_file_in<const PLACES: usize, const WORDS: usize>(
    file: &[u8],
    limits: Limits,
    block: &mut [u64],
) -> Answer
    requires { (limits.block ≤ PLACES) × (PLACES ≤ room) × (WORDS ≡ words_of (limits_of limits)) }
    ensures { Gives (read_file (limits_of limits) file.now block.old) (answer_of result) block.new }
{
    let mut made = [0u64; WORDS];
    let mut seen = [0u8; PLACES];
    let mut keys = [0u64; PLACES];
    let mut table = [0u16; keyset::SLOTS];
    let mut scratch = [0u64; PLACES];
    read_file_by(
        file,
        limits,
        &mut made,
        block,
        &mut seen,
        &mut keys,
        &mut table,
        &mut scratch,
    )
}

// Reads a file into a block of the rack.
pub fn read_file(file: &[u8], block: &mut [u64]) -> Answer
    ensures { Gives (read_file rack file.now block.old) (answer_of result) block.new }
{
    read_file_in::<{ Header::DARTS }, { Header::WORDS }>(file, Limits::rack(), block)
}
