// Reads a block from its pages into its memory. Pages have no points and no counter: the block's are zero and the least.
#![tactic(auto)]

ghost use Rattle.std.specs.Prelude.{◌≡◌, ℕ, ◌≤◌, length, get_or, replicate};
ghost use Rattle.model.specs.Values.{room, rack};
ghost use Rattle.model.specs.Image.{words_of};
ghost use Rattle.model.specs.Calls.{read_pages};
ghost use Rattle.answers.specs.Answers.{answer_of, Gives};
ghost use Rattle.memory.specs.Header.{limits_of};
ghost use Rattle.keyset.specs.Slots.{slot_count};

mod third; // third.rt: a third link in its columns
mod row; // row.rt: a dart's line
mod raw; // raw.rt: whole pages, with serials where memory has places
mod counter; // counter.rt: the least counter that labels allow

use answers::{Answer, Refusal};
use memory::header::{Header, Limits};

// Reads pages by limits. 1: is the memory of a block's size? 3: the layout, to the last byte, and the ranges? 5 to 7: are links, third
// links and labels right? A refused call leaves the memory. `made` and the other arrays are lent to work in: `made`, `seen` and the table
// cleared.
pub fn read_pages_by(
    pages: &[u8],
    limits: Limits,
    made: &mut [u64],
    block: &mut [u64],
    seen: &mut [u8],
    keys: &mut [u64],
    table: &mut [u16; keyset::SLOTS],
    scratch: &mut [u64],
) -> Answer
    requires block_le_room { (limits.block ≤ room) × (made.old ≡ replicate (words_of (limits_of limits)) 0) }
    requires block_in_bounds { (limits.block ≤ length seen.old) × ((p : ℕ) → get_or seen.old p 0 ≡ 0) }
    requires block_in_bounds_2 { (limits.block ≤ length keys.old) × (limits.block ≤ length scratch.old) × (table.old ≡ replicate slot_count 0) }
    ensures { Gives (read_pages (limits_of limits) pages.now block.old) (answer_of result) block.new }
{
    if block.len() != limits.words() {
        return Err(Refusal::MemorySize);
    }
    if !raw::read_raw(pages, limits, made) {
        return Err(Refusal::FileLayout);
    }
    counter::set_least(made);
    newblock::put_links(made, block, seen, keys, table, scratch)
}

// Reads pages by limits, with arrays of so many places and a block of so many words.
pub fn read_pages_in<const PLACES: usize, const WORDS: usize>(
    pages: &[u8],
    limits: Limits,
    block: &mut [u64],
) -> Answer
    requires { (limits.block ≤ PLACES) × (PLACES ≤ room) × (WORDS ≡ words_of (limits_of limits)) }
    ensures { Gives (read_pages (limits_of limits) pages.now block.old) (answer_of result) block.new }
{
    let mut made = [0u64; WORDS];
    let mut seen = [0u8; PLACES];
    let mut keys = [0u64; PLACES];
    let mut table = [0u16; keyset::SLOTS];
    let mut scratch = [0u64; PLACES];
    read_pages_by(
        pages,
        limits,
        &mut made,
        block,
        &mut seen,
        &mut keys,
        &mut table,
        &mut scratch,
    )
}

// Reads pages into a block of the rack.
pub fn read_pages(pages: &[u8], block: &mut [u64]) -> Answer
    ensures { Gives (read_pages rack pages.now block.old) (answer_of result) block.new }
{
    read_pages_in::<{ Header::DARTS }, { Header::WORDS }>(pages, Limits::rack(), block)
}
