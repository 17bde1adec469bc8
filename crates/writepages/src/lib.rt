// Writes a block's pages, as dispatchers pin them up. The count of darts tells how many bytes they have, so 30 is asked before anything is written.
#![tactic(auto)]

pub mod line; // line.rt: columns, and the three kinds of line
pub mod page; // page.rt: the lines of a page, and all pages

ghost use Rattle.std.specs.Prelude.{◌≡◌, ℕ, ◌≤◌, length, get_or, replicate};
ghost use Rattle.model.specs.Values.{room, rack};
ghost use Rattle.model.specs.Calls.{write_pages};
ghost use Rattle.answers.specs.Answers.{Gives, written_of};
ghost use Rattle.memory.specs.Header.{limits_of};
ghost use Rattle.keyset.specs.Slots.{slot_count};

use answers::{Refusal, Written};
use memory::header::{Header, Limits};

// Writes a block's pages by limits. 1: is the memory of a block's size? 2: is it a sound block's image? 30: can the output hold all pages?
// Bytes past them stay; a refused call leaves the output. The arrays are lent for 2, `seen` and the table cleared.
pub fn write_pages_by(
    block: &[u64],
    limits: Limits,
    out: &mut [u8],
    seen: &mut [u8],
    keys: &mut [u64],
    table: &mut [u16; keyset::SLOTS],
    scratch: &mut [u64],
) -> Written
    requires block_le_room { (limits.block ≤ room) × (limits.block ≤ length seen.old) × (limits.block ≤ length keys.old) × (limits.block ≤ length scratch.old) }
    requires by_index { ((p : ℕ) → get_or seen.old p 0 ≡ 0) × (table.old ≡ replicate slot_count 0) }
    ensures { Gives (write_pages (limits_of limits) block.now out.old) (written_of result) out.new }
{
    if block.len() != limits.words() {
        return Err(Refusal::MemorySize);
    }
    if !sound::is_sound_by(block, limits, seen, keys, table, scratch) {
        return Err(Refusal::NotAnImage);
    }
    let pages = page::page_count(block[Header::COUNT] as usize);
    if out.len() < page::PAGE_BYTES * pages {
        return Err(Refusal::PagesTooLong);
    }
    let n = page::put_pages(block, pages, out);
    Ok(n)
}

// Writes a block's pages by limits, with arrays of so many places.
pub fn write_pages_in<const PLACES: usize>(block: &[u64], limits: Limits, out: &mut [u8]) -> Written
    requires { (limits.block ≤ PLACES) × (PLACES ≤ room) }
    ensures { Gives (write_pages (limits_of limits) block.now out.old) (written_of result) out.new }
{
    let mut seen = [0u8; PLACES];
    let mut keys = [0u64; PLACES];
    let mut table = [0u16; keyset::SLOTS];
    let mut scratch = [0u64; PLACES];
    write_pages_by(
        block,
        limits,
        out,
        &mut seen,
        &mut keys,
        &mut table,
        &mut scratch,
    )
}

// Writes the pages of a block of the rack.
pub fn write_pages(block: &[u64], out: &mut [u8]) -> Written
    ensures { Gives (write_pages rack block.now out.old) (written_of result) out.new }
{
    write_pages_in::<{ Header::DARTS }>(block, Limits::rack(), out)
}
