// A block that comes from outside: memory with serials where an image has places becomes the block's image, is asked 4 to 8, and is put
// into the lent memory.
#![tactic(auto)]

ghost use Rattle.std.specs.Prelude.{◌≡◌, ℕ, ◌≤◌, length, replicate, slice_index};
ghost use Rattle.model.specs.Sound.{block_checks};
ghost use Rattle.model.specs.Image.{words_for, block_in};
ghost use Rattle.answers.specs.Answers.{answer_of, answered, Gives};
ghost use Rattle.columns.specs.Columns.{count, Ranged};
ghost use Rattle.keyset.specs.Slots.{slot_count};
ghost use Rattle.newblock.specs.Serials.{InSerials};
ghost use Rattle.newblock.specs.Checks.{link_checks, storing_block, storing_links};

pub mod place; // place.rt: places for the serials

use answers::{Answer, Refusal};

// 5 to 7 of an image: a reader of darts with no points asks these alone. The arrays are lent, `seen` and the table cleared.
pub fn link_answer(
    block: &[u64],
    seen: &mut [u8],
    keys: &mut [u64],
    table: &mut [u16; keyset::SLOTS],
    scratch: &mut [u64],
) -> Answer
    requires block_in_bounds { (words_for (count block.now) ≤ length block.now) × Ranged block.now }
    requires block_in_bounds_2 { (count block.now ≤ length seen.old) × ((p : ℕ) → slice_index seen.old p ≡ 0) }
    requires block_in_bounds_3 { (count block.now ≤ length keys.old) × (count block.now ≤ length scratch.old) × (table.old ≡ replicate slot_count 0) }
    ensures { answer_of result ≡ answered (link_checks (block_in block.now)) }
{
    if !sound::questions::links_right(block, seen) {
        return Err(Refusal::LinksWrong);
    }
    if !sound::questions::thirds_right(block) {
        return Err(Refusal::ThirdLinksWrong);
    }
    if !sound::questions::labels_right(block, keys, table, scratch) {
        return Err(Refusal::LabelsWrong);
    }
    Ok(())
}

// 4 to 8 of an image.
pub fn block_answer(
    block: &[u64],
    seen: &mut [u8],
    keys: &mut [u64],
    table: &mut [u16; keyset::SLOTS],
    scratch: &mut [u64],
) -> Answer
    requires block_in_bounds { (words_for (count block.now) ≤ length block.now) × Ranged block.now }
    requires block_in_bounds_2 { (count block.now ≤ length seen.old) × ((p : ℕ) → slice_index seen.old p ≡ 0) }
    requires block_in_bounds_3 { (count block.now ≤ length keys.old) × (count block.now ≤ length scratch.old) × (table.old ≡ replicate slot_count 0) }
    ensures { answer_of result ≡ answered (block_checks (block_in block.now)) }
{
    if !sound::questions::coordinates_finite(block) {
        return Err(Refusal::CoordinateNotFinite);
    }
    link_answer(block, seen, keys, table, scratch)?;
    if !sound::questions::points_agree(block) {
        return Err(Refusal::PointsDisagree);
    }
    Ok(())
}

// Makes the image of the block that `made` has in serials, and puts it into the lent memory where 4 to 8 are answered yes. A no leaves
// the lent memory.
pub fn put_block(
    made: &mut [u64],
    block: &mut [u64],
    seen: &mut [u8],
    keys: &mut [u64],
    table: &mut [u16; keyset::SLOTS],
    scratch: &mut [u64],
) -> Answer
    requires block_len { (length block.old ≡ length made.old) × InSerials made.old }
    requires made_in_bounds { (count made.old ≤ length seen.old) × ((p : ℕ) → slice_index seen.old p ≡ 0) }
    requires made_in_bounds_2 { (count made.old ≤ length keys.old) × (count made.old ≤ length scratch.old) × (table.old ≡ replicate slot_count 0) }
    ensures { Gives (storing_block made.old block.old) (answer_of result) block.new }
{
    place::resolve_by(made, keys, scratch);
    block_answer(made, seen, keys, table, scratch)?;
    sort::table::copy(made, block);
    Ok(())
}

// The same where 5 to 7 are answered yes: of darts with no points.
pub fn put_links(
    made: &mut [u64],
    block: &mut [u64],
    seen: &mut [u8],
    keys: &mut [u64],
    table: &mut [u16; keyset::SLOTS],
    scratch: &mut [u64],
) -> Answer
    requires block_len { (length block.old ≡ length made.old) × InSerials made.old }
    requires made_in_bounds { (count made.old ≤ length seen.old) × ((p : ℕ) → slice_index seen.old p ≡ 0) }
    requires made_in_bounds_2 { (count made.old ≤ length keys.old) × (count made.old ≤ length scratch.old) × (table.old ≡ replicate slot_count 0) }
    ensures { Gives (storing_links made.old block.old) (answer_of result) block.new }
{
    place::resolve_by(made, keys, scratch);
    link_answer(made, seen, keys, table, scratch)?;
    sort::table::copy(made, block);
    Ok(())
}
