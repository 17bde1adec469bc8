// New darts join a block: put among its darts by serial, then sewn to them or labelled.
#![tactic(auto)]

pub mod interleave; // interleave.rt: the darts of a draft put among those of the block, renumbered
pub mod sewing; // sewing.rt: words 3 and 4 of the new darts, and of those they meet

ghost use Rattle.std.specs.Prelude.{◌≡◌, ◌≤◌, length, get_or};
ghost use Rattle.join.specs.Join.{MayJoin, Joins};

use memory::header::Header;

// `old` and `new` are lent for the places of the darts of both.
pub fn join(
    block: &mut [u64],
    draft: &[u64],
    kinds: &[u64],
    links: &[u64],
    ranks: &[usize],
    old: &mut [usize],
    new: &mut [usize],
)
    requires block_in_bounds { (get_or block.old 2 0 ≤ length old.old) × (get_or draft.now 2 0 ≤ length new.old) }
    requires draft_in_bounds { (get_or draft.now 2 0 ≤ length kinds.now) × (get_or draft.now 2 0 ≤ length links.now) × (get_or draft.now 2 0 ≤ length ranks.now) × MayJoin block.old draft.now (get_or block.old 2 0) (get_or draft.now 2 0) kinds.now links.now ranks.now }
    ensures { Joins block.old draft.now (get_or block.old 2 0) (get_or draft.now 2 0) kinds.now links.now ranks.now block.new }
{
    let n = block[Header::COUNT] as usize;
    let k = draft[Header::COUNT] as usize;
    interleave::insert(block, draft, old, new);
    sewing::sew(block, n, k, kinds, links, ranks, old, new);
}
