// Question 20 as a whole: the parts of a transfer whose darts are drafted.
#![tactic(auto)]

ghost use Rattle.std.specs.Prelude.{◌≡◌, true, List, ℕ, ◌≤◌, ◌<◌, ◌^◌, length, get_or};
ghost use Rattle.model.specs.Image.{holds_block};
ghost use Rattle.model.specs.Values.{message_darts, last_block};
ghost use Rattle.parts.specs.Locate.{none_there};
ghost use Rattle.fitting.specs.Fitting.{CodesRanked, Part2Ready, Part2Done, NewVolume, Parted};

use inbox::message::{Front, Tail};
use memory::header::Header;

// Whether the first c codes differ; then they are ranked. There may be none.
fn rank_codes(
    codes: &[u64],
    c: usize,
    keys: &mut [u64],
    scratch: &mut [u64],
    ranks: &mut [usize],
) -> bool
    requires { (c ≤ length codes.now) × (c ≤ message_darts) × ((e : ℕ) → e < c → get_or codes.now e 0 < 2 ^ 54) × (c ≤ length keys.old) × (c ≤ length scratch.old) × (c ≤ length ranks.old) }
    ensures { CodesRanked codes.now c keys.new ranks.new result }
{
    if c == 0 {
        return true;
    }
    ranking::rank(codes, c, keys, scratch, ranks)
}

// Whether the labels of part 2 differ, and each of its faces meets a face of its own; then its darts are sewn to the places that they
// meet. The arrays behind `links` are lent to work in; `places` is all 4,096, and `seen` is clear.
fn part2_fits(
    block: &[u64],
    draft: &[u64],
    k: usize,
    ranks: &[usize],
    from: u64,
    codes: &[u64],
    indices: &[u64],
    c: usize,
    sizes: &[usize],
    kinds: &mut [u64],
    links: &mut [u64],
    keys: &mut [u64],
    scratch: &mut [u64],
    rows: &mut [usize],
    places: &mut [usize],
    trail: &mut [usize],
    seen: &mut [u8],
) -> bool
    requires part2ready { Part2Ready block.now draft.now ranks.now sizes.now codes.now indices.now k from c × (c ≤ k) × (k ≤ length kinds.old) × (k ≤ length links.old) }
    requires k_in_bounds { (k ≤ length keys.old) × (k ≤ length scratch.old) × (k ≤ length rows.old) × (k ≤ length places.old) × (k ≤ length trail.old) × (get_or block.now 2 0 ≤ length seen.old) }
    requires by_index { ((e : ℕ) → e < c → get_or places.old e 0 ≡ none_there) × ((q : ℕ) → get_or seen.old q 0 ≡ 0) }
    ensures { Part2Done block.now draft.now ranks.now sizes.now codes.now indices.now from c kinds.old kinds.new links.old links.new result }
{
    if !rank_codes(codes, c, keys, scratch, rows) {
        return false;
    }
    let n = block[Header::COUNT] as usize;
    parts::locate::locate(block, n, codes, c, keys, rows, places);
    parts::meets::part2_right(
        block, n, draft, k, ranks, from, places, indices, c, sizes, trail, seen, kinds, links,
    )
}

// 20, of a transfer with a yes to 18 and 19; `kinds` and `links` are all 0. On a yes they have the third links that it brings. The arrays
// behind `links` are lent to work in; `places` is all 4,096, and `marks` and `seen` are clear.
pub fn parts_right(
    block: &[u64],
    message: &[u8],
    front: Front,
    tail: Tail,
    starts: &[usize],
    sizes: &[usize],
    ranks: &[usize],
    draft: &[u64],
    kinds: &mut [u64],
    links: &mut [u64],
    codes: &mut [u64],
    indices: &mut [u64],
    numbers: &mut [u64],
    third: &mut [u64],
    fourth: &mut [u64],
    others: &mut [u64],
    rows: &mut [usize],
    places: &mut [usize],
    trail: &mut [usize],
    marks: &mut [u8],
    seen: &mut [u8],
) -> bool
    requires block_value { (holds_block block.now ≡ true) × (front.darts ≤ length starts.now) × (front.darts ≤ length sizes.now) × (front.darts ≤ length ranks.now) × ((q : ℕ) → get_or kinds.old q 0 ≡ 0) × ((q : ℕ) → get_or links.old q 0 ≡ 0) × (front.from ≤ last_block) × (front.darts ≤ length kinds.old) × (front.darts ≤ length links.old) }
    requires by_index { (v : List ℕ) × (x : List ℕ) × NewVolume block.now message.now v x starts.now sizes.now front tail ranks.now draft.now }
    requires darts_in_bounds { (front.darts ≤ length codes.old) × (front.darts ≤ length indices.old) × (front.darts ≤ length numbers.old) × (front.darts ≤ length third.old) × (front.darts ≤ length fourth.old) × (front.darts ≤ length others.old) × (front.darts ≤ length rows.old) × (front.darts ≤ length places.old) × (front.darts ≤ length trail.old) × (front.darts ≤ length marks.old) × (get_or block.now 2 0 ≤ length seen.old) }
    requires by_index_2 { ((e : ℕ) → e < front.darts → get_or places.old e 0 ≡ none_there) × ((q : ℕ) → get_or marks.old q 0 ≡ 0) × ((q : ℕ) → get_or seen.old q 0 ≡ 0) }
    ensures { (v x : List ℕ) → NewVolume block.now message.now v x starts.now sizes.now front tail ranks.now draft.now → Parted block.now message.now v x starts.now sizes.now front tail kinds.new links.new result }
{
    let k = front.darts;
    if !parts::critical::critical_right(
        block, message, front.from, front.to, tail, starts, sizes, k, codes, indices, kinds, links,
        numbers, third, fourth, others, rows, marks,
    ) {
        return false;
    }
    let c = tail.count2 as usize;
    part2_fits(
        block, draft, k, ranks, front.from, codes, indices, c, sizes, kinds, links, numbers, third,
        rows, places, trail, seen,
    )
}
