// Question 20 but for the faces that part 2 meets: the entries of all parts, and the links of the faces of parts 3 and 4.
ghost use Rattle.std.specs.Prelude.{◌≡◌, true, List, ℕ, ◌≤◌, length, get_or};
ghost use Rattle.model.specs.Image.{holds_block};
ghost use Rattle.model.specs.Messages.{Transfer};
ghost use Rattle.model.specs.Values.{message_darts, last_block};
ghost use Rattle.parts.specs.Critical.{few_entries, entries_fit, Arrives, CriticalRight};

use crate::{entries, faces, fresh, indices, numbers};
use codec::entry::Paired;
use inbox::message::Tail;
use memory::header::Header;

// Whether no part has more entries than there are darts: an entry names the start of a face, each another one.
fn few(tail: Tail, k: usize) -> bool
    ensures { result ≡ few_entries tail k }
{
    let most = k as u64;
    (tail.count2 <= most) & (tail.count3 <= most) & (tail.count4 <= most)
}

// The indices, numbers and blocks of the entries.
fn entries_fit(
    second: &[u64],
    c2: usize,
    third: &[u64],
    numbers: &[u64],
    c3: usize,
    fourth: &[u64],
    others: &[u64],
    c4: usize,
    starts: &[usize],
    k: usize,
    from: u64,
    to: u64,
    marks: &mut [u8],
) -> bool
    requires { (c2 ≤ length second.now) × (c3 ≤ length third.now) × (c3 ≤ length numbers.now) × (c4 ≤ length fourth.now) × (c4 ≤ length others.now) × (k ≤ length starts.now) × (c3 ≤ message_darts) × (k ≤ length marks.old) × ((q : ℕ) → get_or marks.old q 0 ≡ 0) }
    ensures { result ≡ entries_fit starts.now k from to second.now c2 third.now numbers.now c3 fourth.now others.now c4 }
{
    let first = indices::indices_fit(second, c2, third, c3, fourth, c4, starts, k, marks);
    let next = numbers::consecutive(numbers, c3);
    let last = numbers::neither(others, c4, from, to);
    first & next & last
}

// 20 but for the faces that part 2 meets. On a yes the entries of part 2 stand in arrays, and the darts on faces of parts 3 and 4 have
// their kind and link words. The arrays behind `links` are lent to work in; `marks` are clear.
pub fn critical_right(
    block: &[u64],
    message: &[u8],
    from: u64,
    to: u64,
    tail: Tail,
    starts: &[usize],
    sizes: &[usize],
    k: usize,
    codes: &mut [u64],
    indices: &mut [u64],
    kinds: &mut [u64],
    links: &mut [u64],
    numbers: &mut [u64],
    third: &mut [u64],
    fourth: &mut [u64],
    others: &mut [u64],
    places: &mut [usize],
    marks: &mut [u8],
) -> bool
    requires block_value { (holds_block block.now ≡ true) × (k ≤ length starts.now) × (k ≤ length sizes.now) × (k ≤ length codes.old) × (k ≤ length indices.old) × ((q : ℕ) → get_or kinds.old q 0 ≡ 0) × ((q : ℕ) → get_or links.old q 0 ≡ 0) × (1 ≤ k) × (k ≤ message_darts) × (from ≤ last_block) × (k ≤ length kinds.old) × (k ≤ length links.old) }
    requires by_index { (t : Transfer) × (v : List ℕ) × (x : List ℕ) × Arrives t v x starts.now sizes.now message.now k from to tail }
    requires k_in_bounds { (k ≤ length numbers.old) × (k ≤ length third.old) × (k ≤ length fourth.old) × (k ≤ length others.old) × (k ≤ length places.old) × (k ≤ length marks.old) × ((q : ℕ) → get_or marks.old q 0 ≡ 0) }
    ensures { CriticalRight block.now message.now starts.now sizes.now k from to tail codes.new indices.new kinds.new links.new result }
{
    if !few(tail, k) {
        return false;
    }
    let c2 = tail.count2 as usize;
    let c3 = tail.count3 as usize;
    let c4 = tail.count4 as usize;
    entries::read_pairs(message, tail.part2, Paired::Second, c2, codes, indices);
    entries::read_pairs(message, tail.part3, Paired::Third, c3, numbers, third);
    entries::read_part4(message, tail.part4, c4, k, sizes, fourth, others, places);
    if !entries_fit(
        indices, c2, third, numbers, c3, fourth, others, c4, starts, k, from, to, marks,
    ) {
        return false;
    }
    faces::put_part3(third, numbers, c3, sizes, from, kinds, links);
    faces::put_part4(message, fourth, others, places, c4, sizes, kinds, links);
    let n = block[Header::COUNT] as usize;
    // What the entries said stands in kinds and links now.
    fresh::labels_fit(block, n, kinds, links, k, numbers, third, fourth, places)
}
