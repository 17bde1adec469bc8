// Questions 4 to 8 of a block's memory, a loop each; each under what was asked before.
ghost use Rattle.std.specs.Prelude.{◌≡◌, true, ◌↔◌, ℕ, ◌+◌, ◌≤◌, ◌<◌, length, get_or, take, replicate};
ghost use Rattle.model.specs.Lists.{distinct};
ghost use Rattle.model.specs.Sound.{coordinates_finite, links_right as right-links, thirds_right as right-thirds, labels_right as right-labels, points_agree as agreeing-points};
ghost use Rattle.model.specs.Image.{words_for, block_in};
ghost use Rattle.model.specs.Values.{room};
ghost use Rattle.columns.specs.Columns.{all_below, count, own_test, codes, Ranged, Links};
ghost use Rattle.keyset.specs.Slots.{slot_count};
ghost use Rattle.sound.specs.Kept.{Kept};

use crate::dart;
use keyset::Search;
use memory::header::Header;
use memory::record::{Place, Record};
use memory::{kind, record};

// The label of the dart at place p, if it is critical, goes after the first c keys. Returns how many there are then.
pub fn put_label(block: &[u64], p: Place, keys: &mut [u64], c: usize) -> usize
    requires { (p.0 < room) × (words_for (p.0 + 1) ≤ length block.now) × (c < room) × (c < length keys.old) }
    ensures { Kept block.now p.0 keys.old c keys.new result }
{
    let k = record::field(block, p, Record::KIND);
    if !kind::is_critical(k) {
        return c;
    }
    keys[c] = record::field(block, p, Record::LINK);
    c + 1
}

// The labels of the critical darts, in order; how many there are.
fn gather(block: &[u64], n: usize, keys: &mut [u64]) -> usize
    requires { (n ≤ room) × (words_for n ≤ length block.now) × (n ≤ length keys.old) }
    ensures { (result ≤ n) × (take result keys.new ≡ codes block.now n) }
{
    // The first c keys are the labels of the darts below i.
    let mut c = 0;
    for i in 0..n {
        c = put_label(block, Place(i), keys, c);
    }
    c
}

// Whether no key stands twice among the first c, by order.
fn differ(keys: &mut [u64], scratch: &mut [u64], c: usize) -> bool
    requires { (c ≤ room) × (c ≤ length keys.old) × (c ≤ length scratch.old) }
    ensures { result ≡ distinct (take c keys.old) }
{
    sort::distinct(&mut keys[..c], &mut scratch[..c])
}

// The same, by slots as far as they tell; labels that crowd a few slots are put in order.
pub fn apart(
    keys: &mut [u64],
    c: usize,
    table: &mut [u16; keyset::SLOTS],
    scratch: &mut [u64],
) -> bool
    requires { (c ≤ room) × (c ≤ length keys.old) × (c ≤ length scratch.old) × (table.old ≡ replicate slot_count 0) }
    ensures { result ≡ distinct (take c keys.old) }
{
    match keyset::search_slots(keys, c, table) {
        Search::Distinct => true,
        Search::Repeated => false,
        Search::GaveUp => differ(keys, scratch, c),
    }
}

// The same with the rack's arrays: the scratch is cleared only where the slots do not tell.
pub fn apart_at_rack(keys: &mut [u64], c: usize) -> bool
    requires { (c ≤ room) × (c ≤ length keys.old) }
    ensures { result ≡ distinct (take c keys.old) }
{
    let mut table = [0u16; keyset::SLOTS];
    match keyset::search_slots(keys, c, &mut table) {
        Search::Distinct => true,
        Search::Repeated => false,
        Search::GaveUp => {
            let mut scratch = [0u64; Header::DARTS];
            differ(keys, &mut scratch, c)
        }
    }
}

// 7: whether no label stands twice.
fn labels_differ(
    block: &[u64],
    n: usize,
    keys: &mut [u64],
    table: &mut [u16; keyset::SLOTS],
    scratch: &mut [u64],
) -> bool
    requires { (n ≤ room) × (words_for n ≤ length block.now) × (n ≤ length keys.old) × (n ≤ length scratch.old) × (table.old ≡ replicate slot_count 0) }
    ensures { result ≡ distinct (codes block.now n) }
{
    let c = gather(block, n, keys);
    apart(keys, c, table, scratch)
}

// 4: are the coordinates finite?
pub fn coordinates_finite(block: &[u64]) -> bool
    requires { (words_for (count block.now) ≤ length block.now) × (count block.now ≤ room) }
    ensures { result ≡ coordinates_finite (block_in block.now).darts }
{
    let n = block[Header::COUNT] as usize;
    // The points below i are finite.
    for i in 0..n {
        if !dart::finite_at(block, Place(i)) {
            return false;
        }
    }
    true
}

// The test of links, with a mark for each next.
fn links_pass(block: &[u64], n: usize, seen: &mut [u8]) -> bool
    requires { (n ≤ room) × (words_for n ≤ length block.now) × (n ≤ length seen.old) × ((p : ℕ) → get_or seen.old p 0 ≡ 0) }
    ensures { (result ≡ true) ↔ Links block.now n }
{
    // The links below i are right, and the nexts, marked in `seen`, differ.
    for i in 0..n {
        if !dart::link_at(block, n, Place(i)) {
            return false;
        }
        let a = record::field(block, Place(i), Record::NEXT) as usize;
        if seen[a] != 0 {
            return false;
        }
        seen[a] = 1;
    }
    true
}

// 5: are next and opposite right? `seen` is lent, cleared.
pub fn links_right(block: &[u64], seen: &mut [u8]) -> bool
    requires block_in_bounds { (words_for (count block.now) ≤ length block.now) × Ranged block.now }
    requires block_in_bounds_2 { (count block.now ≤ length seen.old) × ((p : ℕ) → get_or seen.old p 0 ≡ 0) }
    ensures { result ≡ right-links (block_in block.now).darts }
{
    let n = block[Header::COUNT] as usize;
    links_pass(block, n, seen)
}

// 6: are the third links right, and each face of one kind?
pub fn thirds_right(block: &[u64]) -> bool
    requires { (words_for (count block.now) ≤ length block.now) × Ranged block.now × (right-links (block_in block.now).darts ≡ true) }
    ensures { result ≡ right-thirds (block_in block.now).darts }
{
    let n = block[Header::COUNT] as usize;
    // The third links below i are right.
    for i in 0..n {
        if !dart::third_at(block, n, Place(i)) {
            return false;
        }
    }
    true
}

// The test of labels one by one.
fn own_labels(block: &[u64], n: usize) -> bool
    requires { (n ≤ room) × (words_for n ≤ length block.now) }
    ensures { result ≡ all_below (own_test block.now) n }
{
    let me = block[Header::NUMBER];
    let counter = block[Header::COUNTER];
    // The labels below i are right.
    for i in 0..n {
        let k = record::field(block, Place(i), Record::KIND);
        let l = record::field(block, Place(i), Record::LINK);
        if !dart::label_right(me, counter, k, l) {
            return false;
        }
    }
    true
}

// 7: are labels, other blocks and the counter right? The arrays are lent, the table cleared.
pub fn labels_right(
    block: &[u64],
    keys: &mut [u64],
    table: &mut [u16; keyset::SLOTS],
    scratch: &mut [u64],
) -> bool
    requires block_in_bounds { (words_for (count block.now) ≤ length block.now) × Ranged block.now }
    requires block_in_bounds_2 { (count block.now ≤ length keys.old) × (count block.now ≤ length scratch.old) × (table.old ≡ replicate slot_count 0) }
    ensures { result ≡ right-labels (block_in block.now) }
{
    let n = block[Header::COUNT] as usize;
    if !own_labels(block, n) {
        return false;
    }
    labels_differ(block, n, keys, table, scratch)
}

// 8: do the points agree?
pub fn points_agree(block: &[u64]) -> bool
    requires { (words_for (count block.now) ≤ length block.now) × Ranged block.now × (coordinates_finite (block_in block.now).darts ≡ true) × (right-links (block_in block.now).darts ≡ true) × (right-thirds (block_in block.now).darts ≡ true) }
    ensures { result ≡ agreeing-points (block_in block.now).darts }
{
    let n = block[Header::COUNT] as usize;
    // The points below i agree.
    for i in 0..n {
        if !dart::points_at(block, n, Place(i)) {
            return false;
        }
    }
    true
}
