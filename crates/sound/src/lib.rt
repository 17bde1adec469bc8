// Question 2, "is memory given as a block a sound block's image?", and questions 4 to 8 of a block's memory one by one.
#![tactic(auto)]

pub mod dart; // dart.rt: the tests of one dart
pub mod questions; // questions.rt: questions 4 to 8, a loop each

ghost use Rattle.std.specs.Prelude.{◌≡◌, true, ◌&&◌, ◌↔◌, ℕ, ◌≤◌, ◌<◌, leb, length, get_or, replicate};
ghost use Rattle.model.specs.Values.{room};
ghost use Rattle.model.specs.Image.{words_for, is_image, holds_block};
ghost use Rattle.memory.specs.Header.{limits_of};
ghost use Rattle.columns.specs.Columns.{count, header_test, Darts};
ghost use Rattle.keyset.specs.Slots.{slot_count};
ghost use Rattle.sound.specs.Kept.{FarSaid, ButLabels};

use memory::header::{Header, Limits};
use memory::record;
use memory::record::{Place, Record};

// Number, counter and dart count in range, five zeros; no more darts than the limits say.
fn header_right(block: &[u64], limits: Limits) -> bool
    requires { (8 ≤ length block.now) × (limits.block ≤ room) }
    ensures { result ≡ (header_test block.now && leb (count block.now) limits.block) }
{
    (block[Header::NUMBER] < Header::BLOCKS)
        & (block[Header::COUNTER] < Header::NUMBERS)
        & (block[Header::COUNT] <= limits.block as u64)
        & (block[3] == 0)
        & (block[4] == 0)
        & (block[5] == 0)
        & (block[6] == 0)
        & (block[7] == 0)
}

// Whether all words from a on are zero.
fn zeros(block: &[u64], a: usize) -> bool
    requires { a ≤ length block.now }
    ensures { (result ≡ true) ↔ ((i : ℕ) → a ≤ i → i < length block.now → get_or block.now i 0 ≡ 0) }
{
    // The words from a on and below i are zero, if ok.
    let mut ok = true;
    let mut i = a;
    while i < block.len() {
        ok = ok & (block[i] == 0);
        i += 1;
    }
    ok
}

// Whether each dart by itself is right, and no two have the same next.
fn darts_right(block: &[u64], n: usize, seen: &mut [u8]) -> bool
    requires { (n ≤ room) × (words_for n ≤ length block.now) × (n ≤ length seen.old) × ((p : ℕ) → get_or seen.old p 0 ≡ 0) }
    ensures { (result ≡ true) ↔ Darts block.now n }
{
    let me = block[Header::NUMBER];
    let counter = block[Header::COUNTER];
    // The darts below i are right, and their nexts, marked in `seen`, differ.
    let mut last = 0;
    let mut i = 0;
    while i < n {
        if !dart::place_at(block, n, Place(i), last) {
            return false;
        }
        let k = record::field(block, Place(i), Record::KIND);
        let l = record::field(block, Place(i), Record::LINK);
        if !dart::kind_right(me, counter, n, k, l) {
            return false;
        }
        let a = record::field(block, Place(i), Record::NEXT) as usize;
        if seen[a] != 0 {
            return false;
        }
        seen[a] = 1;
        last = record::field(block, Place(i), Record::SERIAL);
        i += 1;
    }
    true
}

// Whether each dart is right with the darts that it links to; then how many of them are critical.
#[derive(Clone, Copy)]
enum Far {
    Right(usize),
    Wrong,
}

// Looks at each dart and at those that it links to, and keeps the labels of the critical ones in order.
fn far_right(block: &[u64], n: usize, keys: &mut [u64]) -> Far
    requires { (n ≤ room) × (words_for n ≤ length block.now) × Darts block.now n × (n ≤ length keys.old) }
    ensures { FarSaid block.now n keys.new result }
{
    // The darts below i are right, and the first c keys are their labels.
    let mut c = 0;
    let mut i = 0;
    while i < n {
        if !dart::far_at(block, n, Place(i)) {
            return Far::Wrong;
        }
        c = questions::put_label(block, Place(i), keys, c);
        i += 1;
    }
    Far::Right(c)
}

// Asks 2 of all but whether labels differ: those of the critical darts are then the first keys.
fn but_labels(block: &[u64], limits: Limits, seen: &mut [u8], keys: &mut [u64]) -> Far
    requires { (limits.block ≤ room) × (limits.block ≤ length seen.old) × ((p : ℕ) → get_or seen.old p 0 ≡ 0) × (limits.block ≤ length keys.old) }
    ensures { ButLabels (limits_of limits) block.now keys.new result }
{
    if block.len() < Header::SIZE {
        return Far::Wrong;
    }
    if !header_right(block, limits) {
        return Far::Wrong;
    }
    let n = block[Header::COUNT] as usize;
    if block.len() < 8 + n * 8 {
        return Far::Wrong;
    }
    if !zeros(block, 8 + n * 8) {
        return Far::Wrong;
    }
    if !darts_right(block, n, seen) {
        return Far::Wrong;
    }
    far_right(block, n, keys)
}

// 2, by limits: is the memory a sound block's image? The arrays are lent, `seen` and the table cleared.
pub fn is_sound_by(
    block: &[u64],
    limits: Limits,
    seen: &mut [u8],
    keys: &mut [u64],
    table: &mut [u16; keyset::SLOTS],
    scratch: &mut [u64],
) -> bool
    requires block_le_room { (limits.block ≤ room) × (limits.block ≤ length seen.old) × (limits.block ≤ length keys.old) × (limits.block ≤ length scratch.old) }
    requires by_index { ((p : ℕ) → get_or seen.old p 0 ≡ 0) × (table.old ≡ replicate slot_count 0) }
    ensures { result ≡ is_image (limits_of limits) block.now }
{
    let Far::Right(critical) = but_labels(block, limits, seen, keys) else {
        return false;
    };
    questions::apart(keys, critical, table, scratch)
}

// 2 of memory of any length that has room for its darts, at the most those of a block of the rack.
pub fn is_sound(block: &[u64]) -> bool
    ensures { result ≡ holds_block block.now }
{
    let mut seen = [0u8; Header::DARTS];
    let mut keys = [0u64; Header::DARTS];
    let Far::Right(critical) = but_labels(block, Limits::rack(), &mut seen, &mut keys) else {
        return false;
    };
    questions::apart_at_rack(&mut keys, critical)
}
