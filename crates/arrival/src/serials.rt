// Question 18: coordinates finite, serials at least 1, distinct, not held.
ghost use Rattle.std.specs.Prelude.{◌≡◌, true, false, not, ◌&&◌, ◌≢◌, ℕ, ◌+◌, ◌-◌, ◌*◌, ◌≤◌, ◌<◌, leb, length, get_or};
ghost use Rattle.laws.specs.Order.{Ascending};
ghost use Rattle.model.specs.Lists.{all, tab};
ghost use Rattle.model.specs.Values.{finite, serial_bound, room, message_darts};
ghost use Rattle.model.specs.Cells.{held};
ghost use Rattle.model.specs.Image.{words_for, column, block_in};
ghost use Rattle.inbox.specs.Inbox.{point_in, points_in};
ghost use Rattle.arrival.specs.Draft.{GapTold, NewSerials};

use crate::draft;
use memory::record::{Place, Record};
use memory::{point, record};

// Whether the point at a place of the message is finite: asked of its words, since only finite ones make a `Point`.
fn point_finite(message: &[u8], at: usize) -> bool
    requires { at + 24 ≤ length message.now }
    ensures { result ≡ finite (point_in message.now at) }
{
    let x = point::finite_word(draft::word_at(message, at));
    let y = point::finite_word(draft::word_at(message, at + 8));
    let z = point::finite_word(draft::word_at(message, at + 16));
    x & y & z
}

// Whether all points are.
fn points_finite(message: &[u8], from: usize, count: usize) -> bool
    requires { from + 24 * count ≤ length message.now }
    ensures { result ≡ all finite (points_in message.now from count) }
{
    // Those before j are.
    for j in 0..count {
        if !point_finite(message, from + 24 * j) {
            return false;
        }
    }
    true
}

// The last of the first n places whose serial is at most this one, by halving without a branch; the first place where there is none.
fn last_of(block: &[u64], n: usize, serial: u64) -> Place
    requires { (1 ≤ n) × (n ≤ room) × (words_for n ≤ length block.now) × Ascending n (column block.now 0) × ((p : ℕ) → p < n → column block.now 0 p < serial_bound) × (serial < serial_bound) }
    ensures { (result.0 < n) × ((p : ℕ) → p < n → column block.now 0 p ≡ serial → p ≡ result.0) }
{
    // A place with this serial is one of `left` places from `low` on.
    let mut low = 0;
    let mut left = n;
    while 1 < left {
        let half = left / 2;
        let middle = record::field(block, Place(low + half), Record::SERIAL);
        low = ranking::up(low, half, middle, serial);
        left -= half;
    }
    Place(low)
}

// Whether a serial is above that at the place before `gap`, if there is one.
fn is_past(block: &[u64], gap: Place, serial: u64) -> bool
    requires { words_for gap.0 ≤ length block.now }
    ensures { (result ≡ true → 0 < gap.0 → column block.now 0 (gap.0 - 1) < serial) × (result ≡ false → 0 < gap.0) }
{
    let past = gap.0;
    if past == 0 {
        return true;
    }
    record::field(block, Place(past - 1), Record::SERIAL) < serial
}

// Whether a serial lies between those at the places before and from `gap` on.
fn in_gap(block: &[u64], n: usize, gap: Place, serial: u64) -> bool
    requires { (n ≤ room) × (words_for n ≤ length block.now) × (gap.0 ≤ n) × Ascending n (column block.now 0) }
    ensures { (result ≡ true → (p : ℕ) → p < n → column block.now 0 p ≢ serial) × (result ≡ false → 1 ≤ n) }
{
    if !is_past(block, gap, serial) {
        return false;
    }
    if gap.0 < n {
        return serial < record::field(block, gap, Record::SERIAL);
    }
    true
}

// The place past those of the first n serials that are below a new one; none where it is not new, but 0 or held. `near`: a guess.
fn gap_of(block: &[u64], n: usize, serial: u64, near: Place) -> Option<Place>
    requires { (n ≡ get_or block.now 2 0) × (n ≤ room) × (words_for n ≤ length block.now) × Ascending n (column block.now 0) × ((p : ℕ) → p < n → column block.now 0 p < serial_bound) × (serial < serial_bound) × (near.0 ≤ n) }
    ensures { GapTold block.now n serial result }
{
    if serial == 0 {
        return None;
    }
    // Serials that come one after the other are mostly in one gap.
    if in_gap(block, n, near, serial) {
        return Some(near);
    }
    let last = last_of(block, n, serial);
    let there = record::field(block, last, Record::SERIAL);
    if there == serial {
        return None;
    }
    if there < serial {
        let below = last.0 + 1;
        return Some(Place(below));
    }
    Some(last)
}

// Whether the first k are at least 1, and the block's n darts do not have them.
fn all_new(block: &[u64], n: usize, serial: &[u64], k: usize) -> bool
    requires { (n ≡ get_or block.now 2 0) × (n ≤ room) × (words_for n ≤ length block.now) × Ascending n (column block.now 0) × ((p : ℕ) → p < n → column block.now 0 p < serial_bound) × (k ≤ length serial.now) × ((i : ℕ) → i < k → get_or serial.now i 0 < serial_bound) }
    ensures { result ≡ all (λ i. leb 1 (get_or serial.now i 0) && not (held (block_in block.now).darts (get_or serial.now i 0))) (tab (λ i. i) k) }
{
    // Those before i are; `near` is the gap of the last one.
    let mut near = 0;
    for i in 0..k {
        let Some(gap) = gap_of(block, n, serial[i], Place(near)) else {
            return false;
        };
        near = gap.0;
    }
    true
}

// 18, of a transfer with k darts and `count` points; on a yes its serials are ranked. `scratch` is lent to work in.
pub fn new_serials(
    message: &[u8],
    from: usize,
    count: u64,
    block: &[u64],
    n: usize,
    serial: &[u64],
    k: usize,
    keys: &mut [u64],
    ranks: &mut [usize],
    scratch: &mut [u64],
) -> bool
    requires n_value { (n ≡ get_or block.now 2 0) × (n ≤ room) × (words_for n ≤ length block.now) × Ascending n (column block.now 0) × ((p : ℕ) → p < n → column block.now 0 p < serial_bound) }
    requires k_in_bounds { (k ≤ length serial.now) × (k ≤ length keys.old) × (k ≤ length ranks.old) × (k ≤ length scratch.old) × (1 ≤ k) × (k ≤ message_darts) × (from + 24 * count ≤ length message.now) × ((i : ℕ) → i < k → get_or serial.now i 0 < serial_bound) }
    ensures { NewSerials (block_in block.now).darts message.now from count serial.now k keys.new ranks.new result }
{
    if !points_finite(message, from, count as usize) {
        return false;
    }
    if !all_new(block, n, serial, k) {
        return false;
    }
    ranking::rank(serial, k, keys, scratch, ranks)
}
