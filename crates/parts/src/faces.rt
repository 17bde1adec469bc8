// The third links of the faces of parts 3 and 4, by message index.
ghost use Rattle.std.specs.Prelude.{◌≡◌, ℕ, ◌+◌, ◌*◌, ◌≤◌, ◌<◌, ◌^◌, length, get_or};
ghost use Rattle.model.specs.Values.{last_block};
ghost use Rattle.parts.specs.Faces.{Over, Spans, Faced, numbered_code, code_at};
ghost use Rattle.parts.specs.Entries.{LabelsThere};

use groups::Read;
use memory::header::Header;
use memory::record::MessageIndex;

// The same word from index `at` on, n times.
pub fn fill(array: &mut [u64], at: MessageIndex, n: usize, word: u64)
    requires { at.0 + n ≤ length array.old }
    ensures { Over at.0 n (λ j. word) array.old array.new }
{
    let first = at.0;
    // The first j are put.
    for j in 0..n {
        array[first + j] = word;
    }
}

// Numbers that count up from index `at` on, n of them.
fn count_up(array: &mut [u64], at: MessageIndex, n: usize, least: u64)
    requires { (at.0 + n ≤ length array.old) × (least < 2 ^ 63) }
    ensures { Over at.0 n (λ j. least + j) array.old array.new }
{
    let first = at.0;
    // The first j are put.
    for j in 0..n {
        array[first + j] = least + j as u64;
    }
}

// The codes of n labels that stand from a place of the message on, from index `at` on.
fn put_codes(message: &[u8], from: usize, array: &mut [u64], at: MessageIndex, n: usize)
    requires { (at.0 + n ≤ length array.old) × LabelsThere message.now from n }
    ensures { Over at.0 n (code_at message.now from n) array.old array.new }
{
    let first = at.0;
    // The first j are put.
    let mut p = from;
    for j in 0..n {
        let Some((code, next)) = reader::read_label(message, p) else {
            return;
        };
        array[first + j] = code;
        p = next;
    }
}

// The faces of part 3: critical with block `from`, which made the labels.
pub fn put_part3(
    indices: &[u64],
    numbers: &[u64],
    c: usize,
    sizes: &[usize],
    from: u64,
    kinds: &mut [u64],
    links: &mut [u64],
)
    requires c_in_bounds { (c ≤ length indices.now) × (c ≤ length numbers.now) × (from ≤ last_block) × ((e : ℕ) → e < c → get_or numbers.now e 0 < 2 ^ 32) }
    requires by_index { (k : ℕ) × Spans sizes.now indices.now k c × (k ≤ length sizes.now) × (k ≤ length kinds.old) × (k ≤ length links.old) }
    ensures { Faced sizes.now indices.now c (λ e j. 2 + 4 * from) kinds.old kinds.new × Faced sizes.now indices.now c (numbered_code from numbers.now) links.old links.new }
{
    // The faces before e have their links.
    for e in 0..c {
        let i = place::entry_index(indices, e);
        let n = place::size_at(sizes, i);
        fill(kinds, i, n, 2 + 4 * from);
        count_up(
            links,
            i,
            n,
            (from * Header::NUMBERS + numbers[e]) * Header::POSITIONS,
        );
    }
}

// The faces of part 4: critical with the block of each, by the labels that stand in the message.
pub fn put_part4(
    message: &[u8],
    indices: &[u64],
    others: &[u64],
    places: &[usize],
    c: usize,
    sizes: &[usize],
    kinds: &mut [u64],
    links: &mut [u64],
)
    requires c_in_bounds { (c ≤ length indices.now) × (c ≤ length others.now) × (c ≤ length places.now) × ((e : ℕ) → e < c → get_or others.now e 0 ≤ last_block) × ((e : ℕ) → e < c → LabelsThere message.now (get_or places.now e 0) (get_or sizes.now (get_or indices.now e 0) 0)) }
    requires by_index { (k : ℕ) × Spans sizes.now indices.now k c × (k ≤ length sizes.now) × (k ≤ length kinds.old) × (k ≤ length links.old) }
    ensures { Faced sizes.now indices.now c (λ e j. 2 + 4 * get_or others.now e 0) kinds.old kinds.new × Faced sizes.now indices.now c (λ e. code_at message.now (get_or places.now e 0) (get_or sizes.now (get_or indices.now e 0) 0)) links.old links.new }
{
    // The faces before e have their links.
    for e in 0..c {
        let i = place::entry_index(indices, e);
        let n = place::size_at(sizes, i);
        fill(kinds, i, n, 2 + 4 * others[e]);
        put_codes(message, places[e], links, i, n);
    }
}
