// The labels of the critical new darts, from their kind and link words: none is held, no two are one, own-made ones lie below the
// counter.
ghost use Rattle.std.specs.Prelude.{◌≡◌, ◌&&◌, ℕ, ◌+◌, ◌≤◌, ◌<◌, ◌^◌, length, get_or};
ghost use Rattle.laws.specs.Order.{Ascending};
ghost use Rattle.model.specs.Lists.{all, tab};
ghost use Rattle.model.specs.Image.{words_for};
ghost use Rattle.model.specs.Values.{room, message_darts};
ghost use Rattle.ranking.specs.Ranks.{value_at};
ghost use Rattle.parts.specs.Fresh.{own_right, own_at, fresh_value, ValuesPut, clear_at, labels_fit};

use memory::header::Header;
use memory::record::{MessageIndex, Place, Record};
use memory::{kind, label, record};

// Whether a kind and a link word are not of an own-made label from the counter on.
fn own_right(number: u64, counter: u64, kind: u64, link: u64) -> bool
    ensures { result ≡ own_right number counter kind link }
{
    if !kind::is_critical(kind) {
        return true;
    }
    (label::maker_of(link) != number) | (label::number_of(link) < counter)
}

// Whether the words of the first k darts are not.
fn all_own(number: u64, counter: u64, kinds: &[u64], links: &[u64], k: usize) -> bool
    requires { (k ≤ length kinds.now) × (k ≤ length links.now) }
    ensures { result ≡ all (own_at number counter kinds.now links.now) (tab (λ q. q) k) }
{
    // Those before q are not.
    for q in 0..k {
        if !own_right(number, counter, kinds[q], links[q]) {
            return false;
        }
    }
    true
}

// The label's code of a critical dart; above all codes, and its own, of any other.
fn fresh_value(kind: u64, link: u64, q: MessageIndex) -> u64
    requires { q.0 < message_darts }
    ensures { result ≡ fresh_value kind link q.0 }
{
    if kind::is_critical(kind) {
        return link;
    }
    label::CODES + q.0 as u64
}

// The values of the first k darts.
fn put_values(kinds: &[u64], links: &[u64], k: usize, values: &mut [u64])
    requires { (k ≤ length kinds.now) × (k ≤ length links.now) × (k ≤ length values.old) × (k ≤ message_darts) }
    ensures { ValuesPut kinds.now links.now k values.new }
{
    // Those before q are put.
    for q in 0..k {
        values[q] = fresh_value(kinds[q], links[q], MessageIndex(q));
    }
}

// Whether the dart at place p of the block has none of k values for a label.
fn clear_at(block: &[u64], p: Place, keys: &[u64], k: usize) -> bool
    requires { (words_for (p.0 + 1) ≤ length block.now) × (k ≤ length keys.now) × (k ≤ message_darts) × Ascending k (value_at keys.now) }
    ensures { result ≡ clear_at block.now (tab (value_at keys.now) k) p.0 }
{
    if !kind::is_critical(record::field(block, p, Record::KIND)) {
        return true;
    }
    let Some(r) = ranking::find(keys, k, record::field(block, p, Record::LINK)) else {
        return true;
    };
    false
}

// Whether the first n darts have none.
fn all_clear(block: &[u64], n: usize, keys: &[u64], k: usize) -> bool
    requires { (words_for n ≤ length block.now) × (n ≤ room) × (k ≤ length keys.now) × (k ≤ message_darts) × Ascending k (value_at keys.now) }
    ensures { result ≡ all (clear_at block.now (tab (value_at keys.now) k)) (tab (λ p. p) n) }
{
    // Those before p have none.
    for p in 0..n {
        if !clear_at(block, Place(p), keys, k) {
            return false;
        }
    }
    true
}

// 20, of the labels of parts 3 and 4, on a block of n darts. The arrays behind k are lent to work in.
pub fn labels_fit(
    block: &[u64],
    n: usize,
    kinds: &[u64],
    links: &[u64],
    k: usize,
    values: &mut [u64],
    keys: &mut [u64],
    scratch: &mut [u64],
    ranks: &mut [usize],
) -> bool
    requires n_in_bounds { (words_for n ≤ length block.now) × (n ≤ room) × (k ≤ length kinds.now) × (k ≤ length links.now) × (1 ≤ k) × (k ≤ message_darts) }
    requires k_in_bounds { (k ≤ length values.old) × (k ≤ length keys.old) × (k ≤ length scratch.old) × (k ≤ length ranks.old) }
    requires by_index { (q : ℕ) → q < k → get_or links.now q 0 < 2 ^ 48 }
    ensures { result ≡ labels_fit block.now n kinds.now links.now k }
{
    if !all_own(
        block[Header::NUMBER],
        block[Header::COUNTER],
        kinds,
        links,
        k,
    ) {
        return false;
    }
    put_values(kinds, links, k, values);
    if !ranking::rank(values, k, keys, scratch, ranks) {
        return false;
    }
    all_clear(block, n, keys, k)
}
