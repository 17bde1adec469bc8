// The places of the block where the labels of part 2 stand, by one pass over its darts.
ghost use Rattle.std.specs.Prelude.{◌≡◌, ℕ, ◌+◌, ◌≤◌, ◌<◌, length, get_or};
ghost use Rattle.laws.specs.Order.{Ascending};
ghost use Rattle.model.specs.Image.{words_for};
ghost use Rattle.model.specs.Values.{room, message_darts};
ghost use Rattle.ranking.specs.Ranks.{value_at, index_at, Ranked};
ghost use Rattle.parts.specs.Locate.{Noted, Located, none_there};

use memory::record::{Place, Record};
use memory::{kind, record};

// Notes place p for the entry whose label the dart at p has.
fn note(block: &[u64], p: Place, keys: &[u64], c: usize, places: &mut [usize])
    requires { (words_for (p.0 + 1) ≤ length block.now) × (c ≤ length keys.now) × (c ≤ message_darts) × (c ≤ length places.old) × Ascending c (value_at keys.now) × ((r : ℕ) → r < c → index_at keys.now r < c) }
    ensures { Noted block.now keys.now c p.0 places.old places.new }
{
    if !kind::is_critical(record::field(block, p, Record::KIND)) {
        return;
    }
    let Some(r) = ranking::find(keys, c, record::field(block, p, Record::LINK)) else {
        return;
    };
    let e = (keys[r] % ranking::INDICES) as usize;
    places[e] = p.0;
}

// The place of the dart that has each of the first c codes, which are ranked; `places` keeps its 4,096 where none of the n darts has it.
pub fn locate(
    block: &[u64],
    n: usize,
    codes: &[u64],
    c: usize,
    keys: &[u64],
    ranks: &[usize],
    places: &mut [usize],
)
    requires { (words_for n ≤ length block.now) × (n ≤ room) × (c ≤ length keys.now) × (c ≤ message_darts) × (c ≤ length places.old) × ((e : ℕ) → e < c → get_or places.old e 0 ≡ none_there) × Ranked codes.now c keys.now ranks.now }
    ensures { Located block.now codes.now c n places.new }
{
    // The darts before p are noted.
    for p in 0..n {
        note(block, Place(p), keys, c, places);
    }
}
