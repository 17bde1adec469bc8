// The faces that the codes of an update name: the index of each dart's code, whether each code names a face, and kind words set.
ghost use Rattle.std.specs.Prelude.{◌≡◌, true, ℕ, ◌≤◌, ◌<◌, ltb, length, get_or};
ghost use Rattle.model.specs.Values.{room, last_block};
ghost use Rattle.model.specs.Image.{words_for, holds_block};
ghost use Rattle.cells.specs.Places.{Clear};
ghost use Rattle.redirect.specs.ByPlaces.{code_index, Ready, Unset, LeastIndexed, HitsAre, all_hit, Rewritten};

use crate::{codes, least};
use memory::record::{Place, Record};
use memory::{kind, record};

// The index among the first c codes of the least label of each dart's face, by place; c where it is none of them. Where the face is not
// critical with block `from`, and at a place that is not passed yet, it is 4,097. Marks each index that a face has.
pub fn index_faces(
    block: &[u64],
    n: usize,
    from: u64,
    codes: &[u64],
    c: usize,
    table: &mut [u16],
    hits: &mut [u8],
)
    requires block_value { (holds_block block.now ≡ true) × (n ≡ get_or block.now 2 0) × (from ≤ last_block) × Ready codes.now c }
    requires n_in_bounds { (n ≤ length table.old) × Unset n table.old × (c < length hits.old) × Clear hits.old }
    ensures { LeastIndexed (code_index block.now from codes.now c) n table.new × HitsAre (code_index block.now from codes.now c) n hits.new }
{
    let word = kind::critical_with(from);
    // The places below p have their index, and so has each place whose face has a dart below p.
    for p in 0..n {
        if record::field(block, Place(p), Record::KIND) != word {
            continue;
        }
        if table[p] != 4097 {
            continue;
        }
        let code = least::face_code(block, n, Place(p));
        let k = codes::index_of(codes, c, code);
        least::assign_face(block, n, Place(p), k as u16, table);
        hits[k] = 1;
    }
}

// Whether the first c are marked.
pub fn all_hit(hits: &[u8], c: usize) -> bool
    requires { c ≤ length hits.now }
    ensures { result ≡ all_hit hits.now c }
{
    // Those before `hit` are, if ok.
    let mut ok = true;
    for hit in &hits[..c] {
        ok = ok & (*hit == 1);
    }
    ok
}

// Sets the kind word of the darts whose index is below c.
pub fn rewrite(block: &mut [u64], n: usize, word: u64, table: &[u16], c: usize)
    requires { (n ≤ room) × (words_for n ≤ length block.old) × (n ≤ length table.now) }
    ensures { Rewritten block.old block.new (λ p. ltb (get_or table.now p 0) c) word n }
{
    // The words at the places below p are set.
    for p in 0..n {
        if c <= usize::from(table[p]) {
            continue;
        }
        record::put_field(block, Place(p), Record::KIND, word);
    }
}
