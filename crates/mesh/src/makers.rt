// Question 27: each label's maker is one of the blocks, and its number is below the maker's counter.
ghost use Rattle.std.specs.Prelude.{◌≡◌, true, map, ◌≤◌, ◌<◌, length};
ghost use Rattle.model.specs.Lists.{all};
ghost use Rattle.model.specs.Sound.{makers_right as right-makers};
ghost use Rattle.model.specs.Image.{words_for, count_in, block_in, holds_block};
ghost use Rattle.model.specs.Calls.{memories};
ghost use Rattle.mesh.specs.Parts.{block_count, part, Roomy, made_test, made_block};

use memory::header::Header;
use memory::record::{Place, Record};
use memory::{kind, record};

// Of a kind word and a link word.
fn made(mesh: &[u64], kind: u64, link: u64) -> bool
    ensures { result ≡ made_test mesh.now kind link }
{
    if kind::is_free(kind) | kind::is_sewn(kind) {
        return true;
    }
    let maker = (link / Header::POSITIONS / Header::NUMBERS) as usize;
    if mesh.len() / Header::WORDS <= maker {
        return false;
    }
    link / Header::POSITIONS % Header::NUMBERS < mesh[maker * Header::WORDS + Header::COUNTER]
}

// Of all darts of a block.
fn made_darts(mesh: &[u64], block: &[u64]) -> bool
    requires { words_for (count_in block.now) ≤ length block.now }
    ensures { result ≡ made_block mesh.now block.now }
{
    let n = block[Header::COUNT] as usize;
    // The darts below p pass.
    for p in 0..n {
        let kind = record::field(block, Place(p), Record::KIND);
        let link = record::field(block, Place(p), Record::LINK);
        if !made(mesh, kind, link) {
            return false;
        }
    }
    true
}

// Of block i.
fn made_part(mesh: &[u64], i: usize) -> bool
    requires { (i < block_count mesh.now) × Roomy mesh.now }
    ensures { result ≡ made_block mesh.now (part mesh.now i) }
{
    made_darts(mesh, crate::part_of(mesh, i))
}

// 27: of all blocks; asked after 2.
pub fn makers_right(mesh: &[u64]) -> bool
    requires { all (λ b. holds_block b) (memories mesh.now) ≡ true }
    ensures { result ≡ right-makers (map block_in (memories mesh.now)) }
{
    let k = mesh.len() / Header::WORDS;
    // The blocks below i pass.
    for i in 0..k {
        if !made_part(mesh, i) {
            return false;
        }
    }
    true
}
