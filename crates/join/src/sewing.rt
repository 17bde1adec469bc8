// New darts that a block's memory holds already are sewn to its darts, or labelled: words 3 and 4 of both.
ghost use Rattle.std.specs.Prelude.{◌≡◌, ◌+◌, ◌≤◌, ◌<◌, length, get_or};
ghost use Rattle.model.specs.Image.{words_for};
ghost use Rattle.join.specs.Thirds.{joined_third, sewn_at, JoinSewable, Sewn};

use memory::record;
use memory::record::{MessageIndex, Place, Record};

// The kind word and the link word of the dart at place p.
fn put_third(block: &mut [u64], p: Place, kind: u64, link: u64)
    requires { words_for (p.0 + 1) ≤ length block.old }
    ensures { block.new ≡ joined_third block.old p.0 kind link }
{
    record::put_field(block, p, Record::KIND, kind);
    record::put_field(block, p, Record::LINK, link);
}

// A new dart at place p, and the dart that it is sewn to.
fn sew_at(block: &mut [u64], kind: u64, link: u64, old: &[usize], p: Place)
    requires { (words_for (p.0 + 1) ≤ length block.old) × (kind ≡ 1 → link < length old.now) × (kind ≡ 1 → words_for (get_or old.now link 0 + 1) ≤ length block.old) }
    ensures { block.new ≡ sewn_at block.old kind link old.now p.0 }
{
    if kind == 0 {
        return;
    }
    if kind != 1 {
        put_third(block, p, kind, link);
        return;
    }
    let q = place::moved_at(old, Place(link as usize));
    put_third(block, p, 1, q.0 as u64);
    put_third(block, q, 1, p.0 as u64);
}

// All k new darts among a block's n.
pub fn sew(
    block: &mut [u64],
    n: usize,
    k: usize,
    kinds: &[u64],
    links: &[u64],
    ranks: &[usize],
    old: &[usize],
    new: &[usize],
)
    requires { (words_for (n + k) ≤ length block.old) × (k ≤ length kinds.now) × (k ≤ length links.now) × (k ≤ length ranks.now) × (n ≤ length old.now) × (k ≤ length new.now) × JoinSewable n k kinds.now links.now ranks.now old.now new.now }
    ensures { Sewn block.old kinds.now links.now ranks.now old.now new.now k block.new }
{
    // Those before i are.
    for i in 0..k {
        let r = place::rank_at(ranks, MessageIndex(i));
        let p = place::new_at(new, r);
        sew_at(block, kinds[i], links[i], old, p);
    }
}
