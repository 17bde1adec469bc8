// Darts of a marked volume that are sewn to it or to another.
ghost use Rattle.std.specs.Prelude.{◌≡◌, ℕ, ◌≤◌, ◌<◌, length, get_or, take};
ghost use Rattle.model.specs.Cells.{faces, start_of};
ghost use Rattle.model.specs.Image.{column};
ghost use Rattle.model.specs.Values.{room};
ghost use Rattle.model.specs.Lists.{any, keep};
ghost use Rattle.cells.specs.Places.{InOrder, Linked, marked, sewn_in, sewn_out};

use memory::record::{Place, Record};
use memory::{kind, record};

// Whether the dart at place p is sewn to a marked one.
fn sewn_at(block: &[u64], n: usize, marks: &[u8], p: Place) -> bool
    requires { Linked block.now n × (n ≤ length marks.now) × (p.0 < n) }
    ensures { result ≡ sewn_in block.now marks.now p.0 }
{
    if !kind::is_sewn(record::field(block, p, Record::KIND)) {
        return false;
    }
    let q = record::field(block, p, Record::LINK) as usize;
    marks[q] == 1
}

// Whether some of the first `darts` darts of `order` is sewn to a marked one (a no to question 12).
pub fn sewn_within(block: &[u64], n: usize, marks: &[u8], order: &[usize], darts: usize) -> bool
    requires linked { Linked block.now n × (n ≤ length marks.now) }
    requires darts_le_room { (darts ≤ room) × (darts ≤ length order.now) × ((k : ℕ) → k < darts → get_or order.now k 0 < n) }
    ensures { result ≡ any (sewn_in block.now marks.now) (take darts order.now) }
{
    // None of the darts before i is.
    for i in 0..darts {
        let p = order[i];
        if sewn_at(block, n, marks, Place(p)) {
            return true;
        }
    }
    false
}

// Whether the dart at place p is sewn to one that is not marked.
pub fn sewn_away(block: &[u64], n: usize, marks: &[u8], p: Place) -> bool
    requires { Linked block.now n × (n ≤ length marks.now) × (p.0 < n) }
    ensures { result ≡ sewn_out block.now marks.now p.0 }
{
    if !kind::is_sewn(record::field(block, p, Record::KIND)) {
        return false;
    }
    let q = record::field(block, p, Record::LINK) as usize;
    marks[q] != 1
}

// How many faces of a marked volume are sewn to another volume (question 14 adds them to the counter).
pub fn count_sewn(
    block: &[u64],
    n: usize,
    marks: &[u8],
    out: &[usize],
    starts: &[usize],
    darts: usize,
    count: usize,
) -> usize
    requires { Linked block.now n × (n ≤ length marks.now) × InOrder (faces (column block.now 1) (marked n marks.now)) out.now starts.now darts count }
    ensures { result ≡ length (keep (λ f. sewn_out block.now marks.now (start_of f)) (faces (column block.now 1) (marked n marks.now))) }
{
    // Of the faces before f, `sewn` are sewn away.
    let mut sewn = 0;
    for f in 0..count {
        let i = starts[f];
        let p = out[i];
        if !sewn_away(block, n, marks, Place(p)) {
            continue;
        }
        sewn += 1;
    }
    sewn
}
