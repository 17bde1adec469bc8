// New darts put among those of a block, in place and from the back, with every place renumbered.
ghost use Rattle.std.specs.Prelude.{◌≡◌, ◌++◌, ◌+◌, ◌*◌, ◌≤◌, ◌<◌, length, get_or, take, drop};
ghost use Rattle.model.specs.Lists.{concat};
ghost use Rattle.model.specs.Image.{words_for, column};
ghost use Rattle.memory.specs.Record.{put};
ghost use Rattle.place.specs.Renumber.{LinksBelow};
ghost use Rattle.release.specs.Asks.{Tabled};
ghost use Rattle.join.specs.Interleave.{up, last_old, moved_record, rows, interleaved_at, Interleaves};

use memory::header::Header;
use memory::record;
use memory::record::{Place, Record};
use place::DraftPlace;

// Whether the last, by serial, of the block's first i darts and the draft's first j is one of the block.
fn last_is_old(block: &[u64], draft: &[u64], i: usize, j: usize) -> bool
    requires { (words_for i ≤ length block.now) × (words_for j ≤ length draft.now) }
    ensures { result ≡ last_old (column block.now 0) (column draft.now 0) i j }
{
    if j == 0 {
        return true;
    }
    if i == 0 {
        return false;
    }
    place::draft_serial(draft, DraftPlace(j - 1))
        < record::field(block, Place(i - 1), Record::SERIAL)
}

// Where the darts of both go.
fn tables(block: &[u64], n: usize, draft: &[u64], k: usize, old: &mut [usize], new: &mut [usize])
    requires { Interleaves block.now draft.now n k × (n ≤ length old.old) × (k ≤ length new.old) }
    ensures { Tabled (up (column block.now 0) (column draft.now 0) k) n old.new × Tabled (up (column draft.now 0) (column block.now 0) n) k new.new }
{
    // The darts from place i of the block and place j of the draft on have their new places.
    let mut i = n;
    let mut j = k;
    while 0 < i + j {
        let t = i + j - 1;
        if last_is_old(block, draft, i, j) {
            let p = i - 1;
            old[p] = t;
            i = p;
        } else {
            let q = j - 1;
            new[q] = t;
            j = q;
        }
    }
}

// Stores a record at place `at`, with its links by the table.
fn put_moved(block: &mut [u64], at: Place, r: Record, table: &[usize])
    requires { (words_for (at.0 + 1) ≤ length block.old) × LinksBelow (length table.now) r }
    ensures { block.new ≡ put block.old at.0 (moved_record (λ p. get_or table.now p 0) r) }
{
    record::put_record(block, at, place::renumber::renumbered(table, r));
}

// Puts the draft's k records among the block's n, each with its links by its table.
fn merge(block: &mut [u64], n: usize, draft: &[u64], k: usize, old: &[usize], new: &[usize])
    requires interleaves { Interleaves block.old draft.now n k × (n ≤ length old.now) × (k ≤ length new.now) }
    requires tabled { Tabled (up (column block.old 0) (column draft.now 0) k) n old.now × Tabled (up (column draft.now 0) (column block.old 0) n) k new.now }
    ensures { block.new ≡ take 8 block.old ++ (concat (rows block.old n draft.now k n k) ++ drop (8 + (n + k) * 8) block.old) }
{
    // The records from place i of the block and place j of the draft on stand where they go.
    let mut i = n;
    let mut j = k;
    while 0 < i + j {
        let t = i + j - 1;
        if last_is_old(block, draft, i, j) {
            let p = i - 1;
            let r = record::record_at(block, Place(p));
            put_moved(block, Place(t), r, old);
            i = p;
        } else {
            let q = j - 1;
            let r = place::draft_record(draft, DraftPlace(q));
            put_moved(block, Place(t), r, new);
            j = q;
        }
    }
}

// Puts the darts of the draft among those of the block. `old` and `new` get the new place of each dart of the block and of the draft.
pub fn insert(block: &mut [u64], draft: &[u64], old: &mut [usize], new: &mut [usize])
    requires { Interleaves block.old draft.now (get_or block.old 2 0) (get_or draft.now 2 0) × (get_or block.old 2 0 ≤ length old.old) × (get_or draft.now 2 0 ≤ length new.old) }
    ensures interleaved { block.new ≡ interleaved_at block.old (get_or block.old 2 0) draft.now (get_or draft.now 2 0) }
    ensures olds { Tabled (up (column block.old 0) (column draft.now 0) (get_or draft.now 2 0)) (get_or block.old 2 0) old.new }
    ensures news { Tabled (up (column draft.now 0) (column block.old 0) (get_or block.old 2 0)) (get_or draft.now 2 0) new.new }
{
    let number = block[Header::NUMBER];
    let counter = block[Header::COUNTER];
    let n = block[Header::COUNT] as usize;
    let k = draft[Header::COUNT] as usize;
    tables(block, n, draft, k, old, new);
    merge(block, n, draft, k, old, new);
    let darts = n + k;
    let after = Header {
        number,
        counter,
        darts,
    };
    after.write(block);
}
