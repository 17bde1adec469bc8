// The three numbers of a dart that arrives, each of its own type, read from the arrays and memories that keep them as plain numbers.
#![tactic(auto)]

pub mod renumber; // renumber.rt: a record whose places have moved

ghost use Rattle.std.specs.Prelude.{◌≡◌, ◌+◌, ◌≤◌, ◌<◌, length, get_or};
ghost use Rattle.model.specs.Image.{words_for, column};
ghost use Rattle.memory.specs.Record.{record_in};
ghost use Rattle.memory.specs.Point.{point_of, FiniteAt};

use memory::point::Point;
use memory::record::{MessageIndex, Place, Record};
use memory::{point, record};

// The place of a new dart in the draft, which is a block's memory of the new darts alone. `MessageIndex` counts the darts of the
// transfer in message order, `DraftPlace` the same darts by serial, `Place` the darts of the block, before or after they join it; none
// stands for another. The words of a record are places of the memory that it stands in.
#[derive(Clone, Copy)]
pub struct DraftPlace(pub usize);

// The index of a dart of the same face or edge, by index: the start of the face, the opposite.
pub fn index_at(indices: &[usize], i: MessageIndex) -> MessageIndex
    requires { i.0 < length indices.now }
    ensures { result.0 ≡ get_or indices.now i.0 0 }
{
    let at = i.0;
    MessageIndex(indices[at])
}

// The size of the face of a dart, by index.
pub fn size_at(sizes: &[usize], i: MessageIndex) -> usize
    requires { i.0 < length sizes.now }
    ensures { result ≡ get_or sizes.now i.0 0 }
{
    let at = i.0;
    sizes[at]
}

// The index that entry e of a part has.
pub fn entry_index(indices: &[u64], e: usize) -> MessageIndex
    requires { e < length indices.now }
    ensures { result.0 ≡ get_or indices.now e 0 }
{
    MessageIndex(indices[e] as usize)
}

// The place in the draft of a new dart, by its index.
pub fn rank_at(ranks: &[usize], i: MessageIndex) -> DraftPlace
    requires { i.0 < length ranks.now }
    ensures { result.0 ≡ get_or ranks.now i.0 0 }
{
    let at = i.0;
    DraftPlace(ranks[at])
}

// The place in the block of a new dart, by its place in the draft.
pub fn new_at(new: &[usize], p: DraftPlace) -> Place
    requires { p.0 < length new.now }
    ensures { result.0 ≡ get_or new.now p.0 0 }
{
    let at = p.0;
    Place(new[at])
}

// Where a dart of a memory goes, by its place there.
pub fn moved_at(table: &[usize], p: Place) -> Place
    requires { p.0 < length table.now }
    ensures { result.0 ≡ get_or table.now p.0 0 }
{
    let at = p.0;
    Place(table[at])
}

// The place of the block at number e of a list.
pub fn place_at(places: &[usize], e: usize) -> Place
    requires { e < length places.now }
    ensures { result.0 ≡ get_or places.now e 0 }
{
    Place(places[e])
}

// The place of the next dart in a block.
pub fn next_of(block: &[u64], p: Place) -> Place
    requires { words_for (p.0 + 1) ≤ length block.now }
    ensures { result.0 ≡ column block.now 1 p.0 }
{
    Place(record::field(block, p, Record::NEXT) as usize)
}

// The place of the next dart in a draft.
pub fn draft_next(draft: &[u64], p: DraftPlace) -> DraftPlace
    requires { words_for (p.0 + 1) ≤ length draft.now }
    ensures { result.0 ≡ column draft.now 1 p.0 }
{
    DraftPlace(record::field(draft, Place(p.0), Record::NEXT) as usize)
}

// The serial of a dart of a draft.
pub fn draft_serial(draft: &[u64], p: DraftPlace) -> u64
    requires { words_for (p.0 + 1) ≤ length draft.now }
    ensures { result ≡ column draft.now 0 p.0 }
{
    record::field(draft, Place(p.0), Record::SERIAL)
}

// The record of a dart of a draft.
pub fn draft_record(draft: &[u64], p: DraftPlace) -> Record
    requires { words_for (p.0 + 1) ≤ length draft.now }
    ensures { result ≡ record_in draft.now p.0 }
{
    record::record_at(draft, Place(p.0))
}

// The point of a dart of a draft.
pub fn draft_point(draft: &[u64], p: DraftPlace) -> Point
    requires { (words_for (p.0 + 1) ≤ length draft.now) × FiniteAt draft.now p.0 }
    ensures { result ≡ point_of (column draft.now 5 p.0) (column draft.now 6 p.0) (column draft.now 7 p.0) }
{
    point::point_at(draft, Place(p.0))
}
