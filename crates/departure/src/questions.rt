// Questions 9 to 14 of a volume that is to leave a block, one by one: each call puts those of its row.
ghost use Rattle.std.specs.Prelude.{◌≡◌, not, ◌&&◌, ℕ, ◌+◌, ◌≤◌, ◌<◌, ◌^◌, leb, eqb, length, get_or, take};
ghost use Rattle.laws.specs.Order.{Ascending};
ghost use Rattle.model.specs.Lists.{any};
ghost use Rattle.model.specs.Values.{room, last_block};
ghost use Rattle.model.specs.Image.{words_for, count_in, column};
ghost use Rattle.memory.specs.Lookup.{place_in};
ghost use Rattle.cells.specs.Places.{Clear, InOrder, Linked, WholeCells, sewn_in};
ghost use Rattle.departure.specs.Asked.{faces_at};
ghost use Rattle.departure.specs.Questions.{WalkedWithin, PairsOnce, CounterFits};

use memory::header::Header;
use memory::lookup;
use memory::record::Place;

// 9: is the destination the number of a block, and not of this one?
pub fn destination_right(block: &[u64], to: u64) -> bool
    requires { 8 ≤ length block.now }
    ensures { result ≡ (leb to last_block && not (eqb to (get_or block.now 0 0))) }
{
    (to <= Header::BLOCKS - 1) & (to != block[Header::NUMBER])
}

// 10: does the block hold a dart with this serial? The place of it.
pub fn place_held(block: &[u64], serial: u64) -> Option<Place>
    requires { (words_for (count_in block.now) ≤ length block.now) × Ascending (count_in block.now) (column block.now 0) }
    ensures { result ≡ place_in (column block.now 0) (count_in block.now) serial }
{
    let n = block[Header::COUNT] as usize;
    lookup::place_of(block, n, serial)
}

// 11: has the volume of the dart at this place at most `most` darts? They are listed in `out`, as the walk met them, and marked by place;
// after a no nothing is marked, at a cost that goes by the volume's size. How many there are.
pub fn volume_within(
    block: &[u64],
    place: Place,
    most: usize,
    out: &mut [usize],
    marks: &mut [u8],
) -> Option<usize>
    requires linked { Linked block.now (count_in block.now) × (place.0 < count_in block.now) }
    requires block_in_bounds { (count_in block.now ≤ length out.old) × (count_in block.now ≤ length marks.old) × Clear marks.old }
    ensures { WalkedWithin most block.now place.0 result marks.new out.new }
{
    let n = block[Header::COUNT] as usize;
    let size = cells::walk::volume(block, n, place, out, marks);
    if most < size {
        cells::reset::unmark(out, size, marks);
        return None;
    }
    Some(size)
}

// 12: is none of these darts sewn to a marked one?
pub fn none_sewn_within(block: &[u64], marks: &[u8], out: &[usize], darts: usize) -> bool
    requires linked { Linked block.now (count_in block.now) × (count_in block.now ≤ length marks.now) }
    requires darts_le_room { (darts ≤ room) × (darts ≤ length out.now) × ((k : ℕ) → k < darts → get_or out.now k 0 < count_in block.now) }
    ensures { result ≡ not (any (sewn_in block.now marks.now) (take darts out.now)) }
{
    let n = block[Header::COUNT] as usize;
    !cells::sewn::sewn_within(block, n, marks, out, darts)
}

// 13: has no edge of these darts one vertex for both ends, or the two of another? Their vertices are numbered: `numbers` has each dart's,
// by place, and `firsts` a dart of each. How many there are.
pub fn pairs_once(
    block: &[u64],
    out: &[usize],
    darts: usize,
    numbers: &mut [usize],
    firsts: &mut [usize],
    colours: &mut [usize],
) -> Option<usize>
    requires linked { Linked block.now (count_in block.now) × WholeCells (count_in block.now) (column block.now 1) (column block.now 2) (take darts out.now) × (darts ≤ length out.now) }
    requires block_in_bounds { (count_in block.now ≤ length numbers.old) × (darts ≤ length firsts.old) × (darts ≤ length colours.old) }
    ensures { PairsOnce block.now out.now darts result numbers.new firsts.new }
{
    let n = block[Header::COUNT] as usize;
    let vertices = cells::vertex::number_vertices(block, n, out, darts, numbers, firsts);
    if !cells::pairs::pairs_once(block, n, numbers, firsts, vertices, colours) {
        return None;
    }
    Some(vertices)
}

// 14: does the counter stay a number below 2^32, with one more for each face of the marked volume that is sewn to another? How many are.
pub fn counter_fits(
    block: &[u64],
    marks: &[u8],
    out: &[usize],
    starts: &[usize],
    darts: usize,
    faces: usize,
) -> Option<usize>
    requires linked { Linked block.now (count_in block.now) × (count_in block.now ≤ length marks.now) × (get_or block.now 1 0 < 2 ^ 32) }
    requires in_order { InOrder (faces_at block.now marks.now) out.now starts.now darts faces }
    ensures { CounterFits block.now marks.now result }
{
    let n = block[Header::COUNT] as usize;
    let sewn = cells::sewn::count_sewn(block, n, marks, out, starts, darts, faces);
    if Header::NUMBERS <= block[Header::COUNTER] + (sewn as u64) {
        return None;
    }
    Some(sewn)
}
