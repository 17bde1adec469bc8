// What is asked before a volume leaves a block: questions 9 to 14. Send and release put them all in a row.
#![tactic(auto)]

pub mod questions; // questions.rt: 9 to 14 one by one

ghost use Rattle.std.specs.Prelude.{◌≡◌, true, ℕ, ◌≤◌, ◌<◌, length, get_or, take};
ghost use Rattle.model.specs.Values.{room, message_darts};
ghost use Rattle.model.specs.Image.{count_in, holds_block};
ghost use Rattle.memory.specs.Header.{limits_of};
ghost use Rattle.cells.specs.Places.{Clear, Marked};
ghost use Rattle.departure.specs.Asked.{Forgotten, Leaves, VolumeLeaves};

use answers::Refusal;
use memory::header::{Header, Limits};
use memory::record::Place;

// How many darts, faces and vertices a volume has, and how many of its faces are sewn to another volume.
#[derive(Clone, Copy)]
pub struct Counts {
    pub darts: usize,
    pub faces: usize,
    pub vertices: usize,
    pub sewn: usize,
}

// Takes the marks of a volume that does not leave away, at its own darts alone.
fn unmark_both(out: &[usize], darts: usize, marks: &mut [u8], seen: &mut [u8])
    requires { (darts ≤ room) × (darts ≤ length out.now) × ((k : ℕ) → k < darts → (get_or out.now k 0 < length marks.old) × (get_or out.now k 0 < length seen.old)) × Marked (take darts out.now) marks.old × Marked (take darts out.now) seen.old }
    ensures { Clear marks.new × Clear seen.new }
{
    cells::reset::unmark(out, darts, marks);
    cells::reset::unmark(out, darts, seen);
}

// Whether the volume of the dart at this place may go to another block, by the limits of this one: 11 to 14, whichever block that is. On a
// yes it is marked, by place, in `marks`; its faces stand in `out` in message order, the index of each one's start in `starts`; `numbers` has
// the number of each dart's vertex, by place, and `firsts` a dart of each vertex. On a no `marks` and `seen` are clear again, at a cost that
// goes by the volume's size, so that many volumes may be asked in turn.
pub fn volume_leaves(
    block: &[u64],
    limits: Limits,
    place: Place,
    marks: &mut [u8],
    out: &mut [usize],
    starts: &mut [usize],
    seen: &mut [u8],
    numbers: &mut [usize],
    firsts: &mut [usize],
    colours: &mut [usize],
) -> Result<Counts, Refusal>
    requires block_value { (holds_block block.now ≡ true) × (limits.volume ≤ message_darts) × (place.0 < count_in block.now) }
    requires block_in_bounds { (count_in block.now ≤ length marks.old) × Clear marks.old × (count_in block.now ≤ length seen.old) × Clear seen.old }
    requires block_in_bounds_2 { (count_in block.now ≤ length out.old) × (count_in block.now ≤ length starts.old) × (count_in block.now ≤ length numbers.old) }
    requires block_in_bounds_3 { (count_in block.now ≤ length firsts.old) × (limits.volume ≤ length colours.old) }
    ensures answer { VolumeLeaves (limits_of limits).volume_darts block.now place.0 result marks.new out.new starts.new numbers.new firsts.new }
    ensures clear { Forgotten result marks.new seen.new }
{
    let Some(size) = questions::volume_within(block, place, limits.volume, out, marks) else {
        return Err(Refusal::VolumeTooLarge);
    };
    let n = block[Header::COUNT] as usize;
    let order = cells::order::message_order(block, n, size, marks, out, starts, seen);
    let darts = order.darts;
    let faces = order.faces;
    if !questions::none_sewn_within(block, marks, out, darts) {
        unmark_both(out, darts, marks, seen);
        return Err(Refusal::SewnWithin);
    }
    let Some(vertices) = questions::pairs_once(block, out, darts, numbers, firsts, colours) else {
        unmark_both(out, darts, marks, seen);
        return Err(Refusal::VertexPairs);
    };
    let Some(sewn) = questions::counter_fits(block, marks, out, starts, darts, faces) else {
        unmark_both(out, darts, marks, seen);
        return Err(Refusal::CounterFull);
    };
    Ok(Counts {
        darts,
        faces,
        vertices,
        sewn,
    })
}

// What the volume of the dart with this serial has, if it may go to another block: 9 to 14, or the first whose answer is no. What the
// arrays hold then is what `volume_leaves` says.
pub fn leaves(
    block: &[u64],
    limits: Limits,
    to: u64,
    serial: u64,
    marks: &mut [u8],
    out: &mut [usize],
    starts: &mut [usize],
    seen: &mut [u8],
    numbers: &mut [usize],
    firsts: &mut [usize],
    colours: &mut [usize],
) -> Result<Counts, Refusal>
    requires block_value { (holds_block block.now ≡ true) × (limits.volume ≤ message_darts) }
    requires block_in_bounds { (count_in block.now ≤ length marks.old) × Clear marks.old × (count_in block.now ≤ length seen.old) × Clear seen.old }
    requires block_in_bounds_2 { (count_in block.now ≤ length out.old) × (count_in block.now ≤ length starts.old) × (count_in block.now ≤ length numbers.old) }
    requires block_in_bounds_3 { (count_in block.now ≤ length firsts.old) × (limits.volume ≤ length colours.old) }
    ensures answer { Leaves (limits_of limits).volume_darts block.now to serial result marks.new out.new starts.new numbers.new firsts.new }
    ensures clear { Forgotten result marks.new seen.new }
{
    if !questions::destination_right(block, to) {
        return Err(Refusal::Destination);
    }
    let Some(place) = questions::place_held(block, serial) else {
        return Err(Refusal::SerialNotHeld);
    };
    volume_leaves(
        block, limits, place, marks, out, starts, seen, numbers, firsts, colours,
    )
}
