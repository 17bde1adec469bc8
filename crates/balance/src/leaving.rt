// Which picked volumes of a block may go to another: questions 11 to 14 of each, put once.
ghost use Rattle.std.specs.Prelude.{◌≡◌, true, false, ◌≤◌, ◌<◌, length};
ghost use Rattle.model.specs.Image.{count_in, holds_block};
ghost use Rattle.balance.specs.Moves.{Asking, leaves_at, UntriedIn, going, candidate_of, at};

use memory::header::{Header, Limits};
use memory::record;
use memory::record::{Place, Record};

// Whether the volume of the dart at this place may go to another block: 11 to 14. 9 is a yes between two blocks of a mesh, and 10 at a place.
// On a no `marks` and `seen` are clear again; what stands in the other arrays is written before it is read. So no asking clears more than its
// volume has.
fn may_leave(
    block: &[u64],
    place: Place,
    marks: &mut [u8],
    order: &mut [usize],
    starts: &mut [usize],
    seen: &mut [u8],
    numbers: &mut [usize],
    firsts: &mut [usize],
    colours: &mut [usize],
) -> bool
    requires block_value { (holds_block block.now ≡ true) × (place.0 < count_in block.now) }
    requires asking { Asking (count_in block.now) marks.old order.old starts.old seen.old numbers.old firsts.old colours.old }
    ensures answer { result ≡ leaves_at block.now place.0 }
    ensures again { result ≡ false → Asking (count_in block.now) marks.new order.new starts.new seen.new numbers.new firsts.new colours.new }
{
    match departure::volume_leaves(
        block,
        Limits::rack(),
        place,
        marks,
        order,
        starts,
        seen,
        numbers,
        firsts,
        colours,
    ) {
        Ok(_) => true,
        Err(_) => false,
    }
}

// The first volume that may go, with the arrays of an asking lent.
fn first_asked(
    block: &[u64],
    left: usize,
    sizes: &mut [usize],
    marks: &mut [u8],
    order: &mut [usize],
    starts: &mut [usize],
    seen: &mut [u8],
    numbers: &mut [usize],
    firsts: &mut [usize],
    colours: &mut [usize],
) -> Option<u64>
    requires block_value { (holds_block block.now ≡ true) × (count_in block.now ≤ length sizes.old) }
    requires asking { Asking (count_in block.now) marks.old order.old starts.old seen.old numbers.old firsts.old colours.old }
    ensures candidate { result ≡ candidate_of (going (at sizes.old) block.now left) }
    ensures untried { UntriedIn (at sizes.old) block.now sizes.new }
{
    let n = block[Header::COUNT] as usize;
    // None of the volumes that start before p may go.
    for p in 0..n {
        let s = sizes[p];
        if s == 0 {
            continue;
        }
        if left < s {
            continue;
        }
        let serial = record::field(block, Place(p), Record::SERIAL);
        if may_leave(
            block,
            Place(p),
            marks,
            order,
            starts,
            seen,
            numbers,
            firsts,
            colours,
        ) {
            return Some(serial);
        }
        sizes[p] = 0;
    }
    None
}

// The first volume of at most `left` darts that may go, by its least serial. `sizes` has the size of each volume at its least place. One
// that may not go is struck off.
pub fn first_leaving(block: &[u64], left: usize, sizes: &mut [usize]) -> Option<u64>
    requires { (holds_block block.now ≡ true) × (count_in block.now ≤ length sizes.old) }
    ensures candidate { result ≡ candidate_of (going (at sizes.old) block.now left) }
    ensures untried { UntriedIn (at sizes.old) block.now sizes.new }
{
    let mut marks = [0u8; Header::DARTS];
    let mut order = [0usize; Header::DARTS];
    let mut starts = [0usize; Header::DARTS];
    let mut seen = [0u8; Header::DARTS];
    let mut numbers = [0usize; Header::DARTS];
    let mut firsts = [0usize; Header::DARTS];
    let mut colours = [0usize; Header::VOLUME];
    first_asked(
        block,
        left,
        sizes,
        &mut marks,
        &mut order,
        &mut starts,
        &mut seen,
        &mut numbers,
        &mut firsts,
        &mut colours,
    )
}
