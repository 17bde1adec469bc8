// Questions 17, 29 and 18 to 21 of a transfer. On a yes to all its darts are drafted, and their third links known.
ghost use Rattle.std.specs.Prelude.{◌≡◌, true, ◌≤◌, length};
ghost use Rattle.model.specs.Image.{count_in, holds_block, block_in};
ghost use Rattle.model.specs.Messages.{Transfer, a_transfer, message_in};
ghost use Rattle.model.specs.Arrival.{addressed};
ghost use Rattle.memory.specs.Header.{limits_of};
ghost use Rattle.inbox.specs.Inbox.{Sides};
ghost use Rattle.inbox.specs.Arrived.{TransferOutlined};
ghost use Rattle.receive.specs.Lent.{LentArrays};
ghost use Rattle.receive.specs.Taken.{last_two, AskedAll};

use answers::{Answer, Refusal};
use inbox::message::{Front, Tail};
use memory::header::{Header, Limits};

// 17: addressed here, from elsewhere.
fn for_here(block: &[u64], from: u64, to: u64) -> bool
    requires { 8 ≤ length block.now }
    ensures { result ≡ addressed from to (block_in block.now) }
{
    (to == block[Header::NUMBER]) & (from != block[Header::NUMBER])
}

// 20 and 21, from their answers.
fn last_two(right: bool, fits: bool) -> Answer
    ensures { result ≡ last_two right fits }
{
    if !right {
        return Err(Refusal::PartsWrong);
    }
    if !fits {
        return Err(Refusal::BlockFull);
    }
    Ok(())
}

// All of them, in their order: the first no, or served. 29: a volume with more darts than a block's limits allow. 18 and 19 work in `old`,
// `new` and the arrays behind them, and so does 20, which has no more use for vertices and serials and works in their arrays too.
pub fn questions(
    block: &[u64],
    limits: Limits,
    message: &[u8],
    front: Front,
    tail: Tail,
    vertex: &mut [u64],
    serial: &mut [u64],
    starts: &[usize],
    sizes: &[usize],
    keys: &mut [u64],
    ranks: &mut [usize],
    opposite: &mut [usize],
    draft: &mut [u64],
    kinds: &mut [u64],
    links: &mut [u64],
    old: &mut [usize],
    new: &mut [usize],
    codes: &mut [u64],
    indices: &mut [u64],
    numbers: &mut [u64],
    third: &mut [u64],
    places: &mut [usize],
    marks: &mut [u8],
    seen: &mut [u8],
) -> Answer
    requires block_value { (holds_block block.now ≡ true) × (count_in block.now ≤ limits.block) × Sides vertex.old serial.old starts.now sizes.now × ((t : Transfer) × (message_in message.now ≡ a_transfer t) × TransferOutlined t message.now vertex.old serial.old starts.now sizes.now front tail) }
    requires lent_arrays { LentArrays limits.volume limits.block keys.old ranks.old opposite.old draft.old kinds.old links.old old.old new.old codes.old indices.old numbers.old third.old places.old marks.old seen.old }
    ensures { AskedAll (limits_of limits) block.now message.now vertex.old serial.old starts.now sizes.now front tail keys.new ranks.new opposite.new draft.new kinds.new links.new result }
{
    if !for_here(block, front.from, front.to) {
        return Err(Refusal::NotForHere);
    }
    if limits.volume < front.darts {
        return Err(Refusal::VolumeForViewer);
    }
    let n = block[Header::COUNT] as usize;
    let k = front.darts;
    if !arrival::serials::new_serials(
        message,
        front.points,
        front.vertices,
        block,
        n,
        serial,
        k,
        keys,
        ranks,
        codes,
    ) {
        return Err(Refusal::SerialsNotNew);
    }
    if !arrival::volume::volume_right(
        message,
        front.points,
        front.vertices,
        front.hollow,
        vertex,
        serial,
        starts,
        sizes,
        k,
        keys,
        ranks,
        opposite,
        draft,
        old,
        new,
        codes,
        indices,
        numbers,
        marks,
    ) {
        return Err(Refusal::VolumeWrong);
    }
    let right = fitting::parts_right(
        block, message, front, tail, starts, sizes, ranks, draft, kinds, links, codes, indices,
        numbers, third, vertex, serial, old, places, new, marks, seen,
    );
    last_two(right, n + k <= limits.block)
}
