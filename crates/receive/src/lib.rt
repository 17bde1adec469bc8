// Receive, the paper's take: a transfer's volume joins the block. Nothing is written before the last question is answered.
#![tactic(auto)]

mod asks; // asks.rt: questions 17, 29 and 18 to 21

ghost use Rattle.std.specs.Prelude.{◌≡◌, true, ◌≤◌, length, replicate};
ghost use Rattle.model.specs.Values.{room, rack};
ghost use Rattle.model.specs.Image.{words_for, words_of, holds_block};
ghost use Rattle.model.specs.Messages.{Transfer, a_transfer, message_in};
ghost use Rattle.model.specs.Calls as calls;
ghost use Rattle.answers.specs.Answers.{answer_of, Gives};
ghost use Rattle.memory.specs.Header.{limits_of};
ghost use Rattle.keyset.specs.Slots.{slot_count};
ghost use Rattle.cells.specs.Places.{Clear};
ghost use Rattle.inbox.specs.Inbox.{Sides};
ghost use Rattle.inbox.specs.Arrived.{TransferOutlined};
ghost use Rattle.receive.specs.Lent.{LentArrays};
ghost use Rattle.receive.specs.Taken.{Takes};

use answers::{Answer, Refusal};
use inbox::message::{Front, Tail};
use inbox::received::Received;
use memory::header::{Header, Limits};

// Words of a draft: those of a header, 8 for each dart that a volume may have.
const DRAFT: usize = 4104;

// A transfer whose darts are in the arrays. The others are lent to work in.
fn take(
    block: &mut [u64],
    limits: Limits,
    message: &[u8],
    front: Front,
    tail: Tail,
    vertex: &mut [u64],
    serial: &mut [u64],
    starts: &[usize],
    sizes: &[usize],
    keys: &mut [u64],
    ranks: &mut [usize],
    opposite: &mut [usize],
    draft: &mut [u64],
    kinds: &mut [u64],
    links: &mut [u64],
    old: &mut [usize],
    new: &mut [usize],
    codes: &mut [u64],
    indices: &mut [u64],
    numbers: &mut [u64],
    third: &mut [u64],
    places: &mut [usize],
    marks: &mut [u8],
    seen: &mut [u8],
) -> Answer
    requires block_le_room { (limits.block ≤ room) × (length block.old ≡ words_of (limits_of limits)) × (holds_block block.old ≡ true) × Sides vertex.old serial.old starts.now sizes.now × ((t : Transfer) × (message_in message.now ≡ a_transfer t) × TransferOutlined t message.now vertex.old serial.old starts.now sizes.now front tail) }
    requires lent_arrays { LentArrays limits.volume limits.block keys.old ranks.old opposite.old draft.old kinds.old links.old old.old new.old codes.old indices.old numbers.old third.old places.old marks.old seen.old }
    ensures { Takes (limits_of limits) block.old message.now vertex.old serial.old starts.now sizes.now front tail (answer_of result) block.new }
{
    // The questions work in `old` and `new`; then they are for the places of all darts.
    match asks::questions(
        block, limits, message, front, tail, vertex, serial, starts, sizes, keys, ranks, opposite,
        draft, kinds, links, old, new, codes, indices, numbers, third, places, marks, seen,
    ) {
        Err(r) => Err(r),
        Ok(()) => {
            join::join(block, draft, kinds, links, ranks, old, new);
            Ok(())
        }
    }
}

// Takes the volume that a transfer brings, by limits. 1: is the memory of a block's size? 2: is it a sound block's image? 16: is the
// slice a message? 17: a transfer, addressed here, from elsewhere? 29: has its volume no more darts than the limits allow? 18 to 21: is
// what it brings new, a volume, right in its parts, and is there room? A refused call leaves the memory. The arrays are lent: four of a
// message's darts, those of a volume's darts and of a block's places (`LentArrays`), and for 2 `met` and the slots, cleared; 2 has its labels
// in `codes` and works in the draft.
pub fn receive_by(
    block: &mut [u64],
    limits: Limits,
    message: &[u8],
    vertex: &mut [u64],
    serial: &mut [u64],
    starts: &mut [usize],
    sizes: &mut [usize],
    keys: &mut [u64],
    ranks: &mut [usize],
    opposite: &mut [usize],
    draft: &mut [u64],
    kinds: &mut [u64],
    links: &mut [u64],
    old: &mut [usize],
    new: &mut [usize],
    codes: &mut [u64],
    indices: &mut [u64],
    numbers: &mut [u64],
    third: &mut [u64],
    places: &mut [usize],
    marks: &mut [u8],
    seen: &mut [u8],
    met: &mut [u8],
    slots: &mut [u16; keyset::SLOTS],
) -> Answer
    requires block_le_room { (limits.block ≤ room) × Sides vertex.old serial.old starts.old sizes.old }
    requires lent_arrays { LentArrays limits.volume limits.block keys.old ranks.old opposite.old draft.old kinds.old links.old old.old new.old codes.old indices.old numbers.old third.old places.old marks.old seen.old }
    requires block_in_bounds { (limits.block ≤ length met.old) × Clear met.old × (slots.old ≡ replicate slot_count 0) }
    ensures { Gives (calls.receive (limits_of limits) block.old message.now) (answer_of result) block.new }
{
    if block.len() != limits.words() {
        return Err(Refusal::MemorySize);
    }
    if !sound::is_sound_by(block, limits, met, codes, slots, draft) {
        return Err(Refusal::NotAnImage);
    }
    match inbox::received::message_in(message, vertex, serial, starts, sizes) {
        Received::Transfer(f, t) => take(
            block, limits, message, f, t, vertex, serial, starts, sizes, keys, ranks, opposite,
            draft, kinds, links, old, new, codes, indices, numbers, third, places, marks, seen,
        ),
        Received::Update(u) => Err(Refusal::NotForHere),
        Received::Nothing => Err(Refusal::MessageLayout),
    }
}

// Takes the volume that a transfer brings, by limits, with arrays of so many places, of a volume of so many darts and of its draft.
pub fn receive_in<const PLACES: usize, const VOLUME: usize, const WORDS: usize>(
    block: &mut [u64],
    limits: Limits,
    message: &[u8],
) -> Answer
    requires { (limits.block ≤ PLACES) × (PLACES ≤ room) × (limits.volume ≤ VOLUME) × (VOLUME ≤ PLACES) × (PLACES ≤ WORDS) × (WORDS ≡ words_for VOLUME) }
    ensures { Gives (calls.receive (limits_of limits) block.old message.now) (answer_of result) block.new }
{
    let mut vertex = [0u64; Header::MESSAGE];
    let mut serial = [0u64; Header::MESSAGE];
    let mut starts = [0usize; Header::MESSAGE];
    let mut sizes = [0usize; Header::MESSAGE];
    let mut keys = [0u64; VOLUME];
    let mut ranks = [0usize; VOLUME];
    let mut opposite = [0usize; VOLUME];
    let mut draft = [0u64; WORDS];
    let mut kinds = [0u64; VOLUME];
    let mut links = [0u64; VOLUME];
    let mut old = [0usize; PLACES];
    let mut new = [0usize; VOLUME];
    let mut codes = [0u64; PLACES];
    let mut indices = [0u64; VOLUME];
    let mut numbers = [0u64; VOLUME];
    let mut third = [0u64; VOLUME];
    let mut places = [Header::DARTS; VOLUME];
    let mut marks = [0u8; VOLUME];
    let mut seen = [0u8; PLACES];
    let mut met = [0u8; PLACES];
    let mut slots = [0u16; keyset::SLOTS];
    receive_by(
        block,
        limits,
        message,
        &mut vertex,
        &mut serial,
        &mut starts,
        &mut sizes,
        &mut keys,
        &mut ranks,
        &mut opposite,
        &mut draft,
        &mut kinds,
        &mut links,
        &mut old,
        &mut new,
        &mut codes,
        &mut indices,
        &mut numbers,
        &mut third,
        &mut places,
        &mut marks,
        &mut seen,
        &mut met,
        &mut slots,
    )
}

// Takes the volume that a transfer brings into a block of the rack.
pub fn receive(block: &mut [u64], message: &[u8]) -> Answer
    ensures { Gives (calls.receive rack block.old message.now) (answer_of result) block.new }
{
    receive_in::<{ Header::DARTS }, { Header::VOLUME }, DRAFT>(block, Limits::rack(), message)
}
