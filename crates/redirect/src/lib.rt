// Redirect, the paper's tell: an update names critical faces by their least labels, and they get a new other block.
#![tactic(auto)]

mod least; // least.rt: along a face
mod codes; // codes.rt: the labels of an update, as codes in order
mod named; // named.rt: the faces that they name

ghost use Rattle.std.specs.Prelude.{◌≡◌, true, not, ◌&&◌, ◌+◌, ◌≤◌, ◌<◌, eqb, length, get_or, replicate};
ghost use Rattle.model.specs.Values.{rack, room, message_darts, last_block};
ghost use Rattle.model.specs.Image.{count_in, block_in, holds_block};
ghost use Rattle.model.specs.Arrival.{addressed};
ghost use Rattle.model.specs.Calls as calls;
ghost use Rattle.answers.specs.Answers.{answer_of, Gives};
ghost use Rattle.memory.specs.Header.{limits_of};
ghost use Rattle.keyset.specs.Slots.{slot_count};
ghost use Rattle.cells.specs.Places.{Clear};
ghost use Rattle.redirect.specs.ByPlaces.{Ready, Unset, EachNamed, AllNamed};
ghost use Rattle.redirect.specs.Told.{KindRead, Follows, Redirects};

use answers::{Answer, Refusal};
use inbox::message::Update;
use inbox::received::Received;
use memory::header::{Header, Limits};
use memory::kind;

// 16: the message that a slice is.
fn received(
    s: &[u8],
    vertex: &mut [u64],
    serial: &mut [u64],
    starts: &mut [usize],
    sizes: &mut [usize],
) -> Received
    requires { (length vertex.old ≡ message_darts) × (length serial.old ≡ message_darts) × (length starts.old ≡ message_darts) × (length sizes.old ≡ message_darts) }
    ensures { KindRead s.now result }
{
    inbox::received::message_in(s, vertex, serial, starts, sizes)
}

// 17: addressed here, from elsewhere.
fn for_here(block: &[u64], from: u64, to: u64) -> bool
    requires { 8 ≤ length block.now }
    ensures { result ≡ addressed from to (block_in block.now) }
{
    (to == block[Header::NUMBER]) & (from != block[Header::NUMBER])
}

// 22: the new block is neither end.
fn neither(new: u64, from: u64, to: u64) -> bool
    ensures { result ≡ (not (eqb new from) && not (eqb new to)) }
{
    (new != from) & (new != to)
}

// 22: whether each of the first c codes, which ascend, is the least label of a face critical with block `from`. The index of each dart's
// code goes into `table`.
fn each_named(
    block: &[u64],
    n: usize,
    from: u64,
    codes: &[u64],
    c: usize,
    table: &mut [u16],
    hits: &mut [u8],
) -> bool
    requires block_value { (holds_block block.now ≡ true) × (n ≡ get_or block.now 2 0) × (from ≤ last_block) × Ready codes.now c }
    requires n_in_bounds { (n ≤ length table.old) × Unset n table.old × (c < length hits.old) × Clear hits.old }
    ensures { EachNamed block.now from codes.now c table.new result }
{
    named::index_faces(block, n, from, codes, c, table, hits);
    named::all_hit(hits, c)
}

// 22: whether the labels differ, and each is the least of a face critical with block `from`. The darts of these faces have a number below
// `count` in `table`.
fn all_named(
    block: &[u64],
    n: usize,
    from: u64,
    s: &[u8],
    at: usize,
    count: usize,
    table: &mut [u16],
    codes: &mut [u64],
    scratch: &mut [u64],
    hits: &mut [u8],
) -> bool
    requires block_value { (holds_block block.now ≡ true) × (n ≡ get_or block.now 2 0) × (from ≤ last_block) × (at ≤ length s.now) × (count ≤ room) }
    requires n_in_bounds { (n ≤ length table.old) × Unset n table.old × (count < length hits.old) × Clear hits.old }
    requires count_in_bounds { (count ≤ length codes.old) × (count ≤ length scratch.old) }
    ensures { AllNamed block.now s.now from at count table.new result }
{
    codes::read_codes(s, at, count, codes);
    if !codes::order(codes, scratch, count) {
        return false;
    }
    each_named(block, n, from, codes, count, table, hits)
}

// 17 and 22 of an update, then its faces get the new block.
fn redirect_update(
    block: &mut [u64],
    s: &[u8],
    u: Update,
    table: &mut [u16],
    codes: &mut [u64],
    scratch: &mut [u64],
    hits: &mut [u8],
) -> Answer
    requires block_value { (holds_block block.old ≡ true) × Follows s.now u }
    requires block_in_bounds { (count_in block.old ≤ length table.old) × Unset (count_in block.old) table.old × (count_in block.old < length hits.old) × Clear hits.old }
    requires block_in_bounds_2 { (count_in block.old ≤ length codes.old) × (count_in block.old ≤ length scratch.old) }
    ensures { Redirects block.old s.now u (answer_of result) block.new }
{
    let from = u.from;
    if !for_here(block, from, u.to) {
        return Err(Refusal::NotForHere);
    }
    if !neither(u.block, from, u.to) {
        return Err(Refusal::UpdateWrong);
    }
    // Each label names a face of its own, so there are no more labels than darts.
    let darts = block[Header::COUNT];
    if darts < u.count {
        return Err(Refusal::UpdateWrong);
    }
    let n = darts as usize;
    let count = u.count as usize;
    if !all_named(
        block, n, from, s, u.labels, count, table, codes, scratch, hits,
    ) {
        return Err(Refusal::UpdateWrong);
    }
    let word = kind::critical_with(u.block);
    named::rewrite(block, n, word, table, count);
    Ok(())
}

// Redirects the faces that an update names, by limits. 1: is the memory of a block's size? 2: is it a sound block's image? 16: is the
// slice a message? 17: an update, addressed here, from elsewhere? 22: is the new block neither end, and does each label name a face of
// its own? A refused call leaves the memory. The arrays are lent: four of a message's darts, five of a block's places, and the slots of
// question 2, which has its labels in `codes`.
pub fn redirect_by(
    block: &mut [u64],
    limits: Limits,
    message: &[u8],
    vertex: &mut [u64],
    serial: &mut [u64],
    starts: &mut [usize],
    sizes: &mut [usize],
    table: &mut [u16],
    codes: &mut [u64],
    scratch: &mut [u64],
    hits: &mut [u8],
    seen: &mut [u8],
    slots: &mut [u16; keyset::SLOTS],
) -> Answer
    requires block_le_room { limits.block ≤ room }
    requires vertex_len { (length vertex.old ≡ message_darts) × (length serial.old ≡ message_darts) × (length starts.old ≡ message_darts) × (length sizes.old ≡ message_darts) }
    requires block_in_bounds { (limits.block ≤ length table.old) × Unset limits.block table.old × (limits.block < length hits.old) × Clear hits.old }
    requires block_in_bounds_2 { (limits.block ≤ length codes.old) × (limits.block ≤ length scratch.old) × (limits.block ≤ length seen.old) × Clear seen.old × (slots.old ≡ replicate slot_count 0) }
    ensures { Gives (calls.redirect (limits_of limits) block.old message.now) (answer_of result) block.new }
{
    if block.len() != limits.words() {
        return Err(Refusal::MemorySize);
    }
    if !sound::is_sound_by(block, limits, seen, codes, slots, scratch) {
        return Err(Refusal::NotAnImage);
    }
    match received(message, vertex, serial, starts, sizes) {
        Received::Transfer(f, t) => Err(Refusal::NotForHere),
        Received::Update(u) => redirect_update(block, message, u, table, codes, scratch, hits),
        Received::Nothing => Err(Refusal::MessageLayout),
    }
}

// Redirects by limits, with arrays of so many places and of so many faces named.
pub fn redirect_in<const PLACES: usize, const HITS: usize>(
    block: &mut [u64],
    limits: Limits,
    message: &[u8],
) -> Answer
    requires { (limits.block ≤ PLACES) × (PLACES ≤ room) × (limits.block < HITS) × (HITS ≤ room + 1) }
    ensures { Gives (calls.redirect (limits_of limits) block.old message.now) (answer_of result) block.new }
{
    let mut vertex = [0u64; Header::MESSAGE];
    let mut serial = [0u64; Header::MESSAGE];
    let mut starts = [0usize; Header::MESSAGE];
    let mut sizes = [0usize; Header::MESSAGE];
    let mut table = [4097u16; PLACES];
    let mut codes = [0u64; PLACES];
    let mut scratch = [0u64; PLACES];
    let mut hits = [0u8; HITS];
    let mut seen = [0u8; PLACES];
    let mut slots = [0u16; keyset::SLOTS];
    redirect_by(
        block,
        limits,
        message,
        &mut vertex,
        &mut serial,
        &mut starts,
        &mut sizes,
        &mut table,
        &mut codes,
        &mut scratch,
        &mut hits,
        &mut seen,
        &mut slots,
    )
}

// Redirects the faces that an update names, in a block of the rack.
pub fn redirect(block: &mut [u64], message: &[u8]) -> Answer
    ensures { Gives (calls.redirect rack block.old message.now) (answer_of result) block.new }
{
    redirect_in::<{ Header::DARTS }, 4097>(block, Limits::rack(), message)
}
