// The draft: the new darts in ascending serial, linked by place, all free.
ghost use Rattle.std.specs.Prelude.{◌≡◌, ◌+◌, ◌≤◌, ◌<◌, length, set};
ghost use Rattle.model.specs.Image.{words_for};
ghost use Rattle.memory.specs.Point.{point_of};
ghost use Rattle.inbox.specs.Inbox.{word_in};
ghost use Rattle.ranking.specs.Ranks.{index_at};
ghost use Rattle.arrival.specs.Draft.{draft_record, FiniteIn, Draftable, RecordsDrafted};

use crate::pairs;
use groups::Read;
use memory::header::Header;
use memory::point::Point;
use memory::record::{MessageIndex, Place, Record};
use memory::{point, record};
use place::DraftPlace;

// A word of a point where it stands in the message.
pub fn word_at(message: &[u8], at: usize) -> u64
    requires { at + 8 ≤ length message.now }
    ensures { result ≡ word_in message.now at }
{
    let Some((w, next)) = reader::read_coordinate(message, at) else {
        return 0;
    };
    w
}

// The point where it stands in the message.
fn point_in(message: &[u8], at: usize) -> Point
    requires { (at + 24 ≤ length message.now) × FiniteIn message.now at }
    ensures { result ≡ point_of (word_in message.now at) (word_in message.now (at + 8)) (word_in message.now (at + 16)) }
{
    let x = word_at(message, at);
    let y = word_at(message, at + 8);
    let z = word_at(message, at + 16);
    point::point_of(x, y, z)
}

// The index in the message of the dart at a place of the draft.
fn index_of(keys: &[u64], p: DraftPlace) -> MessageIndex
    requires { p.0 < length keys.now }
    ensures { result.0 ≡ index_at keys.now p.0 }
{
    let at = p.0;
    MessageIndex((keys[at] % ranking::INDICES) as usize)
}

// The record at a place of the draft.
fn record_of(
    message: &[u8],
    from: usize,
    vertex: &[u64],
    starts: &[usize],
    sizes: &[usize],
    k: usize,
    keys: &[u64],
    ranks: &[usize],
    opposite: &[usize],
    p: DraftPlace,
) -> Record
    requires k_in_bounds { (k ≤ length vertex.now) × (k ≤ length starts.now) × (k ≤ length sizes.now) × (k ≤ length keys.now) × (k ≤ length ranks.now) × (k ≤ length opposite.now) × (p.0 < k) }
    requires draftable { Draftable vertex.now starts.now sizes.now keys.now opposite.now message.now from k }
    ensures { result ≡ draft_record vertex.now starts.now sizes.now keys.now ranks.now opposite.now message.now from p.0 }
{
    let at = p.0;
    let serial = keys[at] / ranking::INDICES;
    let i = index_of(keys, p);
    let next = pairs::next_index(starts, sizes, i);
    let other = place::index_at(opposite, i);
    let after = place::rank_at(ranks, next);
    let beside = place::rank_at(ranks, other);
    let n = i.0;
    let point = point_in(message, from + 24 * (vertex[n] as usize));
    Record {
        serial,
        next: after.0 as u64,
        opposite: beside.0 as u64,
        kind: 0,
        link: 0,
        x: point::pattern(point.x),
        y: point::pattern(point.y),
        z: point::pattern(point.z),
    }
}

fn set_count(draft: &mut [u64], k: usize)
    requires { 8 ≤ length draft.old }
    ensures { draft.new ≡ set draft.old 2 k }
{
    draft[Header::COUNT] = k as u64;
}

// Drafts k darts.
pub fn put_draft(
    message: &[u8],
    from: usize,
    vertex: &[u64],
    starts: &[usize],
    sizes: &[usize],
    k: usize,
    keys: &[u64],
    ranks: &[usize],
    opposite: &[usize],
    draft: &mut [u64],
)
    requires k_in_bounds { (k ≤ length vertex.now) × (k ≤ length starts.now) × (k ≤ length sizes.now) × (k ≤ length keys.now) × (k ≤ length ranks.now) × (k ≤ length opposite.now) × (words_for k ≤ length draft.old) }
    requires draftable { Draftable vertex.now starts.now sizes.now keys.now opposite.now message.now from k }
    ensures { RecordsDrafted (draft_record vertex.now starts.now sizes.now keys.now ranks.now opposite.now message.now from) k draft.new }
{
    // The records below p are put.
    for p in 0..k {
        let r = record_of(
            message,
            from,
            vertex,
            starts,
            sizes,
            k,
            keys,
            ranks,
            opposite,
            DraftPlace(p),
        );
        record::put_record(draft, Place(p), r);
    }
    set_count(draft, k);
}
