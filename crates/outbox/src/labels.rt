// The labels of updates: of each critical face the least one, which goes to the block that shares the face.
ghost use Rattle.std.specs.Prelude.{◌≡◌, ◌+◌, ◌≤◌, ◌<◌, ◌^◌, length, get_or, replicate, set};
ghost use Rattle.model.specs.Values.{blocks, last_block};
ghost use Rattle.model.specs.Image.{label_in};
ghost use Rattle.model.specs.Messages.{label};
ghost use Rattle.groups.specs.Slices.{Stored};
ghost use Rattle.outbox.specs.Runs.{run};
ghost use Rattle.outbox.specs.Bytes.{DartsListed, FacesStarted};
ghost use Rattle.outbox.specs.ByBlocks.{Shares, least_code, least_put};

use crate::first;
use memory::record::{MessageIndex, Place, Record};
use memory::{kind, record};

// The least label, as a code, of the `size` darts of a face from index `start` of the order on.
fn least_code(block: &[u64], order: &[usize], start: MessageIndex, size: usize) -> u64
    requires { DartsListed block.now order.now (start.0 + size) × (0 < size) }
    ensures { result ≡ least_code block.now order.now start.0 size }
{
    // The least of the darts before k.
    let first = start.0;
    let place = order[first];
    let mut least = record::field(block, Place(place), Record::LINK);
    for k in 1..size {
        let p = order[first + k];
        least = sort::lesser(least, record::field(block, Place(p), Record::LINK));
    }
    least
}

// The bytes of the label with a code: it is put into no output.
fn label_size(code: u64) -> usize
    ensures { result ≡ length (label.put (label_in code)) }
{
    let mut none = [0u8; 0];
    groups::put_label(&mut none, 0, code)
}

// One face more that block k shares, whose least label takes `size` bytes.
fn add_face(labels: &mut [usize], bytes: &mut [usize], k: usize, size: usize)
    requires labels_len { (length labels.old ≡ 16) × (length bytes.old ≡ 16) × (k < blocks) }
    requires k_bound { (get_or labels.old k 0 < 2 ^ 32) × (get_or bytes.old k 0 < 2 ^ 32) × (size < 2 ^ 32) }
    ensures { (labels.new ≡ set labels.old k (get_or labels.old k 0 + 1)) × (bytes.new ≡ set bytes.old k (get_or bytes.old k 0 + size)) }
{
    let n = labels[k];
    let b = bytes[k];
    labels[k] = n + 1;
    bytes[k] = b + size;
}

// How many faces each block shares, and how many bytes their least labels take: in one pass.
pub fn count_labels(
    block: &[u64],
    order: &[usize],
    starts: &[usize],
    darts: usize,
    count: usize,
    labels: &mut [usize],
    bytes: &mut [usize],
)
    requires darts_listed { DartsListed block.now order.now darts × FacesStarted starts.now darts count }
    requires labels_value { (labels.old ≡ replicate 16 0) × (bytes.old ≡ replicate 16 0) }
    ensures { Shares block.now order.now starts.now darts count count labels.new bytes.new }
{
    // The faces before f are counted.
    for f in 0..count {
        let start = starts[f];
        let end = first::face_end(starts, count, darts, f);
        let p = order[start];
        let word = record::field(block, Place(p), Record::KIND);
        if !kind::is_critical(word) {
            continue;
        }
        let code = least_code(block, order, MessageIndex(start), end - start);
        let size = label_size(code);
        add_face(labels, bytes, kind::other_of(word) as usize, size);
    }
}

// The least labels of the faces that block k shares.
pub fn put_leasts(
    block: &[u64],
    k: u64,
    order: &[usize],
    starts: &[usize],
    darts: usize,
    count: usize,
    out: &mut [u8],
    from: usize,
) -> usize
    requires darts_listed { DartsListed block.now order.now darts × FacesStarted starts.now darts count × (k ≤ last_block) }
    requires count_bound { from + length (run (least_put block.now k order.now starts.now darts count) count) < 2 ^ 63 }
    ensures { Stored out.old from (run (least_put block.now k order.now starts.now darts count) count) out.new result }
{
    // The labels of the faces before f are put, up to `at`.
    let mut at = from;
    for f in 0..count {
        let start = starts[f];
        let end = first::face_end(starts, count, darts, f);
        let p = order[start];
        if record::field(block, Place(p), Record::KIND) != kind::critical_with(k) {
            continue;
        }
        let code = least_code(block, order, MessageIndex(start), end - start);
        at = groups::put_label(out, at, code);
    }
    at
}
