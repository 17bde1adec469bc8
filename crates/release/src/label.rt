// The labels of the faces that a volume leaves behind.
ghost use Rattle.std.specs.Prelude.{◌≡◌, ◌+◌, ◌≤◌, ◌<◌, ◌^◌, length, get_or};
ghost use Rattle.model.specs.Values.{critical, room, blocks, last_block};
ghost use Rattle.model.specs.Cells.{cycle};
ghost use Rattle.model.specs.Image.{words_for, column};
ghost use Rattle.model.specs.Links.{label_links};
ghost use Rattle.cells.specs.Places.{InOrder};
ghost use Rattle.departure.specs.Asked.{faces_at};
ghost use Rattle.release.specs.LetGo.{with_link, with_links, let_go, left_behind};
ghost use Rattle.release.specs.Asks.{Sewing, Same};

use memory::header::Header;
use memory::record::{Place, Record};
use memory::{kind, record};

// The dart at place q becomes critical with block `to`, with a label that block `maker` makes.
fn put_label(block: &mut [u64], q: Place, to: u64, maker: u64, number: u64, position: usize)
    requires { (words_for (q.0 + 1) ≤ length block.old) × (to ≤ last_block) × (maker < blocks) × (number < 2 ^ 32) × (position < room) }
    ensures { block.new ≡ with_link block.old (record { dart = q.0; third = critical to (record { maker = maker; number = number; position = position }) }) }
{
    let code = memory::label::code_of(maker, number, position as u64);
    let word = kind::critical_with(to);
    record::put_field(block, q, Record::KIND, word);
    record::put_field(block, q, Record::LINK, code);
}

// Labels the darts that the face of the dart at place `start` is sewn to, along that face.
fn label_face(block: &mut [u64], n: usize, marks: &[u8], start: Place, to: u64, number: u64)
    requires { Sewing block.old marks.now n × (start.0 < n) × (get_or marks.now start.0 0 ≡ 1) × (column block.old 3 start.0 ≡ 1) × (to ≤ last_block) × (number < 2 ^ 32) }
    ensures same { Same block.old marks.now block.new }
    ensures labelled { block.new ≡ with_links block.old (label_links (column block.old 4) to (get_or block.old 0 0) number 0 (cycle (column block.old 1) start.0)) }
{
    let maker = block[Header::NUMBER];
    // The darts sewn to those from `start` up to the one before p, i of them, have labels.
    let first = start.0;
    let mut i = 0;
    let mut p = first;
    loop {
        let q = record::field(block, Place(p), Record::LINK) as usize;
        put_label(block, Place(q), to, maker, number, i);
        i += 1;
        p = record::field(block, Place(p), Record::NEXT) as usize;
        if p == first {
            return;
        }
    }
}

// Labels the faces that the marked volume leaves behind when it goes to block `to`.
pub fn label_faces(
    block: &mut [u64],
    marks: &[u8],
    order: &[usize],
    starts: &[usize],
    darts: usize,
    count: usize,
    to: u64,
)
    requires { Sewing block.old marks.now (get_or block.old 2 0) × InOrder (faces_at block.old marks.now) order.now starts.now darts count × (to ≤ last_block) × (get_or block.old 1 0 + length (let_go block.old marks.now) < 2 ^ 32) }
    ensures { block.new ≡ with_links block.old (left_behind block.old marks.now to) }
{
    let n = block[Header::COUNT] as usize;
    // The faces before f have labels; the next has `number`.
    let mut number = block[Header::COUNTER];
    for f in 0..count {
        let i = starts[f];
        let p = order[i];
        if !kind::is_sewn(record::field(block, Place(p), Record::KIND)) {
            continue;
        }
        label_face(block, n, marks, Place(p), to, number);
        number += 1;
    }
}
