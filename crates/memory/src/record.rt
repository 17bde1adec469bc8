// The records of a block's memory: 8 words for each dart, by place.
ghost use Rattle.std.specs.Prelude.{◌≡◌, ◌+◌, ◌*◌, ◌≤◌, ◌<◌, length, set};
ghost use Rattle.model.specs.Image.{words_for, column};
ghost use Rattle.memory.specs.Record.{record_in, record_words, put};

// The place of a dart in a block.
#[derive(Clone, Copy)]
pub struct Place(pub usize);

// The index of a dart in a message. Neither stands for the other.
#[derive(Clone, Copy)]
pub struct MessageIndex(pub usize);

// The words of a dart: serial, the places of next and opposite, kind + 4 × other block, place of the sewn dart or label's code, point.
#[derive(Clone, Copy)]
pub struct Record {
    pub serial: u64,
    pub next: u64,
    pub opposite: u64,
    pub kind: u64,
    pub link: u64,
    pub x: u64,
    pub y: u64,
    pub z: u64,
}

impl Record {
    // Words of a record, and the number of each.
    pub const SIZE: usize = 8;

    pub const SERIAL: usize = 0;

    pub const NEXT: usize = 1;

    pub const OPPOSITE: usize = 2;

    pub const KIND: usize = 3;

    pub const LINK: usize = 4;

    pub const X: usize = 5;

    pub const Y: usize = 6;

    pub const Z: usize = 7;
}

// Word f of the dart at place p.
pub fn field(block: &[u64], p: Place, f: usize) -> u64
    requires { (words_for (p.0 + 1) ≤ length block.now) × (f < 8) }
    ensures { result ≡ column block.now f p.0 }
{
    let i = p.0;
    block[8 + i * 8 + f]
}

// Sets word f of the dart at place p.
pub fn put_field(block: &mut [u64], p: Place, f: usize, v: u64)
    requires { (words_for (p.0 + 1) ≤ length block.old) × (f < 8) }
    ensures { block.new ≡ set block.old (8 + p.0 * 8 + f) v }
{
    let i = p.0;
    block[8 + i * 8 + f] = v;
}

// The record at place p.
pub fn record_at(block: &[u64], p: Place) -> Record
    requires { words_for (p.0 + 1) ≤ length block.now }
    ensures { result ≡ record_in block.now p.0 }
{
    let i = p.0;
    let at = 8 + i * 8;
    Record {
        serial: block[at + 0],
        next: block[at + 1],
        opposite: block[at + 2],
        kind: block[at + 3],
        link: block[at + 4],
        x: block[at + 5],
        y: block[at + 6],
        z: block[at + 7],
    }
}

// Stores a record at place p.
pub fn put_record(block: &mut [u64], p: Place, r: Record)
    requires { words_for (p.0 + 1) ≤ length block.old }
    ensures { block.new ≡ put block.old p.0 (record_words r) }
{
    let i = p.0;
    let at = 8 + i * 8;
    block[at + 0] = r.serial;
    block[at + 1] = r.next;
    block[at + 2] = r.opposite;
    block[at + 3] = r.kind;
    block[at + 4] = r.link;
    block[at + 5] = r.x;
    block[at + 6] = r.y;
    block[at + 7] = r.z;
}
