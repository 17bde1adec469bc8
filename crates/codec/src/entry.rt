// One point, one dart of a face, one entry of a part, put at a place of a slice and read there or passed over.
ghost use Rattle.std.specs.Prelude.{◌≡◌, ◌++◌, ◌+◌, ◌≤◌, ◌<◌, ◌^◌, length};
ghost use Rattle.model.specs.Values.{serial_bound};
ghost use Rattle.model.specs.Layouts.{group, times};
ghost use Rattle.model.specs.Image.{label_in};
ghost use Rattle.model.specs.Messages.{point as point-layout, label, face_dart, part2, part3};
ghost use Rattle.groups.specs.Slices.{Stored, read_at};
ghost use Rattle.memory.specs.Point.{patterns, FinitePoint};
ghost use Rattle.codec.specs.Points.{point_read};
ghost use Rattle.codec.specs.Taken.{Passes};
ghost use Rattle.codec.specs.Entries.{FacedRead, first_layout};

use groups::Read;
use memory::point;
use memory::point::Point;
use memory::record::MessageIndex;

// A point goes by value.
pub fn put_point(out: &mut [u8], at: usize, p: Point) -> usize
    requires { FinitePoint p × (at + 24 < 2 ^ 63) }
    ensures { Stored out.old at (point-layout.put (patterns p)) out.new result }
{
    let x = point::pattern(p.x);
    let y = point::pattern(p.y);
    let z = point::pattern(p.z);
    let past_x = groups::put_coordinate(out, at, x);
    let past_y = groups::put_coordinate(out, past_x, y);
    groups::put_coordinate(out, past_y, z)
}

// A point, and the place past it. Its coordinates stay words: only finite ones make a point, and that is asked later.
pub fn read_point(s: &[u8], at: usize) -> Option<(u64, u64, u64, usize)>
    ensures { result ≡ point_read s.now at }
{
    let (x, past_x) = groups::read_coordinate(s, at)?;
    let (y, past_y) = groups::read_coordinate(s, past_x)?;
    let (z, next) = groups::read_coordinate(s, past_y)?;
    Some((x, y, z, next))
}

// A dart of a face: the number of its vertex, then its serial.
pub fn put_dart(out: &mut [u8], at: usize, vertex: usize, serial: u64) -> usize
    requires { (vertex < 2 ^ 32) × (serial < serial_bound) × (at + length (face_dart.put (record { vertex = vertex; serial = serial })) < 2 ^ 63) }
    ensures { Stored out.old at (face_dart.put (record { vertex = vertex; serial = serial })) out.new result }
{
    let past = groups::put_group(out, at, vertex as u32);
    groups::put_serial(out, past, serial)
}

// A dart of a face: its vertex, its serial, and the place past it.
pub fn read_dart(s: &[u8], at: usize) -> Option<(u64, u64, usize)>
    ensures { FacedRead s.now at result }
{
    let (vertex, past) = reader::read_group(s, at)?;
    let (serial, next) = reader::read_serial(s, past)?;
    Some((vertex, serial, next))
}

// A face critical with the destination: the label of its start, as a code, then the start's index.
pub fn put_part2(out: &mut [u8], at: usize, code: u64, index: MessageIndex) -> usize
    requires { (index.0 < 2 ^ 32) × (at + length (part2.put (record { label = label_in code; index = index.0 })) < 2 ^ 63) }
    ensures { Stored out.old at (part2.put (record { label = label_in code; index = index.0 })) out.new result }
{
    let i = index.0;
    let past = groups::put_label(out, at, code);
    groups::put_group(out, past, i as u32)
}

// An entry of part 2: a label, then an index.
pub fn pass_part2(s: &[u8], at: usize) -> Read
    ensures { Passes part2 s.now at result }
{
    let (code, past) = reader::read_label(s, at)?;
    reader::read_group(s, past)
}

// A sewn face: the number of its new labels, then its start's index.
pub fn put_part3(out: &mut [u8], at: usize, number: u64, index: MessageIndex) -> usize
    requires { (number < 2 ^ 32) × (index.0 < 2 ^ 32) × (at + length (part3.put (record { number = number; index = index.0 })) < 2 ^ 63) }
    ensures { Stored out.old at (part3.put (record { number = number; index = index.0 })) out.new result }
{
    let i = index.0;
    let past = groups::put_group(out, at, number as u32);
    groups::put_group(out, past, i as u32)
}

// An entry of part 3: a number, then an index.
pub fn pass_part3(s: &[u8], at: usize) -> Read
    ensures { Passes part3 s.now at result }
{
    let (number, past) = reader::read_group(s, at)?;
    reader::read_group(s, past)
}

// A part whose entries are two numbers: a label's code or a number, then an index.
#[derive(Clone, Copy)]
pub enum Paired {
    Second,
    Third,
}

// The first number of an entry.
pub fn read_first(s: &[u8], at: usize, part: Paired) -> Read
    ensures { result ≡ read_at (first_layout part) s.now at }
{
    match part {
        Paired::Second => {
            return reader::read_label(s, at);
        }
        Paired::Third => {
            return reader::read_group(s, at);
        }
    }
}

// Another critical face: its start's index and the other block, before its labels.
pub fn put_part4(out: &mut [u8], at: usize, index: MessageIndex, other: u64) -> usize
    requires { (index.0 < 2 ^ 32) × (other < 2 ^ 32) × (at + length (group.put index.0 ++ group.put other) < 2 ^ 63) }
    ensures { Stored out.old at (group.put index.0 ++ group.put other) out.new result }
{
    let i = index.0;
    let past = groups::put_group(out, at, i as u32);
    groups::put_group(out, past, other as u32)
}

// So many labels.
pub fn pass_labels(s: &[u8], at: usize, count: u64) -> Read
    requires { at ≤ length s.now }
    ensures { Passes (times count label) s.now at result }
{
    // Those before this turn are passed, up to `p`.
    let mut p = at;
    for _ in 0..count {
        let (code, next) = reader::read_label(s, p)?;
        p = next;
    }
    Some((count, p))
}
