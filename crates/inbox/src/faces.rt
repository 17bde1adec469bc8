// The points and the faces of a transfer. Points stay where they stand; a face's darts go into arrays by their index in the message.
ghost use Rattle.std.specs.Prelude.{◌≡◌, ◌+◌, ◌≤◌, ◌<◌, length};
ghost use Rattle.inbox.specs.Inbox.{most, PointsRead, DartRead, DartsRead, FaceRead, FacesRead, Sides};

use codec::entry;
use groups::Read;
use memory::header::Header;
use memory::record::MessageIndex;

// How many points there are, and where the first one stands; each takes 24 bytes.
pub fn read_points(s: &[u8], at: usize) -> Read
    ensures { PointsRead s.now at result }
{
    let (n, from) = reader::read_group(s, at)?;
    let room = s.len() - from;
    if ((room / 24) as u64) < n {
        return None;
    }
    Some((n, from))
}

// The vertex and the serial of the dart with index i.
fn read_dart(s: &[u8], at: usize, i: MessageIndex, vertex: &mut [u64], serial: &mut [u64]) -> Read
    requires { (i.0 < most) × (length vertex.old ≡ most) × (length serial.old ≡ most) }
    ensures { DartRead s.now at i.0 vertex.old vertex.new serial.old serial.new result }
{
    let (v, x, next) = entry::read_dart(s, at)?;
    let n = i.0;
    vertex[n] = v;
    serial[n] = x;
    Some((x, next))
}

// The darts of a face of `size`, whose start has index `start`.
fn read_darts(
    s: &[u8],
    at: usize,
    start: MessageIndex,
    size: usize,
    vertex: &mut [u64],
    serial: &mut [u64],
    starts: &mut [usize],
    sizes: &mut [usize],
) -> Read
    requires { (at ≤ length s.now) × (start.0 + size ≤ most) × Sides vertex.old serial.old starts.old sizes.old }
    ensures { DartsRead s.now at start.0 size vertex.old vertex.new serial.old serial.new starts.old starts.new sizes.old sizes.new result }
{
    // The darts before index i are read.
    let first = start.0;
    let mut p = at;
    for i in first..first + size {
        let (x, next) = read_dart(s, p, MessageIndex(i), vertex, serial)?;
        starts[i] = first;
        sizes[i] = size;
        p = next;
    }
    Some((size as u64, p))
}

// A face whose start has index `start`: its size, then its darts. None too where the message then has too many.
fn read_face(
    s: &[u8],
    at: usize,
    start: MessageIndex,
    vertex: &mut [u64],
    serial: &mut [u64],
    starts: &mut [usize],
    sizes: &mut [usize],
) -> Read
    requires { (start.0 ≤ most) × Sides vertex.old serial.old starts.old sizes.old }
    ensures { FaceRead s.now at start.0 vertex.old vertex.new serial.old serial.new starts.old starts.new sizes.old sizes.new result }
{
    let (n, past) = reader::read_group(s, at)?;
    let room = Header::VOLUME - start.0;
    if (room as u64) < n {
        return None;
    }
    read_darts(s, past, start, n as usize, vertex, serial, starts, sizes)
}

// How many darts the faces have, whether one has none, and the place past them.
#[derive(Clone, Copy)]
pub struct Faces {
    pub hollow: bool,
    pub darts: usize,
    pub next: usize,
}

// So many faces, one after the other; none where there are no darts, or too many.
pub fn read_faces(
    s: &[u8],
    at: usize,
    count: u64,
    vertex: &mut [u64],
    serial: &mut [u64],
    starts: &mut [usize],
    sizes: &mut [usize],
) -> Option<Faces>
    requires { (at ≤ length s.now) × Sides vertex.old serial.old starts.old sizes.old }
    ensures { FacesRead s.now at count vertex.new serial.new starts.new sizes.new result }
{
    // The first k faces are read.
    let mut hollow = false;
    let mut darts: usize = 0;
    let mut p = at;
    for k in 0..count {
        let (n, next) = read_face(s, p, MessageIndex(darts), vertex, serial, starts, sizes)?;
        hollow = hollow | (n == 0);
        darts += n as usize;
        p = next;
    }
    if darts == 0 {
        return None;
    }
    Some(Faces {
        hollow,
        darts,
        next: p,
    })
}
