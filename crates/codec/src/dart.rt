// A dart of a file, put at a place of a slice and read there.
ghost use Rattle.std.specs.Prelude.{◌≡◌, ◌+◌, ◌<◌, ◌^◌, length};
ghost use Rattle.model.specs.Values.{serial_bound};
ghost use Rattle.groups.specs.Slices.{Stored};
ghost use Rattle.codec.specs.Darts.{link_bytes, dart_read};

use crate::{entry, third};
use groups::Read;

// What a dart begins with: serial, next, opposite. Third link and point follow by their own functions: a dart put as one value was slower.
pub fn put_links(out: &mut [u8], at: usize, serial: u64, next: u64, opposite: u64) -> usize
    requires { (serial < serial_bound) × (next < serial_bound) × (opposite < serial_bound) × (at + length (link_bytes serial next opposite) < 2 ^ 63) }
    ensures { Stored out.old at (link_bytes serial next opposite) out.new result }
{
    let past_serial = groups::put_serial(out, at, serial);
    let past_next = groups::put_serial(out, past_serial, next);
    groups::put_serial(out, past_next, opposite)
}

// A dart as a file has it: links by serial, where memory has places, kind word and what the third link names, the words of its point.
#[derive(Clone, Copy)]
pub struct FileDart {
    pub serial: u64,
    pub next: u64,
    pub opposite: u64,
    pub kind: u64,
    pub link: u64,
    pub x: u64,
    pub y: u64,
    pub z: u64,
}

// A dart, and the place past it: serial, next, opposite, third link, point.
pub fn read_dart(s: &[u8], at: usize) -> Option<(FileDart, usize)>
    ensures { result ≡ dart_read s.now at }
{
    let (serial, past_serial) = groups::read_serial(s, at)?;
    let (next, past_next) = groups::read_serial(s, past_serial)?;
    let (opposite, past_opposite) = groups::read_serial(s, past_next)?;
    let (kind, link, past_third) = third::read_third(s, past_opposite)?;
    let (x, y, z, past) = entry::read_point(s, past_third)?;
    let d = FileDart {
        serial,
        next,
        opposite,
        kind,
        link,
        x,
        y,
        z,
    };
    Some((d, past))
}
