// The whole file read into memory, with serials where an image has places.
ghost use Rattle.std.specs.Prelude.{◌≡◌, ◌+◌, ◌≤◌, length, replicate};
ghost use Rattle.model.specs.Image.{words_for, words_of};
ghost use Rattle.memory.specs.Header.{limits_of};
ghost use Rattle.readfile.specs.Parts.{DartStored, DartsStored, RawRead};

use codec::dart;
use groups::Read;
use memory::header::{Header, Limits};
use memory::record::{Place, Record};

// Reads a dart with a serial above the last one, and stores it at place p.
fn store_dart(file: &[u8], at: usize, last: u64, block: &mut [u64], p: Place) -> Read
    requires { words_for (p.0 + 1) ≤ length block.old }
    ensures { DartStored file.now at last block.old p.0 block.new result }
{
    let (d, next) = dart::read_dart(file, at)?;
    let serial = d.serial;
    if serial <= last {
        return None;
    }
    let r = Record {
        serial,
        next: d.next,
        opposite: d.opposite,
        kind: d.kind,
        link: d.link,
        x: d.x,
        y: d.y,
        z: d.z,
    };
    memory::record::put_record(block, p, r);
    Some((serial, next))
}

// Reads n darts in ascending serial, and stores them from the first place on. The place past them.
fn read_darts(file: &[u8], from: usize, n: usize, block: &mut [u64]) -> Option<usize>
    requires { (from ≤ length file.now) × (words_for n ≤ length block.old) }
    ensures { DartsStored file.now from n block.old block.new result }
{
    // The first i darts are stored, in ascending serial up to `last`; what is read at `at` goes on from them.
    let mut at = from;
    let mut last = 0;
    for i in 0..n {
        let (serial, next) = store_dart(file, at, last, block, Place(i))?;
        last = serial;
        at = next;
    }
    Some(at)
}

// Reads a file to its last byte: block, counter, dart count, darts. Whether it could be read, with no more darts than the limits say.
pub fn read_raw(file: &[u8], limits: Limits, block: &mut [u64]) -> bool
    requires { block.old ≡ replicate (words_of (limits_of limits)) 0 }
    ensures { RawRead (limits_of limits) file.now block.new result }
{
    let Some((number, past_number)) = groups::read_at_most(file, 0, Header::BLOCKS - 1) else {
        return false;
    };
    let Some((counter, past_counter)) = groups::read_group(file, past_number) else {
        return false;
    };
    let Some((count, past_count)) = groups::read_group(file, past_counter) else {
        return false;
    };
    if (limits.block as u64) < count {
        return false;
    }
    let n = count as usize;
    let Some(past) = read_darts(file, past_count, n, block) else {
        return false;
    };
    if past != file.len() {
        return false;
    }
    let header = Header {
        number,
        counter,
        darts: n,
    };
    header.write(block);
    true
}
