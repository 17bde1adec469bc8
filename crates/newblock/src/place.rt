// Places for the serials of links, in memory whose darts ascend by serial.
ghost use Rattle.std.specs.Prelude.{◌≡◌, ◌<◌, ◌≤◌, true, length};
ghost use Rattle.laws.specs.Order.{Ascending};
ghost use Rattle.model.specs.Lists.{tab, index_of};
ghost use Rattle.model.specs.Image.{words_for, column, image};
ghost use Rattle.memory.specs.Record.{put};
ghost use Rattle.newblock.specs.Serials.{raw_block, InSerials};
ghost use Rattle.newblock.specs.Places.{place_link, place_words};

use memory::header::Header;
use memory::kind;
use memory::record::{Place, Record};

// A table of hints has so many entries on the rack, and on a viewer; a hint is a place that a serial may have.
const MANY: usize = 4096;

// Multipliers of the two tables: what falls together in one lies apart in the other.
const FIRST: u64 = 2654435769;

const SECOND: u64 = 2246822519;

// Where a serial would stand if serials rose by one from place p on, whose serial is given. Nothing rests on it.
fn guess(p: Place, own: u64, serial: u64) -> u64 {
    serial.wrapping_add(p.0 as u64).wrapping_sub(own)
}

// The entry of a serial in a table of so many: the high bits of 32, multiplied. Nothing rests on it, nor on what a table has.
fn entry(serial: u64, multiplier: u64, len: usize) -> usize
    requires { multiplier < 4294967296 }
{
    let mixed = serial % 4294967296 * multiplier % 4294967296;
    if MANY <= len {
        return (mixed / 1048576) as usize;
    }
    (mixed / 16777216) as usize
}

// A hint of a serial put into a table, and read: 0 where the table has no such entry.
fn put_hint(table: &mut [u64], multiplier: u64, serial: u64, p: usize)
    requires { multiplier < 4294967296 }
{
    let at = entry(serial, multiplier, table.len());
    if let Some(word) = table.get_mut(at) {
        *word = p as u64;
    }
}

fn hint(table: &[u64], multiplier: u64, serial: u64) -> u64
    requires { multiplier < 4294967296 }
{
    let at = entry(serial, multiplier, table.len());
    table.get(at).copied().unwrap_or(0)
}

// Whether the serials of n darts rise by one, so that every guess is right.
fn rise_by_one(block: &[u64], n: usize) -> bool
    requires { words_for n ≤ length block.now }
{
    if n == 0 {
        return true;
    }
    let least = memory::record::field(block, Place(0), Record::SERIAL);
    let greatest = memory::record::field(block, Place(n - 1), Record::SERIAL);
    greatest.wrapping_sub(least) == (n - 1) as u64
}

// Hints for n darts, in both tables; none where every guess is right.
fn put_hints(block: &[u64], n: usize, first: &mut [u64], second: &mut [u64])
    requires { words_for n ≤ length block.now }
{
    if rise_by_one(block, n) {
        return;
    }
    // Those below i have hints.
    for i in 0..n {
        let serial = memory::record::field(block, Place(i), Record::SERIAL);
        put_hint(first, FIRST, serial, i);
        put_hint(second, SECOND, serial, i);
    }
}

// Whether the dart with this serial stands at place g, among n.
fn stands_at(block: &[u64], n: usize, g: u64, serial: u64) -> bool
    requires { words_for n ≤ length block.now }
    ensures { result ≡ true → (g < n) × (column block.now 0 g ≡ serial) }
{
    g < n as u64 && memory::record::field(block, Place(g as usize), Record::SERIAL) == serial
}

// The word of a link to a serial: its place among n darts, n where none has it. First where it stands if serials rise by one from place p
// on, then where the tables hint.
fn place_near(
    block: &[u64],
    n: usize,
    p: Place,
    own: u64,
    serial: u64,
    first: &[u64],
    second: &[u64],
) -> u64
    requires { (words_for n ≤ length block.now) × Ascending n (column block.now 0) }
    ensures { result ≡ index_of serial (tab (column block.now 0) n) }
{
    let g = guess(p, own, serial);
    if stands_at(block, n, g, serial) {
        return g;
    }
    let h = hint(first, FIRST, serial);
    if stands_at(block, n, h, serial) {
        return h;
    }
    let k = hint(second, SECOND, serial);
    if stands_at(block, n, k, serial) {
        return k;
    }
    memory::lookup::place_of(block, n, serial).map_or(n, |q| q.0) as u64
}

// The link word: the place of the dart that a sewn one is sewn to.
fn link_place(
    block: &[u64],
    n: usize,
    p: Place,
    own: u64,
    kind: u64,
    link: u64,
    first: &[u64],
    second: &[u64],
) -> u64
    requires { (words_for n ≤ length block.now) × Ascending n (column block.now 0) }
    ensures { result ≡ place_link (tab (column block.now 0) n) kind link }
{
    if kind::is_sewn(kind) {
        return place_near(block, n, p, own, link, first, second);
    }
    link
}

// Places for the serials of the dart at place p.
fn resolve_dart(block: &mut [u64], n: usize, p: Place, first: &[u64], second: &[u64])
    requires { (p.0 < n) × (words_for n ≤ length block.old) × Ascending n (column block.old 0) }
    ensures { block.new ≡ put block.old p.0 (place_words (tab (column block.old 0) n) block.old p.0) }
{
    let r = memory::record::record_at(block, p);
    let own = r.serial;
    let next = place_near(block, n, p, own, r.next, first, second);
    let opposite = place_near(block, n, p, own, r.opposite, first, second);
    let link = link_place(block, n, p, own, r.kind, r.link, first, second);
    let placed = Record {
        next,
        opposite,
        link,
        ..r
    };
    memory::record::put_record(block, p, placed);
}

// Places for the serials of all darts.
fn place_all(block: &mut [u64], first: &[u64], second: &[u64])
    requires { InSerials block.old }
    ensures { block.new ≡ image (length block.old) (raw_block block.old) }
{
    let n = block[Header::COUNT] as usize;
    // The first i darts have places.
    for i in 0..n {
        resolve_dart(block, n, Place(i), first, second);
    }
}

// The image of the block that the memory has in serials. Two tables are lent for hints.
pub fn resolve_by(block: &mut [u64], first: &mut [u64], second: &mut [u64])
    requires { InSerials block.old }
    ensures { block.new ≡ image (length block.old) (raw_block block.old) }
{
    put_hints(block, block[Header::COUNT] as usize, first, second);
    place_all(block, first, second);
}

// The same without tables.
pub fn resolve(block: &mut [u64])
    requires { InSerials block.old }
    ensures { block.new ≡ image (length block.old) (raw_block block.old) }
{
    place_all(block, &[], &[]);
}
