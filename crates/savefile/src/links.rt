// What the links of the dart at a place name: memory has places, a file and a listing have serials.
ghost use Rattle.std.specs.Prelude.{◌≡◌, ◌+◌, ◌≤◌, ◌<◌, ◌^◌, length};
ghost use Rattle.model.specs.Image.{words_for, column};
ghost use Rattle.savefile.specs.Named.{DartSmall, third_named};

use memory::record::{Place, Record};
use memory::{kind, record};

// The serial of the dart whose place is word f of the dart at place p.
pub fn serial_along(block: &[u64], p: Place, f: usize) -> u64
    requires { (words_for (p.0 + 1) ≤ length block.now) × (f < 8) × (words_for (column block.now f p.0 + 1) ≤ length block.now) }
    ensures { result ≡ column block.now 0 (column block.now f p.0) }
{
    let q = record::field(block, p, f) as usize;
    record::field(block, Place(q), Record::SERIAL)
}

// What the third link of the dart at place p names: the serial of a sewn dart, the code of a label.
pub fn third_along(block: &[u64], p: Place) -> u64
    requires { DartSmall block.now p.0 }
    ensures { result ≡ third_named block.now p.0 }
{
    if kind::is_sewn(record::field(block, p, Record::KIND)) {
        return serial_along(block, p, Record::LINK);
    }
    record::field(block, p, Record::LINK)
}

// A word that holds a number below 2^32.
pub fn narrow(x: u64) -> u32
    requires { x < 2 ^ 32 }
    ensures { result ≡ x }
{
    x as u32
}
