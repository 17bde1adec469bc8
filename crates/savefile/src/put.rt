// A block's file written: each byte that the output has room for, so that into no output the bytes are only counted.
ghost use Rattle.std.specs.Prelude.{true, ◌≡◌, ◌+◌, ◌<◌, ◌^◌, length};
ghost use Rattle.model.specs.Lists.{tab};
ghost use Rattle.model.specs.Values.{Limits};
ghost use Rattle.model.specs.Layouts.{put_all};
ghost use Rattle.model.specs.Image.{dart_in, block_in, holds_block};
ghost use Rattle.model.specs.Messages.{a_dart, file};
ghost use Rattle.groups.specs.Slices.{Stored};
ghost use Rattle.savefile.specs.Named.{header_bytes, DartSmall, AllSmall};

use crate::links;
use codec::{dart, entry, third};
use memory::header::Header;
use memory::record::{Place, Record};
use memory::{point, record};

// The dart at place p.
fn put_dart(block: &[u64], p: Place, out: &mut [u8], at: usize) -> usize
    requires { DartSmall block.now p.0 × (at + length (a_dart.put (dart_in block.now p.0)) < 2 ^ 63) }
    ensures { Stored out.old at (a_dart.put (dart_in block.now p.0)) out.new result }
{
    let serial = record::field(block, p, Record::SERIAL);
    let next = links::serial_along(block, p, 1);
    let opposite = links::serial_along(block, p, 2);
    let past_links = dart::put_links(out, at, serial, next, opposite);
    let kind = record::field(block, p, Record::KIND);
    let past_third = third::put_third(kind, links::third_along(block, p), out, past_links);
    entry::put_point(out, past_third, point::point_at(block, p))
}

// The first n darts.
fn put_darts(block: &[u64], n: usize, out: &mut [u8], at: usize) -> usize
    requires { AllSmall block.now n × (at + length (put_all a_dart (tab (dart_in block.now) n)) < 2 ^ 63) }
    ensures { Stored out.old at (put_all a_dart (tab (dart_in block.now) n)) out.new result }
{
    // The darts below i are stored, up to past.
    let mut past = at;
    for i in 0..n {
        past = put_dart(block, Place(i), out, past);
    }
    past
}

// Block, counter, dart count.
fn put_header(block: &[u64], out: &mut [u8]) -> usize
    requires { holds_block block.now ≡ true }
    ensures { Stored out.old 0 (header_bytes block.now) out.new result }
{
    let past_number = groups::put_group(out, 0, links::narrow(block[Header::NUMBER]));
    let past_counter = groups::put_group(out, past_number, links::narrow(block[Header::COUNTER]));
    groups::put_group(out, past_counter, links::narrow(block[Header::COUNT]))
}

// The whole file, from the output's first byte: the same by any limits.
pub fn put_file(block: &[u64], out: &mut [u8]) -> usize
    requires { holds_block block.now ≡ true }
    ensures { (lim : Limits) → Stored out.old 0 ((file lim).put (block_in block.now)) out.new result }
{
    let past_header = put_header(block, out);
    put_darts(block, block[Header::COUNT] as usize, out, past_header)
}
