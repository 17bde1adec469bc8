// The lines of a listing: block, dart count and counter; then serial, next, opposite and third link of each dart.
ghost use Rattle.std.specs.Prelude.{true, ◌≡◌, ◌+◌, ◌*◌, ◌≤◌, length};
ghost use Rattle.model.specs.Lists.{tab, concat_map};
ghost use Rattle.model.specs.Image.{third_in, dart_in, block_in, holds_block};
ghost use Rattle.model.specs.Text.{third_text};
ghost use Rattle.model.specs.Listing.{dart_line, header_line};
ghost use Rattle.groups.specs.Slices.{Stored};
ghost use Rattle.codec.specs.Thirds.{ThirdSmall};
ghost use Rattle.savefile.specs.Named.{DartSmall, AllSmall};

use crate::text;
use memory::header::Header;
use memory::record::{Place, Record};
use memory::{kind, label, record};
use savefile::links;

// A third link, by its kind word and what it names.
pub fn put_third(kind: u64, named: u64, out: &mut [u8], at: usize) -> usize
    requires { ThirdSmall kind named × (at + 26 ≤ length out.old) }
    ensures { Stored out.old at (third_text (third_in (λ x. x) kind named)) out.new result }
{
    if kind::is_free(kind) {
        return text::put_text(out, at, b"free");
    }
    if kind::is_sewn(kind) {
        let past_sewn = text::put_text(out, at, b"sewn ");
        return text::put_decimal(out, past_sewn, named);
    }
    let past_crit = text::put_text(out, at, b"crit ");
    let past_other = text::put_number(out, past_crit, kind::other_of(kind), b' ');
    let past_maker = text::put_number(out, past_other, label::maker_of(named), b'.');
    let past_number = text::put_number(out, past_maker, label::number_of(named), b'.');
    text::put_decimal(out, past_number, label::position_of(named))
}

// The line of the dart at place p.
fn put_dart(block: &[u64], p: Place, out: &mut [u8], at: usize) -> usize
    requires { DartSmall block.now p.0 × (at + 60 ≤ length out.old) }
    ensures { Stored out.old at (dart_line (dart_in block.now p.0)) out.new result }
{
    let past_serial = text::put_number(out, at, record::field(block, p, Record::SERIAL), b' ');
    let past_next = text::put_number(out, past_serial, links::serial_along(block, p, 1), b' ');
    let past_opposite = text::put_number(out, past_next, links::serial_along(block, p, 2), b' ');
    let kind = record::field(block, p, Record::KIND);
    let past_third = put_third(kind, links::third_along(block, p), out, past_opposite);
    text::put_byte(out, past_third, b'\n')
}

// The lines of the first n darts.
pub fn put_darts(block: &[u64], n: usize, out: &mut [u8], at: usize) -> usize
    requires { AllSmall block.now n × (at + n * 60 ≤ length out.old) }
    ensures { Stored out.old at (concat_map dart_line (tab (dart_in block.now) n)) out.new result }
{
    // The lines below i are stored, up to past.
    let mut past = at;
    for i in 0..n {
        past = put_dart(block, Place(i), out, past);
    }
    past
}

// The block's line, at the output's start.
pub fn put_header(block: &[u64], out: &mut [u8]) -> usize
    requires { (holds_block block.now ≡ true) × (40 ≤ length out.old) }
    ensures { Stored out.old 0 (header_line (block_in block.now)) out.new result }
{
    let past_block = text::put_text(out, 0, b"block ");
    let past_number = text::put_decimal(out, past_block, block[Header::NUMBER]);
    let past_darts = text::put_text(out, past_number, b" darts ");
    let past_count = text::put_decimal(out, past_darts, block[Header::COUNT]);
    let past_counter = text::put_text(out, past_count, b" counter ");
    text::put_number(out, past_counter, block[Header::COUNTER], b'\n')
}
