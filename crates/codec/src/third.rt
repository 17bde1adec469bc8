// A third link of a file, put at a place of a slice and read there.
ghost use Rattle.std.specs.Prelude.{◌≡◌, ◌+◌, ◌<◌, ◌^◌, length};
ghost use Rattle.model.specs.Messages.{third};
ghost use Rattle.groups.specs.Slices.{Stored};
ghost use Rattle.codec.specs.Thirds.{ThirdSmall, third_bytes, kind_and_third, third_read};

use groups::Read;
use memory::header::Header;
use memory::kind;

// By its kind word and what it names: 0 free; 1 sewn, serial; 2 critical, other block, label.
pub fn put_third(kind: u64, named: u64, out: &mut [u8], at: usize) -> usize
    requires { ThirdSmall kind named × (at + length (third_bytes kind named) < 2 ^ 63) }
    ensures { Stored out.old at (third_bytes kind named) out.new result }
{
    if kind::is_free(kind) {
        return groups::put_group(out, at, 0);
    }
    if kind::is_sewn(kind) {
        let past_kind = groups::put_group(out, at, 1);
        return groups::put_serial(out, past_kind, named);
    }
    let past_kind = groups::put_group(out, at, 2);
    let past_other = groups::put_group(out, past_kind, kind::other_of(kind) as u32);
    groups::put_label(out, past_other, named)
}

// What follows kind 2: the other block, and the label.
fn read_critical(s: &[u8], at: usize) -> Option<(u64, u64, usize)>
    ensures { result ≡ third_read (third 2) s.now at }
{
    let (other, past_other) = groups::read_at_most(s, at, Header::BLOCKS - 1)?;
    let (label, next) = groups::read_label(s, past_other)?;
    Some((kind::critical_with(other), label, next))
}

// A third link, as kind word and link word, and the place past it.
pub fn read_third(s: &[u8], at: usize) -> Option<(u64, u64, usize)>
    ensures { result ≡ third_read kind_and_third s.now at }
{
    let (kind, past_kind) = groups::read_at_most(s, at, 2)?;
    if kind == kind::FREE {
        return Some((kind::FREE, 0, past_kind));
    }
    if kind == 2 {
        return read_critical(s, past_kind);
    }
    let (sewn, next) = groups::read_serial(s, past_kind)?;
    Some((kind::SEWN, sewn, next))
}
