// Parts 2 to 4 of a transfer and the labels of an update, passed over entry by entry; they stay where they stand.
ghost use Rattle.std.specs.Prelude.{List, ◌≤◌, length};
ghost use Rattle.model.specs.Layouts.{times};
ghost use Rattle.model.specs.Messages.{FaceDart, part4};
ghost use Rattle.codec.specs.Taken.{Passes};
ghost use Rattle.inbox.specs.Inbox.{Sized};
ghost use Rattle.inbox.specs.Parts.{entry};

use codec::entry;
use groups::Read;
use memory::header::Header;
use memory::record::MessageIndex;

// An entry of part 4: an index, a block, and as many labels as the face with that dart has darts.
pub fn pass_part4(s: &[u8], at: usize, darts: usize, sizes: &[usize]) -> Read
    requires { darts ≤ length sizes.now }
    ensures { (fs : List (List FaceDart)) → Sized fs darts sizes.now → Passes (part4 fs) s.now at result }
{
    let (index, past) = reader::read_group(s, at)?;
    if darts as u64 <= index {
        return None;
    }
    let (other, from) = reader::read_at_most(s, past, Header::BLOCKS - 1)?;
    let size = place::size_at(sizes, MessageIndex(index as usize));
    entry::pass_labels(s, from, size as u64)
}

// A part of a message: a count, and so many entries.
#[derive(Clone, Copy)]
pub enum Part {
    Second,
    Third,
    Fourth,
    Labels,
}

// An entry of a part, in a message whose darts have faces of these sizes.
fn pass_entry(s: &[u8], at: usize, part: Part, darts: usize, sizes: &[usize]) -> Read
    requires { darts ≤ length sizes.now }
    ensures { (fs : List (List FaceDart)) → Sized fs darts sizes.now → Passes (entry part fs) s.now at result }
{
    match part {
        Part::Second => {
            return entry::pass_part2(s, at);
        }
        Part::Third => {
            return entry::pass_part3(s, at);
        }
        Part::Fourth => {
            return pass_part4(s, at, darts, sizes);
        }
        Part::Labels => {
            return reader::read_label(s, at);
        }
    }
}

// So many entries of a part.
pub fn pass_entries(
    s: &[u8],
    at: usize,
    part: Part,
    count: u64,
    darts: usize,
    sizes: &[usize],
) -> Read
    requires { (at ≤ length s.now) × (darts ≤ length sizes.now) }
    ensures { (fs : List (List FaceDart)) → Sized fs darts sizes.now → Passes (times count (entry part fs)) s.now at result }
{
    // The first k are passed.
    let mut p = at;
    for k in 0..count {
        let (index, next) = pass_entry(s, p, part, darts, sizes)?;
        p = next;
    }
    Some((count, p))
}
