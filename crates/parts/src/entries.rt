// The entries of the parts as they stand in a message, read into arrays by their number in the part.
ghost use Rattle.std.specs.Prelude.{◌≡◌, List, ◌≤◌, length};
ghost use Rattle.model.specs.Messages.{FaceDart};
ghost use Rattle.inbox.specs.Inbox.{Sized};
ghost use Rattle.parts.specs.Entries.{EntriesRead, EntryRead, Part4Read, pair, first_number, index};

use codec::entry;
use codec::entry::Paired;
use groups::Read;
use memory::header::Header;
use memory::record::MessageIndex;

// The first numbers of a part's entries, and their indices.
pub fn read_pairs(
    s: &[u8],
    at: usize,
    part: Paired,
    count: usize,
    firsts: &mut [u64],
    indices: &mut [u64],
)
    requires { (at ≤ length s.now) × (count ≤ length firsts.old) × (count ≤ length indices.old) }
    ensures { EntriesRead (pair part) (first_number part) (index part) s.now at count firsts.new indices.new }
{
    // The entries below i are read.
    let mut p = at;
    for i in 0..count {
        let Some((first, past)) = entry::read_first(s, p, part) else {
            return;
        };
        let Some((index, next)) = reader::read_group(s, past) else {
            return;
        };
        firsts[i] = first;
        indices[i] = index;
        p = next;
    }
}

// An entry of part 4: the index, the block, where the labels stand, and the place past them.
#[derive(Clone, Copy)]
pub struct Entry {
    pub index: MessageIndex,
    pub other: u64,
    pub labels: usize,
    pub next: usize,
}

// An entry of part 4: its index, the other block, where its labels begin, and the place past it; none where none stands there.
fn read_entry(s: &[u8], at: usize, darts: usize, sizes: &[usize]) -> Option<Entry>
    requires { darts ≤ length sizes.now }
    ensures { (fs : List (List FaceDart)) → Sized fs darts sizes.now → EntryRead fs sizes.now s.now at result }
{
    let (index, past) = reader::read_group(s, at)?;
    if darts as u64 <= index {
        return None;
    }
    let (other, labels) = reader::read_at_most(s, past, Header::BLOCKS - 1)?;
    let size = place::size_at(sizes, MessageIndex(index as usize));
    let (n, next) = entry::pass_labels(s, labels, size as u64)?;
    Some(Entry {
        index: MessageIndex(index as usize),
        other,
        labels,
        next,
    })
}

// The indices and blocks of part 4, and where the labels of each entry stand.
pub fn read_part4(
    s: &[u8],
    at: usize,
    count: usize,
    darts: usize,
    sizes: &[usize],
    indices: &mut [u64],
    others: &mut [u64],
    places: &mut [usize],
)
    requires { (at ≤ length s.now) × (darts ≤ length sizes.now) × (count ≤ length indices.old) × (count ≤ length others.old) × (count ≤ length places.old) }
    ensures { (fs : List (List FaceDart)) → Sized fs darts sizes.now → Part4Read fs sizes.now s.now at count indices.new others.new places.new }
{
    // The entries below i are read.
    let mut p = at;
    for i in 0..count {
        let Some(entry) = read_entry(s, p, darts, sizes) else {
            return;
        };
        let index = entry.index;
        indices[i] = index.0 as u64;
        others[i] = entry.other;
        places[i] = entry.labels;
        p = entry.next;
    }
}
