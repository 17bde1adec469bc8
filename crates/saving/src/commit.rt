// The commit of a save: how many blocks, then the length and the digest of each one's file, in words of 8 bytes.
ghost use Rattle.std.specs.Prelude.{◌≡◌, ◌+◌, ◌≤◌, length};
ghost use Rattle.groups.specs.Slices.{Stored};
ghost use Rattle.saving.specs.Commit.{digest as digest-in, entry_of as entry-for, entry_bytes};
ghost use Rattle.saving.specs.Commit.{commit_word as word_of, committed as committed-in, entry_in as entry_at};

use groups::Read;
use memory::header::Header;

// What a commit says of a file: its length and its digest.
#[derive(Clone, Copy, PartialEq, Eq)]
pub struct Entry {
    pub size: u64,
    pub digest: u64,
}

// The digest of bytes.
fn digest(bytes: &[u8]) -> u64
    ensures { result ≡ digest-in bytes.now }
{
    // The digest of the bytes before b is h.
    let mut h: u64 = 0;
    for b in bytes {
        h = (h * 257 + u64::from(*b) + 1) % 36028797018963913;
    }
    h
}

// What a commit says of these bytes.
pub fn entry_of(bytes: &[u8]) -> Entry
    ensures { result ≡ entry-for bytes.now }
{
    Entry {
        size: bytes.len() as u64,
        digest: digest(bytes),
    }
}

// An entry's two words.
pub(crate) fn put_entry(e: Entry, out: &mut [u8], at: usize) -> usize
    requires { at + 16 ≤ length out.old }
    ensures { Stored out.old at (entry_bytes e) out.new result }
{
    let past = groups::put_coordinate(out, at, e.size);
    groups::put_coordinate(out, past, e.digest)
}

// Word i; 0 past the end.
fn word_in(commit: &[u8], i: usize) -> u64
    ensures { result ≡ word_of commit.now i }
{
    if commit.len() / 8 <= i {
        return 0;
    }
    groups::read_coordinate(commit, 8 * i).map_or(0, |(v, _)| v)
}

// How many blocks a commit has, 1 to 16; 0 where the bytes are no commit.
pub fn committed(commit: &[u8]) -> usize
    ensures { result ≡ committed-in commit.now }
{
    let k = word_in(commit, 0);
    if k == 0 {
        return 0;
    }
    if Header::BLOCKS < k {
        return 0;
    }
    let n = k as usize;
    if commit.len() != 8 + 16 * n {
        return 0;
    }
    n
}

// What a commit says of block b; zeros where it has none.
pub fn entry_in(commit: &[u8], b: usize) -> Entry
    ensures { result ≡ entry_at commit.now b }
{
    if commit.len() / 16 <= b {
        return Entry { size: 0, digest: 0 };
    }
    Entry {
        size: word_in(commit, 1 + 2 * b),
        digest: word_in(commit, 2 + 2 * b),
    }
}
