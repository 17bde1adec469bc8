// How many volumes of each block are picked, their mean, the surplus of each block, and which block may give to which.
ghost use Rattle.std.specs.Prelude.{◌≡◌, ℕ, ◌≤◌, ◌<◌, length, get_or, pos};
ghost use Rattle.std.proofs.Math.IntN.{sub_ℕ};
ghost use Rattle.model.specs.Values.{room, blocks};
ghost use Rattle.model.specs.Lists.{any, sum, tab};
ghost use Rattle.model.specs.Balance.{may_give};
ghost use Rattle.oracle.specs.Oracle.{oracle_of};
ghost use Rattle.mesh.specs.Parts.{block_count};
ghost use Rattle.balance.specs.Moves.{SoundParts, count_at, CellsCounted, Least, surplus_by};

use memory::header::{BLOCKS, Header};
use oracle::Oracle;

// How many volumes of block i are picked.
fn count_part(mesh: &[u64], i: usize, o: Oracle) -> u32
    requires { SoundParts mesh.now × (i < block_count mesh.now) }
    ensures { (result ≡ count_at (oracle_of o) mesh.now i) × (result ≤ room) }
{
    selection::count(mesh::part_of(mesh, i), o) as u32
}

// How many volumes of each block are picked.
pub fn counts(mesh: &[u64], o: Oracle) -> [u32; BLOCKS]
    requires { SoundParts mesh.now }
    ensures { CellsCounted (oracle_of o) mesh.now result }
{
    let k = mesh.len() / Header::WORDS;
    // The blocks before i are counted.
    let mut c = [0u32; BLOCKS];
    for i in 0..k {
        c[i] = count_part(mesh, i, o);
    }
    c
}

// The sum of the first k counts.
pub fn total(c: [u32; BLOCKS], k: usize) -> u32
    requires { (k ≤ blocks) × ((i : ℕ) → i < k → get_or c i 0 ≤ room) }
    ensures { (result ≡ sum (tab (λ i. get_or c i 0) k)) × (result ≤ 65536) }
{
    // Those before x sum up to t.
    let mut t = 0;
    for x in &c[..k] {
        t += *x;
    }
    t
}

// A count less the mean.
fn surplus_of(count: u32, mean: u32) -> i32
    requires { (count ≤ 65536) × (mean ≤ 65536) }
    ensures { result ≡ sub_ℕ count mean }
{
    count as i32 - mean as i32
}

// The surpluses of the first k counts; 0 behind them.
pub fn less_mean(c: [u32; BLOCKS], k: usize, mean: u32) -> [i32; BLOCKS]
    requires { (k ≤ blocks) × (mean ≤ 65536) × ((i : ℕ) → i < k → get_or c i 0 ≤ room) }
    ensures { result ≡ tab (surplus_by c k mean) blocks }
{
    // Those before i are told.
    let mut s = [0i32; BLOCKS];
    for i in 0..k {
        s[i] = surplus_of(c[i], mean);
    }
    s
}

// A donor has at least two picked volumes more than the recipient.
pub fn gives(donor: u32, recipient: u32) -> bool
    requires { recipient ≤ room }
    ensures { result ≡ may_give donor recipient }
{
    recipient + 2 <= donor
}

// The least of the first k counts.
pub fn least(c: [u32; BLOCKS], k: usize) -> u32
    requires { (1 ≤ k) × (k ≤ blocks) }
    ensures { Least c k result }
{
    // The least before i.
    let mut low = c[0];
    for i in 1..k {
        if c[i] < low {
            low = c[i];
        }
    }
    low
}

// Whether some of the first k blocks may give to one that has `low`.
pub fn some_gives(c: [u32; BLOCKS], k: usize, low: u32) -> bool
    requires { (k ≤ blocks) × (low ≤ room) }
    ensures { result ≡ any (λ x. may_give x low) (tab (λ i. get_or c i 0) k) }
{
    // None before x may.
    for x in &c[..k] {
        if gives(*x, low) {
            return true;
        }
    }
    false
}
