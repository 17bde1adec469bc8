// The next move of a mesh: which volume goes from which block to which, of those that have at least two picked volumes fewer.
#![tactic(auto)]

pub mod surplus; // surplus.rt: counts, mean and surpluses, and which block may give to which
pub mod leaving; // leaving.rt: which picked volumes of a block may go
pub mod nextmove; // nextmove.rt: the questions of a whole mesh and an oracle, then its next move

ghost use Rattle.std.specs.Prelude.{◌≡◌, true, map, ℕ, ◌≤◌, ◌<◌, length};
ghost use Rattle.model.specs.Lists.{all};
ghost use Rattle.model.specs.Values.{limits_in};
ghost use Rattle.model.specs.Sound.{blocks_right};
ghost use Rattle.model.specs.Image.{count_in, block_in, holds_block};
ghost use Rattle.model.specs.Calls.{memories, served};
ghost use Rattle.model.specs.Balance.{blocked, first_or, next_of as model-next, balance_of};
ghost use Rattle.answers.specs.Answers.{move_of};
ghost use Rattle.oracle.specs.Oracle.{oracle_of};
ghost use Rattle.selection.specs.Picked.{Sizes};
ghost use Rattle.mesh.specs.Parts.{block_count, part};
ghost use Rattle.balance.specs.Answer.{balance_told};
ghost use Rattle.balance.specs.Moves.{SoundParts, CellsCounted, Least, UntriedIn, going, candidate_of, at, move_found, mesh_in, left_for, moves_from, all_moves};

use crate::nextmove::Balance;
use answers::NextMove;
use memory::header::{BLOCKS, Header, Limits};
use oracle::Oracle;

// The sizes of the picked volumes of block i.
fn sizes_at(mesh: &[u64], i: usize, o: Oracle, sizes: &mut [usize])
    requires { SoundParts mesh.now × (i < block_count mesh.now) × (count_in (part mesh.now i) ≤ length sizes.old) }
    ensures { Sizes (oracle_of o) (part mesh.now i) sizes.new }
{
    selection::sizes_of(mesh::part_of(mesh, i), o, sizes)
}

// How many darts a volume may have that goes from block d to block `to`: no more than both may send and take, and than there is room for.
fn left_for(mesh: &[u64], viewers: u32, d: usize, to: usize) -> usize
    requires { SoundParts mesh.now × (to < block_count mesh.now) }
    ensures { result ≡ left_for viewers mesh.now d to }
{
    let from = Limits::among(viewers, d as u64);
    let there = Limits::among(viewers, to as u64);
    let count = mesh[to * Header::WORDS + Header::COUNT] as usize;
    if there.block < count {
        return 0;
    }
    let most = sort::lesser(from.volume as u64, there.volume as u64);
    sort::lesser(most, (there.block - count) as u64) as usize
}

// The first volume that may go from block d to block `to`, by its least serial.
fn between(mesh: &[u64], viewers: u32, d: usize, to: usize, sizes: &mut [usize]) -> Option<u64>
    requires { SoundParts mesh.now × (d < block_count mesh.now) × (to < block_count mesh.now) × (count_in (part mesh.now d) ≤ length sizes.old) }
    ensures candidate { result ≡ candidate_of (going (at sizes.old) (part mesh.now d) (left_for viewers mesh.now d to)) }
    ensures untried { UntriedIn (at sizes.old) (part mesh.now d) sizes.new }
{
    let left = left_for(mesh, viewers, d, to);
    leaving::first_leaving(mesh::part_of(mesh, d), left, sizes)
}

// The first move from block d to a block that it may give to: the recipient, and the serial of the volume.
fn from_donor(
    mesh: &[u64],
    viewers: u32,
    o: Oracle,
    counts: [u32; BLOCKS],
    d: usize,
    sizes: &mut [usize],
) -> Option<(u32, u64)>
    requires sound_parts { SoundParts mesh.now × (d < block_count mesh.now) × (count_in (part mesh.now d) ≤ length sizes.old) }
    requires cells_counted { CellsCounted (oracle_of o) mesh.now counts }
    ensures { move_found d result ≡ first_or blocked (moves_from viewers (oracle_of o) mesh.now d) }
{
    sizes_at(mesh, d, o, sizes);
    let k = mesh.len() / Header::WORDS;
    let own = counts[d];
    // No volume may go to a block before `to`.
    for to in 0..k {
        let c = counts[to];
        if !surplus::gives(own, c) {
            continue;
        }
        let Some(serial) = between(mesh, viewers, d, to, sizes) else {
            continue;
        };
        return Some((to as u32, serial));
    }
    None
}

// The first move of all; a block that may give to none that has the least is no donor.
fn first_move(
    mesh: &[u64],
    viewers: u32,
    o: Oracle,
    counts: [u32; BLOCKS],
    low: u32,
    sizes: &mut [usize],
) -> NextMove
    requires { SoundParts mesh.now × CellsCounted (oracle_of o) mesh.now counts × Least counts (block_count mesh.now) low
        × ((i : ℕ) → i < block_count mesh.now → count_in (part mesh.now i) ≤ length sizes.old) }
    ensures { move_of result ≡ served (first_or blocked (all_moves viewers (oracle_of o) mesh.now)) }
{
    let k = mesh.len() / Header::WORDS;
    // No volume may leave a block before `from`.
    for from in 0..k {
        let c = counts[from];
        if !surplus::gives(c, low) {
            continue;
        }
        let Some((to, serial)) = from_donor(mesh, viewers, o, counts, from, sizes) else {
            continue;
        };
        return NextMove::Move(from as u32, to, serial);
    }
    NextMove::Blocked
}

// The next move, by the counts.
fn next_by(mesh: &[u64], viewers: u32, o: Oracle, counts: [u32; BLOCKS]) -> NextMove
    requires { SoundParts mesh.now × CellsCounted (oracle_of o) mesh.now counts }
    ensures { move_of result ≡ served (model-next (limits_in viewers) (oracle_of o) (mesh_in mesh.now)) }
{
    let k = mesh.len() / Header::WORDS;
    let low = surplus::least(counts, k);
    if !surplus::some_gives(counts, k, low) {
        return NextMove::Level;
    }
    let mut sizes = [0usize; Header::DARTS];
    first_move(mesh, viewers, o, counts, low, &mut sizes)
}

// The next move of a sound mesh by an oracle, with the mean and the surpluses.
pub fn next_of(mesh: &[u64], viewers: u32, o: Oracle) -> Balance
    requires { (all (λ b. holds_block b) (memories mesh.now) ≡ true) × (blocks_right (map block_in (memories mesh.now)) ≡ true) }
    ensures { balance_told result ≡ served (balance_of (limits_in viewers) (oracle_of o) (map block_in (memories mesh.now))) }
{
    let k = mesh.len() / Header::WORDS;
    let counts = surplus::counts(mesh, o);
    let mean = surplus::total(counts, k) / (k as u32);
    let surplus = surplus::less_mean(counts, k, mean);
    let next = next_by(mesh, viewers, o, counts);
    Balance {
        next: next,
        mean: mean,
        surplus: surplus,
    }
}
