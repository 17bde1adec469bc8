// Next move: questions 1, 2 and 23 to 28 of a whole mesh and an oracle, in their order, then the move that levels the blocks, the mean and the surpluses.
ghost use Rattle.std.specs.Prelude.{◌≡◌};
ghost use Rattle.std.proofs.Math.Option.{none};
ghost use Rattle.model.specs.Values.{limits_in};
ghost use Rattle.model.specs.Calls as calls;
ghost use Rattle.answers.specs.Answers.{question};
ghost use Rattle.memory.specs.Point.{patterns};
ghost use Rattle.oracle.specs.Oracle.{oracle_of};
ghost use Rattle.balance.specs.Answer.{balance_told, NothingBeside, GivesBalance};

use answers::{Answer, NextMove, Refusal};
use memory::header::BLOCKS;
use memory::point::Point;
use oracle::Oracle;

// The answer of next move: the mean and the surplus of each block beside it, 0 for a block that the mesh has not. All zero beside a refusal.
#[derive(Clone, Copy)]
pub struct Balance {
    pub next: NextMove,
    pub mean: u32,
    pub surplus: [i32; BLOCKS],
}

// A surplus as a word of 64 bits, as C gets it: two's complement.
pub fn signed_word(x: i32) -> u64
    ensures { result ≡ calls.signed_word x }
{
    if 0 <= x {
        return x as u64;
    }
    18446744073709551615 - (-1 - x) as u64
}

fn refused(q: Refusal) -> Balance
    ensures { (balance_told result ≡ calls.refused (question q)) × NothingBeside result }
{
    Balance {
        next: NextMove::Refused(q),
        mean: 0,
        surplus: [0i32; BLOCKS],
    }
}

// The next move of a mesh by an oracle. 1, 2 and 23 to 27: the questions of the mesh check. 28: are the oracle's numbers right? The scratch
// is afterwards as it was.
pub fn next_move(mesh: &[u64], viewers: u32, o: Oracle, scratch: &mut [u64]) -> Balance
    ensures { GivesBalance (calls.next_move (limits_in viewers) mesh.now (oracle_of o) scratch.old) result scratch.new }
{
    match checkmesh::mesh_asked(mesh, viewers, scratch) {
        Err(q) => refused(q),
        Ok(()) => {
            if !oracle::oracle_right(o) {
                return refused(Refusal::OracleWrong);
            }
            crate::next_of(mesh, viewers, o)
        }
    }
}

// The answer where there is no oracle: a no to 28 in its turn.
fn without_oracle(mesh: &[u64], viewers: u32, scratch: &mut [u64]) -> Balance
    ensures { GivesBalance (calls.next_move_of (limits_in viewers) mesh.now none scratch.old) result scratch.new }
{
    match checkmesh::mesh_asked(mesh, viewers, scratch) {
        Err(q) => refused(q),
        Ok(()) => refused(Refusal::OracleWrong),
    }
}

// The same with the oracle by numbers: 0 every volume, 1 the box from low to high, 2 the plane on an axis at low's x; there is no other.
pub fn next_move_by_number(
    mesh: &[u64],
    viewers: u32,
    number: u32,
    axis: u32,
    low: Point,
    high: Point,
    scratch: &mut [u64],
) -> Balance
    ensures { GivesBalance (calls.next_move_by_number (limits_in viewers) mesh.now number axis (patterns low) (patterns high) scratch.old) result scratch.new }
{
    if number == 0 {
        return next_move(mesh, viewers, Oracle::Every, scratch);
    }
    if number == 1 {
        return next_move(mesh, viewers, Oracle::Box(low, high), scratch);
    }
    if number == 2 {
        return next_move(mesh, viewers, Oracle::Plane(axis as u64, low.x), scratch);
    }
    without_oracle(mesh, viewers, scratch)
}
