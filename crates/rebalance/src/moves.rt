// Moves one after the other: a mesh is balanced until there is no move, or no room to write another down.
ghost use Rattle.std.specs.Prelude.{◌≡◌, ◌<◌, ◌/◌, length};
ghost use Rattle.model.specs.Demands.{most_moves};
ghost use Rattle.oracle.specs.Oracle.{oracle_of};
ghost use Rattle.rebalance.specs.Turn.{a_move};
ghost use Rattle.rebalance.specs.Balanced.{with_move, TurnAsked, Balances};

use crate::Ending;
use answers::{NextMove, Refusal};
use oracle::Oracle;

// How balancing ends, and how many moves were carried out: no two counts that differ by two, no volume that may go, another move and no
// room for it, a round that was taken and yet not finished, or a no of the next move or of its round.
#[derive(Clone, Copy)]
pub enum Balanced {
    Level(usize),
    Blocked(usize),
    Full(usize),
    Unfinished(usize),
    Refused(usize, Refusal),
}

// A sound mesh never takes more moves than these: Demands.MovesEnd.
pub fn most_moves() -> usize
    ensures { result ≡ most_moves }
{
    65536
}

// Move n, at its place: donor, recipient and serial, as a request is written.
fn put_move(moves: &mut [u64], n: usize, donor: u32, recipient: u32, serial: u64)
    requires { n < length moves.old / 3 }
    ensures { moves.new ≡ with_move moves.old n (a_move donor recipient serial) }
{
    let at = n * 3;
    moves[at] = u64::from(donor);
    moves[at + 1] = u64::from(recipient);
    moves[at + 2] = serial;
}

// The next move after n moves, asked for and not carried out.
fn ask(mesh: &[u64], viewers: u32, o: Oracle, scratch: &mut [u64], n: usize) -> Balanced
    ensures { TurnAsked viewers mesh.now (oracle_of o) scratch.old n result scratch.new }
{
    let b = balance::nextmove::next_move(mesh, viewers, o, scratch);
    let next = b.next;
    match next {
        NextMove::Level => Balanced::Level(n),
        NextMove::Blocked => Balanced::Blocked(n),
        NextMove::Move(donor, recipient, serial) => Balanced::Full(n),
        NextMove::Refused(q) => Balanced::Refused(n, q),
    }
}

// Moves until there is none, at most as many as `moves` has room for; each is written there as a request, and what stands behind the
// last one stays. With no room left the next move is asked for all the same: a mesh that has none is not full.
pub fn balance(
    mesh: &mut [u64],
    viewers: u32,
    o: Oracle,
    scratch: &mut [u64],
    outbox: &mut [u8],
    moves: &mut [u64],
) -> Balanced
    ensures { Balances viewers mesh.old (oracle_of o) scratch.old outbox.old moves.old result mesh.new scratch.new outbox.new moves.new }
{
    let room = moves.len() / 3;
    // The first n moves are carried out and written down.
    for n in 0..room {
        match crate::step(mesh, viewers, o, scratch, outbox) {
            Ending::Moved(donor, recipient, serial) => {
                put_move(moves, n, donor, recipient, serial);
            }
            Ending::Level => {
                return Balanced::Level(n);
            }
            Ending::Blocked => {
                return Balanced::Blocked(n);
            }
            Ending::Unfinished(_, _, _) => {
                return Balanced::Unfinished(n);
            }
            Ending::Refused(q) => {
                return Balanced::Refused(n, q);
            }
        }
    }
    ask(mesh, viewers, o, scratch, room)
}
