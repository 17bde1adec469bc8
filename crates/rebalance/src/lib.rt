// Balancing the blocks of a mesh, a move at a time: the next move is asked for and, where there is one, its round is played.
#![tactic(auto)]

pub mod moves; // moves.rt: moves one after the other

ghost use Rattle.oracle.specs.Oracle.{oracle_of};
ghost use Rattle.rebalance.specs.Turn.{round_turn, Levelled, TurnEnded, a_move};

pub use crate::moves::{Balanced, balance, most_moves};
use answers::{NextMove, Refusal};
use oracle::Oracle;
use rounds::Outcome;

// What a step comes to: no two counts that differ by two, no volume that may go, a volume moved (donor, recipient, serial), a round that was
// taken and yet not finished, or a no of the next move or of its round.
#[derive(Clone, Copy)]
pub enum Ending {
    Level,
    Blocked,
    Moved(u32, u32, u64),
    Unfinished(u32, u32, u64),
    Refused(Refusal),
}

// The round of a move.
fn carry_out(
    mesh: &mut [u64],
    viewers: u32,
    donor: u32,
    recipient: u32,
    serial: u64,
    outbox: &mut [u8],
) -> Ending
    ensures { TurnEnded viewers (round_turn viewers mesh.old outbox.old (a_move donor recipient serial)) mesh.old result mesh.new outbox.new }
{
    match rounds::play(
        mesh,
        viewers,
        donor as u64,
        recipient as u64,
        serial,
        outbox,
    ) {
        Outcome::Finished => Ending::Moved(donor, recipient, serial),
        Outcome::Unfinished => Ending::Unfinished(donor, recipient, serial),
        Outcome::Refused(r) => Ending::Refused(r),
    }
}

// One step of balancing a mesh by an oracle. Bit b of `viewers` says that block b is a viewer's.
pub fn step(
    mesh: &mut [u64],
    viewers: u32,
    o: Oracle,
    scratch: &mut [u64],
    outbox: &mut [u8],
) -> Ending
    ensures { Levelled viewers mesh.old (oracle_of o) scratch.old outbox.old result mesh.new scratch.new outbox.new }
{
    let b = balance::nextmove::next_move(mesh, viewers, o, scratch);
    let next = b.next;
    match next {
        NextMove::Level => Ending::Level,
        NextMove::Blocked => Ending::Blocked,
        NextMove::Move(donor, recipient, serial) => {
            carry_out(mesh, viewers, donor, recipient, serial, outbox)
        }
        NextMove::Refused(q) => Ending::Refused(q),
    }
}
