// Rounds on the memory of a whole mesh: send, receive, then release and the redirects. Bit b of `viewers` says that block b is a viewer's; its
// memory is then the first 2,056 words of its room in the mesh.
#![tactic(auto)]

pub mod either; // either.rt: a call on memory of the rack's size or of a viewer's
pub mod list; // list.rt: requests one after the other
pub mod post; // post.rt: messages that stand one after the other
pub mod steps; // steps.rt: one call on the memory of one block

ghost use Rattle.std.specs.Prelude.{◌≡◌, ◌<◌};
ghost use Rattle.model.specs.Values.{limits_in};
ghost use Rattle.model.specs.Calls as calls;
ghost use Rattle.answers.specs.Answers.{Gives, written_of};
ghost use Rattle.mesh.specs.Parts.{block_count};
ghost use Rattle.rounds.specs.Played.{own_memory, Delivered, Played};

pub use crate::list::play_all;
use answers::{Answer, Refusal, Written};
use memory::header::Header;

// How a round ends: refused by send or receive, finished, or taken and yet not finished.
#[derive(Clone, Copy)]
pub enum Outcome {
    Finished,
    Unfinished,
    Refused(Refusal),
}

// Send at block b, which the mesh has.
fn send_part(
    mesh: &[u64],
    viewers: u32,
    b: usize,
    to: u64,
    serial: u64,
    outbox: &mut [u8],
) -> Written
    requires { b < block_count mesh.now }
    ensures { Gives (calls.send (limits_in viewers b) (own_memory viewers mesh.now b) to serial outbox.old) (written_of result) outbox.new }
{
    let from = b * Header::WORDS;
    let end = from + steps::own_words(viewers, b);
    either::send(&mesh[from..end], to, serial, outbox)
}

// The messages that send wrote: the first is received, and where it is taken the round is finished.
fn deliver(mesh: &mut [u64], viewers: u32, from: u64, to: u64, serial: u64, sent: &[u8]) -> Outcome
    ensures { Delivered viewers mesh.old from to serial sent.now result mesh.new }
{
    let first = post::first_message(sent);
    match steps::receive_at(mesh, viewers, to, &sent[..first]) {
        Err(r) => Outcome::Refused(r),
        Ok(()) => {
            if steps::finish(mesh, viewers, from, to, serial, &sent[first..]) {
                return Outcome::Finished;
            }
            Outcome::Unfinished
        }
    }
}

// A round: the volume that holds the serial goes from one block of the mesh to another. Release comes first among the last steps, then
// the updates in their order.
pub fn play(
    mesh: &mut [u64],
    viewers: u32,
    from: u64,
    to: u64,
    serial: u64,
    outbox: &mut [u8],
) -> Outcome
    ensures { Played viewers mesh.old from to serial outbox.old result mesh.new outbox.new }
{
    if (mesh.len() / Header::WORDS) as u64 <= from {
        return Outcome::Refused(Refusal::MemorySize);
    }
    match send_part(mesh, viewers, from as usize, to, serial, outbox) {
        Err(r) => Outcome::Refused(r),
        Ok(n) => deliver(mesh, viewers, from, to, serial, &outbox[..n]),
    }
}
