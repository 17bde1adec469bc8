// One call on the memory of one block of a mesh. A block that the mesh has not has no memory: a no to 1.
ghost use Rattle.std.specs.Prelude.{◌≡◌, [], ◌∷◌, map, ◌<◌};
ghost use Rattle.model.specs.Values.{limits_in};
ghost use Rattle.model.specs.Image.{words_of};
ghost use Rattle.model.specs.Calls.{number_of};
ghost use Rattle.model.specs.DividedRun.{Call, receiving, releasing, redirecting, redirect_step, messages_in};
ghost use Rattle.answers.specs.Answers.{answer_of};
ghost use Rattle.rounds.specs.Played.{Stepped, DoesCall, Ran, at_block};
ghost use Rattle.std.specs.Fn.{FnOnceReturnsAtMut};

use crate::{either, post};
use answers::{Answer, Refusal};
use memory::header::{Header, Limits};

// Words of the memory of block b.
pub fn own_words(viewers: u32, b: usize) -> usize
    ensures { result ≡ words_of (limits_in viewers b) }
{
    Limits::among(viewers, b as u64).words()
}

// A call on the memory of block b.
fn call_at<F: FnOnce(&mut [u64]) -> Answer>(
    mesh: &mut [u64],
    viewers: u32,
    b: u64,
    call: F,
) -> Answer
    requires { F.IsAlwaysCallable call }
    ensures { (c : Call) → DoesCall (λ m r m'. FnOnceReturnsAtMut F.FnOnce call m r m') c → Stepped viewers mesh.old (at_block b c) (number_of (answer_of result)) mesh.new }
{
    if (mesh.len() / Header::WORDS) as u64 <= b {
        return Err(Refusal::MemorySize);
    }
    let from = b as usize * Header::WORDS;
    let end = from + own_words(viewers, b as usize);
    call(&mut mesh[from..end])
}

// Receive at any block.
pub fn receive_at(mesh: &mut [u64], viewers: u32, b: u64, message: &[u8]) -> Answer
    ensures { Stepped viewers mesh.old (at_block b (receiving message.now)) (number_of (answer_of result)) mesh.new }
{
    call_at(mesh, viewers, b, |block| either::receive(block, message))
}

// Release at any block.
pub fn release_at(mesh: &mut [u64], viewers: u32, b: u64, to: u64, serial: u64) -> Answer
    ensures { Stepped viewers mesh.old (at_block b (releasing to serial)) (number_of (answer_of result)) mesh.new }
{
    call_at(mesh, viewers, b, |block| either::release(block, to, serial))
}

// Redirect at any block.
pub fn redirect_at(mesh: &mut [u64], viewers: u32, b: u64, message: &[u8]) -> Answer
    ensures { Stepped viewers mesh.old (at_block b (redirecting message.now)) (number_of (answer_of result)) mesh.new }
{
    call_at(mesh, viewers, b, |block| either::redirect(block, message))
}

// One update, at the block that it is addressed to; whether it is served.
fn redirect_message(mesh: &mut [u64], viewers: u32, message: &[u8]) -> bool
    ensures { Ran viewers mesh.old (redirect_step message.now ∷ []) result mesh.new }
{
    let b = post::addressee(message);
    redirect_at(mesh, viewers, b, message).is_ok()
}

// Updates that stand one after the other, each at its block; whether all are served.
pub fn redirect_all(mesh: &mut [u64], viewers: u32, updates: &[u8]) -> bool
    ensures { Ran viewers mesh.old (map redirect_step (messages_in updates.now)) result mesh.new }
{
    // Those before `at` are told; all were served, if ok.
    let mut ok = true;
    let mut at = 0;
    while at < updates.len() {
        let end = at + post::first_message(&updates[at..]);
        let told = redirect_message(mesh, viewers, &updates[at..end]);
        ok = ok & told;
        at = end;
    }
    ok
}

// The end of a round whose volume was taken: release, then the updates; whether all are served.
pub fn finish(
    mesh: &mut [u64],
    viewers: u32,
    from: u64,
    to: u64,
    serial: u64,
    updates: &[u8],
) -> bool
    ensures { Ran viewers mesh.old (at_block from (releasing to serial) ∷ map redirect_step (messages_in updates.now)) result mesh.new }
{
    let released = release_at(mesh, viewers, from, to, serial).is_ok();
    let told = redirect_all(mesh, viewers, updates);
    released & told
}
