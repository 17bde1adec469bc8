// A call on memory of either size: 2,056 words are a viewer's, any other number is asked of as the rack's.
ghost use Rattle.model.specs.Calls as calls;
ghost use Rattle.answers.specs.Answers.{answer_of, written_of, Gives};
ghost use Rattle.rounds.specs.Either.{limits_by};
ghost use Rattle.std.specs.Prelude.{length};

use answers::{Answer, Written};
use memory::header::Header;

pub fn send(block: &[u64], to: u64, serial: u64, outbox: &mut [u8]) -> Written
    ensures { Gives (calls.send (limits_by (length block.now)) block.now to serial outbox.old) (written_of result) outbox.new }
{
    if block.len() == Header::VIEWER_WORDS {
        return viewer::send(block, to, serial, outbox);
    }
    send::send(block, to, serial, outbox)
}

pub fn receive(block: &mut [u64], message: &[u8]) -> Answer
    ensures { Gives (calls.receive (limits_by (length block.old)) block.old message.now) (answer_of result) block.new }
{
    if block.len() == Header::VIEWER_WORDS {
        return viewer::receive(block, message);
    }
    receive::receive(block, message)
}

pub fn release(block: &mut [u64], to: u64, serial: u64) -> Answer
    ensures { Gives (calls.release (limits_by (length block.old)) block.old to serial) (answer_of result) block.new }
{
    if block.len() == Header::VIEWER_WORDS {
        return viewer::release(block, to, serial);
    }
    release::release(block, to, serial)
}

pub fn redirect(block: &mut [u64], message: &[u8]) -> Answer
    ensures { Gives (calls.redirect (limits_by (length block.old)) block.old message.now) (answer_of result) block.new }
{
    if block.len() == Header::VIEWER_WORDS {
        return viewer::redirect(block, message);
    }
    redirect::redirect(block, message)
}
