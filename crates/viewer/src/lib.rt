// The calls of the office's viewer: those of the rack, on memory of 2,056 words. A block has at most 256 darts, a volume that is sent or
// taken at most 64; the arrays are as long.
#![tactic(auto)]

ghost use Rattle.model.specs.Values.{viewer};
ghost use Rattle.model.specs.Calls as calls;
ghost use Rattle.answers.specs.Answers.{answer_of, written_of, Gives};

use answers::{Answer, Written};
use memory::header;
use memory::header::{Header, Limits};

// Words of a draft: those of a header, 8 for each dart that a volume may have.
const DRAFT: usize = 520;

// Makes an empty block: 1, 9.
pub fn empty(number: u64, block: &mut [u64]) -> Answer
    ensures { Gives (calls.empty viewer number block.old) (answer_of result) block.new }
{
    header::empty_by(Limits::viewer(), number, block)
}

// Reads a file into a block: 1, 3 to 8.
pub fn read_file(file: &[u8], block: &mut [u64]) -> Answer
    ensures { Gives (calls.read_file viewer file.now block.old) (answer_of result) block.new }
{
    readfile::read_file_in::<{ Header::VIEWER_DARTS }, { Header::VIEWER_WORDS }>(
        file,
        Limits::viewer(),
        block,
    )
}

// Saves a block as a file: 1, 2, 15.
pub fn save_file(block: &[u64], out: &mut [u8]) -> Written
    ensures { Gives (calls.save_file viewer block.now out.old) (written_of result) out.new }
{
    savefile::save_file_in::<{ Header::VIEWER_DARTS }>(block, Limits::viewer(), out)
}

// Writes a block's pages: 1, 2, 30.
pub fn write_pages(block: &[u64], out: &mut [u8]) -> Written
    ensures { Gives (calls.write_pages viewer block.now out.old) (written_of result) out.new }
{
    writepages::write_pages_in::<{ Header::VIEWER_DARTS }>(block, Limits::viewer(), out)
}

// Reads pages into a block: 1, 3, 5 to 7.
pub fn read_pages(pages: &[u8], block: &mut [u64]) -> Answer
    ensures { Gives (calls.read_pages viewer pages.now block.old) (answer_of result) block.new }
{
    readpages::read_pages_in::<{ Header::VIEWER_DARTS }, { Header::VIEWER_WORDS }>(
        pages,
        Limits::viewer(),
        block,
    )
}

// Sends a volume to another block: 1, 2, 9 to 15.
pub fn send(block: &[u64], to: u64, serial: u64, outbox: &mut [u8]) -> Written
    ensures { Gives (calls.send viewer block.now to serial outbox.old) (written_of result) outbox.new }
{
    send::send_in::<{ Header::VIEWER_DARTS }, { Header::VIEWER_VOLUME }>(
        block,
        Limits::viewer(),
        to,
        serial,
        outbox,
    )
}

// Lets a volume go: 1, 2, 9 to 14.
pub fn release(block: &mut [u64], to: u64, serial: u64) -> Answer
    ensures { Gives (calls.release viewer block.old to serial) (answer_of result) block.new }
{
    release::release_in::<{ Header::VIEWER_DARTS }, { Header::VIEWER_VOLUME }>(
        block,
        Limits::viewer(),
        to,
        serial,
    )
}

// Takes the volume that a transfer brings: 1, 2, 16, 17, 29, 18 to 21.
pub fn receive(block: &mut [u64], message: &[u8]) -> Answer
    ensures { Gives (calls.receive viewer block.old message.now) (answer_of result) block.new }
{
    receive::receive_in::<{ Header::VIEWER_DARTS }, { Header::VIEWER_VOLUME }, DRAFT>(
        block,
        Limits::viewer(),
        message,
    )
}

// Redirects the faces that an update names: 1, 2, 16, 17, 22.
pub fn redirect(block: &mut [u64], message: &[u8]) -> Answer
    ensures { Gives (calls.redirect viewer block.old message.now) (answer_of result) block.new }
{
    redirect::redirect_in::<{ Header::VIEWER_DARTS }, 257>(block, Limits::viewer(), message)
}
