// The public calls: by their Rattle names with an enum for an answer (a crate that calls them lists `dmap answers`), and by their C names with
// a number, which the crate `dmap_c` exports.
#![tactic(auto)]

ghost use Rattle.std.specs.Prelude.{◌≡◌, ◌∷◌, map, length, drop};
ghost use Rattle.model.specs.Values.{rack, viewer, limits_in};
ghost use Rattle.model.specs.Calls as calls;
ghost use Rattle.answers.specs.Answers.{written_of};
ghost use Rattle.balance.specs.Answer.{balance_told};
ghost use Rattle.dmap.specs.CInterface.{AnswerNumbered, CountWritten, WrittenCounted, point_words, answer_words, next_move_told, ToldBalance, Moved, with_surpluses};

pub use answers::{Answer, NextMove, Refusal, Written};
pub use balance::nextmove::{Balance, next_move};
pub use checkmesh::check_mesh;
use memory::header::BLOCKS;
pub use memory::header::empty;
pub use memory::point::Point;
pub use oracle::Oracle;
pub use readfile::read_file;
pub use readpages::read_pages;
pub use receive::receive;
pub use redirect::redirect;
pub use release::release;
pub use savefile::save_file;
pub use send::send;
pub use viewer::{
    empty as viewer_empty, read_file as viewer_read_file, read_pages as viewer_read_pages,
    receive as viewer_receive, redirect as viewer_redirect, release as viewer_release,
    save_file as viewer_save_file, send as viewer_send, write_pages as viewer_write_pages,
};
pub use writepages::write_pages;

pub fn dmap_empty(number: u64, block: &mut [u64]) -> u32
    ensures { AnswerNumbered (calls.empty rack number block.old) result block.new }
{
    answers::answer_number(memory::header::empty(number, block))
}

pub fn dmap_read_file(file: &[u8], block: &mut [u64]) -> u32
    ensures { AnswerNumbered (calls.read_file rack file.now block.old) result block.new }
{
    answers::answer_number(readfile::read_file(file, block))
}

pub fn dmap_save_file(block: &[u64], out: &mut [u8], written: &mut u64) -> u32
    ensures { WrittenCounted (calls.save_file rack block.now out.old) written.old result out.new written.new }
{
    tell_written(savefile::save_file(block, out), written)
}

pub fn dmap_write_pages(block: &[u64], out: &mut [u8], written: &mut u64) -> u32
    ensures { WrittenCounted (calls.write_pages rack block.now out.old) written.old result out.new written.new }
{
    tell_written(writepages::write_pages(block, out), written)
}

pub fn dmap_read_pages(pages: &[u8], block: &mut [u64]) -> u32
    ensures { AnswerNumbered (calls.read_pages rack pages.now block.old) result block.new }
{
    answers::answer_number(readpages::read_pages(pages, block))
}

pub fn dmap_send(block: &[u64], to: u64, serial: u64, outbox: &mut [u8], written: &mut u64) -> u32
    ensures { WrittenCounted (calls.send rack block.now to serial outbox.old) written.old result outbox.new written.new }
{
    tell_written(send::send(block, to, serial, outbox), written)
}

pub fn dmap_receive(block: &mut [u64], message: &[u8]) -> u32
    ensures { AnswerNumbered (calls.receive rack block.old message.now) result block.new }
{
    answers::answer_number(receive::receive(block, message))
}

pub fn dmap_release(block: &mut [u64], to: u64, serial: u64) -> u32
    ensures { AnswerNumbered (calls.release rack block.old to serial) result block.new }
{
    answers::answer_number(release::release(block, to, serial))
}

pub fn dmap_redirect(block: &mut [u64], message: &[u8]) -> u32
    ensures { AnswerNumbered (calls.redirect rack block.old message.now) result block.new }
{
    answers::answer_number(redirect::redirect(block, message))
}

pub fn dmap_check_mesh(mesh: &[u64], viewers: u32, scratch: &mut [u64]) -> u32
    ensures { AnswerNumbered (calls.check_mesh (limits_in viewers) mesh.now scratch.old) result scratch.new }
{
    answers::answer_number(checkmesh::check_mesh(mesh, viewers, scratch))
}

// Bit b of `viewers` says that the block numbered b is a viewer's. Oracle 0 is every volume, 1 the box of two points, 2 the plane on an axis at x0.
pub fn dmap_next_move(
    mesh: &[u64],
    viewers: u32,
    oracle: u32,
    axis: u32,
    x0: f64,
    y0: f64,
    z0: f64,
    x1: f64,
    y1: f64,
    z1: f64,
    scratch: &mut [u64],
    answer: &mut [u64],
) -> u32
    ensures { Moved (next_move_told mesh.now viewers oracle axis (point_words x0 y0 z0) (point_words x1 y1 z1) scratch.old answer.old) answer.old result scratch.new answer.new }
{
    if answer.len() != ANSWER {
        return 1;
    }
    let low = Point {
        x: x0,
        y: y0,
        z: z0,
    };
    let high = Point {
        x: x1,
        y: y1,
        z: z1,
    };
    tell_balance(
        balance::nextmove::next_move_by_number(mesh, viewers, oracle, axis, low, high, scratch),
        answer,
    )
}

// THE CALLS OF THE OFFICE'S VIEWER, on memory of 2,056 words.
pub fn dmap_viewer_empty(number: u64, block: &mut [u64]) -> u32
    ensures { AnswerNumbered (calls.empty viewer number block.old) result block.new }
{
    answers::answer_number(viewer::empty(number, block))
}

pub fn dmap_viewer_read_file(file: &[u8], block: &mut [u64]) -> u32
    ensures { AnswerNumbered (calls.read_file viewer file.now block.old) result block.new }
{
    answers::answer_number(viewer::read_file(file, block))
}

pub fn dmap_viewer_save_file(block: &[u64], out: &mut [u8], written: &mut u64) -> u32
    ensures { WrittenCounted (calls.save_file viewer block.now out.old) written.old result out.new written.new }
{
    tell_written(viewer::save_file(block, out), written)
}

pub fn dmap_viewer_write_pages(block: &[u64], out: &mut [u8], written: &mut u64) -> u32
    ensures { WrittenCounted (calls.write_pages viewer block.now out.old) written.old result out.new written.new }
{
    tell_written(viewer::write_pages(block, out), written)
}

pub fn dmap_viewer_read_pages(pages: &[u8], block: &mut [u64]) -> u32
    ensures { AnswerNumbered (calls.read_pages viewer pages.now block.old) result block.new }
{
    answers::answer_number(viewer::read_pages(pages, block))
}

pub fn dmap_viewer_send(
    block: &[u64],
    to: u64,
    serial: u64,
    outbox: &mut [u8],
    written: &mut u64,
) -> u32
    ensures { WrittenCounted (calls.send viewer block.now to serial outbox.old) written.old result outbox.new written.new }
{
    tell_written(viewer::send(block, to, serial, outbox), written)
}

pub fn dmap_viewer_receive(block: &mut [u64], message: &[u8]) -> u32
    ensures { AnswerNumbered (calls.receive viewer block.old message.now) result block.new }
{
    answers::answer_number(viewer::receive(block, message))
}

pub fn dmap_viewer_release(block: &mut [u64], to: u64, serial: u64) -> u32
    ensures { AnswerNumbered (calls.release viewer block.old to serial) result block.new }
{
    answers::answer_number(viewer::release(block, to, serial))
}

pub fn dmap_viewer_redirect(block: &mut [u64], message: &[u8]) -> u32
    ensures { AnswerNumbered (calls.redirect viewer block.old message.now) result block.new }
{
    answers::answer_number(viewer::redirect(block, message))
}

// The number of an answer; the bytes written go out only where the call was served.
fn tell_written(w: Written, written: &mut u64) -> u32
    ensures { CountWritten (written_of w) written.old result written.new }
{
    match w {
        Ok(n) => {
            *written = n as u64;
            0
        }
        Err(r) => answers::refusal_number(r),
    }
}

// The words of next move's answer: its kind, donor, recipient, serial and mean, and the surplus of each block.
const ANSWER: usize = 21;

// The first five words.
fn put_words(answer: &mut [u64], kind: u64, donor: u64, recipient: u64, serial: u64, mean: u64)
    requires { length answer.old ≡ answer_words }
    ensures { answer.new ≡ kind ∷ donor ∷ recipient ∷ serial ∷ mean ∷ drop 5 answer.old }
{
    answer[0] = kind;
    answer[1] = donor;
    answer[2] = recipient;
    answer[3] = serial;
    answer[4] = mean;
}

// The surpluses, behind them.
fn put_surpluses(answer: &mut [u64], surplus: [i32; BLOCKS])
    requires { length answer.old ≡ answer_words }
    ensures { answer.new ≡ with_surpluses answer.old surplus }
{
    // Those before i are put.
    for i in 0..BLOCKS {
        answer[5 + i] = balance::nextmove::signed_word(surplus[i]);
    }
}

// All words.
fn put_balance(
    answer: &mut [u64],
    kind: u64,
    donor: u64,
    recipient: u64,
    serial: u64,
    mean: u32,
    surplus: [i32; BLOCKS],
)
    requires { length answer.old ≡ answer_words }
    ensures { answer.new ≡ kind ∷ donor ∷ recipient ∷ serial ∷ mean ∷ map calls.signed_word surplus }
{
    put_words(answer, kind, donor, recipient, serial, mean as u64);
    put_surpluses(answer, surplus);
}

// The number of an answer; the next move, the mean and the surpluses go out only where the call was served.
fn tell_balance(b: Balance, answer: &mut [u64]) -> u32
    requires { length answer.old ≡ answer_words }
    ensures { ToldBalance (balance_told b) answer.old result answer.new }
{
    let next = b.next;
    let surplus = b.surplus;
    match next {
        NextMove::Level => {
            put_balance(answer, 0, 0, 0, 0, b.mean, surplus);
            0
        }
        NextMove::Blocked => {
            put_balance(answer, 1, 0, 0, 0, b.mean, surplus);
            0
        }
        NextMove::Move(donor, recipient, serial) => {
            put_balance(
                answer,
                2,
                donor as u64,
                recipient as u64,
                serial,
                b.mean,
                surplus,
            );
            0
        }
        NextMove::Refused(r) => answers::refusal_number(r),
    }
}
