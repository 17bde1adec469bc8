// The public calls by their C names, as include/dmap.h declares them: each is its function in `dmap`, with the same contract. A slice is a
// pointer and a length there.
#![tactic(auto)]

ghost use Rattle.model.specs.Values.{rack, viewer, limits_in};
ghost use Rattle.model.specs.Calls as calls;
ghost use Rattle.dmap.specs.CInterface.{AnswerNumbered, WrittenCounted, point_words, next_move_told, Moved};

#[unsafe(no_mangle)]
pub extern "C" fn dmap_empty(number: u64, block: &mut [u64]) -> u32
    ensures { AnswerNumbered (calls.empty rack number block.old) result block.new }
{
    dmap::dmap_empty(number, block)
}

#[unsafe(no_mangle)]
pub extern "C" fn dmap_read_file(file: &[u8], block: &mut [u64]) -> u32
    ensures { AnswerNumbered (calls.read_file rack file.now block.old) result block.new }
{
    dmap::dmap_read_file(file, block)
}

#[unsafe(no_mangle)]
pub extern "C" fn dmap_save_file(block: &[u64], out: &mut [u8], written: &mut u64) -> u32
    ensures { WrittenCounted (calls.save_file rack block.now out.old) written.old result out.new written.new }
{
    dmap::dmap_save_file(block, out, written)
}

#[unsafe(no_mangle)]
pub extern "C" fn dmap_write_pages(block: &[u64], out: &mut [u8], written: &mut u64) -> u32
    ensures { WrittenCounted (calls.write_pages rack block.now out.old) written.old result out.new written.new }
{
    dmap::dmap_write_pages(block, out, written)
}

#[unsafe(no_mangle)]
pub extern "C" fn dmap_read_pages(pages: &[u8], block: &mut [u64]) -> u32
    ensures { AnswerNumbered (calls.read_pages rack pages.now block.old) result block.new }
{
    dmap::dmap_read_pages(pages, block)
}

#[unsafe(no_mangle)]
pub extern "C" fn dmap_send(
    block: &[u64],
    to: u64,
    serial: u64,
    outbox: &mut [u8],
    written: &mut u64,
) -> u32
    ensures { WrittenCounted (calls.send rack block.now to serial outbox.old) written.old result outbox.new written.new }
{
    dmap::dmap_send(block, to, serial, outbox, written)
}

#[unsafe(no_mangle)]
pub extern "C" fn dmap_receive(block: &mut [u64], message: &[u8]) -> u32
    ensures { AnswerNumbered (calls.receive rack block.old message.now) result block.new }
{
    dmap::dmap_receive(block, message)
}

#[unsafe(no_mangle)]
pub extern "C" fn dmap_release(block: &mut [u64], to: u64, serial: u64) -> u32
    ensures { AnswerNumbered (calls.release rack block.old to serial) result block.new }
{
    dmap::dmap_release(block, to, serial)
}

#[unsafe(no_mangle)]
pub extern "C" fn dmap_redirect(block: &mut [u64], message: &[u8]) -> u32
    ensures { AnswerNumbered (calls.redirect rack block.old message.now) result block.new }
{
    dmap::dmap_redirect(block, message)
}

#[unsafe(no_mangle)]
pub extern "C" fn dmap_check_mesh(mesh: &[u64], viewers: u32, scratch: &mut [u64]) -> u32
    ensures { AnswerNumbered (calls.check_mesh (limits_in viewers) mesh.now scratch.old) result scratch.new }
{
    dmap::dmap_check_mesh(mesh, viewers, scratch)
}

// Bit b of `viewers` says that the block numbered b is a viewer's. Oracle 0 is every volume, 1 the box of two points, 2 the plane on an axis at x0.
#[unsafe(no_mangle)]
pub extern "C" fn dmap_next_move(
    mesh: &[u64],
    viewers: u32,
    oracle: u32,
    axis: u32,
    x0: f64,
    y0: f64,
    z0: f64,
    x1: f64,
    y1: f64,
    z1: f64,
    scratch: &mut [u64],
    answer: &mut [u64],
) -> u32
    ensures { Moved (next_move_told mesh.now viewers oracle axis (point_words x0 y0 z0) (point_words x1 y1 z1) scratch.old answer.old) answer.old result scratch.new answer.new }
{
    dmap::dmap_next_move(
        mesh, viewers, oracle, axis, x0, y0, z0, x1, y1, z1, scratch, answer,
    )
}

// THE CALLS OF THE OFFICE'S VIEWER, on memory of 2,056 words.
#[unsafe(no_mangle)]
pub extern "C" fn dmap_viewer_empty(number: u64, block: &mut [u64]) -> u32
    ensures { AnswerNumbered (calls.empty viewer number block.old) result block.new }
{
    dmap::dmap_viewer_empty(number, block)
}

#[unsafe(no_mangle)]
pub extern "C" fn dmap_viewer_read_file(file: &[u8], block: &mut [u64]) -> u32
    ensures { AnswerNumbered (calls.read_file viewer file.now block.old) result block.new }
{
    dmap::dmap_viewer_read_file(file, block)
}

#[unsafe(no_mangle)]
pub extern "C" fn dmap_viewer_save_file(block: &[u64], out: &mut [u8], written: &mut u64) -> u32
    ensures { WrittenCounted (calls.save_file viewer block.now out.old) written.old result out.new written.new }
{
    dmap::dmap_viewer_save_file(block, out, written)
}

#[unsafe(no_mangle)]
pub extern "C" fn dmap_viewer_write_pages(block: &[u64], out: &mut [u8], written: &mut u64) -> u32
    ensures { WrittenCounted (calls.write_pages viewer block.now out.old) written.old result out.new written.new }
{
    dmap::dmap_viewer_write_pages(block, out, written)
}

#[unsafe(no_mangle)]
pub extern "C" fn dmap_viewer_read_pages(pages: &[u8], block: &mut [u64]) -> u32
    ensures { AnswerNumbered (calls.read_pages viewer pages.now block.old) result block.new }
{
    dmap::dmap_viewer_read_pages(pages, block)
}

#[unsafe(no_mangle)]
pub extern "C" fn dmap_viewer_send(
    block: &[u64],
    to: u64,
    serial: u64,
    outbox: &mut [u8],
    written: &mut u64,
) -> u32
    ensures { WrittenCounted (calls.send viewer block.now to serial outbox.old) written.old result outbox.new written.new }
{
    dmap::dmap_viewer_send(block, to, serial, outbox, written)
}

#[unsafe(no_mangle)]
pub extern "C" fn dmap_viewer_receive(block: &mut [u64], message: &[u8]) -> u32
    ensures { AnswerNumbered (calls.receive viewer block.old message.now) result block.new }
{
    dmap::dmap_viewer_receive(block, message)
}

#[unsafe(no_mangle)]
pub extern "C" fn dmap_viewer_release(block: &mut [u64], to: u64, serial: u64) -> u32
    ensures { AnswerNumbered (calls.release viewer block.old to serial) result block.new }
{
    dmap::dmap_viewer_release(block, to, serial)
}

#[unsafe(no_mangle)]
pub extern "C" fn dmap_viewer_redirect(block: &mut [u64], message: &[u8]) -> u32
    ensures { AnswerNumbered (calls.redirect viewer block.old message.now) result block.new }
{
    dmap::dmap_viewer_redirect(block, message)
}
