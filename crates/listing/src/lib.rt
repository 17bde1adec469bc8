// The listing of a block as text, and what is printed instead: each text is put at the start of an output.
#![tactic(auto)]

pub mod text; // text.rt: numbers in decimal, and texts
pub mod lines; // lines.rt: a line for the block, and one for each dart

ghost use Rattle.std.specs.Prelude.{true, ◌++◌, ◌≡◌, ◌≤◌, length};
ghost use Rattle.model.specs.Image.{block_in, holds_block};
ghost use Rattle.model.specs.Text.{bytes, decimal};
ghost use Rattle.model.specs.Listing.{listing};
ghost use Rattle.listing.specs.Printed.{Printed, listing_room, refusal_room};

use memory::header::Header;

// Bytes that are enough for any listing: a first line of at most 40, and 60 for each of 4,096 darts.
pub const ROOM: usize = 262144;

// The listing of a sound block.
pub fn put_listing(block: &[u64], out: &mut [u8]) -> usize
    requires { (holds_block block.now ≡ true) × (listing_room ≤ length out.old) }
    ensures { Printed (listing (block_in block.now)) out.old out.new result }
{
    let past_header = lines::put_header(block, out);
    lines::put_darts(block, block[Header::COUNT] as usize, out, past_header)
}

// What is printed of a refusal.
pub fn put_refused(number: u32, out: &mut [u8]) -> usize
    requires { refusal_room ≤ length out.old }
    ensures { Printed (bytes "refused " ++ decimal number ++ bytes "\n") out.old out.new result }
{
    let past_text = text::put_text(out, 0, b"refused ");
    text::put_number(out, past_text, number as u64, b'\n')
}

// What is printed of a file that is too long to be read.
pub fn put_too_long(out: &mut [u8]) -> usize
    requires { refusal_room ≤ length out.old }
    ensures { Printed (bytes "too long\n") out.old out.new result }
{
    text::put_text(out, 0, b"too long\n")
}
