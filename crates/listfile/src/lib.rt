// What the listing program prints for a file: its listing, `refused N`, or `too long`.
#![tactic(auto)]

ghost use Rattle.std.specs.Prelude.{◌≤◌, length, replicate};
ghost use Rattle.model.specs.Values.{rack};
ghost use Rattle.model.specs.Image.{words};
ghost use Rattle.model.specs.Calls.{read_file};
ghost use Rattle.model.specs.Listing.{listing_of, listed};
ghost use Rattle.listing.specs.Printed.{Printed, listing_room};

use answers::Answer;
use memory::header::Header;

// Of a file of any length.
pub fn list_whole(file: &[u8], out: &mut [u8]) -> usize
    requires { listing_room ≤ length out.old }
    ensures { Printed (listing_of (read_file rack file.now (replicate words 0))) out.old out.new result }
{
    let mut block = [0u64; Header::WORDS];
    match readfile::read_file(file, &mut block) {
        Ok(()) => listing::put_listing(&block, out),
        Err(r) => listing::put_refused(answers::refusal_number(r), out),
    }
}

// Of a file of at most 65,536 bytes.
pub fn list_file(file: &[u8], out: &mut [u8]) -> usize
    requires { listing_room ≤ length out.old }
    ensures { Printed (listed rack file.now) out.old out.new result }
{
    if 65536 < file.len() {
        return listing::put_too_long(out);
    }
    list_whole(file, out)
}

// The first n bytes of a text, on standard output.
fn print(text: &[u8], n: usize) {
    if n <= text.len() {
        io::write_all(1, &text[0..n]);
    }
}

// Prints it for a file of at most 65,536 bytes.
pub fn print_file(file: &[u8]) {
    let mut out = [0u8; listing::ROOM];
    let n = list_file(file, &mut out);
    print(&out, n);
}
