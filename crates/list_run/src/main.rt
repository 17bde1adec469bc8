// Lists the files on standard input one after the other, each behind its length in four bytes, as the listing program would.
#![tactic(auto)]

use vectors::cursor;

// A line with the file's number, then its listing.
fn list(number: u64, file: &[u8]) {
    io::write_all(1, b"file ");
    io::print_decimal(1, number);
    io::write_all(1, b"\n");
    listfile::print_file(file);
}

// Lists file after file.
fn list_all(input: &[u8]) {
    // The length of the next file stands at `at`; before it there are `before` others.
    let mut at = 0;
    for before in 0..1000000 {
        if input.len() <= at {
            return;
        }
        let from = cursor::step(input, at, 4);
        let end = cursor::bytes_end(input, at);
        if input.len() < end {
            io::write_all(1, b"the input is cut off\n");
            return;
        }
        if let Some(file) = input.get(from..end) {
            list(before + 1, file);
        }
        at = end;
    }
}

fn main() {
    let mut input = [0u8; 262144];
    let n = io::read_full(0, &mut input);
    // An input that fills its room may have been longer.
    if n < input.len() {
        list_all(&input[..n]);
    } else {
        io::write_all(1, b"the input is too long\n");
    }
}
