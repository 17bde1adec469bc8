// The records on standard input, and what is printed of them.
use crate::cursor;

// What may be found of a record.
pub const VERDICTS: usize = 5;

// Reads the next call and its record, in lent room. None where the input ends, or where they are not whole, which is said.
pub fn next<'a>(room: &'a mut [u8]) -> Option<(u8, &'a [u8])> {
    let mut head = [0u8; 5];
    let got = io::read_full(0, &mut head);
    if got == 0 {
        return None;
    }
    let n = cursor::short(&head, 1);
    if got == 5 && n <= room.len() && io::read_full(0, &mut room[0..n]) == n {
        return Some((head[0], &room[0..n]));
    }
    io::write_all(1, b"the input is cut off, or a record is too long\n");
    None
}

// A count, in a line behind what it counts.
pub fn show_count(what: &[u8], n: u64) {
    io::write_all(1, what);
    io::print_decimal(1, n);
    io::write_all(1, b"\n");
}

// How many records of each verdict there were.
pub fn show_verdicts(counts: [u64; VERDICTS]) {
    let [
        as_told,
        other_answer,
        other_content,
        unreadable,
        passed_over,
    ] = counts;
    show_count(b"as told: ", as_told);
    show_count(b"another answer: ", other_answer);
    show_count(b"other content: ", other_content);
    show_count(b"cannot be read: ", unreadable);
    show_count(b"passed over: ", passed_over);
}
