// What is printed: texts, numbers, and what a refusal means.
use crate::cause::Cause;

// What is wrong was said.
#[derive(Clone, Copy, PartialEq, Eq, Debug)]
pub struct Told;

// How a command failed, which was said: a file, a request or a check is refused; or it is not done, for another reason.
#[derive(Clone, Copy, PartialEq, Eq, Debug)]
pub enum Failure {
    Refused,
    Error,
}

impl From<Told> for Failure {
    fn from(_told: Told) -> Failure {
        Failure::Error
    }
}

pub fn text(s: &[u8]) {
    io::write_all(1, s);
}

// A text on standard error.
pub fn complain(s: &[u8]) {
    io::write_all(2, s);
}

pub fn complain_number(n: u64) {
    io::print_decimal(2, n);
}

pub fn number(n: u64) {
    io::print_decimal(1, n);
}

// A line that begins with what is wrong.
pub fn error(s: &[u8]) {
    complain(b"error: ");
    complain(s);
    complain(b"\n");
}

// What a no to a question means: why a file was refused, a basin, a request.
fn words(question: u32) -> &'static [u8] {
    match question {
        2 => b"a viewer's block has more than 256 darts",
        3 => b"the file is cut off, too long, or has a number out of range",
        4 => b"a coordinate is not finite",
        5 => b"next or opposite links are wrong",
        6 => b"third links are wrong, or a face has two kinds of them",
        7 => b"a label occurs twice, names this block, or is not below the counter",
        8 => b"points that should agree differ",
        9 => b"the destination is the block itself, or above 15",
        10 => b"the block does not hold this serial",
        11 => b"the cell has more than 512 darts, or more than 64 and an end is a viewer's",
        12 => b"the cell is sewn to itself",
        13 => b"two edges of the cell join the same two corners, or an edge ends where it starts",
        14 => b"the block's counter is at its end",
        21 => b"the destination would have more than 4096 darts, or as a viewer's more than 256",
        23 => b"a block's number is not that of its file",
        24 => b"a serial occurs in two blocks",
        25 => b"a label is not paired between the two blocks that it joins",
        26 => b"points differ across two blocks",
        27 => b"a label's maker is not here, or its number is not below the maker's counter",
        28 => b"the oracle's numbers are wrong: low above high, or an axis other than 0 to 2",
        29 => b"the cell has more than 64 darts, and the destination is a viewer's",
        _ => b"the basin has no such block",
    }
}

pub fn meaning(question: u32) {
    text(words(question));
}

// A refusal by its number, without its meaning.
pub fn refused(question: u32) {
    text(b"refused ");
    number(u64::from(question));
    text(b": ");
}

// What could not be done to a file, and why.
pub fn failed(what: &[u8], name: &[u8], cause: Cause) {
    complain(b"error: ");
    complain(what);
    complain(b" ");
    complain(name);
    complain(b": ");
    complain(cause.meaning());
    complain(b"\n");
}
