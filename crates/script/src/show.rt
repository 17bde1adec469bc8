// Figures on standard output.
use crate::line;

pub fn text(s: &[u8]) {
    io::write_all(1, s);
}

// A number and a space.
pub fn number(n: u64) {
    io::print_decimal(1, n);
    text(b" ");
}

pub fn small(n: u32) {
    number(u64::from(n));
}

pub fn size(n: usize) {
    number(n as u64);
}

pub fn newline() {
    text(b"\n");
}

// What follows the command of a line, and a colon.
pub fn rest(line: &[u8]) {
    text(line::from(line, 1));
    text(b": ");
}

fn word(memory: &[u64], i: usize) -> u64 {
    memory.get(i).copied().unwrap_or(0)
}

// n words from an index on, a stride apart.
pub fn words(memory: &[u64], at: usize, n: usize, stride: usize) {
    let mut at = at;
    for i in 0..n {
        number(word(memory, at));
        at = at.wrapping_add(stride);
    }
    newline();
}

// How many of the first words are not zero.
pub fn used(memory: &[u64], words: usize) {
    size(memory.iter().take(words).filter(|w| **w != 0).count());
    newline();
}

fn byte(bytes: &[u8], i: usize) -> u64 {
    u64::from(bytes.get(i).copied().unwrap_or(0))
}

// The first n bytes in hexadecimal.
pub fn hex(bytes: &[u8], n: usize) {
    for i in 0..n {
        io::print_hex(1, byte(bytes, i), 2);
    }
    newline();
}

// The sum of the bytes, each by its place, below 1,000,003.
pub fn sum(bytes: &[u8]) {
    let mut n: u64 = 0;
    for b in bytes {
        n = (n % 1000003 * 257).wrapping_add(u64::from(*b));
    }
    number(n % 1000003);
    newline();
}
