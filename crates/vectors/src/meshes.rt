// Meshes stored as the files of their blocks, and digests that stand for a block's memory.
use crate::cursor;
use crate::cursor::NOWHERE;
use memory::header::Header;

// A word's halves are added, high one first: the sum so far times a number, modulo a prime below 2^32.
fn add(sum: u64, half: u64) -> u64 {
    (sum % 4294967291 * 1000003 + half % 4294967296) % 4294967291
}

fn word_at(mesh: &[u64], at: usize) -> u64 {
    mesh.get(at).copied().unwrap_or(0)
}

// Word i of block b.
fn word_of(mesh: &[u64], b: usize, i: usize) -> u64 {
    if b < memory::header::BLOCKS {
        if i < Header::WORDS {
            return word_at(mesh, b * Header::WORDS + i);
        }
    }
    0
}

// A digest of block b.
pub fn digest(mesh: &[u64], b: usize) -> u64 {
    let mut sum = 0;
    for i in 0..Header::WORDS {
        let word = word_of(mesh, b, i);
        sum = add(add(sum, word / 4294967296), word % 4294967296);
    }
    sum
}

// Reads a block's file from part of the input; whether it is served.
fn read_block(input: &[u8], from: usize, end: usize, block: &mut [u64]) -> bool {
    if from <= end {
        if end <= input.len() {
            let answer = readfile::read_file(&input[from..end], block);
            return answers::answer_number(answer) == 0;
        }
    }
    false
}

// The same into block b of a mesh.
fn read_part(input: &[u8], from: usize, end: usize, mesh: &mut [u64], b: usize) -> bool {
    if b < mesh.len() / Header::WORDS {
        let start = b * Header::WORDS;
        let past = start + Header::WORDS;
        return read_block(input, from, end, &mut mesh[start..past]);
    }
    false
}

// Reads k files, each behind its length, into the blocks of a mesh; the place past them, nowhere where one is refused.
pub fn read_mesh(input: &[u8], at: usize, mesh: &mut [u64], k: usize) -> usize {
    let mut place = at;
    for b in 0..k {
        let from = cursor::step(input, place, 4);
        let end = cursor::bytes_end(input, place);
        if !read_part(input, from, end, mesh, b) {
            return NOWHERE;
        }
        place = end;
    }
    place
}
