// Lent memory and bytes: filled from a record before a call, compared with it after.
use crate::cursor;
use crate::cursor::NOWHERE;

// Writes the words of one run; gives the place past them.
fn run(s: &[u8], at: usize, start: usize, count: usize, block: &mut [u64]) -> usize {
    let mut a = at;
    let mut to = block.iter_mut().skip(start);
    // The next word stands at a.
    for _ in 0..count {
        let Some(word) = to.next() else {
            return NOWHERE;
        };
        *word = cursor::word(s, a);
        a = cursor::word_end(s, a);
    }
    a
}

// A run: start, count of words, the words.
fn one_run(s: &[u8], at: usize, block: &mut [u64]) -> usize {
    let count = cursor::step(s, at, 4);
    let first = cursor::step(s, at, 8);
    run(
        s,
        first,
        cursor::short(s, at),
        cursor::short(s, count),
        block,
    )
}

// Writes runs over memory; gives the place past them.
pub fn runs(s: &[u8], at: usize, block: &mut [u64]) -> usize {
    let mut a = cursor::step(s, at, 4);
    // The next run stands at a.
    for _ in 0..cursor::short(s, at) {
        if a == NOWHERE {
            return a;
        }
        a = one_run(s, a, block);
    }
    a
}

// Memory: count of words, runs; words in no run are zero. Gives the place past it.
pub fn words(s: &[u8], at: usize, block: &mut [u64]) -> usize {
    memory::header::clear(block);
    runs(s, cursor::step(s, at, 4), block)
}

// Byte i of a room: of the n bytes written, or the fill.
fn told(s: &[u8], at: usize, n: usize, fill: u8, i: usize) -> u8 {
    if i < n {
        return cursor::byte(s, cursor::step(s, at, i));
    }
    fill
}

// Whether n bytes that stand at a place are the front of lent bytes, and the fill is the rest.
pub fn front_is(s: &[u8], at: usize, n: usize, fill: u8, out: &[u8]) -> bool {
    if out.len() < n {
        return false;
    }
    for (i, byte) in out.iter().enumerate() {
        if *byte != told(s, at, n, fill, i) {
            return false;
        }
    }
    true
}

// Whether lent bytes are as a room tells: length, fill, count of bytes written, these.
pub fn room_is(s: &[u8], at: usize, written: usize, out: &[u8]) -> bool {
    let fill = cursor::byte(s, cursor::step(s, at, 4));
    let count = cursor::step(s, at, 5);
    let bytes = cursor::step(s, at, 9);
    if cursor::short(s, count) != written {
        return false;
    }
    front_is(s, bytes, written, fill, out)
}
