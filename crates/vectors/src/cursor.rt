// Numbers of a record, least significant byte first. What lies past a record's end reads as zero, and the place past it is nowhere.

// Past the end of every record.
pub const NOWHERE: usize = usize::MAX;

pub fn byte(s: &[u8], at: usize) -> u8 {
    s.get(at).copied().unwrap_or(0)
}

// The place n bytes on.
pub fn step(s: &[u8], at: usize, n: usize) -> usize {
    if at <= s.len() {
        if n <= s.len() - at {
            return at + n;
        }
    }
    NOWHERE
}

// Byte i of a number of n bytes.
fn digit(s: &[u8], at: usize, n: usize, i: usize) -> u64 {
    if i < n {
        return u64::from(byte(s, step(s, at, i)));
    }
    0
}

// The low four bytes of a number of n bytes.
fn low(s: &[u8], at: usize, n: usize) -> u64 {
    digit(s, at, n, 0)
        | digit(s, at, n, 1) << 8
        | digit(s, at, n, 2) << 16
        | digit(s, at, n, 3) << 24
}

// The high four bytes of a number of n bytes.
fn high(s: &[u8], at: usize, n: usize) -> u64 {
    digit(s, at, n, 4)
        | digit(s, at, n, 5) << 8
        | digit(s, at, n, 6) << 16
        | digit(s, at, n, 7) << 24
}

// A number of n bytes, at most eight.
pub fn number(s: &[u8], at: usize, n: usize) -> u64 {
    low(s, at, n) | high(s, at, n) << 32
}

// A count or a length: four bytes.
pub fn short(s: &[u8], at: usize) -> usize {
    number(s, at, 4) as usize
}

// The place past bytes that follow their length.
pub fn bytes_end(s: &[u8], at: usize) -> usize {
    step(s, step(s, at, 4), short(s, at))
}

// A word: the count of its low bytes that are written, then these.
pub fn word(s: &[u8], at: usize) -> u64 {
    number(s, step(s, at, 1), usize::from(byte(s, at)))
}

// The place past a word.
pub fn word_end(s: &[u8], at: usize) -> usize {
    let n = usize::from(byte(s, at));
    if 8 < n {
        return NOWHERE;
    }
    step(s, step(s, at, 1), n)
}
