// A line of a script: its command, and what follows, with one space between.
ghost use Rattle.std.specs.Prelude.{◌<◌};

// The line's command, its first word.
pub fn command(line: &[u8]) -> &[u8] {
    line.split(|b| *b == b' ').next().unwrap_or(line)
}

// The line from word k on; no byte where there is none.
pub fn from(line: &[u8], k: usize) -> &[u8] {
    line.splitn(k.saturating_add(1), |b| *b == b' ')
        .nth(k)
        .unwrap_or(b"")
}

// A number with one digit more; it has at most nineteen.
fn with_digit(n: u64, b: u8) -> u64 {
    n % 1000000000000000000 * 10 + u64::from(b % 16)
}

// The number with which a text begins.
pub fn leading_number(text: &[u8]) -> u64 {
    let mut n = 0;
    for b in text {
        if *b < b'0' {
            return n;
        }
        n = with_digit(n, *b);
    }
    n
}

// Word k as a number.
pub fn number(line: &[u8], k: usize) -> u64 {
    leading_number(from(line, k))
}

// Word k as an index or a count, below 2^20.
pub fn index(line: &[u8], k: usize) -> usize
    ensures { result < 1048576 }
{
    (number(line, k) % 1048576) as usize
}

// Word k as a number of 32 bits.
pub fn small(line: &[u8], k: usize) -> u32 {
    (number(line, k) % 4294967296) as u32
}

fn hex_digit(b: u8) -> u8 {
    if b <= b'9' {
        return b % 16;
    }
    b % 16 + 9
}

fn hex_byte(high: u8, low: u8) -> u8 {
    hex_digit(high) % 16 * 16 + hex_digit(low) % 16
}

// Puts the bytes that word 2 tells, two digits each; what has no place is left out.
pub fn put_bytes(bytes: &mut [u8], at: usize, line: &[u8])
    requires { at < 1048576 }
{
    let told = from(line, 2).chunks_exact(2);
    for (byte, digits) in bytes.iter_mut().skip(at).zip(told) {
        if let [high, low] = digits {
            *byte = hex_byte(*high, *low);
        }
    }
}

// Sets every byte.
pub fn fill(bytes: &mut [u8], b: usize) {
    bytes.fill((b % 256) as u8);
}
