// Words and darts put into memory; what has no place there is left out.
ghost use Rattle.std.specs.Prelude.{◌<◌, ◌≤◌};

use crate::line;

fn put(memory: &mut [u64], i: usize, w: u64) {
    if i < memory.len() {
        memory[i] = w;
    }
}

// Puts the words of a line from its second on, at most 14.
pub fn put_words(memory: &mut [u64], at: usize, line: &[u8])
    requires { at < 16777216 }
{
    for k in 0..14 {
        let rest = line::from(line, k + 2);
        if rest.is_empty() {
            return;
        }
        put(memory, at + k, line::leading_number(rest));
    }
}

// Sets every word.
pub fn put_all(memory: &mut [u64], w: u64) {
    memory.fill(w);
}

// The index of the record at a place.
pub fn record(place: usize) -> usize
    requires { place < 1048576 }
    ensures { result < 16777216 }
{
    8 + place * 8
}

fn dart(
    memory: &mut [u64],
    place: usize,
    serial: u64,
    next: usize,
    opposite: usize,
    kind: u64,
    link: u64,
    x: u64,
)
    requires { place < 8388608 }
{
    let at = 8 + place * 8;
    put(memory, at, serial);
    put(memory, at + 1, next as u64);
    put(memory, at + 2, opposite as u64);
    put(memory, at + 3, kind);
    put(memory, at + 4, link);
    put(memory, at + 5, x);
}

// The next of n in a ring.
fn after(i: usize, n: usize) -> usize
    requires { (i < n) × (n < 1048576) }
    ensures { result < n }
{
    if i + 1 < n {
        return i + 1;
    }
    0
}

// Dart i of a face of n darts from place p on, with its point, and its opposite in the face behind, with the next dart's.
fn edge(memory: &mut [u64], p: usize, serial: usize, n: usize, i: usize, x: u64, y: u64)
    requires { (p < 1048576) × (serial < 1048576) × (i < n) × (n < 1048576) }
{
    let k = n - 1 - i;
    dart(
        memory,
        p + i,
        (serial + i) as u64,
        p + after(i, n),
        p + n + k,
        0,
        0,
        x,
    );
    dart(
        memory,
        p + n + k,
        (serial + n + k) as u64,
        p + n + after(k, n),
        p + i,
        0,
        0,
        y,
    );
}

// The point that follows x in a ring of n.
fn next_point(i: usize, n: usize, x: u64, first: u64, step: u64) -> u64
    requires { (i < n) × (n < 1048576) }
{
    if i + 1 < n {
        return x.wrapping_add(step);
    }
    first
}

// Two faces of n darts back to back, from a place and a serial on.
pub fn pillow(memory: &mut [u64], place: usize, serial: usize, n: usize, first: u64, step: u64)
    requires { (place < 1048576) × (serial < 1048576) × (n < 1048576) }
{
    let mut x = first;
    for i in 0..n {
        let y = next_point(i, n, x, first, step);
        edge(memory, place, serial, n, i, x, y);
        x = y;
    }
}

// The other dart of a face of two.
fn turned(p: usize) -> usize
    requires { p < 4096 }
{
    p + 1 - p % 2 * 2
}

// 4,096 darts in faces of two, serials so far apart, links by a stride: not in their order.
pub fn pairs(memory: &mut [u64], apart: u64, kind: u64, stride: u64, x: u64) {
    let mut serial: u64 = 1;
    let mut label: u64 = 0;
    for p in 0usize..4096 {
        let q = turned(p);
        dart(memory, p, serial, q, q, kind, label % 4096 * 4096, x);
        serial = serial.wrapping_add(apart);
        label = label.wrapping_add(stride);
    }
}
