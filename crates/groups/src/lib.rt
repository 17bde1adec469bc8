// Numbers as groups of seven bits, coordinates and labels: put into a slice at a place, and read at a place.
#![tactic(auto)]

ghost use Rattle.std.specs.Prelude.{cond, [], ◌∷◌, ◌≡◌, ◌+◌, ◌≤◌, ◌<◌, ◌^◌, ltb, length};
ghost use Rattle.model.specs.Values.{serial_bound};
ghost use Rattle.model.specs.Layouts.{groups, group_below, group, serial, at_most, group_count, coordinate};
ghost use Rattle.model.specs.Image.{label_in};
ghost use Rattle.model.specs.Messages.{label};
ghost use Rattle.groups.specs.Slices.{Stored, read_at, number_from, label_code};

// The count of groups by bit length, 0 to 32.
const COUNTS: [u8; 33] = [
    1, 1, 1, 1, 1, 1, 1, 1, 2, 2, 2, 2, 2, 2, 2, 3, 3, 3, 3, 3, 3, 3, 4, 4, 4, 4, 4, 4, 4, 5, 5, 5,
    5,
];

// Numbers and positions of a label lie below these.
const NUMBERS: u64 = 4294967296;

const POSITIONS: u64 = 4096;

// The greatest maker and the greatest position of a label.
const LAST_MAKER: u64 = 15;

const LAST_POSITION: u64 = 4095;

// The value that was read and the place past it, or that no value stands there.
pub type Read = Option<(u64, usize)>;

// How many groups a number takes.
pub fn group_count(v: u32) -> usize
    ensures { result ≡ group_count v }
{
    let n = (32 - u32::leading_zeros(v)) as usize;
    usize::from(COUNTS[n])
}

// A byte, where the output has room for it.
fn put_byte(out: &mut [u8], at: usize, b: u8) -> usize
    requires { at < 2 ^ 63 }
    ensures { Stored out.old at (b ∷ []) out.new result }
{
    if out.len() <= at {
        return at + 1;
    }
    out[at] = b;
    at + 1
}

// The groups of a number that ends inside the output: no byte is tested.
// Invariant: what is left of the number, put where the next group goes, gives the same slice in the end.
fn put_inside(out: &mut [u8], at: usize, v: u64) -> usize
    requires v_bound { v < 2 ^ 63 }
    requires v_in_bounds { at + length (groups 8 v) ≤ length out.old }
    ensures { Stored out.old at (groups 8 v) out.new result }
{
    let mut p = at;
    let mut x = v;
    while 128 <= x {
        out[p] = (x % 128 + 128) as u8;
        x = x / 128;
        p += 1;
    }
    out[p] = x as u8;
    p + 1
}

// The groups of a number that may end outside. Invariant: as above.
fn put_across(out: &mut [u8], at: usize, v: u64) -> usize
    requires v_bound { v < 2 ^ 63 }
    requires v_bound_2 { at + length (groups 8 v) < 2 ^ 63 }
    ensures { Stored out.old at (groups 8 v) out.new result }
{
    let mut p = at;
    let mut x = v;
    while 128 <= x {
        p = put_byte(out, p, (x % 128 + 128) as u8);
        x = x / 128;
    }
    put_byte(out, p, x as u8)
}

// A number below 2^32: only counted where there is no output.
fn put_number(out: &mut [u8], at: usize, v: u64) -> usize
    requires v_bound { v < 2 ^ 32 }
    requires v_bound_2 { at + length (groups 4 v) < 2 ^ 63 }
    ensures { Stored out.old at (groups 4 v) out.new result }
{
    if out.len() == 0 {
        return at + group_count(v as u32);
    }
    if at + 5 <= out.len() {
        return put_inside(out, at, v);
    }
    put_across(out, at, v)
}

// Each put writes the bytes that have room and gives the place past the last one, so into no output it only counts.
pub fn put_group(out: &mut [u8], at: usize, v: u32) -> usize
    requires { at + length (group.put v) < 2 ^ 63 }
    ensures { Stored out.old at (group.put v) out.new result }
{
    put_number(out, at, u64::from(v))
}

// A serial, whose bound is one of its own.
pub fn put_serial(out: &mut [u8], at: usize, v: u64) -> usize
    requires v_lt_serial_bound { v < serial_bound }
    requires v_bound { at + length (serial.put v) < 2 ^ 63 }
    ensures { Stored out.old at (serial.put v) out.new result }
{
    put_number(out, at, v)
}

// A value that was read, where it lies below its bound.
fn keep(v: u64, next: usize, bound: u64) -> Read
    ensures { result ≡ cond (ltb v bound) (Some (v, next)) None }
{
    if v < bound { Some((v, next)) } else { None }
}

// The groups after the first of a number: first is what that one gave, and at most more follow the one at from.
// Invariant: low, the groups read so far, with scale times what is read from p on, is the number.
fn read_more(s: &[u8], from: usize, first: u64, more: u32, bound: u64) -> Read
    requires first_bound { first < 128 }
    requires more_bound { more < 8 }
    ensures { result ≡ number_from s.now from first more bound }
{
    let mut low = first;
    let mut scale: u64 = 128;
    let mut left = more;
    for p in from..s.len() {
        let b = u64::from(s[p]);
        if b < 128 {
            if b == 0 {
                return None;
            }
            return keep(low + scale * b, p + 1, bound);
        }
        if left == 0 {
            return None;
        }
        low += scale * (b - 128);
        scale = scale * 128;
        left -= 1;
    }
    None
}

// A number below a bound, in one group and at most so many more.
pub fn read_below(s: &[u8], at: usize, more: u32, bound: u64) -> Read
    requires { more ≤ 8 }
    ensures { result ≡ read_at (group_below more bound) s.now at }
{
    if s.len() <= at {
        return None;
    }
    let b = u64::from(s[at]);
    if b < 128 {
        return keep(b, at + 1, bound);
    }
    if more == 0 {
        return None;
    }
    read_more(s, at + 1, b - 128, more - 1, bound)
}

// A number below 2^32; most take one group.
pub fn read_group(s: &[u8], at: usize) -> Read
    ensures { result ≡ read_at group s.now at }
{
    if at < s.len() {
        let b = u64::from(s[at]);
        if b < 128 {
            return Some((b, at + 1));
        }
    }
    read_below(s, at, 4, 4294967296)
}

// A serial, below its own bound.
pub fn read_serial(s: &[u8], at: usize) -> Read
    ensures { result ≡ read_at serial s.now at }
{
    read_group(s, at)
}

// A number that is at most so large.
pub fn read_at_most(s: &[u8], at: usize, most: u64) -> Read
    ensures { result ≡ read_at (at_most most) s.now at }
{
    let (v, next) = read_group(s, at)?;
    if v <= most { Some((v, next)) } else { None }
}

// Eight bytes that end inside the output.
fn put_word(out: &mut [u8], at: usize, word: u64) -> usize
    requires { at + 8 ≤ length out.old }
    ensures { Stored out.old at (coordinate.put word) out.new result }
{
    out[at..at + 8].copy_from_slice(&word.to_le_bytes());
    at + 8
}

// Eight bytes that may end outside. Invariant: the bytes before b are put, up to p.
fn put_word_across(out: &mut [u8], at: usize, word: u64) -> usize
    requires { at + 8 < 2 ^ 63 }
    ensures { Stored out.old at (coordinate.put word) out.new result }
{
    let mut p = at;
    for b in word.to_le_bytes() {
        p = put_byte(out, p, b);
    }
    p
}

// A coordinate's word as eight bytes.
pub fn put_coordinate(out: &mut [u8], at: usize, word: u64) -> usize
    requires { at + 8 < 2 ^ 63 }
    ensures { Stored out.old at (coordinate.put word) out.new result }
{
    if at + 8 <= out.len() {
        return put_word(out, at, word);
    }
    if out.len() == 0 {
        return at + 8;
    }
    put_word_across(out, at, word)
}

// The word whose eight bytes stand at a place.
fn word_at(s: &[u8], at: usize) -> u64
    requires { at + 8 ≤ length s.now }
    ensures { Some (result, at + 8) ≡ read_at coordinate s.now at }
{
    let a = u64::from(s[at]);
    let b = u64::from(s[at + 1]);
    let c = u64::from(s[at + 2]);
    let d = u64::from(s[at + 3]);
    let e = u64::from(s[at + 4]);
    let f = u64::from(s[at + 5]);
    let g = u64::from(s[at + 6]);
    let h = u64::from(s[at + 7]);
    a + 256 * (b + 256 * (c + 256 * (d + 256 * (e + 256 * (f + 256 * (g + 256 * h))))))
}

// A coordinate's word; it may be that of no finite float.
pub fn read_coordinate(s: &[u8], at: usize) -> Read
    ensures { result ≡ read_at coordinate s.now at }
{
    if s.len() < 8 {
        return None;
    }
    if s.len() - 8 < at {
        return None;
    }
    Some((word_at(s, at), at + 8))
}

// The label with a code.
pub fn put_label(out: &mut [u8], at: usize, code: u64) -> usize
    requires { at + length (label.put (label_in code)) < 2 ^ 63 }
    ensures { Stored out.old at (label.put (label_in code)) out.new result }
{
    let past_maker = put_group(out, at, (code / POSITIONS / NUMBERS) as u32);
    let past_number = put_group(out, past_maker, (code / POSITIONS % NUMBERS) as u32);
    put_group(out, past_number, (code % POSITIONS) as u32)
}

// A label, as its code.
pub fn read_label(s: &[u8], at: usize) -> Read
    ensures { result ≡ read_at label_code s.now at }
{
    let (maker, past_maker) = read_at_most(s, at, LAST_MAKER)?;
    let (number, past_number) = read_group(s, past_maker)?;
    let (position, next) = read_at_most(s, past_number, LAST_POSITION)?;
    Some(((maker * NUMBERS + number) * POSITIONS + position, next))
}
