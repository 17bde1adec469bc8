// Blanks, quoted texts and numbers in decimal, read at a place of some bytes.
#![tactic(auto)]

ghost use Rattle.std.specs.Prelude.{true, false, ◌↔◌, ◌≡◌, ◌+◌, ◌-◌, ◌≤◌, length};
ghost use Rattle.laws.specs.Standing.{Stands};
ghost use Rattle.model.specs.Text.{is_digit as digit-test};
ghost use Rattle.model.specs.Pages.{blanks};
ghost use Rattle.text.specs.Reading.{PastBlanks, DigitsRead, NumberRead, EndedRead, ColumnRead, zero_first};

use groups::Read;

const BLANK: u8 = 32;

const ZERO: u8 = 48;

// Columns of a number; none has more digits.
pub const COLUMNS: usize = 10;

// Numbers lie below this.
const NUMBERS: u64 = 4294967296;

// Whether n bytes are blanks.
pub fn blank(s: &[u8], at: usize, n: usize) -> bool
    requires { at + n ≤ length s.now }
    ensures { (result ≡ true) ↔ Stands s.now at (blanks n) }
{
    // Whether the first i are blanks.
    let mut all = true;
    for i in 0..n {
        all = all & (s[at + i] == BLANK);
    }
    all
}

// Whether a text stands at a place.
pub fn text_at(s: &[u8], at: usize, text: &[u8]) -> bool
    requires { at + length text.now ≤ length s.now }
    ensures { (result ≡ true) ↔ Stands s.now at text.now }
{
    // The first i bytes of the text stand there.
    for i in 0..text.len() {
        if s[at + i] != text[i] {
            return false;
        }
    }
    true
}

// How many blanks there are from a place on, n at the most.
fn blanks_from(s: &[u8], from: usize, n: usize) -> usize
    requires { from + n ≤ length s.now }
    ensures { PastBlanks s.now from n result }
{
    // The first i are blanks.
    for i in 0..n {
        if s[from + i] != BLANK {
            return i;
        }
    }
    n
}

// Whether a byte is a digit, and the digit that it is.
pub fn is_digit(c: u8) -> bool
    ensures { result ≡ digit-test c }
{
    c.is_ascii_digit()
}

pub fn digit(c: u8) -> u64
    requires { digit-test c ≡ true }
    ensures { (result ≡ c - 48) × (result ≤ 9) }
{
    u64::from(c - 48)
}

// The value of the digits from a place on, among n bytes, and the place past them; bad where it reaches 2^32.
fn digits(s: &[u8], from: usize, n: usize) -> Read
    requires { from + n ≤ length s.now }
    ensures { DigitsRead s.now from n result }
{
    // The first i bytes are digits, and v is their value.
    let mut v: u64 = 0;
    for i in 0..n {
        let c = s[from + i];
        if !is_digit(c) {
            return Some((v, from + i));
        }
        let w = 10 * v + digit(c);
        if NUMBERS <= w {
            return None;
        }
        v = w;
    }
    Some((v, from + n))
}

// Whether the digits from a place on, up to another, begin with a zero and are more than one.
fn zero_in_front(s: &[u8], from: usize, past: usize) -> bool
    requires { (from + 1 ≤ past) × (past ≤ length s.now) }
    ensures { result ≡ zero_first s.now from past }
{
    (s[from] == ZERO) & (from + 1 < past)
}

// A number in its shortest form, of all the digits from a place on among n bytes: its value, and the place past it.
pub fn number_at(s: &[u8], from: usize, n: usize) -> Read
    requires { from + n ≤ length s.now }
    ensures { NumberRead s.now from n result }
{
    let (v, past) = digits(s, from, n)?;
    if past == from {
        return None;
    }
    if zero_in_front(s, from, past) {
        return None;
    }
    Some((v, past))
}

// A number and the byte that ends it, which is no digit: its value, and the place past the byte.
pub fn number_before(s: &[u8], from: usize, end: u8) -> Read
    requires { (from + 11 ≤ length s.now) × (digit-test end ≡ false) }
    ensures { EndedRead s.now from end result }
{
    let (v, past) = number_at(s, from, COLUMNS)?;
    if s[past] != end {
        return None;
    }
    Some((v, past + 1))
}

// A number right-aligned in ten columns: its value, and the place past them.
pub fn read_column(s: &[u8], at: usize) -> Read
    requires { at + 10 ≤ length s.now }
    ensures { ColumnRead s.now at result }
{
    let k = blanks_from(s, at, COLUMNS - 1);
    let (v, past) = number_at(s, at + k, COLUMNS - k)?;
    if past != at + COLUMNS {
        return None;
    }
    Some((v, past))
}
