// Bytes, texts and numbers in decimal, put into a slice at a place.
ghost use Rattle.std.specs.Prelude.{[], ◌∷◌, ◌++◌, ◌≡◌, ◌+◌, ◌≤◌, ◌<◌, ◌^◌, length};
ghost use Rattle.model.specs.Text.{decimal};
ghost use Rattle.groups.specs.Slices.{Stored};

// One byte.
pub fn put_byte(out: &mut [u8], at: usize, b: u8) -> usize
    requires { at < length out.old }
    ensures { Stored out.old at (b ∷ []) out.new result }
{
    out[at] = b;
    at + 1
}

// A text.
pub fn put_text(out: &mut [u8], at: usize, text: &[u8]) -> usize
    requires { at + length text.now ≤ length out.old }
    ensures { Stored out.old at text.now out.new result }
{
    // The bytes of the text below i are stored.
    let mut i = 0;
    while i < text.len() {
        out[at + i] = text[i];
        i += 1;
    }
    at + i
}

// How many digits a number has.
fn digit_count(v: u64) -> usize
    requires { v < 2 ^ 32 }
    ensures { result ≡ length (decimal v) }
{
    // The digits before the last n - 1 are those of x.
    let mut n = 1;
    let mut x = v;
    while 10 <= x {
        n += 1;
        x = x / 10;
    }
    n
}

// A number in decimal, written from its last digit.
pub fn put_decimal(out: &mut [u8], at: usize, v: u64) -> usize
    requires { (v < 2 ^ 32) × (at + length (decimal v) ≤ length out.old) }
    ensures { Stored out.old at (decimal v) out.new result }
{
    let next = at + digit_count(v);
    // What is left of the number, put before p, gives the same slice in the end.
    let mut p = next;
    let mut x = v;
    while 10 <= x {
        p -= 1;
        out[p] = (48 + x % 10) as u8;
        x = x / 10;
    }
    out[p - 1] = (48 + x) as u8;
    next
}

// A number and the byte that ends it.
pub fn put_number(out: &mut [u8], at: usize, v: u64, end: u8) -> usize
    requires { (v < 2 ^ 32) × (at + length (decimal v) < length out.old) }
    ensures { Stored out.old at (decimal v ++ end ∷ []) out.new result }
{
    let past_digits = put_decimal(out, at, v);
    put_byte(out, past_digits, end)
}
