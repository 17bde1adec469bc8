// Texts in bytes: put together, and taken apart into words and lines.
ghost use Rattle.std.specs.Prelude.{◌≡◌, ◌≤◌, ◌-◌, ℕ, [], ◌++◌, length, take};
ghost use Rattle.io.specs.Digits.{IsDigitCount, last_digits};
ghost use Rattle.system.specs.Pieces.{Piece};

// A text of at most N bytes.
#[derive(Drop)]
pub struct Text<const N: usize> {
    bytes: [u8; N],
    len: usize,
    ghost within: { len ≤ N },
}

impl<const N: usize> Text<N> {
    pub fn new() -> Self
        ensures { take result.len result.bytes ≡ [] }
    {
        Text {
            bytes: [0; N],
            len: 0,
        }
    }

    // Puts as much of a text as there is room for behind what is there.
    pub fn add(&mut self, text: &[u8])
        ensures { take self.new.len self.new.bytes ≡ take self.old.len self.old.bytes ++ take (N - self.old.len) text.now }
    {
        let from = self.len;
        let n = text.len().min(N - from);
        let bytes = &mut self.bytes[..];
        bytes[from..from + n].copy_from_slice(&text[..n]);
        self.len = from + n;
    }

    // Adds a number in decimal digits.
    pub fn add_decimal(&mut self, n: u64)
        ensures { (k : ℕ) × IsDigitCount 10 1 n k × (take self.new.len self.new.bytes ≡ take self.old.len self.old.bytes ++ take (N - self.old.len) (last_digits 10 k n)) }
    {
        let mut digits = [0u8; 20];
        let d = io::decimal(n, &mut digits);
        self.add(&digits[..d]);
    }

    pub fn as_slice(&self) -> &[u8]
        ensures bytes { result.now ≡ take self.now.len self.now.bytes }
        ensures within { length result.now ≤ N }
    {
        &self.bytes[..self.len]
    }
}

// Word n of a text, counted from 0, between spaces, tabs and carriage returns; no byte where it has fewer words.
pub fn word(text: &[u8], n: usize) -> &[u8]
    ensures piece { Piece text.now result.now }
    ensures within { length result.now ≤ length text.now }
{
    text.split(|b| matches!(*b, b' ' | b'\t' | b'\r'))
        .filter(|word| !word.is_empty())
        .nth(n)
        .unwrap_or(b"")
}

// The first line that begins with a word; no byte where there is none.
pub fn line_with<'a>(text: &'a [u8], word: &[u8]) -> &'a [u8]
    ensures piece { Piece text.now result.now }
    ensures within { length result.now ≤ length text.now }
{
    text.split(|b| *b == b'\n')
        .find(|line| line.starts_with(word))
        .unwrap_or(b"")
}
