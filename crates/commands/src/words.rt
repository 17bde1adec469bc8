// Numbers and words of a text.
ghost use Rattle.std.specs.Prelude.{◌≡◌, true, ◌-◌, ◌≤◌, length};
ghost use Rattle.model.specs.Lists.{same_list};
ghost use Rattle.model.specs.Text.{is_digit as digit-test};
ghost use Rattle.commands.specs.Words.{belongs as belongs-to, leading as leading-in, number_in as number_of};

// What a byte may belong to: the blanks between words, a word, a line.
#[derive(Clone, Copy)]
pub enum Kind {
    Blanks,
    Word,
    Line,
}

// Whether a byte is a digit, and the digit that it is.
pub fn is_digit(b: u8) -> bool
    ensures { result ≡ digit-test b }
{
    b.is_ascii_digit()
}

pub fn digit(b: u8) -> u64
    requires { digit-test b ≡ true }
    ensures { (result ≡ b - 48) × (result ≤ 9) }
{
    u64::from(b - 48)
}

// The number that a text is: digits alone, below 2^32; none where it is no number.
pub fn number_in(text: &[u8]) -> Option<u64>
    ensures { result ≡ number_of text.now }
{
    if text.len() == 0 {
        return None;
    }
    // The digits before i give n.
    let mut n: u64 = 0;
    for i in 0..text.len() {
        let b = text[i];
        if !is_digit(b) {
            return None;
        }
        let v = 10 * n + digit(b);
        if 4294967296 <= v {
            return None;
        }
        n = v;
    }
    Some(n)
}

// Whether a byte belongs to blanks (space, tab, carriage return), to a word, to a line.
fn belongs(kind: Kind, b: u8) -> bool
    ensures { result ≡ belongs-to kind b }
{
    let blank = (b == b' ') | (b == b'\t') | (b == b'\r');
    match kind {
        Kind::Blanks => blank,
        Kind::Word => !blank,
        Kind::Line => b != b'\n',
    }
}

// How many of the first bytes belong to a kind.
pub fn leading(kind: Kind, text: &[u8]) -> usize
    ensures count { result ≡ leading-in (belongs-to kind) text.now }
    ensures within { result ≤ length text.now }
{
    // Those before i do.
    for i in 0..text.len() {
        if !belongs(kind, text[i]) {
            return i;
        }
    }
    text.len()
}

// Whether two texts are the same.
pub fn same(one: &[u8], other: &[u8]) -> bool
    ensures { result ≡ same_list one.now other.now }
{
    one == other
}
