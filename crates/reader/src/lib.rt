// A thin reader over a message: it holds the slice and what was read of it last, and leaves the work to functions on a slice and a place.
// Callers use the functions whose parameters are plain.
#![tactic(auto)]

ghost use Rattle.std.specs.Prelude.{◌≡◌};
ghost use Rattle.model.specs.Layouts.{group, serial, at_most, coordinate};
ghost use Rattle.groups.specs.Slices.{read_at, label_code};
ghost use Rattle.reader.specs.Heads.{read_after, head_of, head_in};

use groups::Read;

// A message, and the value that was read last with the place past it. Once a read was bad, so is each one after it.
#[derive(Clone, Copy)]
pub struct Reader<'a> {
    pub src: &'a [u8],
    pub last: Read,
}

impl<'a> Reader<'a> {
    // The reader of a message, at a place: before the first read, a value that nobody asks for.
    pub fn open(src: &'a [u8], at: usize) -> Reader<'a>
        ensures { (result.src ≡ src.entry) × (result.last ≡ Some (0, at)) }
    {
        Reader {
            src,
            last: Some((0, at)),
        }
    }

    // What was read last.
    pub fn last(self) -> Read
        ensures { result ≡ self.entry.last }
    {
        self.last
    }

    // The reader moved on by a number.
    pub fn number(self) -> Reader<'a>
        ensures { (result.src ≡ self.entry.src) × (result.last ≡ read_after group self.entry.src.now self.entry.last) }
    {
        let src = self.src;
        let last = self.last.and_then(|(_, at)| groups::read_group(src, at));
        Reader { src, last }
    }

    // The reader moved on by a serial.
    pub fn serial(self) -> Reader<'a>
        ensures { (result.src ≡ self.entry.src) × (result.last ≡ read_after serial self.entry.src.now self.entry.last) }
    {
        let src = self.src;
        let last = self.last.and_then(|(_, at)| groups::read_serial(src, at));
        Reader { src, last }
    }

    // The reader moved on by a label, as its code.
    pub fn label(self) -> Reader<'a>
        ensures { (result.src ≡ self.entry.src) × (result.last ≡ read_after label_code self.entry.src.now self.entry.last) }
    {
        let src = self.src;
        let last = self.last.and_then(|(_, at)| groups::read_label(src, at));
        Reader { src, last }
    }

    // The reader moved on by a coordinate, as its word.
    pub fn coordinate(self) -> Reader<'a>
        ensures { (result.src ≡ self.entry.src) × (result.last ≡ read_after coordinate self.entry.src.now self.entry.last) }
    {
        let src = self.src;
        let last = self
            .last
            .and_then(|(_, at)| groups::read_coordinate(src, at));
        Reader { src, last }
    }

    // The reader moved on by a number that is at most so large.
    pub fn at_most(self, most: u64) -> Reader<'a>
        ensures { (result.src ≡ self.entry.src) × (result.last ≡ read_after (at_most most) self.entry.src.now self.entry.last) }
    {
        let src = self.src;
        let last = self
            .last
            .and_then(|(_, at)| groups::read_at_most(src, at, most));
        Reader { src, last }
    }
}

// The number at a place of a message.
pub fn read_group(s: &[u8], at: usize) -> Read
    ensures { result ≡ read_at group s.now at }
{
    Reader::open(s, at).number().last()
}

// The serial at a place of a message.
pub fn read_serial(s: &[u8], at: usize) -> Read
    ensures { result ≡ read_at serial s.now at }
{
    Reader::open(s, at).serial().last()
}

// The label at a place of a message, as its code.
pub fn read_label(s: &[u8], at: usize) -> Read
    ensures { result ≡ read_at label_code s.now at }
{
    Reader::open(s, at).label().last()
}

// The coordinate at a place of a message, as its word.
pub fn read_coordinate(s: &[u8], at: usize) -> Read
    ensures { result ≡ read_at coordinate s.now at }
{
    Reader::open(s, at).coordinate().last()
}

// The number at a place of a message, where it is at most so large.
pub fn read_at_most(s: &[u8], at: usize, most: u64) -> Read
    ensures { result ≡ read_at (at_most most) s.now at }
{
    Reader::open(s, at).at_most(most).last()
}

// The four numbers that a message begins with; the body is what the first one counts, and next is past the last one.
#[derive(Clone, Copy)]
pub struct Head {
    pub length: u64,
    pub body: usize,
    pub kind: u64,
    pub from: u64,
    pub to: u64,
    pub next: usize,
}

// The head of four numbers that were read one after the other.
fn head_of(length: Read, kind: Read, from: Read, to: Read) -> Option<Head>
    ensures { result ≡ head_of length kind from to }
{
    let (n, body) = length?;
    let (k, past) = kind?;
    let (f, after) = from?;
    let (t, next) = to?;
    Some(Head {
        length: n,
        body,
        kind: k,
        from: f,
        to: t,
        next,
    })
}

// The head of a message, by one reader that is kept from its first byte on.
pub fn read_head(s: &[u8]) -> Option<Head>
    ensures { result ≡ head_in s.now }
{
    let length = Reader::open(s, 0).number();
    let kind = length.number();
    let from = kind.number();
    let to = from.number();
    head_of(length.last(), kind.last(), from.last(), to.last())
}
