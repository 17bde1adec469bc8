// The header of a block's memory: number, counter and dart count, in the first 8 words.
ghost use Rattle.std.specs.Prelude.{◌≡◌, [], ◌++◌, ◌+◌, ◌≤◌, ◌<◌, length, drop, replicate};
ghost use Rattle.model.specs.Calls as calls;
ghost use Rattle.answers.specs.Answers.{answer_of, Gives};
ghost use Rattle.model.specs.Image.{words_of, image, new_block};
ghost use Rattle.model.specs.Values.{room, rack, viewer, limits_in};
ghost use Rattle.memory.specs.Header.{empty_header, header_in, header_words, limits_of};

use answers::{Answer, Refusal};

// Blocks that a mesh may have, as the length of an array.
pub const BLOCKS: usize = Header::BLOCKS as usize;

// The header by value. A block's sizes are its constants.
#[derive(Clone, Copy)]
pub struct Header {
    pub number: u64,
    pub counter: u64,
    pub darts: usize,
}

impl Header {
    // Darts that a block may have.
    pub const DARTS: usize = 4096;

    // Darts that a volume may have that is sent.
    pub const VOLUME: usize = 512;

    // The same of a viewer's block, and the words of its memory.
    pub const VIEWER_DARTS: usize = 256;

    pub const VIEWER_VOLUME: usize = 64;

    pub const VIEWER_WORDS: usize = 2056;

    // Blocks that a mesh may have: numbers lie below this.
    pub const BLOCKS: u64 = 16;

    // Words of the header itself, and the number of each that is used.
    pub const SIZE: usize = 8;

    pub const NUMBER: usize = 0;

    pub const COUNTER: usize = 1;

    pub const COUNT: usize = 2;

    // Words of a block's memory: those of the header, 8 for each dart.
    pub const WORDS: usize = 32776;

    // Darts that a message may bring.
    pub const MESSAGE: usize = 512;

    // Serials lie below this.
    pub const SERIALS: u64 = 4294967296;

    // Numbers of labels and counters lie below this.
    pub const NUMBERS: u64 = 4294967296;

    // Positions of labels lie below this.
    pub const POSITIONS: u64 = 4096;

    // Entries of the scratch of a mesh's calls.
    pub const SCRATCH: usize = 65536;

    // Darts that a mesh may have: a dart's number in the mesh, block × 4,096 + place, lies below this.
    pub const MESH: u64 = 65536;

    // Bytes of an outbox that are always enough.
    pub const OUTBOX: usize = 65536;

    // The header of an empty block: from its number alone, counter 0.
    pub fn empty(number: u64) -> Header
        ensures { result ≡ empty_header number }
    {
        Header {
            number,
            counter: 0,
            darts: 0,
        }
    }

    // The header that stands in a block's memory.
    pub fn read(block: &[u64]) -> Header
        requires { 8 ≤ length block.now }
        ensures { result ≡ header_in block.now }
    {
        Header {
            number: block[Header::NUMBER],
            counter: block[Header::COUNTER],
            darts: block[Header::COUNT] as usize,
        }
    }

    // Stores the header; the rest of the memory stays.
    pub fn write(self, block: &mut [u64])
        requires { 8 ≤ length block.old }
        ensures { block.new ≡ header_words self ++ drop 8 block.old }
    {
        block[Header::NUMBER] = self.number;
        block[Header::COUNTER] = self.counter;
        block[Header::COUNT] = self.darts as u64;
        block[3] = 0;
        block[4] = 0;
        block[5] = 0;
        block[6] = 0;
        block[7] = 0;
    }
}

// How many darts a block may have, and how many a volume that is sent.
#[derive(Clone, Copy)]
pub struct Limits {
    pub block: usize,
    pub volume: usize,
}

impl Limits {
    // Of a node of the rack.
    pub fn rack() -> Limits
        ensures { limits_of result ≡ rack }
    {
        Limits {
            block: Header::DARTS,
            volume: Header::VOLUME,
        }
    }

    // Of the office's machine.
    pub fn viewer() -> Limits
        ensures { limits_of result ≡ viewer }
    {
        Limits {
            block: Header::VIEWER_DARTS,
            volume: Header::VIEWER_VOLUME,
        }
    }

    // Of the block with this number in a mesh with these viewers: bit b is block b's.
    pub fn among(viewers: u32, number: u64) -> Limits
        ensures { limits_of result ≡ limits_in viewers number }
    {
        if Header::BLOCKS <= number {
            return Limits::rack();
        }
        if (viewers as u64 >> number) % 2 == 1 {
            return Limits::viewer();
        }
        Limits::rack()
    }

    // Words of a block's memory.
    pub fn words(self) -> usize
        requires { self.block ≤ room }
        ensures { result ≡ words_of (limits_of self) }
    {
        Header::SIZE + 8 * self.block
    }
}

// Sets every word to zero.
pub fn clear(part: &mut [u64])
    ensures { part.new ≡ replicate (length part.old) 0 }
{
    part.fill(0);
}

// Makes a block's memory the image of the empty block with this number.
pub fn make_empty(number: u64, block: &mut [u64])
    requires { 8 ≤ length block.old }
    ensures { block.new ≡ image (length block.old) (new_block number []) }
{
    clear(block);
    Header::empty(number).write(block);
}

// Makes an empty block by limits. 1: is the memory of a block's size? 9: is the number at most 15? A refused call leaves the memory.
pub fn empty_by(limits: Limits, number: u64, block: &mut [u64]) -> Answer
    requires { limits.block ≤ room }
    ensures { Gives (calls.empty (limits_of limits) number block.old) (answer_of result) block.new }
{
    if block.len() != limits.words() {
        return Err(Refusal::MemorySize);
    }
    if Header::BLOCKS <= number {
        return Err(Refusal::Destination);
    }
    make_empty(number, block);
    Ok(())
}

// Makes an empty block of the rack.
pub fn empty(number: u64, block: &mut [u64]) -> Answer
    ensures { Gives (calls.empty rack number block.old) (answer_of result) block.new }
{
    empty_by(Limits::rack(), number, block)
}
