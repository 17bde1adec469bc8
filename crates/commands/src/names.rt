// The names of a basin's files.
ghost use Rattle.std.specs.Prelude.{◌≡◌, ◌+◌, ◌/◌, ◌%◌};
ghost use Rattle.commands.specs.Names.{block_name, name_of, padded, file_named, nameless};

// Block b's file and its new file; the commit and the new commit.
#[derive(Clone, Copy)]
pub enum File {
    Block(usize),
    NewBlock(usize),
    Commit,
    NewCommit,
}

// A name: so many bytes, and zeros behind them.
#[derive(Clone, Copy)]
pub struct Name {
    pub bytes: [u8; 17],
    pub size: usize,
}

// The digit of a number's tens and of its ones.
pub fn tens(b: usize) -> u8
    ensures { result ≡ 48 + b / 10 % 10 }
{
    (48 + b / 10 % 10) as u8
}

pub fn ones(b: usize) -> u8
    ensures { result ≡ 48 + b % 10 }
{
    (48 + b % 10) as u8
}

// The file of block b, where a text names it.
pub fn block(b: usize) -> [u8; 13]
    ensures { result ≡ block_name b }
{
    let mut n = *b"block-00.dmap";
    n[6] = tens(b);
    n[7] = ones(b);
    n
}

// Block b's name and its new one, the commit's and its new one; zeros behind them.
fn of_block(b: usize) -> [u8; 17]
    ensures { result ≡ padded (name_of (File.Block b)) }
{
    let mut n = *b"block-00.dmap\0\0\0\0";
    n[6] = tens(b);
    n[7] = ones(b);
    n
}

fn of_new_block(b: usize) -> [u8; 17]
    ensures { result ≡ padded (name_of (File.NewBlock b)) }
{
    let mut n = *b"block-00.dmap.new";
    n[6] = tens(b);
    n[7] = ones(b);
    n
}

// The name of a file.
pub fn name_of(f: File) -> Name
    ensures { result ≡ file_named f }
{
    match f {
        File::Block(b) => Name {
            bytes: of_block(b),
            size: 13,
        },
        File::NewBlock(b) => Name {
            bytes: of_new_block(b),
            size: 17,
        },
        File::Commit => Name {
            bytes: *b"basin.commit\0\0\0\0\0",
            size: 12,
        },
        File::NewCommit => Name {
            bytes: *b"basin.commit.new\0",
            size: 16,
        },
    }
}

// No name.
pub fn no_name() -> Name
    ensures { result ≡ nameless }
{
    Name {
        bytes: [0u8; 17],
        size: 0,
    }
}
