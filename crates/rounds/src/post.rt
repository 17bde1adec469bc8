// Messages that stand one after the other: how long the first one is, and to whom it goes.
ghost use Rattle.std.specs.Prelude.{◌≡◌, length};
ghost use Rattle.model.specs.DividedRun.{addressee as to_block};
ghost use Rattle.rounds.specs.Post.{first_in};

use groups::Read;

// The bytes of the first message: a number, and as many as it says; all, where there are fewer or it cannot be read.
pub fn first_message(bytes: &[u8]) -> usize
    ensures { result ≡ length (first_in bytes.now) }
{
    let Some((n, next)) = reader::read_group(bytes, 0) else {
        return bytes.len();
    };
    if n <= (bytes.len() - next) as u64 {
        return next + n as usize;
    }
    bytes.len()
}

// The block that a message is addressed to: its fourth number, 0 where it has none.
pub fn addressee(message: &[u8]) -> u64
    ensures { result ≡ to_block message.now }
{
    reader::read_head(message).map_or(0, |head| head.to)
}
