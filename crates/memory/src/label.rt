// A label as one word, its code, which orders labels by maker, number and position; and the parts of a code.
ghost use Rattle.std.specs.Prelude.{◌≡◌, ◌<◌, ◌^◌};
ghost use Rattle.model.specs.Values.{code, blocks, positions};
ghost use Rattle.model.specs.Image.{label_in};

use crate::header::Header;

// Codes lie below this: makers below 16, numbers below 2^32, positions below 4,096.
pub const CODES: u64 = 281474976710656;

pub fn maker_of(word: u64) -> u64
    ensures { result ≡ (label_in word).maker }
{
    word / Header::POSITIONS / Header::NUMBERS
}

pub fn number_of(word: u64) -> u64
    ensures { result ≡ (label_in word).number }
{
    word / Header::POSITIONS % Header::NUMBERS
}

pub fn position_of(word: u64) -> u64
    ensures { result ≡ (label_in word).position }
{
    word % Header::POSITIONS
}

pub fn code_of(maker: u64, number: u64, position: u64) -> u64
    requires { (maker < blocks) × (number < 2 ^ 32) × (position < positions) }
    ensures { result ≡ code (record { maker = maker; number = number; position = position }) }
{
    (maker * Header::NUMBERS + number) * Header::POSITIONS + position
}
