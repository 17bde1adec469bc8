// The kind word of a dart: its third link is free, sewn, or critical with another block; kind + 4 × that block.
ghost use Rattle.std.specs.Prelude.{◌≡◌, ◌+◌, ◌*◌, ◌<◌};
ghost use Rattle.model.specs.Values.{blocks};
ghost use Rattle.model.specs.Image.{is_free_word, is_sewn_word, is_critical_word, other_in};

pub const FREE: u64 = 0;

pub const SEWN: u64 = 1;

pub fn is_free(kind: u64) -> bool
    ensures { result ≡ is_free_word kind }
{
    kind % 4 == 0
}

pub fn is_sewn(kind: u64) -> bool
    ensures { result ≡ is_sewn_word kind }
{
    kind % 4 == 1
}

pub fn is_critical(kind: u64) -> bool
    ensures { result ≡ is_critical_word kind }
{
    kind % 4 == 2
}

// The block that a critical dart names.
pub fn other_of(kind: u64) -> u64
    ensures { result ≡ other_in kind }
{
    kind / 4
}

// The word of a dart that is critical with a block.
pub fn critical_with(other: u64) -> u64
    requires { other < blocks }
    ensures { result ≡ 2 + 4 * other }
{
    2 + 4 * other
}
