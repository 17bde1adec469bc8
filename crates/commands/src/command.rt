// Commands, oracles and options by their words.
ghost use Rattle.std.specs.Prelude.{◌≡◌};
ghost use Rattle.commands.specs.Commands.{command_in, oracle_word_in, option_word_in};

use crate::words;

#[derive(Clone, Copy)]
pub enum Command {
    Check,
    List,
    Cells,
    Play,
    Balance,
    Split,
    Add,
    Help,
    Unknown,
}

// What a word that begins with two minuses asks for: nothing is saved; nothing is saved unless every request is served.
#[derive(Clone, Copy)]
pub enum OptionWord {
    DryRun,
    AllOrNothing,
    Unknown,
}

// How an oracle is named: every volume, a box, a plane.
#[derive(Clone, Copy)]
pub enum OracleWord {
    All,
    Box,
    Plane,
    Unknown,
}

pub fn command_of(word: &[u8]) -> Command
    ensures { result ≡ command_in word.now }
{
    if words::same(word, b"check") {
        return Command::Check;
    }
    if words::same(word, b"list") {
        return Command::List;
    }
    if words::same(word, b"cells") {
        return Command::Cells;
    }
    if words::same(word, b"play") {
        return Command::Play;
    }
    if words::same(word, b"balance") {
        return Command::Balance;
    }
    if words::same(word, b"split") {
        return Command::Split;
    }
    if words::same(word, b"add") {
        return Command::Add;
    }
    if words::same(word, b"help") {
        return Command::Help;
    }
    Command::Unknown
}

pub fn oracle_of(word: &[u8]) -> OracleWord
    ensures { result ≡ oracle_word_in word.now }
{
    if words::same(word, b"all") {
        return OracleWord::All;
    }
    if words::same(word, b"box") {
        return OracleWord::Box;
    }
    if words::same(word, b"plane") {
        return OracleWord::Plane;
    }
    OracleWord::Unknown
}

pub fn option_of(word: &[u8]) -> OptionWord
    ensures { result ≡ option_word_in word.now }
{
    if words::same(word, b"--dry-run") {
        return OptionWord::DryRun;
    }
    if words::same(word, b"--all-or-nothing") {
        return OptionWord::AllOrNothing;
    }
    OptionWord::Unknown
}
