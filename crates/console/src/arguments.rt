// The words of a command, by their place, and its options, which begin with two minuses and may stand anywhere among them.
ghost use Rattle.std.specs.Prelude.{◌≤◌, length};

use commands::command::OptionWord;
use commands::{command, words};
use memory::point::Point;
use oracle::Oracle;
use std::env::{Env, FillError};
use system::say;
use system::say::Told;

// Argument i, in lent room; no byte where it is missing or longer than the room.
fn argument<'a>(rt: HostRuntime, i: usize, room: &'a mut [u8]) -> &'a [u8]
    ensures { length result.now ≤ length room.old }
{
    match rt.arg(i, room) {
        Ok(n) => &room[..n],
        Err(_) => b"",
    }
}

// Whether there is an argument i.
fn is_given(rt: HostRuntime, i: usize) -> bool {
    let mut room = [0u8; 1];
    !matches!(rt.arg(i, &mut room), Err(FillError::NotPresent))
}

// How many arguments there are.
fn argument_count(rt: HostRuntime) -> usize {
    // Those before n are given.
    for n in 0..usize::MAX {
        if !is_given(rt, n) {
            return n;
        }
    }
    usize::MAX
}

// How many words stand before the command's own: two, where the first asks for the status on a descriptor, as `--status 3`.
fn in_front(rt: HostRuntime) -> usize {
    let mut room = [0u8; 16];
    match argument(rt, 1, &mut room) {
        b"--status" => 2,
        _ => 0,
    }
}

// The descriptor that the status goes to, 3 to 9; none where none is asked for, or another word.
pub fn status_descriptor(rt: HostRuntime) -> Option<i32> {
    if in_front(rt) == 0 {
        return None;
    }
    let mut room = [0u8; 1];
    match argument(rt, 2, &mut room) {
        [digit @ b'3'..=b'9'] => Some(i32::from(*digit - b'0')),
        _ => None,
    }
}

// Whether a text begins with two minuses.
fn is_option(text: &[u8]) -> bool {
    text.starts_with(b"--")
}

// Whether argument i is an option.
fn is_option_at(rt: HostRuntime, i: usize) -> bool {
    let mut room = [0u8; 256];
    is_option(argument(rt, i, &mut room))
}

// How many words there are, the program's name among them, options left out.
pub fn count(rt: HostRuntime) -> usize {
    (in_front(rt)..argument_count(rt))
        .filter(|i| !is_option_at(rt, *i))
        .count()
}

// Word i, options left out, in lent room; no byte past the end.
pub fn word<'a>(rt: HostRuntime, i: usize, room: &'a mut [u8]) -> &'a [u8]
    ensures { length result.now ≤ length room.old }
{
    let all = argument_count(rt);
    let at = (in_front(rt)..all)
        .filter(|at| !is_option_at(rt, *at))
        .nth(i)
        .unwrap_or(all);
    argument(rt, at, room)
}

// What the options ask for: that nothing is saved; that nothing is saved unless every request is served.
#[derive(Clone, Copy, Default)]
pub struct Options {
    pub dry: bool,
    pub whole: bool,
}

// Takes argument i, if it is an option; an unknown one is told.
fn take_option(rt: HostRuntime, i: usize, options: &mut Options) -> Result<(), Told> {
    let mut room = [0u8; 256];
    let word = argument(rt, i, &mut room);
    if !is_option(word) {
        return Ok(());
    }
    match command::option_of(word) {
        OptionWord::DryRun => options.dry = true,
        OptionWord::AllOrNothing => options.whole = true,
        OptionWord::Unknown => {
            say::complain(b"error: unknown word '");
            say::complain(word);
            say::complain(b"': dispatch help tells what there is\n");
            return Err(Told);
        }
    }
    Ok(())
}

// The options among the words.
pub fn options_given(rt: HostRuntime) -> Result<Options, Told> {
    let mut taken = Options::default();
    for i in in_front(rt)..argument_count(rt) {
        take_option(rt, i, &mut taken)?;
    }
    Ok(taken)
}

// The block or the number of blocks that a word gives.
pub fn number_at(rt: HostRuntime, i: usize) -> Option<u64> {
    let mut room = [0u8; 64];
    words::number_in(word(rt, i, &mut room))
}

// Says that a word is no coordinate.
fn no_coordinate(text: &[u8]) {
    say::complain(b"error: '");
    say::complain(text);
    say::complain(
        b"' is no coordinate: at most 15 digits, a point only between digits, a power of ten from -22 to 22, as -2.5 or 1e-3\n",
    );
}

// A word as a coordinate; one that is none is told.
fn coordinate_at(rt: HostRuntime, i: usize) -> Result<f64, Told> {
    let mut room = [0u8; 256];
    let text = word(rt, i, &mut room);
    match decimal::decimal_in(text) {
        Some(x) => Ok(x),
        None => {
            no_coordinate(text);
            Err(Told)
        }
    }
}

// Three words as a point.
fn corner_at(rt: HostRuntime, i: usize, j: usize, k: usize) -> Result<Point, Told> {
    let x = coordinate_at(rt, i)?;
    let y = coordinate_at(rt, j)?;
    let z = coordinate_at(rt, k)?;
    Ok(Point { x, y, z })
}

// Why words name no oracle: one of them is no coordinate, which was told; or they are not what an oracle takes.
#[derive(Clone, Copy, PartialEq, Eq, Debug)]
pub enum NoOracle {
    Told,
    Words,
}

impl From<Told> for NoOracle {
    fn from(_told: Told) -> NoOracle {
        NoOracle::Told
    }
}

// The box of words 3 to 8.
pub fn box_of(rt: HostRuntime) -> Result<Oracle, NoOracle> {
    let low = corner_at(rt, 3, 4, 5)?;
    let high = corner_at(rt, 6, 7, 8)?;
    Ok(Oracle::Box(low, high))
}

// The plane of words 3 and 4.
pub fn plane_of(rt: HostRuntime) -> Result<Oracle, NoOracle> {
    let Some(axis) = number_at(rt, 3) else {
        return Err(NoOracle::Words);
    };
    let at = coordinate_at(rt, 4)?;
    Ok(Oracle::Plane(axis, at))
}
