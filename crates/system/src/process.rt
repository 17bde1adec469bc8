// Processes of this machine, and the stack of this one, as /proc tells of them. A number alone does not name a process, since it is given
// again: the time at which the process started stands beside it.
ghost use Rattle.std.specs.Prelude.{◌≤◌, length};
ghost use Rattle.system.specs.Pieces.{Piece};

use crate::files;
use crate::text::{Text, line_with, word};
use commands::words;
use std::thread;
use std::time::Duration;

// Word n behind the process's name, which ends with the last closing bracket: 0 is its state, 19 the time at which it started.
fn fact(stat: &[u8], n: usize) -> &[u8]
    ensures piece { Piece stat.now result.now }
    ensures within { length result.now ≤ length stat.now }
{
    let behind = stat.rsplit(|b| *b == b')').next().unwrap_or(stat);
    word(behind, n)
}

// When a process started, by what /proc says of it.
pub fn started(stat: &[u8]) -> &[u8]
    ensures piece { Piece stat.now result.now }
    ensures within { length result.now ≤ length stat.now }
{
    fact(stat, 19)
}

// Whether a process has ended and only its parent has not asked for it yet.
fn has_ended(stat: &[u8]) -> bool {
    matches!(fact(stat, 0), [] | [b'Z' | b'X', ..])
}

// What /proc says of the process that a word names, in lent room; nothing where there is no such process.
pub fn read_stat<'a>(rt: HostRuntime, process: &[u8], room: &'a mut [u8]) -> &'a [u8]
    ensures { length result.now ≤ length room.old }
{
    let mut path = Text::<64>::new();
    path.add(b"/proc/");
    path.add(process);
    path.add(b"/stat");
    files::read_told(rt, path.as_slice(), room)
}

// Whether the process that is named by a number and the time of its start still runs.
pub fn is_running(rt: HostRuntime, process: &[u8], start: &[u8]) -> bool {
    let mut room = [0u8; 1024];
    let stat = read_stat(rt, process, &mut room);
    !stat.is_empty() && !has_ended(stat) && started(stat) == start
}

// Lets others run for about a millisecond.
pub fn pause(rt: HostRuntime) {
    thread::sleep(&rt, Duration::from_millis(1));
}

// Whether this process's stack may grow to a size in bytes; yes where /proc does not tell, or tells of no limit below 2^32.
pub fn has_stack(rt: HostRuntime, size: u64) -> bool {
    let mut room = [0u8; 4096];
    let limits = files::read_told(rt, b"/proc/self/limits", &mut room);
    match words::number_in(word(line_with(limits, b"Max stack size"), 3)) {
        Some(limit) => size <= limit,
        None => true,
    }
}
