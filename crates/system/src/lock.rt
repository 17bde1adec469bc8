// One writer at a time. The file basin.lock has a line for each process that came to write, in the order in which they came: host, process,
// start. The first of them that still runs has the lock. So no two have it at one time: a line is only ever added behind the others, and a
// process that has ended never runs again; and one that was killed blocks nobody. Who has the lock removes the file at the end.
use crate::cause::Cause;
use crate::files::ReadError;
use crate::say::Told;
use crate::text::{Text, word};
use crate::{files, process, say};
use std::time::{SystemTime, UNIX_EPOCH};

const LOCK: &[u8; 10] = b"basin.lock";

// Who stands first: this process; another one, whose line this is; nobody, this process's line is missing.
#[derive(Clone, Copy)]
enum First<'a> {
    Own,
    Other(&'a [u8]),
    Nobody,
}

// The line of this process; none where /proc does not tell of it, or of its host.
fn own_line(rt: HostRuntime) -> Option<Text<192>> {
    let mut name = [0u8; 65];
    let told = files::read_told(rt, b"/proc/sys/kernel/hostname", &mut name);
    if told.is_empty() {
        return None;
    }
    // A line feed stands behind the name.
    let host = told
        .split(|b| *b == 0 || *b == b'\n')
        .next()
        .unwrap_or(told);
    let mut room = [0u8; 1024];
    let stat = process::read_stat(rt, b"self", &mut room);
    if stat.is_empty() {
        return None;
    }
    let mut line = Text::new();
    line.add(host);
    line.add(b" ");
    line.add(word(stat, 0));
    line.add(b" ");
    line.add(process::started(stat));
    Some(line)
}

// Whether the process of a line may still run. One of another host cannot be asked, and counts as running.
fn may_run(rt: HostRuntime, line: &[u8], own: &[u8]) -> bool {
    let start = word(line, 2);
    if start.is_empty() {
        return false;
    }
    word(line, 0) != word(own, 0) || process::is_running(rt, word(line, 1), start)
}

// Who stands first in these lines.
fn first_in<'a>(rt: HostRuntime, lines: &'a [u8], own: &[u8]) -> First<'a> {
    for line in lines.split(|b| *b == b'\n') {
        if line == own {
            return First::Own;
        }
        if may_run(rt, line, own) {
            return First::Other(line);
        }
    }
    First::Nobody
}

// Who stands first in the lock's file.
fn look<'a>(rt: HostRuntime, own: &[u8], room: &'a mut [u8]) -> Result<First<'a>, ReadError> {
    Ok(first_in(rt, files::read(rt, LOCK, room)?, own))
}

// Adds a line to the lock's file. It begins with a line feed, in case that the one before was cut off.
fn add_line(rt: HostRuntime, line: &[u8]) -> Result<(), Cause> {
    let mut whole = Text::<256>::new();
    whole.add(b"\n");
    whole.add(line);
    whole.add(b"\n");
    files::append(rt, LOCK, whole.as_slice())
}

// Who has the lock, by its line.
fn say_busy(line: &[u8]) {
    say::complain(b"error: process ");
    say::complain(word(line, 1));
    say::complain(b" on ");
    say::complain(word(line, 0));
    say::complain(b" is writing this basin (basin.lock): nothing was done\n");
}

// The time in seconds, where it is known.
fn time(rt: HostRuntime) -> Option<u64> {
    let now = SystemTime::now(&rt).ok()?;
    Some(now.duration_since(UNIX_EPOCH).ok()?.as_secs())
}

// How often the second has changed, and which it was last; 0 where the time is not known.
#[derive(Clone, Copy)]
struct Clock {
    second: u64,
    changes: u64,
}

impl Clock {
    fn new(rt: HostRuntime) -> Clock {
        Clock {
            second: time(rt).unwrap_or(0),
            changes: 0,
        }
    }

    fn tick(&mut self, rt: HostRuntime) {
        let now = time(rt).unwrap_or(0);
        if now != self.second {
            self.second = now;
            self.changes = self.changes.wrapping_add(1);
        }
    }
}

// Whether this process stands first when it is asked once more: who had the lock may have removed the file in between, and this line with it.
fn is_first_again(rt: HostRuntime, own: &[u8], room: &mut [u8]) -> bool {
    matches!(look(rt, own, room), Ok(First::Own))
}

// Looks who stands first, and adds this process's line where it is missing; whether this process has the lock. Who waits gives up when the
// second has changed three times.
fn turn(rt: HostRuntime, clock: &mut Clock, own: &[u8], room: &mut [u8]) -> Result<bool, Told> {
    match look(rt, own, room) {
        Ok(First::Own) => Ok(is_first_again(rt, own, room)),
        Ok(First::Other(line)) => {
            clock.tick(rt);
            if 2 < clock.changes {
                say_busy(line);
                return Err(Told);
            }
            process::pause(rt);
            Ok(false)
        }
        Ok(First::Nobody) | Err(ReadError::Missing) => match add_line(rt, own) {
            // Where it is missing, who had the lock removed the file while this line was to be added to it.
            Ok(()) | Err(Cause::Missing) => Ok(false),
            Err(e) => {
                say::failed(b"cannot lock", b"this folder", e);
                Err(Told)
            }
        },
        Err(ReadError::TooLarge) => {
            say::error(b"basin.lock is too large");
            Err(Told)
        }
        Err(ReadError::Failed(e)) => {
            files::say_unread(rt, LOCK, e);
            Err(Told)
        }
    }
}

// Looks until it is settled.
fn wait(rt: HostRuntime, own: &[u8], room: &mut [u8]) -> Result<(), Told> {
    let mut clock = Clock::new(rt);
    for _ in 0..1000000 {
        if turn(rt, &mut clock, own, room)? {
            return Ok(());
        }
    }
    say::error(b"cannot lock this folder");
    Err(Told)
}

// Takes the lock: this process alone may write then.
pub fn take(rt: HostRuntime, room: &mut [u8]) -> Result<(), Told> {
    let Some(line) = own_line(rt) else {
        say::error(b"cannot lock this folder: /proc does not tell of this process");
        return Err(Told);
    };
    wait(rt, line.as_slice(), room)
}

// Gives the lock back.
pub fn release(rt: HostRuntime) {
    let _ = files::remove(rt, LOCK);
}
