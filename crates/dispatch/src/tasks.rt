// What a command does to a basin that it may save: it plays requests, balances, or adds blocks.
use console::arguments::Options;
use console::{inspect, moving, playing};
use memory::header::Header;
use oracle::Oracle;
use rebalance::Balanced;
use store::{disk, reading};
use system::say::{Failure, Told};
use system::{lock, say};

// Plays so many requests; balances; adds empty blocks up to so many, and balances or does not.
#[derive(Clone, Copy)]
pub enum Task {
    Play(usize),
    Balance(Oracle),
    Split(usize),
    Add(usize),
}

// The memory that is lent to a command: for requests, moves or rows of cells, and their outcomes, for a basin, and for what is made of it.
#[derive(Drop)]
pub struct Lent<'a> {
    pub requests: &'a mut [u64],
    pub outcomes: &'a mut [u64],
    pub mesh: &'a mut [u64],
    pub scratch: &'a mut [u64],
    pub outbox: &'a mut [u8],
    pub room: &'a mut [u8],
}

// Saves a basin that has changed, unless it is a dry run.
fn save_if(
    rt: HostRuntime,
    changed: bool,
    dry: bool,
    mesh: &[u64],
    room: &mut [u8],
) -> Result<(), Told> {
    if dry {
        say::text(b"# dry run: nothing saved\n");
        return Ok(());
    }
    if changed {
        return disk::save(rt, mesh, room);
    }
    Ok(())
}

// What was played. A round that did not finish, which never is on a sound basin, keeps all from being saved.
fn end_play(
    rt: HostRuntime,
    outcomes: &[u64],
    o: Options,
    mesh: &[u64],
    room: &mut [u8],
) -> Result<(), Failure> {
    if 0 < playing::count(outcomes, rounds::list::UNFINISHED) {
        say::error(b"a round did not finish: nothing is saved");
        return Err(Failure::Error);
    }
    let asked = outcomes.len() as u64;
    let moved = playing::count(outcomes, 0);
    say::text(b"# ");
    say::number(moved);
    say::text(b" of ");
    say::number(asked);
    say::text(b" moved\n");
    if o.whole & (moved != asked) {
        say::text(b"# all or nothing: nothing saved\n");
        return Err(Failure::Refused);
    }
    save_if(rt, 0 < moved, o.dry, mesh, room)?;
    if moved != asked {
        return Err(Failure::Refused);
    }
    Ok(())
}

// Plays requests.
fn play(
    rt: HostRuntime,
    o: Options,
    input: &[u8],
    requests: &[u64],
    outcomes: &mut [u64],
    mesh: &mut [u64],
    viewers: u32,
    scratch: &mut [u64],
    outbox: &mut [u8],
    room: &mut [u8],
) -> Result<(), Failure> {
    inspect::check_sound(mesh, viewers, scratch)?;
    rounds::list::play_all(mesh, viewers, requests, outcomes, outbox);
    playing::show(input, outcomes);
    end_play(rt, outcomes, o, mesh, room)
}

// How a balance or a part of it ended, after so many moves: there are more, it is level or blocked.
#[derive(Clone, Copy)]
enum Ended {
    More(u64),
    Level(u64),
    Blocked(u64),
}

// The moves of a part, told; how many there were with those before.
fn told(moves: &[u64], before: u64, n: usize) -> u64 {
    moving::show(moves, n);
    before.wrapping_add(n as u64)
}

// As many moves as there is room for, told.
fn balance_part(
    by: Oracle,
    before: u64,
    moves: &mut [u64],
    mesh: &mut [u64],
    viewers: u32,
    scratch: &mut [u64],
    outbox: &mut [u8],
) -> Result<Ended, Failure> {
    match rebalance::balance(mesh, viewers, by, scratch, outbox, moves) {
        Balanced::Full(n) => Ok(Ended::More(told(moves, before, n))),
        Balanced::Level(n) => Ok(Ended::Level(told(moves, before, n))),
        Balanced::Blocked(n) => Ok(Ended::Blocked(told(moves, before, n))),
        Balanced::Unfinished(_) => {
            say::error(b"a move did not finish: nothing is saved");
            Err(Failure::Error)
        }
        Balanced::Refused(_, r) => {
            let question = answers::refusal_number(r);
            say::refused(question);
            say::meaning(question);
            say::text(b"\n");
            Err(Failure::Refused)
        }
    }
}

// Moves until there is none, part by part; there are no more parts than moves.
fn balance_parts(
    by: Oracle,
    moves: &mut [u64],
    mesh: &mut [u64],
    viewers: u32,
    scratch: &mut [u64],
    outbox: &mut [u8],
) -> Result<Ended, Failure> {
    let mut done = 0;
    for _ in 0..rebalance::most_moves() {
        match balance_part(by, done, moves, mesh, viewers, scratch, outbox)? {
            Ended::More(n) => done = n,
            ended => {
                return Ok(ended);
            }
        }
    }
    Ok(Ended::More(done))
}

// Says what a balance came to, after so many moves.
fn say_ended(how: &[u8], moves: u64) -> u64 {
    say::text(b"# ");
    say::text(how);
    say::text(b" after ");
    say::number(moves);
    say::text(b" moves\n");
    moves
}

// Balances, and saves the basin if anything changed.
fn balance(
    rt: HostRuntime,
    by: Oracle,
    dry: bool,
    moves: &mut [u64],
    grown: bool,
    mesh: &mut [u64],
    viewers: u32,
    scratch: &mut [u64],
    outbox: &mut [u8],
    room: &mut [u8],
) -> Result<(), Failure> {
    inspect::check_sound(mesh, viewers, scratch)?;
    if inspect::show_balance(b"# before:", mesh, viewers, by, scratch).is_err() {
        return Err(Failure::Refused);
    }
    let n = match balance_parts(by, moves, mesh, viewers, scratch, outbox)? {
        Ended::Level(n) => say_ended(b"level", n),
        Ended::Blocked(n) => say_ended(b"blocked", n),
        Ended::More(_) => {
            say::error(b"there are more moves than a sound basin has: nothing is saved");
            return Err(Failure::Error);
        }
    };
    inspect::show_balance(b"# after:", mesh, viewers, by, scratch)?;
    save_if(rt, grown | (0 < n), dry, mesh, room)?;
    Ok(())
}

// Saves the basin if it has grown.
fn keep(
    rt: HostRuntime,
    dry: bool,
    grown: bool,
    mesh: &[u64],
    viewers: u32,
    scratch: &mut [u64],
    room: &mut [u8],
) -> Result<(), Failure> {
    inspect::check_sound(mesh, viewers, scratch)?;
    say::text(b"# the basin has ");
    say::number((mesh.len() / Header::WORDS) as u64);
    say::text(b" blocks\n");
    save_if(rt, grown, dry, mesh, room)?;
    Ok(())
}

// Makes block b empty.
fn empty_part(b: usize, mesh: &mut [u64]) {
    if b < mesh.len() / Header::WORDS {
        // A part of a mesh has the size of a block, and b is a number of one: it is served.
        let _ = memory::header::empty(b as u64, mesh::part_mut(mesh, b));
    }
}

// Adds empty blocks to k of them, up to n, if that can be.
fn grow(k: usize, n: usize, mesh: &mut [u64]) -> Result<(), Told> {
    if n < k {
        say::complain(b"error: the basin has ");
        say::complain_number(k as u64);
        say::complain(b" blocks; it cannot go down to fewer, since their labels name them\n");
        return Err(Told);
    }
    for b in k..n {
        empty_part(b, mesh);
    }
    Ok(())
}

// How many blocks a task leaves of k.
fn blocks_after(task: Task, k: usize) -> usize {
    match task {
        Task::Play(_) | Task::Balance(_) => k,
        Task::Split(n) | Task::Add(n) => n,
    }
}

// Does a task on the k blocks that were read, and on those that it adds.
fn carry_out(
    rt: HostRuntime,
    task: Task,
    o: Options,
    k: usize,
    input: &[u8],
    requests: &mut [u64],
    outcomes: &mut [u64],
    mesh: &mut [u64],
    viewers: u32,
    scratch: &mut [u64],
    outbox: &mut [u8],
    room: &mut [u8],
) -> Result<(), Failure> {
    let n = blocks_after(task, k);
    grow(k, n, mesh)?;
    if mesh.len() / Header::WORDS < n {
        return Err(Failure::Error);
    }
    let grown = k < n;
    let end = n * Header::WORDS;
    let blocks = &mut mesh[0..end];
    match task {
        Task::Play(asked) => {
            if outcomes.len() < asked {
                return Err(Failure::Error);
            }
            let part = &mut outcomes[0..asked];
            play(
                rt, o, input, requests, part, blocks, viewers, scratch, outbox, room,
            )
        }
        Task::Balance(by) => balance(
            rt, by, o.dry, requests, grown, blocks, viewers, scratch, outbox, room,
        ),
        Task::Split(_) => balance(
            rt,
            Oracle::Every,
            o.dry,
            requests,
            grown,
            blocks,
            viewers,
            scratch,
            outbox,
            room,
        ),
        Task::Add(_) => keep(rt, o.dry, grown, blocks, viewers, scratch, room),
    }
}

// Reads the basin and does a task on it.
fn read_and_do(
    rt: HostRuntime,
    task: Task,
    o: Options,
    input: &[u8],
    viewers: u32,
    lent: &mut Lent,
) -> Result<(), Failure> {
    let k = reading::look(rt, lent.mesh, lent.room)?;
    carry_out(
        rt,
        task,
        o,
        k,
        input,
        lent.requests,
        lent.outcomes,
        lent.mesh,
        viewers,
        lent.scratch,
        lent.outbox,
        lent.room,
    )
}

// The same while this process alone writes, and once a save that was cut short is finished or forgotten.
fn recover_and_do(
    rt: HostRuntime,
    task: Task,
    o: Options,
    input: &[u8],
    viewers: u32,
    lent: &mut Lent,
) -> Result<(), Failure> {
    disk::recover(rt, lent.room)?;
    read_and_do(rt, task, o, input, viewers, lent)
}

// Does a task on the basin of this folder: in a dry run as a reader does, else while this process alone writes.
pub fn run(
    rt: HostRuntime,
    task: Task,
    o: Options,
    input: &[u8],
    lent: &mut Lent,
) -> Result<(), Failure> {
    let viewers = reading::viewers(rt)?;
    if o.dry {
        return read_and_do(rt, task, o, input, viewers, lent);
    }
    lock::take(rt, lent.room)?;
    let ended = recover_and_do(rt, task, o, input, viewers, lent);
    lock::release(rt);
    ended
}
