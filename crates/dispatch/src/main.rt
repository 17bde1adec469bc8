// One program for the desk and for the restart: it keeps a basin as block files in the folder that it is run in.
#![tactic(auto)]

mod block; // block.rt: one block, from its file
mod tasks; // tasks.rt: what is done to a basin, and saved

use answers::Answer;
use commands::command;
use commands::command::{Command, OracleWord};
use console::arguments::{NoOracle, Options};
use console::playing::WrongInput;
use console::{arguments, inspect, playing};
use memory::header::Header;
use oracle::Oracle;
use store::reading;
use system::files::ReadError;
use system::say::{Failure, Told};
use system::{files, process, say};
use tasks::{Lent, Task};

fn help() {
    say::text(b"dispatch keeps a basin as files block-00.dmap to block-15.dmap in this folder\n");
    say::text(
        b"  dispatch check            a line for each block, and whether the basin is sound\n",
    );
    say::text(b"  dispatch list B           the darts of block B\n");
    say::text(
        b"  dispatch cells B          the cells of block B: serial, darts, faces, critical faces by block, mean of the corners\n",
    );
    say::text(
        b"  dispatch play             requests 'from to serial' on standard input, one a line\n",
    );
    say::text(
        b"  dispatch balance ORACLE   moves until no block has two cells more than another, or none may go\n",
    );
    say::text(
        b"  dispatch split K          the basin over K blocks, new ones empty, then balanced\n",
    );
    say::text(b"  dispatch add K            the basin over K blocks, new ones empty\n");
    say::text(b"  dispatch help             this\n");
    say::text(
        b"ORACLE is one of: all; box x0 y0 z0 x1 y1 z1; plane axis value (decimals, as -2.5 or 1e-3; axis 0, 1 or 2)\n",
    );
    say::text(
        b"play, balance, split and add take --dry-run: all is printed, nothing is saved; play takes --all-or-nothing: one refusal, and nothing is saved\n",
    );
    say::text(
        b"the file viewers, where there is one, is a line as '3 7' that names the blocks that are viewers', which have at most 256 darts and give and take cells of at most 64\n",
    );
}

// The words of a command are not what it takes.
fn wrong_words(usage: &[u8]) -> Told {
    say::complain(b"error: the words are not what this command takes: dispatch ");
    say::complain(usage);
    say::complain(b"\n");
    Told
}

fn check(
    rt: HostRuntime,
    mesh: &mut [u64],
    scratch: &mut [u64],
    room: &mut [u8],
) -> Result<(), Failure> {
    let viewers = reading::viewers(rt)?;
    let k = reading::look(rt, mesh, room)?;
    if mesh.len() / Header::WORDS < k {
        return Err(Failure::Error);
    }
    let end = k * Header::WORDS;
    let blocks = &mesh[0..end];
    inspect::show_blocks(blocks, viewers);
    inspect::check_sound(blocks, viewers, scratch)?;
    say::text(b"sound\n");
    Ok(())
}

// The listing of a file, by way of lent bytes.
fn show_listing(file: &[u8], text: &mut [u8]) {
    if text.len() < 262144 {
        return;
    }
    let n = listfile::list_whole(file, text);
    if n <= text.len() {
        say::text(&text[0..n]);
    }
}

// What is told of one block.
#[derive(Clone, Copy)]
enum Telling {
    List,
    Cells,
}

impl Telling {
    // How the command is written.
    fn usage(self) -> &'static [u8] {
        match self {
            Telling::List => b"list B",
            Telling::Cells => b"cells B",
        }
    }

    // Tells it of a file that was read into a block's memory.
    fn show(self, file: &[u8], block: &[u64], rows: &mut [u64], text: &mut [u8]) {
        match self {
            Telling::List => show_listing(file, text),
            Telling::Cells => cells_text::show(block, rows),
        }
    }
}

// List and cells of block b: what they tell of its file, or why it is refused.
fn tell(
    rt: HostRuntime,
    what: Telling,
    b: usize,
    text: &mut [u8],
    lent: &mut Lent,
) -> Result<(), Failure> {
    let viewers = reading::viewers(rt)?;
    if lent.mesh.len() < Header::WORDS {
        return Err(Failure::Error);
    }
    match reading::file_of(rt, b, lent.room) {
        Ok(file) => {
            let block = &mut lent.mesh[0..Header::WORDS];
            if let Err(r) = block::from_file(viewers, b, file, block) {
                reading::say_refused(b, r);
                return Err(Failure::Refused);
            }
            what.show(file, block, lent.requests, text);
            Ok(())
        }
        Err(e) => {
            reading::say_unread(rt, b, e);
            Err(Failure::Error)
        }
    }
}

// Whether there are n words, the program's name among them, and no option.
fn words_are(rt: HostRuntime, n: usize, o: Options) -> bool {
    (arguments::count(rt) == n) & !o.dry & !o.whole
}

// The word of list and cells.
fn tell_word(
    rt: HostRuntime,
    what: Telling,
    o: Options,
    text: &mut [u8],
    lent: &mut Lent,
) -> Result<(), Failure> {
    if !words_are(rt, 3, o) {
        return Err(Failure::from(wrong_words(what.usage())));
    }
    match arguments::number_at(rt, 2) {
        Some(b) if b < Header::BLOCKS => tell(rt, what, b as usize, text, lent),
        Some(_) => {
            say::error(b"a block's number is 0 to 15");
            Err(Failure::Error)
        }
        None => Err(Failure::from(wrong_words(what.usage()))),
    }
}

// A line that keeps the list from being played.
fn say_wrong_line(number: u64, why: &[u8]) {
    say::complain(b"error: line ");
    say::complain_number(number);
    say::complain(why);
    say::complain(b": nothing is played\n");
}

// Why the input is not played.
fn wrong_input(e: WrongInput) -> Told {
    match e {
        WrongInput::Line(number) => say_wrong_line(number, b" is no request 'from to serial'"),
        WrongInput::Cut(number) => {
            say_wrong_line(number, b" is cut off, it has no line feed at its end")
        }
        WrongInput::TooMany => say::error(b"more than 16384 requests: nothing is played"),
    }
    Told
}

// Why the input is not read.
fn unread_input(e: ReadError) -> Told {
    match e {
        ReadError::Missing => {}
        ReadError::TooLarge => {
            say::error(b"more than 524287 bytes of requests: nothing is played")
        }
        ReadError::Failed(cause) => {
            say::failed(b"cannot read", b"the requests on standard input", cause)
        }
    }
    Told
}

// Play, with what is read of standard input into lent bytes. It takes options alone.
fn play(rt: HostRuntime, o: Options, text: &mut [u8], lent: &mut Lent) -> Result<(), Failure> {
    if arguments::count(rt) != 2 {
        return Err(Failure::from(wrong_words(b"play [--dry-run] [--all-or-nothing]")));
    }
    let input = files::read_input(rt, text).map_err(unread_input)?;
    let n = playing::take(input, lent.requests).map_err(wrong_input)?;
    tasks::run(rt, Task::Play(n), o, input, lent)
}

// The oracle that the words name.
fn oracle_named(rt: HostRuntime) -> Result<Oracle, NoOracle> {
    let mut room = [0u8; 16];
    let word = command::oracle_of(arguments::word(rt, 2, &mut room));
    match (word, arguments::count(rt)) {
        (OracleWord::All, 3) => Ok(Oracle::Every),
        (OracleWord::Box, 9) => arguments::box_of(rt),
        (OracleWord::Plane, 5) => arguments::plane_of(rt),
        _ => Err(NoOracle::Words),
    }
}

fn balance_words(rt: HostRuntime) -> Result<Task, Told> {
    match oracle_named(rt) {
        Ok(o) => Ok(Task::Balance(o)),
        Err(NoOracle::Told) => Err(Told),
        Err(NoOracle::Words) => Err(wrong_words(
            b"balance ORACLE [--dry-run], ORACLE one of: all; box x0 y0 z0 x1 y1 z1; plane axis value",
        )),
    }
}

// The word of split and add: a number of blocks for a basin.
fn blocks_word(rt: HostRuntime, usage: &[u8]) -> Result<usize, Told> {
    if arguments::count(rt) != 3 {
        return Err(wrong_words(usage));
    }
    match arguments::number_at(rt, 2) {
        Some(n) => {
            if (n < 1) | (Header::BLOCKS < n) {
                say::error(b"a basin has 1 to 16 blocks");
                return Err(Told);
            }
            Ok(n as usize)
        }
        None => Err(wrong_words(usage)),
    }
}

// The task that a command's words ask for, if it takes no list of requests.
fn plan(rt: HostRuntime, c: Command) -> Result<Task, Told> {
    match c {
        Command::Balance => balance_words(rt),
        Command::Split => Ok(Task::Split(blocks_word(rt, b"split K [--dry-run]")?)),
        Command::Add => Ok(Task::Add(blocks_word(rt, b"add K [--dry-run]")?)),
        _ => Err(Told),
    }
}

// Does such a task.
fn do_planned(
    rt: HostRuntime,
    planned: Result<Task, Told>,
    o: Options,
    lent: &mut Lent,
) -> Result<(), Failure> {
    if o.whole {
        say::error(b"only play takes --all-or-nothing");
        return Err(Failure::Error);
    }
    tasks::run(rt, planned?, o, &[], lent)
}

// Check takes no word more.
fn check_word(rt: HostRuntime, o: Options, lent: &mut Lent) -> Result<(), Failure> {
    if words_are(rt, 2, o) {
        return check(rt, lent.mesh, lent.scratch, lent.room);
    }
    Err(Failure::from(wrong_words(b"check")))
}

// A command that reads a basin, in memory that is lent to it.
fn work(
    rt: HostRuntime,
    c: Command,
    o: Options,
    text: &mut [u8],
    lent: &mut Lent,
) -> Result<(), Failure> {
    match c {
        Command::Check => check_word(rt, o, lent),
        Command::List => tell_word(rt, Telling::List, o, text, lent),
        Command::Cells => tell_word(rt, Telling::Cells, o, text, lent),
        Command::Play => play(rt, o, text, lent),
        _ => do_planned(rt, plan(rt, c), o, lent),
    }
}

// The same, with all memory that any command needs: sixteen blocks and what is made of them, 6.5 MB. It is not to become a part of its caller,
// which asks first whether there is such a stack.
#[inline(never)]
fn with_memory(rt: HostRuntime, c: Command, o: Options) -> Result<(), Failure> {
    let mut mesh = [0u64; 524416];
    let mut scratch = [0u64; Header::SCRATCH];
    let mut outbox = [0u8; Header::OUTBOX];
    let mut room = [0u8; 262144];
    let mut text = [0u8; 524288];
    let mut requests = [0u64; 98304];
    let mut outcomes = [0u64; 16384];
    let mut lent = Lent {
        requests: &mut requests,
        outcomes: &mut outcomes,
        mesh: &mut mesh,
        scratch: &mut scratch,
        outbox: &mut outbox,
        room: &mut room,
    };
    work(rt, c, o, &mut text, &mut lent)
}

// Runs a command.
fn run(rt: HostRuntime, c: Command, o: Options) -> Result<(), Failure> {
    match c {
        Command::Help => {
            help();
            Ok(())
        }
        Command::Unknown => {
            say::error(b"unknown command: dispatch help tells what there is");
            Err(Failure::Error)
        }
        _ => with_memory(rt, c, o),
    }
}

// The command that the first word names; without one, help.
fn command_given(rt: HostRuntime) -> Command {
    if arguments::count(rt) < 2 {
        return Command::Help;
    }
    let mut room = [0u8; 16];
    command::command_of(arguments::word(rt, 1, &mut room))
}

// The stack that a command needs, in bytes.
const STACK: u64 = 7864320;

fn start(rt: HostRuntime) -> Result<(), Failure> {
    if !process::has_stack(rt, STACK) {
        say::error(b"the program needs 7.5 MB of stack, and its limit is lower (ulimit -s 8192)");
        return Err(Failure::Error);
    }
    let o = arguments::options_given(rt)?;
    run(rt, command_given(rt), o)
}

// How a command ended, as a digit: done; refused; or not done, for another reason.
fn digit(ended: Result<(), Failure>) -> u8 {
    match ended {
        Ok(()) => b'0',
        Err(Failure::Refused) => b'1',
        Err(Failure::Error) => b'2',
    }
}

fn main(rt: HostRuntime) {
    files::fill_standard(rt);
    let ended = start(rt);
    if let Some(to) = arguments::status_descriptor(rt) {
        io::write_all(to, &[digit(ended)]);
    }
}
