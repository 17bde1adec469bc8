// Requests: read from lines, then played as one list, then told line by line.
use commands::lines;
use commands::lines::Line;
use system::say;

// What is wrong with an input: a line that is no request; a last line that is cut off; more requests than there is room for.
#[derive(Clone, Copy, PartialEq, Eq, Debug)]
pub enum WrongInput {
    Line(u64),
    Cut(u64),
    TooMany,
}

// Why a line was not taken: it is no request; there is no room for more.
#[derive(Clone, Copy)]
enum NotTaken {
    Wrong,
    Full,
}

// A line that begins with # is a note, and is passed over.
fn is_note(line: &[u8]) -> bool {
    line.starts_with(b"#")
}

// How many requests there is room for.
pub const MOST: usize = 16384;

// Request n, at its place; how many there are then.
fn put(requests: &mut [u64], n: usize, request: [u64; 3]) -> Result<usize, NotTaken> {
    if n < MOST && n < requests.len() / 3 {
        let at = n * 3;
        requests[at..at + 3].copy_from_slice(&request);
        return Ok(n + 1);
    }
    Err(NotTaken::Full)
}

// The request of a line, if it has one, behind n others; how many there are then.
fn take_line(line: &[u8], requests: &mut [u64], n: usize) -> Result<usize, NotTaken> {
    if is_note(line) {
        return Ok(n);
    }
    match lines::line_of(line) {
        Line::Request(from, to, serial) => put(requests, n, [from, to, serial]),
        Line::Blank => Ok(n),
        Line::Other => Err(NotTaken::Wrong),
    }
}

// The requests of an input, three numbers each; how many. Every line of it ends with a line feed.
pub fn take(input: &[u8], requests: &mut [u64]) -> Result<usize, WrongInput> {
    // Of the lines that are taken there are so many, with n requests.
    let mut number: u64 = 0;
    let mut n = 0;
    for whole in input.split_inclusive(|b| *b == b'\n') {
        number = number.wrapping_add(1);
        let Some(line) = whole.strip_suffix(b"\n") else {
            return Err(WrongInput::Cut(number));
        };
        match take_line(line, requests, n) {
            Ok(m) => n = m,
            Err(NotTaken::Wrong) => {
                return Err(WrongInput::Line(number));
            }
            Err(NotTaken::Full) => {
                return Err(WrongInput::TooMany);
            }
        }
    }
    Ok(n)
}

// What became of a request.
fn show_outcome(outcome: u64) {
    if outcome == 0 {
        say::text(b"moved\n");
        return;
    }
    if outcome <= 29 {
        let question = outcome as u32;
        say::refused(question);
        say::meaning(question);
        say::text(b"\n");
        return;
    }
    say::text(b"not finished\n");
}

// A request with the number of its line, and what became of it.
fn show_request(number: u64, from: u64, to: u64, serial: u64, outcome: u64) {
    say::text(b"line ");
    say::number(number);
    say::text(b": ");
    say::number(from);
    say::text(b" ");
    say::number(to);
    say::text(b" ");
    say::number(serial);
    say::text(b": ");
    show_outcome(outcome);
}

// A line's request, if it has one, as number i; the number of the next one.
fn show_line(line: &[u8], number: u64, i: usize, outcomes: &[u64]) -> usize {
    if is_note(line) {
        return i;
    }
    match lines::line_of(line) {
        Line::Request(from, to, serial) => {
            let outcome = outcomes.get(i).copied().unwrap_or(0);
            show_request(number, from, to, serial, outcome);
            i.wrapping_add(1)
        }
        Line::Blank | Line::Other => i,
    }
}

// The requests of an input, each with its outcome.
pub fn show(input: &[u8], outcomes: &[u64]) {
    // Of the lines that are told there are so many, with i requests.
    let mut number: u64 = 0;
    let mut i = 0;
    for line in input.split(|b| *b == b'\n') {
        number = number.wrapping_add(1);
        i = show_line(line, number, i, outcomes);
    }
}

// How many outcomes are a number.
pub fn count(outcomes: &[u64], number: u64) -> u64 {
    outcomes
        .iter()
        .filter(|outcome| **outcome == number)
        .count() as u64
}
