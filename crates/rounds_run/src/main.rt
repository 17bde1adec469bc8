// Plays the requests on standard input, mesh after mesh: the number of blocks, the viewers, the blocks' files behind their lengths, the
// number of requests, the requests. Prints each round's outcome and a digest of every block after it.
#![tactic(auto)]

use memory::header::Header;
use rounds::Outcome;
use vectors::{cursor, meshes};

// The outcome, and a digest of each of k blocks.
fn show(outcome: Outcome, mesh: &[u64], k: usize) {
    match outcome {
        Outcome::Finished => {
            io::write_all(1, b"moved");
        }
        Outcome::Unfinished => {
            io::write_all(1, b"unfinished");
        }
        Outcome::Refused(r) => {
            io::write_all(1, b"refused ");
            io::print_decimal(1, u64::from(answers::refusal_number(r)));
        }
    }
    for b in 0..k {
        io::write_all(1, b" ");
        io::print_decimal(1, meshes::digest(mesh, b));
    }
    io::write_all(1, b"\n");
}

// Plays n requests that stand from a place on; the place past them.
fn play(
    input: &[u8],
    at: usize,
    n: usize,
    mesh: &mut [u64],
    viewers: u32,
    k: usize,
    outbox: &mut [u8],
) -> usize {
    let mut place = at;
    for _ in 0..n {
        let from = u64::from(cursor::byte(input, place));
        let to = u64::from(cursor::byte(input, cursor::step(input, place, 1)));
        let serial = cursor::number(input, cursor::step(input, place, 2), 8);
        show(
            rounds::play(mesh, viewers, from, to, serial, outbox),
            mesh,
            k,
        );
        place = cursor::step(input, place, 10);
    }
    place
}

// A mesh and its requests, which name its blocks alone; the place past them.
fn play_mesh(input: &[u8], at: usize, mesh: &mut [u64], outbox: &mut [u8]) -> usize {
    let k = usize::from(cursor::byte(input, at));
    io::write_all(1, b"blocks ");
    io::print_decimal(1, k as u64);
    io::write_all(1, b"\n");
    let viewers = vectors::small(input, cursor::step(input, at, 1));
    let requests = meshes::read_mesh(input, cursor::step(input, at, 5), mesh, k);
    if requests == cursor::NOWHERE {
        io::write_all(1, b"a file is refused\n");
        return requests;
    }
    let n = usize::from(cursor::byte(input, requests));
    play(
        input,
        cursor::step(input, requests, 1),
        n,
        mesh,
        viewers,
        k,
        outbox,
    )
}

// Mesh after mesh.
fn play_all(input: &[u8], mesh: &mut [u64], outbox: &mut [u8]) {
    let mut at = 0;
    for _ in 0..1000 {
        if input.len() <= at {
            return;
        }
        at = play_mesh(input, at, mesh, outbox);
    }
}

// Plays the first n bytes; an input that fills its room may have been longer.
fn run(input: &[u8], n: usize, mesh: &mut [u64], outbox: &mut [u8]) {
    if n < input.len() {
        play_all(&input[..n], mesh, outbox);
    } else {
        io::write_all(1, b"the input is too long\n");
    }
}

fn main() {
    let mut input = [0u8; 262144];
    let mut mesh = [0u64; 524416];
    let mut outbox = [0u8; Header::OUTBOX];
    let n = io::read_full(0, &mut input);
    run(&input, n, &mut mesh, &mut outbox);
}
