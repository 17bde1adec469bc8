// Balances the meshes on standard input to the end: for each the number of blocks, the viewers, the blocks' files behind their lengths, the
// oracle, its axis and its six floats. Prints the picked volumes of every block, the moves, how they end, the picked volumes then and a digest of
// every block.
#![tactic(auto)]

use memory::header::Header;
use oracle::Oracle;
use rebalance::Ending;
use vectors::{cursor, meshes};

// How many volumes of a block are picked; none of memory that is no sound block's.
fn picked(block: &[u64], o: Oracle) -> usize {
    if sound::is_sound(block) {
        return selection::count(block, o);
    }
    0
}

// The same of block b of a mesh.
fn picked_at(mesh: &[u64], b: usize, o: Oracle) -> usize {
    if b < mesh.len() / Header::WORDS {
        let start = b * Header::WORDS;
        let past = start + Header::WORDS;
        return picked(&mesh[start..past], o);
    }
    0
}

// The picked volumes of each of k blocks.
fn show_counts(mesh: &[u64], k: usize, o: Oracle) {
    io::write_all(1, b"counts");
    for b in 0..k {
        io::write_all(1, b" ");
        io::print_decimal(1, picked_at(mesh, b, o) as u64);
    }
    io::write_all(1, b"\n");
}

// A digest of each of k blocks.
fn show_digests(mesh: &[u64], k: usize) {
    io::write_all(1, b"digests");
    for b in 0..k {
        io::write_all(1, b" ");
        io::print_decimal(1, meshes::digest(mesh, b));
    }
    io::write_all(1, b"\n");
}

fn show_move(what: &[u8], donor: u32, recipient: u32, serial: u64) {
    io::write_all(1, what);
    io::print_decimal(1, u64::from(donor));
    io::write_all(1, b" ");
    io::print_decimal(1, u64::from(recipient));
    io::write_all(1, b" ");
    io::print_decimal(1, serial);
    io::write_all(1, b"\n");
}

// What a step came to; whether a volume moved.
fn show_step(s: Ending) -> bool {
    match s {
        Ending::Level => {
            io::write_all(1, b"level\n");
            false
        }
        Ending::Blocked => {
            io::write_all(1, b"blocked\n");
            false
        }
        Ending::Moved(donor, recipient, serial) => {
            show_move(b"move ", donor, recipient, serial);
            true
        }
        Ending::Unfinished(donor, recipient, serial) => {
            show_move(b"unfinished ", donor, recipient, serial);
            false
        }
        Ending::Refused(r) => {
            io::write_all(1, b"refused ");
            io::print_decimal(1, u64::from(answers::refusal_number(r)));
            io::write_all(1, b"\n");
            false
        }
    }
}

// Step after step until nothing moves.
fn balance(mesh: &mut [u64], viewers: u32, o: Oracle, scratch: &mut [u64], outbox: &mut [u8]) {
    for _ in 0..rebalance::most_moves() {
        if !show_step(rebalance::step(mesh, viewers, o, scratch, outbox)) {
            return;
        }
    }
}

// A mesh of k blocks and nothing else.
fn balance_blocks(
    mesh: &mut [u64],
    viewers: u32,
    k: usize,
    o: Oracle,
    scratch: &mut [u64],
    outbox: &mut [u8],
) {
    show_counts(mesh, k, o);
    balance(mesh, viewers, o, scratch, outbox);
    show_counts(mesh, k, o);
    show_digests(mesh, k);
}

// The first k blocks of what is lent.
fn balance_first(
    mesh: &mut [u64],
    viewers: u32,
    k: usize,
    o: Oracle,
    scratch: &mut [u64],
    outbox: &mut [u8],
) {
    if k <= mesh.len() / Header::WORDS {
        let words = k * Header::WORDS;
        balance_blocks(&mut mesh[..words], viewers, k, o, scratch, outbox);
    }
}

// The oracle at a place: 0 every volume, 1 a box, else a plane.
fn oracle_at(input: &[u8], at: usize) -> Oracle {
    let kind = cursor::byte(input, at);
    let axis = u64::from(cursor::byte(input, cursor::step(input, at, 1)));
    let low = vectors::point(input, cursor::step(input, at, 2));
    let high = vectors::point(input, cursor::step(input, at, 26));
    let value = low.x;
    if kind == 0 {
        return Oracle::Every;
    }
    if kind == 1 {
        return Oracle::Box(low, high);
    }
    Oracle::Plane(axis, value)
}

// A mesh and its oracle; the place past them.
fn balance_mesh(
    input: &[u8],
    at: usize,
    mesh: &mut [u64],
    scratch: &mut [u64],
    outbox: &mut [u8],
) -> usize {
    let k = usize::from(cursor::byte(input, at));
    io::write_all(1, b"blocks ");
    io::print_decimal(1, k as u64);
    io::write_all(1, b"\n");
    let viewers = vectors::small(input, cursor::step(input, at, 1));
    let oracle = meshes::read_mesh(input, cursor::step(input, at, 5), mesh, k);
    if oracle == cursor::NOWHERE {
        io::write_all(1, b"a file is refused\n");
        return oracle;
    }
    balance_first(mesh, viewers, k, oracle_at(input, oracle), scratch, outbox);
    cursor::step(input, oracle, 50)
}

// Mesh after mesh.
fn balance_all(input: &[u8], mesh: &mut [u64], scratch: &mut [u64], outbox: &mut [u8]) {
    let mut at = 0;
    for _ in 0..1000 {
        if input.len() <= at {
            return;
        }
        at = balance_mesh(input, at, mesh, scratch, outbox);
    }
}

// Balances what the first n bytes tell; an input that fills its room may have been longer.
fn run(input: &[u8], n: usize, mesh: &mut [u64], scratch: &mut [u64], outbox: &mut [u8]) {
    if n < input.len() {
        balance_all(&input[..n], mesh, scratch, outbox);
    } else {
        io::write_all(1, b"the input is too long\n");
    }
}

fn main() {
    let mut input = [0u8; 262144];
    let mut mesh = [0u64; 524416];
    let mut scratch = [0u64; Header::SCRATCH];
    let mut outbox = [0u8; Header::OUTBOX];
    let n = io::read_full(0, &mut input);
    run(&input, n, &mut mesh, &mut scratch, &mut outbox);
}
