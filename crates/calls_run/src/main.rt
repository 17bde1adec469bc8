// Plays the script on standard input: calls on small blocks and meshes, right ones and wrong ones, and what each of them gives.
// The line of a call has the words of memory and the bytes that are lent to it, then its numbers.
#![tactic(auto)]

use answers::{Answer, Written};
use balance::nextmove;
use balance::nextmove::Balance;
use memory::header::{BLOCKS, Header};
use script::{line, show};

// Question 2: 1 for a yes.
fn image(block: &[u64]) {
    show::text(if sound::is_sound(block) {
        b"1\n"
    } else {
        b"0\n"
    });
}

// An answer's number.
fn answered(a: Answer) {
    show::small(answers::answer_number(a));
    show::newline();
}

// An answer's number and the bytes written.
fn written(w: Written) {
    show::small(answers::written_number(w));
    show::size(answers::written_bytes(w));
    show::newline();
}

fn read_file(block: &mut [u64], file: &[u8]) {
    answered(readfile::read_file(file, block));
}

fn save_file(block: &[u64], out: &mut [u8]) {
    written(savefile::save_file(block, out));
}

fn send(line: &[u8], block: &[u64], outbox: &mut [u8]) {
    written(send::send(block, line::number(line, 3), line::number(line, 4), outbox));
}

fn release(line: &[u8], block: &mut [u64]) {
    answered(release::release(block, line::number(line, 3), line::number(line, 4)));
}

fn redirect(block: &mut [u64], message: &[u8]) {
    answered(redirect::redirect(block, message));
}

// The first n bytes of a text.
fn print(text: &[u8], n: usize) {
    if n <= text.len() {
        show::text(&text[0..n]);
    }
}

// The listing of a block that is sound.
fn list(block: &[u64], out: &mut [u8]) {
    if out.len() < listing::ROOM {
        return;
    }
    if !sound::is_sound(block) {
        show::text(b"not sound\n");
        return;
    }
    let n = listing::put_listing(block, out);
    print(out, n);
}

fn refused(line: &[u8], out: &mut [u8]) {
    if out.len() < listing::ROOM {
        return;
    }
    let n = listing::put_refused(line::small(line, 3), out);
    print(out, n);
}

fn too_long(out: &mut [u8]) {
    if out.len() < listing::ROOM {
        return;
    }
    let n = listing::put_too_long(out);
    print(out, n);
}

// The sixteen surpluses, as words.
fn surpluses(surplus: [i32; BLOCKS]) {
    for x in surplus {
        show::number(nextmove::signed_word(x));
    }
}

// The answer's number; kind (0 level, 1 blocked, 2 a move), donor, recipient and serial; mean and surpluses.
fn moved(b: Balance) {
    let m = b.next;
    show::small(answers::move_number(m));
    show::small(answers::move_kind(m));
    show::small(answers::move_donor(m));
    show::small(answers::move_recipient(m));
    show::number(answers::move_serial(m));
    show::small(b.mean);
    let surplus = b.surplus;
    surpluses(surplus);
    show::newline();
}

// By an oracle's number, an axis and the viewers, none where the line has no number more; its points are six floats, least significant byte first.
fn move_by(line: &[u8], mesh: &[u64], points: &[u8], scratch: &mut [u64]) -> Balance {
    let low = vectors::point(points, 0);
    let high = vectors::point(points, 24);
    nextmove::next_move_by_number(
        mesh,
        line::small(line, 5),
        line::small(line, 3),
        line::small(line, 4),
        low,
        high,
        scratch,
    )
}

fn next_move(line: &[u8], mesh: &[u64], points: &[u8]) {
    let mut scratch = [0u64; Header::SCRATCH];
    moved(move_by(line, mesh, points, &mut scratch));
}

// The call that the line names; what is none is said.
fn call(line: &[u8], memory: &mut [u64], bytes: &mut [u8]) {
    match line::command(line) {
        b"image" => image(memory),
        b"release" => release(line, memory),
        b"list" => list(memory, bytes),
        b"refused" => refused(line, bytes),
        b"too_long" => too_long(bytes),
        b"read_file" => read_file(memory, bytes),
        b"save_file" => save_file(memory, bytes),
        b"send" => send(line, memory, bytes),
        b"redirect" => redirect(memory, bytes),
        b"next_move" => next_move(line, memory, bytes),
        _ => {
            show::text(b"no command: ");
            show::text(line);
            show::newline();
        }
    }
}

// A call on so many words and bytes as its line tells.
fn lend(line: &[u8], memory: &mut [u64], bytes: &mut [u8]) {
    let words = line::index(line, 1);
    let n = line::index(line, 2);
    if words <= memory.len() {
        if n <= bytes.len() {
            call(line, &mut memory[0..words], &mut bytes[0..n]);
        }
    }
}

fn play(line: &[u8], memory: &mut [u64], bytes: &mut [u8]) {
    if script::set(line, memory, bytes) || script::tell(line, memory, bytes) {
        return;
    }
    lend(line, memory, bytes);
}

// Plays line after line, each ended by a line feed.
fn run(text: &[u8], memory: &mut [u64], bytes: &mut [u8]) {
    for whole in text.split_inclusive(|b| *b == b'\n').take(100000) {
        if let Some(line) = whole.strip_suffix(b"\n") {
            play(line, memory, bytes);
        }
    }
}

fn main() {
    let mut text = [0u8; 65536];
    let mut memory = [0u64; 131104];
    let mut bytes = [0u8; 262144];
    let n = io::read_full(0, &mut text);
    if n < text.len() {
        run(&text[..n], &mut memory, &mut bytes);
    } else {
        show::text(b"the script is too long\n");
    }
}
