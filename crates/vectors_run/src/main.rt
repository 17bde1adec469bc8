// Plays the vectors on standard input: each is a byte for the call, the length of the record, the record.
// Prints what is not as told, then for each call how many records were as told, by their answer.
#![tactic(auto)]

use vectors::{Host, Verdict, records};

// The calls that are played, and the answers that each has.
const CALLS: usize = 16;

const ANSWERS: usize = 30;

fn name(call: usize) -> &'static [u8] {
    match call {
        0 => b"empty",
        1 => b"read_file",
        2 => b"save_file",
        3 => b"send",
        4 => b"receive",
        5 => b"release",
        6 => b"redirect",
        7 => b"check_mesh",
        8 => b"next_move",
        9 => b"viewer_empty",
        10 => b"viewer_read_file",
        11 => b"viewer_save_file",
        12 => b"viewer_send",
        13 => b"viewer_receive",
        14 => b"viewer_release",
        15 => b"viewer_redirect",
        _ => b"no call",
    }
}

// What is lent to a call, and what it is compared with.
#[derive(Drop)]
struct Lent<'a> {
    mesh: &'a mut [u64],
    block: &'a mut [u64],
    told: &'a mut [u64],
    out: &'a mut [u8],
}

impl Lent<'_> {
    // One record of a call on a block.
    fn play_block(&mut self, host: Host, call: u8, record: &[u8]) -> Verdict {
        match call {
            0 => vectors::empty_case(host, record, self.block, self.told),
            1 => vectors::read_file_case(host, record, self.block, self.told),
            2 => vectors::save_file_case(host, record, self.block, self.out),
            3 => vectors::send_case(host, record, self.block, self.out),
            4 => vectors::receive_case(host, record, self.block, self.told),
            5 => vectors::release_case(host, record, self.block, self.told),
            6 => vectors::redirect_case(host, record, self.block, self.told),
            _ => Verdict::Unreadable,
        }
    }

    // One record of a call: a viewer's calls on a block follow those on a mesh, in the order of the rack's.
    fn play(&mut self, call: u8, record: &[u8]) -> Verdict {
        match call {
            0..=6 => self.play_block(Host::Rack, call, record),
            7 => vectors::check_mesh_case(record, self.mesh, self.block, self.told),
            8 => vectors::next_move_case(record, self.mesh, self.block, self.told),
            9..=u8::MAX => self.play_block(Host::Viewer, call - 9, record),
        }
    }
}

// How many records of each call were as told, by their answer, and of how many what was found.
#[derive(Drop)]
struct Counts {
    answers: [[u64; ANSWERS]; CALLS],
    verdicts: [u64; records::VERDICTS],
}

fn add_one(counts: &mut [u64], i: usize) {
    if let Some(n) = counts.get_mut(i) {
        *n = n.saturating_add(1);
    }
}

impl Counts {
    fn add(&mut self, call: usize, answer: u32, verdict: Verdict) {
        add_one(&mut self.verdicts, verdict as usize);
        if verdict == Verdict::AsTold && call < CALLS {
            add_one(&mut self.answers[call], answer as usize);
        }
    }

    // Each call with the answers that occurred, and how often; then what was found.
    fn show(&self) {
        for (call, answers) in self.answers.iter().enumerate() {
            io::write_all(1, name(call));
            io::write_all(1, b"\n");
            for (answer, n) in answers.iter().enumerate() {
                if *n > 0 {
                    io::print_decimal(1, answer as u64);
                    records::show_count(b": ", *n);
                }
            }
        }
        records::show_verdicts(self.verdicts);
    }
}

// Plays record after record.
fn play_all(room: &mut [u8], lent: &mut Lent, counts: &mut Counts) {
    // Before a record there are `number` others.
    for number in 0..1000000 {
        let Some((call, record)) = records::next(room) else {
            return;
        };
        let verdict = lent.play(call, record);
        let place = usize::from(call);
        counts.add(place, vectors::told_answer(record), verdict);
        if verdict != Verdict::AsTold {
            io::write_all(1, b"record ");
            io::print_decimal(1, number);
            io::write_all(1, b" of ");
            io::write_all(1, name(place));
            io::write_all(1, verdict.meaning());
        }
    }
}

fn main() {
    let mut room = [0u8; 131072];
    let mut mesh = [0u64; 196656];
    let mut block = [0u64; 65552];
    let mut told = [0u64; 65552];
    let mut out = [0u8; 262144];
    let mut counts = Counts {
        answers: [[0; ANSWERS]; CALLS],
        verdicts: [0; records::VERDICTS],
    };
    let mut lent = Lent {
        mesh: &mut mesh,
        block: &mut block,
        told: &mut told,
        out: &mut out,
    };
    play_all(&mut room, &mut lent, &mut counts);
    counts.show();
}
