// Plays the vectors of calls on pages on standard input: each is a byte for the call, the length of the record, the record.
// Prints what is not as told, then how many records were as told, and how many not.
#![tactic(auto)]

use vectors::{Host, Verdict, records};

fn name(call: u8) -> &'static [u8] {
    match call {
        16 => b"write_pages",
        17 => b"read_pages",
        18 => b"viewer_write_pages",
        19 => b"viewer_read_pages",
        _ => b"no call",
    }
}

// One record of a call.
fn play(call: u8, record: &[u8], block: &mut [u64], told: &mut [u64], out: &mut [u8]) -> Verdict {
    match call {
        16 => vectors::write_pages_case(Host::Rack, record, block, out),
        17 => vectors::read_pages_case(Host::Rack, record, block, told, out),
        18 => vectors::write_pages_case(Host::Viewer, record, block, out),
        19 => vectors::read_pages_case(Host::Viewer, record, block, told, out),
        _ => Verdict::Unreadable,
    }
}

// Counts a record, and says so if it is not as told.
fn tell(number: u64, call: u8, verdict: Verdict, counts: &mut [u64]) {
    if let Some(n) = counts.get_mut(verdict as usize) {
        *n = n.saturating_add(1);
    }
    if verdict != Verdict::AsTold {
        io::write_all(1, b"record ");
        io::print_decimal(1, number);
        io::write_all(1, b" of ");
        io::write_all(1, name(call));
        io::write_all(1, verdict.meaning());
    }
}

fn main() {
    let mut room = [0u8; 196608];
    let mut block = [0u64; 65552];
    let mut told = [0u64; 65552];
    let mut out = [0u8; 393216];
    let mut counts = [0u64; records::VERDICTS];
    // Before a record there are `number` others.
    for number in 0..1000000 {
        let Some((call, record)) = records::next(&mut room) else {
            break;
        };
        let verdict = play(call, record, &mut block, &mut told, &mut out);
        tell(number, call, verdict, &mut counts);
    }
    records::show_verdicts(counts);
}
