// Requests played one after the other: three numbers for each, from, to and serial.
ghost use Rattle.std.specs.Prelude.{◌≡◌, ◌<◌, ◌/◌, length};
ghost use Rattle.rounds.specs.Played.{outcome_of};
ghost use Rattle.rounds.specs.Requests.{outcome_number, request_at, PlayedOne, PlayedAll};

use crate::Outcome;

// The number of a round that was taken and not finished: no question has it.
pub const UNFINISHED: u64 = 255;

// The number of an outcome: 0 finished, the number of a refusal's question, or UNFINISHED.
pub fn outcome_number(o: Outcome) -> u64
    ensures { result ≡ outcome_number (outcome_of o) }
{
    match o {
        Outcome::Finished => 0,
        Outcome::Unfinished => UNFINISHED,
        Outcome::Refused(q) => u64::from(answers::refusal_number(q)),
    }
}

// Request i of a list; the number of its outcome.
fn play_at(mesh: &mut [u64], viewers: u32, requests: &[u64], i: usize, outbox: &mut [u8]) -> u64
    requires { i < length requests.now / 3 }
    ensures { PlayedOne viewers mesh.old (request_at requests.now i) outbox.old result mesh.new outbox.new }
{
    let at = i * 3;
    let from = requests[at];
    let to = requests[at + 1];
    let serial = requests[at + 2];
    outcome_number(crate::play(mesh, viewers, from, to, serial, outbox))
}

// The requests in order, as many as there is room for outcomes; each is played, whatever became of those before it. The number of
// each outcome goes to the request's place among the outcomes; the others stay.
pub fn play_all(
    mesh: &mut [u64],
    viewers: u32,
    requests: &[u64],
    outcomes: &mut [u64],
    outbox: &mut [u8],
)
    ensures { PlayedAll viewers mesh.old requests.now outcomes.old outbox.old mesh.new outcomes.new outbox.new }
{
    // The requests before i are played, and their outcomes written.
    for i in 0..outcomes.len() {
        if requests.len() / 3 <= i {
            return;
        }
        outcomes[i] = play_at(mesh, viewers, requests, i, outbox);
    }
}
