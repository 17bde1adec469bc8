// The moves of a balance, as lines that can be played.
use system::say;

// The first n requests of a list, three words each, a line for each.
pub fn show(requests: &[u64], n: usize) {
    for request in requests.chunks_exact(3).take(n) {
        if let [from, to, serial] = request {
            say::number(*from);
            say::text(b" ");
            say::number(*to);
            say::text(b" ");
            say::number(*serial);
            say::text(b"\n");
        }
    }
}
