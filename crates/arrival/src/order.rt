// Faces by least serial, each started at its least serial; vertices that a numbering by first use can have.
ghost use Rattle.std.specs.Prelude.{◌≡◌, ◌&&◌, ℕ, ◌-◌, ◌≤◌, ◌<◌, leb, ltb, length, get_or};
ghost use Rattle.model.specs.Lists.{all, tab};
ghost use Rattle.arrival.specs.Sides.{order_at};

use memory::record::MessageIndex;

// Whether the dart with index i stands in message order.
fn order_at(serial: &[u64], starts: &[usize], i: MessageIndex) -> bool
    requires { (i.0 < length serial.now) × (i.0 < length starts.now) × (get_or starts.now i.0 0 ≤ i.0) × (0 < i.0 → get_or starts.now (i.0 - 1) 0 ≤ i.0) }
    ensures { result ≡ order_at serial.now starts.now i.0 }
{
    let start = place::index_at(starts, i);
    let here = i.0;
    let first = start.0;
    if serial[here] < serial[first] {
        return false;
    }
    if first != here {
        return true;
    }
    if here == 0 {
        return true;
    }
    let last = here - 1;
    let before = place::index_at(starts, MessageIndex(last));
    let past = before.0;
    serial[past] < serial[here]
}

// Whether all of the first k do.
pub fn ordered(serial: &[u64], starts: &[usize], k: usize) -> bool
    requires { (k ≤ length serial.now) × (k ≤ length starts.now) × ((i : ℕ) → i < k → get_or starts.now i 0 ≤ i) }
    ensures { result ≡ all (order_at serial.now starts.now) (tab (λ i. i) k) }
{
    // Those before i do.
    for i in 0..k {
        if !order_at(serial, starts, MessageIndex(i)) {
            return false;
        }
    }
    true
}

// Whether there are at most k vertices, and each of the first k darts has one of them.
pub fn vertices_fit(vertex: &[u64], k: usize, count: u64) -> bool
    requires { k ≤ length vertex.now }
    ensures { result ≡ (leb count k && all (λ i. ltb (get_or vertex.now i 0) count) (tab (λ i. i) k)) }
{
    if (k as u64) < count {
        return false;
    }
    // Those before v have.
    for v in &vertex[..k] {
        if count <= *v {
            return false;
        }
    }
    true
}
