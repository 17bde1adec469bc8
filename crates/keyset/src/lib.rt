// Whether no key stands twice, through a table of slots: a search for a key goes through 64 slots at the most, and gives up there.
#![tactic(auto)]

ghost use Rattle.std.specs.Prelude.{◌≡◌, ℕ, ◌≤◌, ◌<◌, length, get_or, replicate};
ghost use Rattle.model.specs.Values.{room};
ghost use Rattle.keyset.specs.Slots.{low_part, high_part, slot_of, slot_count, Probed, Searched};

// Slots of the table: one for each value of `slot_of`, and 64 more, through which a search from the last may go.
pub const SLOTS: usize = 8256;

// The low and the high 32 bits of a key, each spread over the slots.
fn low_part(x: u64) -> u64
    ensures { (result ≡ low_part x) × (result < 8192) }
{
    x % 4294967296 * 2246822519 / 524288 % 8192
}

fn high_part(x: u64) -> u64
    ensures { (result ≡ high_part x) × (result < 8192) }
{
    x / 4294967296 * 2654435769 / 524288 % 8192
}

// Where the search for a key starts.
fn slot_of(x: u64) -> usize
    ensures { (result ≡ slot_of x) × (result < 8192) }
{
    let a = low_part(x);
    let b = high_part(x);
    ((a + b) % 8192) as usize
}

fn wide(x: u16) -> usize
    ensures { result ≡ x }
{
    x as usize
}

// The first slot from h on that is free or has the key x, or the one past the last of 64.
fn probe(keys: &[u64], table: &[u16; SLOTS], x: u64, h: usize) -> usize
    requires { (h < 8192) × ((t : ℕ) → get_or table.now t 0 ≤ room) × ((t : ℕ) → get_or table.now t 0 ≤ length keys.now) }
    ensures { Probed keys.now table.now x h result }
{
    // The slots from h on and below t have other keys.
    for t in h..h + 64 {
        let v = wide(table[t]);
        if v == 0 {
            return t;
        }
        if keys[v - 1] == x {
            return t;
        }
    }
    h + 64
}

// What a search through the slots finds: no two keys are the same, two are, or it gave up.
#[derive(Clone, Copy)]
pub enum Search {
    Distinct,
    Repeated,
    GaveUp,
}

// Searches for each of the first n keys, and puts it into a slot.
pub fn search_slots(keys: &[u64], n: usize, table: &mut [u16; SLOTS]) -> Search
    requires { (n ≤ length keys.now) × (n ≤ room) × (table.old ≡ replicate slot_count 0) }
    ensures { Searched keys.now n result }
{
    // The keys below i differ, and each is in a slot.
    for i in 0..n {
        let x = keys[i];
        let h = slot_of(x);
        let s = probe(keys, table, x, h);
        if s == h + 64 {
            return Search::GaveUp;
        }
        if table[s] != 0 {
            return Search::Repeated;
        }
        table[s] = (i + 1) as u16;
    }
    Search::Distinct
}
