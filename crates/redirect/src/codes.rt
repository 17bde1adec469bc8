// The labels of an update as codes, in order, and the index of a code among them.
ghost use Rattle.std.specs.Prelude.{◌≡◌, ◌≤◌, ◌<◌, length, get_or, take};
ghost use Rattle.laws.specs.Order.{Ascending};
ghost use Rattle.model.specs.Lists.{distinct, sorted, tab, index_of};
ghost use Rattle.model.specs.Values.{room};
ghost use Rattle.redirect.specs.ByPlaces.{CodesRead};

use groups::Read;

// The codes of so many labels that stand from a place on.
pub fn read_codes(s: &[u8], at: usize, count: usize, codes: &mut [u64])
    requires { (at ≤ length s.now) × (count ≤ room) × (count ≤ length codes.old) }
    ensures { CodesRead s.now at count codes.new }
{
    // The codes below i are read.
    let mut p = at;
    for i in 0..count {
        let Some((code, next)) = reader::read_label(s, p) else {
            return;
        };
        codes[i] = code;
        p = next;
    }
}

// Sorts the first c codes; whether no two are the same.
pub fn order(codes: &mut [u64], scratch: &mut [u64], c: usize) -> bool
    requires { (c ≤ room) × (c ≤ length codes.old) × (c ≤ length scratch.old) }
    ensures { (result ≡ distinct (take c codes.old)) × (take c codes.new ≡ sorted (take c codes.old)) }
{
    sort::distinct(&mut codes[..c], &mut scratch[..c])
}

// The index of x among the first c codes, which ascend; c where it is not there.
pub fn index_of(codes: &[u64], c: usize, x: u64) -> usize
    requires { (c ≤ room) × (c ≤ length codes.now) × Ascending c (λ k. get_or codes.now k 0) }
    ensures { result ≡ index_of x (tab (λ k. get_or codes.now k 0) c) }
{
    if c == 0 {
        return 0;
    }
    // The index of x, if it is there, is one of `left` from `low` on.
    let mut low = 0;
    let mut left = c;
    while 1 < left {
        let half = left / 2;
        let mid = low + half;
        if codes[mid] <= x {
            low = mid;
        }
        left -= half;
    }
    if codes[low] == x {
        return low;
    }
    c
}
