// The numbers of part 3 are consecutive; the blocks of part 4 are neither end.
ghost use Rattle.std.specs.Prelude.{◌≡◌, suc, ◌-◌, ◌≤◌, ◌<◌, eqb, length};
ghost use Rattle.model.specs.Lists.{all, tab};
ghost use Rattle.model.specs.Values.{message_darts};
ghost use Rattle.parts.specs.Numbers.{follows_at, neither_at};

// Whether b comes after a.
fn follows(a: u64, b: u64) -> bool
    ensures { result ≡ eqb (suc a) b }
{
    if b <= a {
        return false;
    }
    b - a == 1
}

// Whether each of the first c numbers but the first follows the one before it.
pub fn consecutive(numbers: &[u64], c: usize) -> bool
    requires { (c ≤ length numbers.now) × (c ≤ message_darts) }
    ensures { result ≡ all (follows_at numbers.now) (tab (λ e. e) (c - 1)) }
{
    // Those up to e do.
    for e in 0..c.saturating_sub(1) {
        if !follows(numbers[e], numbers[e + 1]) {
            return false;
        }
    }
    true
}

// Whether the first c blocks are neither end.
pub fn neither(others: &[u64], c: usize, from: u64, to: u64) -> bool
    requires { c ≤ length others.now }
    ensures { result ≡ all (neither_at others.now from to) (tab (λ e. e) c) }
{
    // Those before `other` are.
    let mut ok = true;
    for other in &others[..c] {
        ok = ok & ((*other != from) & (*other != to));
    }
    ok
}
