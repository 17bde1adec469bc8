// The indices of the parts: each names the start of a face, each part ascends, and no face is in two parts.
ghost use Rattle.std.specs.Prelude.{◌≡◌, ℕ, ◌≤◌, ◌<◌, length, get_or, take};
ghost use Rattle.parts.specs.Indices.{above_at, fits_at, FitTold, MarkedBy, indices_fit};

// Whether the index of entry e is above the one before it.
fn above(indices: &[u64], e: usize) -> bool
    requires { e < length indices.now }
    ensures { result ≡ above_at indices.now e }
{
    if e == 0 {
        return true;
    }
    let before = place::entry_index(indices, e - 1);
    let here = place::entry_index(indices, e);
    before.0 < here.0
}

// Whether the index of entry e names a start that is not marked, above the index before it.
fn fits_at(indices: &[u64], e: usize, starts: &[usize], k: usize, marks: &[u8]) -> bool
    requires { (e < length indices.now) × (k ≤ length starts.now) × (k ≤ length marks.now) }
    ensures { result ≡ fits_at indices.now starts.now marks.now k e }
{
    let i = place::entry_index(indices, e);
    if k <= i.0 {
        return false;
    }
    if !above(indices, e) {
        return false;
    }
    let start = place::index_at(starts, i);
    let at = i.0;
    (start.0 == at) & (marks[at] == 0)
}

// Whether those of the first c entries do.
fn fit(indices: &[u64], c: usize, starts: &[usize], k: usize, marks: &[u8]) -> bool
    requires { (c ≤ length indices.now) × (k ≤ length starts.now) × (k ≤ length marks.now) }
    ensures { FitTold indices.now starts.now marks.now k c result }
{
    // Those before e do.
    for e in 0..c {
        if !fits_at(indices, e, starts, k, marks) {
            return false;
        }
    }
    true
}

// Marks the indices of the first c entries.
fn mark(indices: &[u64], c: usize, marks: &mut [u8])
    requires { (c ≤ length indices.now) × ((e : ℕ) → e < c → get_or indices.now e 0 < length marks.old) }
    ensures { MarkedBy (take c indices.now) marks.old marks.new }
{
    // Those before e are marked.
    for e in 0..c {
        let i = place::entry_index(indices, e);
        let at = i.0;
        marks[at] = 1;
    }
}

// 20, of the indices of the three parts. `marks`, which are clear, are lent to work in.
pub fn indices_fit(
    second: &[u64],
    c2: usize,
    third: &[u64],
    c3: usize,
    fourth: &[u64],
    c4: usize,
    starts: &[usize],
    k: usize,
    marks: &mut [u8],
) -> bool
    requires { (c2 ≤ length second.now) × (c3 ≤ length third.now) × (c4 ≤ length fourth.now) × (k ≤ length starts.now) × (k ≤ length marks.old) × ((q : ℕ) → get_or marks.old q 0 ≡ 0) }
    ensures { result ≡ indices_fit starts.now k (take c2 second.now) (take c3 third.now) (take c4 fourth.now) }
{
    if !fit(second, c2, starts, k, marks) {
        return false;
    }
    mark(second, c2, marks);
    if !fit(third, c3, starts, k, marks) {
        return false;
    }
    mark(third, c3, marks);
    fit(fourth, c4, starts, k, marks)
}
