// The critical faces of a sound block, counted by their first darts in message order.
ghost use Rattle.std.specs.Prelude.{◌≡◌, true, ◌+◌, ◌≤◌, length};
ghost use Rattle.model.specs.Lists.{keep, tab};
ghost use Rattle.model.specs.Cells.{faces, start_of};
ghost use Rattle.model.specs.Image.{words_for, column, block_in, holds_block};
ghost use Rattle.cells.specs.Places.{InOrder, Linked};
ghost use Rattle.stats.specs.BlockCounts.{critical_at, critical_faces};

use memory::header::Header;
use memory::record::{Place, Record};
use memory::{kind, record};

// Whether the dart at place p is critical.
pub fn is_critical(block: &[u64], p: Place) -> bool
    requires { words_for (p.0 + 1) ≤ length block.now }
    ensures { result ≡ critical_at block.now p.0 }
{
    kind::is_critical(record::field(block, p, Record::KIND))
}

// How many of the faces of the first n places are critical.
fn count_critical(
    block: &[u64],
    n: usize,
    out: &[usize],
    starts: &[usize],
    darts: usize,
    count: usize,
) -> usize
    requires { Linked block.now n × InOrder (faces (column block.now 1) (tab (λ p. p) n)) out.now starts.now darts count }
    ensures { result ≡ length (keep (λ f. critical_at block.now (start_of f)) (faces (column block.now 1) (tab (λ p. p) n))) }
{
    // Of the faces before f, `critical` are.
    let mut critical = 0;
    for f in 0..count {
        let i = starts[f];
        if is_critical(block, Place(out[i])) {
            critical += 1;
        }
    }
    critical
}

// How many faces of a sound block are critical.
pub fn critical_faces(block: &[u64]) -> usize
    requires { holds_block block.now ≡ true }
    ensures { result ≡ length (critical_faces (block_in block.now).darts) }
{
    let n = block[Header::COUNT] as usize;
    let marks = [1u8; Header::DARTS];
    let mut out = [0usize; Header::DARTS];
    let mut starts = [0usize; Header::DARTS];
    let mut seen = [0u8; Header::DARTS];
    let order = cells::order::scanned_order(
        block,
        n,
        n,
        Place(0),
        &marks,
        &mut out,
        &mut starts,
        &mut seen,
    );
    let darts = order.darts;
    let faces = order.faces;
    count_critical(block, n, &out, &starts, darts, faces)
}
