// The pieces of a sound block, counted.
ghost use Rattle.std.specs.Prelude.{◌≡◌, true, length};
ghost use Rattle.model.specs.Image.{block_in, holds_block};
ghost use Rattle.stats.specs.Pieces.{piece_starts};

use crate::groups;
use memory::header::Header;

// Into how many pieces the cells of a sound block fall.
pub fn pieces(block: &[u64]) -> usize
    requires { holds_block block.now ≡ true }
    ensures { result ≡ length (piece_starts (block_in block.now).darts) }
{
    let mut numbers = [0usize; Header::DARTS];
    let mut firsts = [0usize; Header::DARTS];
    let mut order = [0usize; Header::DARTS];
    groups::number(block, true, &mut numbers, &mut firsts, &mut order)
}
