// What a block has, counted: darts, volumes, pieces, critical faces; and its counter.
#![tactic(auto)]

ghost use Rattle.std.specs.Prelude.{◌≡◌};
ghost use Rattle.stats.specs.BlockCounts.{block_counts};

use memory::header::Header;
use oracle::Oracle;

pub mod counts; // counts.rt: what is told of a block
pub mod critical; // critical.rt: its critical faces, counted
pub mod groups; // groups.rt: its darts in groups, cells or pieces
pub mod pieces; // pieces.rt: its pieces, counted
pub mod rows; // rows.rt: the figures of each of its cells

pub use counts::BlockCounts;

// The counts of a block; all zero where the memory is no sound block's image.
pub fn count_block(block: &[u64]) -> BlockCounts
    ensures { result ≡ block_counts block.now }
{
    if !sound::is_sound(block) {
        return BlockCounts {
            darts: 0,
            volumes: 0,
            pieces: 0,
            critical: 0,
            counter: 0,
        };
    }
    let volumes = selection::count(block, Oracle::Every);
    let joined = pieces::pieces(block);
    let faces = critical::critical_faces(block);
    BlockCounts {
        darts: block[Header::COUNT],
        volumes: volumes as u64,
        pieces: joined as u64,
        critical: faces as u64,
        counter: block[Header::COUNTER],
    }
}
