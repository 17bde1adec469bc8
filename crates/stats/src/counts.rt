// What is told of a block.

// How many darts, volumes, pieces and critical faces it has, and its counter.
#[derive(Clone, Copy)]
pub struct BlockCounts {
    pub darts: u64,
    pub volumes: u64,
    pub pieces: u64,
    pub critical: u64,
    pub counter: u64,
}
