// A basin on the disk, read and saved.
#![tactic(auto)]

pub mod reading; // reading.rt: what a reader sees
pub mod disk; // disk.rt: the blocks of a basin
