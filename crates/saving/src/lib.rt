// The save of a basin: its steps, the commit, whether files are those that were committed, and what is written under which name.
#![tactic(auto)]

pub mod plan; // plan.rt: the steps of a save, and of what comes after one that was cut short
pub mod commit; // commit.rt: a file's length and digest, and the commit that has those of all files
pub mod look; // look.rt: whether the files are those that were committed
pub mod prepare; // prepare.rt: what a step hands to the disk: names and bytes
