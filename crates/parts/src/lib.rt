// The parts of a transfer that arrives: question 20, and the third link of each of its darts.
#![tactic(auto)]

pub mod entries; // entries.rt: entries of the parts, read into arrays
pub mod indices; // indices.rt: face starts, ascending, no face in two parts
pub mod numbers; // numbers.rt: part 3 numbers, part 4 blocks
pub mod faces; // faces.rt: the third links of the faces of parts 3 and 4
pub mod fresh; // fresh.rt: the labels of parts 3 and 4 are new
pub mod critical; // critical.rt: question 20 but for the faces of part 2
pub mod locate; // locate.rt: where the labels of part 2 stand in the block
pub mod meet; // meet.rt: whether points of a new dart and of the dart that it meets agree
pub mod meets; // meets.rt: the faces of part 2 beside the faces that they meet
