// The bytes of a transfer and of the updates, from the arrays of a volume that leaves: how many they are, and put into the outbox.
#![tactic(auto)]

pub mod first; // first.rt: the points and the faces
pub mod parts; // parts.rt: parts 2, 3 and 4
pub mod transfer; // transfer.rt: the whole transfer
pub mod labels; // labels.rt: the least labels of the faces that each block shares, counted
pub mod update; // update.rt: one update
pub mod updates; // updates.rt: an update for each relative
