// A transfer that arrives: questions 18 and 19, and its darts as a draft, a block's memory of their own.
#![tactic(auto)]

pub mod serials; // serials.rt: question 18
pub mod order; // order.rt: faces in message order, vertices that can be
pub mod pairs; // pairs.rt: ordered vertex pairs, and the opposite of each dart
pub mod draft; // draft.rt: the draft
pub mod volume; // volume.rt: question 19
