// Messages read group by group from the first byte to the last: question 16.
#![tactic(auto)]

pub mod faces; // faces.rt: the points and faces of a transfer
pub mod parts; // parts.rt: its parts 2 to 4, and the labels of an update
pub mod message; // message.rt: whole messages
pub mod received; // received.rt: what a slice is
