// A block's memory: 32,776 words lent as a slice. Its header, its records of 8 words, and what stands in them.
#![tactic(auto)]

pub mod header; // header.rt: the block header with its limits, and the empty block
pub mod record; // record.rt: places, fields and whole records
pub mod kind; // kind.rt: the kind word of a dart
pub mod lookup; // lookup.rt: the place of a serial
pub mod label; // label.rt: a label as one word, and its parts
pub mod point; // point.rt: points of three floats
